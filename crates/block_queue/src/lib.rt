//! The queue of the disk: the requests that wait, by id, and those in flight, in the order of their
//! sends.
//!
//! Contracts see a [`Queue`] as these two lists. A request comes in at the end by `add`, goes over to
//! those in flight by `send`, with the cost that the send gave it, and leaves by `done`. Each call
//! moves one request and leaves the others; memory is asked for by `add` alone, or by `room` before
//! it.
//!
//! The core keeps its requests in a queue. `sched_api` stands on this crate too: a scheduler picks from the
//! requests that wait which is sent next.
#![tactic(auto)]

mod queue;
mod waiting;

pub use queue::Queue;
