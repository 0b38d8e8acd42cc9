//! What every scheduler is, and the one that sends requests as they come.
//!
//! A scheduler admits the calls of processes and picks the next request to send. It decides by what it noted of
//! each event and by a [`SchedView`], a few facts of the stack; it never sees the history. The contract of a
//! [`SplitSched`] says by which functions it admits and picks, and how an event changes it. [`FifoSched`] admits
//! each call, and picks the request of the least id among the oldest write, where that may be sent, and all reads.
//!
//! The other schedulers and the core stand on this crate.
#![tactic(auto)]

mod choices;
mod fifo;
mod sched;
mod view;

pub use choices::{earlier, eligible_write, oldest_read, oldest_write};
pub use fifo::FifoSched;
pub use sched::SplitSched;
pub use view::SchedView;
