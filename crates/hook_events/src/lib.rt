//! The history of the stack: a list of events that only grows, and reads of it that are counted.
//!
//! Contracts see a [`History`] as its events, the newest first, and as the number of events that it has
//! room for. Inside, an event is packed into sixteen bytes where its numbers are small, and kept whole where
//! they aren't, which no contract shows. A read of the event at a place counts as one step of a [`Steps`],
//! so that a caller's contract can say how often it looks back. The steps take no memory and no time.
//!
//! Whatever makes, walks through or prints a history stands on this crate.
#![tactic(auto)]

mod history;
mod packed;
mod steps;

pub use history::History;
pub use steps::Steps;
