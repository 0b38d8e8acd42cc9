//! The top call of splitio: from words, an input and an output to a status.
//!
//! [`plain`] does what its words ask for. `replay` reads the whole input as the text of a workload, lets the
//! stack of that workload run until nothing is left to do, and writes the trace of its events and the
//! report of who pays for what. `gen N` reads nothing, and writes the workload that is made from a number.
//!
//! Its contract says which answer comes when, and which bytes were read and written then: the text of a
//! run is the one that the definitions of `split_types` give for the drained history of the workload that
//! the input spells, and every other input is answered by one line that names its first wrong line and
//! what is wrong with it.
//!
//! Workloads are read and printed by `workload_reader` and `trace_text`, the events come from
//! `split_core`, the report's text from `billing_report`, and input and output from `outside`. The
//! program `splitio` stands on this crate.
#![tactic(auto)]

mod answer;
mod call;
mod command;
mod made;
mod refusal;

pub use call::{Status, plain};
