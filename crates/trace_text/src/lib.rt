//! The texts of traces and of single events, both ways.
//!
//! A trace is a workload and the events of its history, from the oldest on, a line each. [`print_trace`] and
//! [`put_trace`] print one, and [`print_event`] and [`put_event`] one line of it: exactly the text that the definitions
//! give.
//!
//! [`read_trace`] answers the trace that a text begins with, and where it ends (`SpellsTrace`), or which line of the
//! text is refused first and why (`RefusesTrace`). Both speak of the lines whose text this is: an event has one line,
//! by which it is read and printed, and nothing in the definitions reads. Want of memory may come in place of either.
//! What makes such reading exact are laws, on functions that do nothing: a text begins with one trace at most
//! ([`texts_begin_with_one_trace`]), it has one refusal at most ([`texts_have_one_refusal`]), and never both
//! ([`traces_are_not_refused`]); so its answer is the one that is due ([`reading_is_exact`]). A trace that was printed
//! is read as the workload and the history that it was printed of, whatever follows it
//! ([`printed_traces_are_read`]), and each legal history has such a trace ([`legal_traces_are_read`]). A line is read
//! in place, and each number once.
//!
//! The top call stands on this crate, and whatever else shows events.
#![tactic(auto)]

mod event;
mod event_line;
mod first_line;
mod laws;
mod made;
mod numbers;
mod reading;
mod row;
mod trace;

pub use event::{print_event, put_event};
pub use laws::{
    legal_traces_are_read, printed_traces_are_read, reading_is_exact, texts_begin_with_one_trace,
    texts_have_one_refusal, traces_are_not_refused,
};
pub use reading::{TraceParts, read_trace};
pub use trace::{print_trace, put_trace};
