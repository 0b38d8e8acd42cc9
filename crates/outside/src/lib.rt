//! The outside: where bytes come from, where they go to, and what may happen between two turns.
//!
//! A [`Source`] is read and a [`Sink`] is written. Their contracts say which bytes each call moves,
//! where the type tells its bytes, and that a call fails only where a count of faults rose. A
//! [`Gate`] is called before a turn of a worker and promises nothing. [`read_all`] reads a source
//! to its end or to one byte past a limit, and gives all that it took where it came to the end.
//! [`write_all`] hands all bytes to a sink, or a front of them where the sink fails.
//!
//! Three pairs meet these contracts. [`StreamSource`] and [`StreamSink`] are over real streams:
//! they count each error, and tell no bytes. [`MemSource`] and [`MemSink`] are over memory and
//! fail at the calls that they are given. [`StillSource`] never fails, and [`StillSink`] only
//! where it is full.
//!
//! What reads an input or writes an output stands on this crate, which stands on std alone.
#![tactic(auto)]

mod gate;
mod memory;
mod sink;
mod source;
mod still;
mod stream;
mod whole;

pub use gate::{FreeGate, Gate};
pub use memory::{MemSink, MemSource};
pub use sink::Sink;
pub use source::{Failed, Source};
pub use still::{StillSink, StillSource};
pub use stream::{StreamSink, StreamSource};
pub use whole::{InputFault, read_all, write_all};
