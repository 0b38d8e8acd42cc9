//! The journal: which buffers of metadata are marked, and how the transactions that take them come to the disk.
//!
//! A buffer of metadata that is changed is marked, with the processes for which that was done. A seal takes all marked
//! buffers into a transaction: the images of their blocks as they are then, and whom they were changed for. The
//! transaction's log goes to its slot of the journal, then its commit block. The transactions that are in the journal
//! at one time make up a round. When its slots are full, or all calls have returned and nothing is marked, the round's
//! buffers go to their home blocks, each once, with its newest image; then the transactions are cleared from the
//! journal, one after another. With one slot, each transaction is a round of its own.
//!
//! The contracts say of each call what the journal is before and after it, with the members of its tags in the store
//! that it was lent (`seen` of `Journaled`): which requests come next, what they carry and whose they are. Each kind of
//! request is added only after the kind before it is done. What a tag has is fixed by the seal; after it only unions
//! over a round are made. All memory is taken by `new`, so that only the store can want memory.
//!
//! The core will stand on this crate.
#![tactic(auto)]

mod content;
mod images;
mod journal;
mod places;
mod round;
mod tagging;
mod work;

pub use journal::Journal;
pub use work::Due;
