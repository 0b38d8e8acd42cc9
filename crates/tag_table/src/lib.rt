//! A store of tags that holds equal sets once.
//!
//! A [`Table`] keeps a row for each set that is in use, with the number of its uses. A tag is the number of
//! its set's row: whoever asks for a set that has a row gets one more use of it, whether as a single process,
//! as a join or again, and the last release of a set frees its row. The row of a set is found by the set's
//! hash.
//!
//! The contract is the one of every `TagStore`, to the word. Beyond it a table says that two numbers in use
//! never have the same members, and `sets` is how many numbers are in use, and so how many different sets.
//!
//! The core keeps the tags of its pages in one table.
#![tactic(auto)]

mod row;
mod rows;
mod set_key;
mod table;

pub use table::{Table, TableTag};
