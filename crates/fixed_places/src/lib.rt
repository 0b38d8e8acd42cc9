//! Structures over a fixed number of places, numbered from 0, that take no memory once they are made.
//!
//! A [`Least`] keeps at most one key in each place and finds a place of the least key. A [`Table`] keeps
//! at most one key in each place, no key twice, and finds the place of a key. [`Groups`] keep at most one
//! key in each place, a key in any number of them, and give the places of a key one by one. [`Chains`] lead
//! from the first of some places to the next, rising. Contracts see each as the list of what the places
//! hold, `None` where a place is empty, and say of each change which place it changes. None of them ever
//! refuses a change: only `new` and `wider` ask for memory.
//!
//! Whatever keeps things in numbered places, as a cache does its pages, stands on this crate.
#![tactic(auto)]

mod chains;
mod free_places;
mod groups;
mod key;
mod least;
mod recency;
mod table;

pub use chains::Chains;
pub use free_places::FreePlaces;
pub use groups::Groups;
pub use key::Key;
pub use least::Least;
pub use recency::Recency;
pub use table::Table;
