//! Sets of processes, how a cost is split over them, and stores of such sets.
//!
//! A `Causes` is the set of processes for which something was done. Contracts see it as the rising
//! list of their numbers, and say of each call which list comes out. It takes no memory of its own
//! beyond its four words; only a list of its processes asks for memory.
//!
//! A cost is split over a set evenly, and the first ranks bear what is left over: the contracts say
//! that each share is the one of the definitions, and that all shares add up to the cost. A cost of
//! several blocks may first be split over parts, each with a set of its own: `bill_of_parts` is what one
//! process bears of it, and the bills of all processes add up to the cost.
//!
//! A `TagStore` keeps sets behind tags, so that what holds many sets can leave it to the store how
//! they lie in memory. The contract says which uses and which members each call leaves, in the words
//! that also a crate states its own calls in where it holds tags and is lent the store; the laws that
//! such a crate needs stand in `proofs/TagLaws.antt`. `PlainTags` keeps one place for each use.
//!
//! Every crate that blames, tags or bills stands on this one.
#![tactic(auto)]

mod causes;
mod members;
mod plain;
mod shares;
mod tags;

pub use causes::Causes;
pub use members::Members;
pub use plain::{PlainTag, PlainTags};
pub use shares::{bill_of_parts, bills_add_up, share, share_of, shares_add_up};
pub use tags::TagStore;
