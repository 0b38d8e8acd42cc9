//! What the stack's two proxies are doing, and for whom.
//!
//! Writeback and commit work for others: what they dirty and add is done for the processes that
//! dirtied what they serve. Each is a state that has the causes of its service as long as there is
//! one, in whatever form its owner keeps causes, as a tag of a store. The contracts say which causes
//! these are: those that were given when the service began, until it ends, and none in `Idle`.
//!
//! The journal stands on this crate, and the core will.
#![tactic(auto)]

mod commit;
mod writeback;

pub use commit::Commit;
pub use writeback::Writeback;
