//! What writeback serves next: a run of dirty pages of one file.
//!
//! A run begins at the first page, by serial and page, that is dirty and not busy. It goes on, to at most 16 pages, as
//! long as the pages behind are dirty and not busy too, and as long as one request can write them: either no page of
//! the run has a block yet, so that all get theirs together, or their blocks stand in a row.
//!
//! The contract of [`next_service`] says this of any cache and any files, with no history in it: nothing is answered
//! exactly where no page is dirty and not busy, and else the one run that begins there and can't be longer. It asks
//! that the file of each such page is live. It is worded as `split_types` words the next run of a history, so that it
//! can be read off where a cache and files are known to stand for one.
//!
//! The cache is asked once for its first dirty page, which it finds in a number of steps that grows with the logarithm
//! of the number of its places, and then for at most 15 pages more, each by its key. Nothing here takes memory or can
//! fail.
//!
//! The core asks it what writeback serves.
#![tactic(auto)]

mod next;
mod run;

pub use next::next_service;
