//! Which blocks of the disk are free, and which will be.
//!
//! Blocks are chosen only when pages are written out. Until then a put promises itself a free block, so
//! that a run of as many blocks as pages are promised is always there: `take_run` refuses nothing. The
//! blocks of a dropped file aren't free at once: each waits for the transaction that records the drop, so
//! that no new file's data is written over them before that is on the disk.
//!
//! Contracts see an [`Alloc`] as what each block is used for (taken, free, or waiting for a transaction)
//! and as how many free blocks are promised. They say which run is taken, and of each change which blocks
//! stay as they were. All memory is taken by `new`; no other call asks for any.
//!
//! It is for whatever maps the pages of files to blocks. The core takes its blocks from one, and `client_calls` asks it
//! whether one is left.
#![tactic(auto)]

mod alloc;
mod block_set;
mod txn_marks;

pub use alloc::Alloc;
