//! A simulated disk: what each block holds, the writes in flight, and what a crash leaves.
//!
//! Contracts see a [`Disk`] as the bytes of each block, by number, and the writes in flight. A write is
//! started with the bytes of all its blocks, which it takes over, or with a byte for each block, that fills it.
//! Its blocks hold what it brings from the moment in which it is finished well; a write that is finished badly
//! changes no block. A read sees no write in flight. A crash gives each block in flight one of three fates, and
//! leaves all others.
//!
//! The disk is sparse. For each byte there is at most one block in memory, with this byte at each place, that
//! blocks of the disk share. Blocks that nothing changed share that of zeros, and blocks that `fill` or a write of
//! `start_filled` changed last share that of their byte; `fill_of` tells this byte. A write of `start` keeps its own
//! bytes, those of its blocks of one byte too, and they stay in memory as long as a block of the disk still holds
//! its part of them. What a crash brings to a block counts as a write of this block alone. Memory for a write is
//! asked for by `start` and `start_filled`, or by `room` before them, and never by `finish`, which makes the shared
//! blocks that are missing: for these `room` keeps memory ready, 16 blocks for each write that is promised or in
//! flight, and no more than there are bytes whose block isn't made yet.
//!
//! The core sends its writes to a disk, and loads pages from it. What a crash leaves is for recovery.
#![tactic(auto)]

mod blocks;
mod disk;
mod fills;
mod load;
mod runs;
mod shared;
mod write;

pub use disk::{Disk, Fate};
pub use fills::Fills;
