//! A small file system in memory: the files that live, each in one of 256 slots, and the blocks of metadata that they
//! give.
//!
//! Contracts see an [`Fs`] as the file of each slot (its serial, name, size, disk size and the block of each page), the
//! serial of the next file, and the block where data begins. They say of each change which slot it changes, and that
//! every other slot is as before. A file is made in the least free slot with the least serial never used. The block of
//! a buffer of metadata is at any time the spelling of the files as they are then.
//!
//! A name and a serial are found in a number of steps that is constant on average. Only `new`, `make` and `room` ask
//! for memory; a file that is dropped hands out its blocks in the memory of its own map, of which it walks what lies
//! up to the last page with a block.
//!
//! It is for a machine whose calls make, write and drop files, and whose writeback and journal write metadata: `map_run`
//! takes the run of blocks to which pages were written, `image` gives the blocks that a transaction logs. The core keeps
//! its files in one; `client_calls` and `writeback` look into it.
#![tactic(auto)]

mod file;
mod fs;
mod image;
mod keys;
mod mapping;
mod maps;
mod uses;

pub use fs::{Fs, MakeFault};
