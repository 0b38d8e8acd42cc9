//! The blocks of metadata of a disk as bytes, both ways: superblock, bitmap, directory, inodes, and the descriptors
//! and commit blocks of the journal.
//!
//! The definitions say for each kind of block which values there are, and which 4,096 bytes spell a value
//! (`DiskLayout` of `split_types`). Each writer fills a block with that spelling. Each reader is exact: what it
//! answers is a value of which the block is the spelling, and where the block spells a value it answers that one; so
//! it answers none exactly where the block spells nothing (`IsReading`). Readers that make lists may find no memory.
//!
//! [`put_inode`] and [`put_entry`] write an inode and an entry of the directory from parts, for what keeps files in
//! memory, and [`BlockBits`] is a bitmap of which one bit changes at a time.
//!
//! `small_fs` stands on this crate, and the core, whose disk starts with these blocks. The readers, and the blocks of the
//! journal, are for recovery after a crash; the program doesn't use them yet.
#![tactic(auto)]

mod bitmap;
mod bits;
mod bytes;
mod directory;
mod inode;
mod journal;
mod superblock;

pub use bitmap::{BitImage, read_bitmap, write_bitmap};
pub use bits::BlockBits;
pub use directory::{DirEntry, DirImage, put_entry, read_dir, write_dir};
pub use inode::{InodeImage, put_inode, read_inode, write_inode};
pub use journal::{Desc, read_commit, read_desc, write_commit, write_desc};
pub use superblock::{SuperImage, read_super, write_super};
