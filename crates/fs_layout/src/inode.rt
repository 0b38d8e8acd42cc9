//! Blocks 6 to 261 of the disk: the inode of each slot.
ghost use Rattle.std.specs.Prelude.{◌≡◌, ◌↔◌, ◌≤◌, ◌<◌, ◌+◌, ◌*◌, ◌^◌, length, take, drop, IsTrue, IfOk, IfSome, All};
ghost use Rattle.split_types.specs.DiskLayout.{numbers, file_inode, zero_block, IsInode, IsPointer};
ghost use Rattle.fs_layout.specs.Fields.{number_at};
ghost use Rattle.fs_layout.specs.Reading.{IsReading};
ghost use Rattle.fs_layout.specs.Inodes.{inode_of, IsInodeOf, owner_number, inode_spelling, IsInodeImage};

use crate::bytes::{BLOCK, clear, is_zero, number_at, numbers_at, put_number, put_numbers};
use split_types::{List, Serial};
use std::alloc::{AllocError, Global};

/// The most bytes that a file can have.
const MOST_BYTES: u32 = 4_128_768;

/// How many pages a file can have.
const PAGES: usize = 1008;

/// An inode: the file that it belongs to, its size in bytes, and the block of each page, 0 where a page has none. The
/// inode of a free slot has no owner, size 0 and no blocks.
#[derive(Debug, Drop)]
pub struct InodeImage {
    pub owner: Option<Serial>,
    pub size: u32,
    pub blocks: List<u32>,
}

/// Writes the inode of a file from its parts, or that of a free slot, which needs none.
pub fn put_inode(owner: Option<Serial>, size: u32, blocks: &[u32], out: &mut [u8])
    requires block { length out.old ≡ 4096 }
    requires pages { IfSome owner (λ serial. length blocks.now ≡ 1008) }
    requires serial { IfSome owner (λ serial. serial.0 + 1 < 2 ^ 32) }
    ensures { out.new ≡ inode_of owner size blocks.now }
{
    clear(out);
    match owner {
        None => {}
        Some(serial) => {
            put_number(out, 0, serial.0 + 1);
            put_number(out, 4, size);
            put_numbers(out, 64, blocks);
        }
    }
}

/// Writes an inode.
pub fn write_inode(i: &InodeImage, out: &mut [u8])
    requires block { length out.old ≡ 4096 }
    requires value { IsInodeImage 32768 i.now }
    ensures { out.new ≡ inode_spelling i.now }
{
    put_inode(i.owner, i.size, i.blocks.as_slice(), out);
}

/// The owner that a number names: it is one more than the serial, and 0 for none.
fn owner_of(number: u32) -> Option<Serial>
    ensures number { owner_number result ≡ number }
    ensures fits { IfSome result (λ serial. serial.0 + 1 < 2 ^ 32) }
{
    number.checked_sub(1).map(Serial)
}

/// Whether each is a block of data of the disk, or 0.
fn are_pointers(blocks: &[u32], device: u32) -> bool
    ensures { IsTrue result ↔ All (IsPointer device) blocks.now }
{
    blocks
        .iter()
        .all(|block| *block == 0 || 526 <= *block && *block < device)
}

/// Whether the inode of a file may have this size and these blocks.
fn is_inode(device: u32, serial: Serial, size: u32, blocks: &[u32]) -> bool
    requires pages { length blocks.now ≡ 1008 }
    requires serial { serial.0 + 1 < 2 ^ 32 }
    ensures { IsTrue result ↔ IsInode device serial size blocks.now }
{
    size <= MOST_BYTES && are_pointers(blocks, device)
}

/// Whether the block is the inode of these numbers, which stand at their places in it.
fn is_file_inode(b: &[u8], serial: Serial, size: u32, blocks: &[u32]) -> bool
    requires block { length b.now ≡ 4096 }
    requires serial { serial.0 + 1 ≡ number_at b.now 0 }
    requires size { size ≡ number_at b.now 4 }
    requires blocks { take 4032 (drop 64 b.now) ≡ numbers blocks.now }
    ensures { IsTrue result ↔ (b.now ≡ file_inode serial size blocks.now) }
{
    is_zero(b, 8, 64)
}

/// Whether a file may have these numbers, and the block is its inode.
fn is_owned(b: &[u8], device: u32, serial: Serial, size: u32, blocks: &[u32]) -> bool
    requires block { length b.now ≡ 4096 }
    requires serial { serial.0 + 1 ≡ number_at b.now 0 }
    requires fits { serial.0 + 1 < 2 ^ 32 }
    requires size { size ≡ number_at b.now 4 }
    requires pages { length blocks.now ≡ 1008 }
    requires blocks { take 4032 (drop 64 b.now) ≡ numbers blocks.now }
    ensures { IsTrue result ↔ (IsInode device serial size blocks.now × (b.now ≡ file_inode serial size blocks.now)) }
{
    is_inode(device, serial, size, blocks) && is_file_inode(b, serial, size, blocks)
}

/// Whether a slot may have these numbers, and the block is its inode.
fn is_spelled(b: &[u8], device: u32, owner: Option<Serial>, size: u32, blocks: &[u32]) -> bool
    requires block { length b.now ≡ 4096 }
    requires owner { owner_number owner ≡ number_at b.now 0 }
    requires fits { IfSome owner (λ serial. serial.0 + 1 < 2 ^ 32) }
    requires size { size ≡ number_at b.now 4 }
    requires pages { length blocks.now ≡ 1008 }
    requires blocks { take 4032 (drop 64 b.now) ≡ numbers blocks.now }
    ensures { IsTrue result ↔ (IsInodeOf device owner size blocks.now × (b.now ≡ inode_of owner size blocks.now)) }
{
    match owner {
        None => is_zero(b, 0, BLOCK),
        Some(serial) => is_owned(b, device, serial, size, blocks),
    }
}

/// What an inode says, or none where the block is no inode of a disk of `device` blocks.
pub fn read_inode(alloc: Global, b: &[u8], device: u32) -> Result<Option<InodeImage>, AllocError>
    requires least { 1024 ≤ device }
    requires most { device ≤ 32768 }
    ensures { IfOk result (λ read. IsReading (IsInodeImage device) inode_spelling b.now read) }
{
    if b.len() != BLOCK {
        return Ok(None);
    }
    let owner = owner_of(number_at(b, 0));
    let size = number_at(b, 4);
    let blocks = numbers_at(alloc, b, 64, PAGES)?;
    let is_read = is_spelled(b, device, owner, size, &blocks);
    let blocks = List::from_vec(blocks);
    Ok(is_read.then_some(InodeImage {
        owner,
        size,
        blocks,
    }))
}
