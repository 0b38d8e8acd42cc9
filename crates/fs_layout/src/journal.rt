//! The journal: descriptors and commit blocks.
ghost use Rattle.std.specs.Prelude.{◌≡◌, ◌↔◌, ◌≤◌, ◌<◌, ◌+◌, ◌*◌, length, take, drop, IsTrue, IfOk, All};
ghost use Rattle.std.specs.List.Sorted.{IsStrictlyIncreasing};
ghost use Rattle.split_types.specs.DiskLayout.{descriptor_block, commit_block, IsDescriptor, IsCommit, numbers};
ghost use Rattle.fs_layout.specs.Fields.{number_at};
ghost use Rattle.fs_layout.specs.Reading.{IsReading};
ghost use Rattle.fs_layout.specs.Journal.{commit_spelling, IsCommitImage, descriptor_spelling, IsDescriptorImage};

use crate::bytes::{BLOCK, clear, is_framed, number_at, numbers_at, put, put_number, put_numbers};
use split_types::{List, Txn};
use std::alloc::{AllocError, Global};

/// The most home blocks that one transaction can have.
const MOST_HOMES: u32 = 261;

/// A descriptor: the transaction, and the home blocks of its images, in their order.
#[derive(Debug, Drop)]
pub struct Desc {
    pub t: Txn,
    pub homes: List<u32>,
}

/// Writes the commit block of a transaction.
pub fn write_commit(t: Txn, out: &mut [u8])
    requires block { length out.old ≡ 4096 }
    requires value { IsCommit t.0 }
    ensures { out.new ≡ commit_block t.0 }
{
    clear(out);
    put(out, 0, b"SPLITJC1");
    put_number(out, 8, t.0);
}

/// Whether the block is the commit block of this number, which stands at its place in it.
fn is_commit_block(b: &[u8], t: u32) -> bool
    requires block { length b.now ≡ 4096 }
    requires number { t ≡ number_at b.now 8 }
    ensures { IsTrue result ↔ (b.now ≡ commit_block t) }
{
    is_framed(b, b"SPLITJC1", 12, BLOCK)
}

/// Whether it is the number of a transaction, of which the block is the commit block.
fn is_committed(b: &[u8], t: u32) -> bool
    requires block { length b.now ≡ 4096 }
    requires number { t ≡ number_at b.now 8 }
    ensures { IsTrue result ↔ (IsCommit t × (b.now ≡ commit_block t)) }
{
    1 <= t && is_commit_block(b, t)
}

/// The transaction of a commit block, or none where the block is no commit block.
pub fn read_commit(b: &[u8]) -> Option<Txn>
    ensures { IsReading IsCommitImage commit_spelling b.now result }
{
    if b.len() != BLOCK {
        return None;
    }
    let t = number_at(b, 8);
    is_committed(b, t).then_some(Txn(t))
}

/// Writes a descriptor.
pub fn write_desc(d: &Desc, out: &mut [u8])
    requires block { length out.old ≡ 4096 }
    requires value { IsDescriptorImage d.now }
    ensures { out.new ≡ descriptor_spelling d.now }
{
    let homes = d.homes.as_slice();
    clear(out);
    put(out, 0, b"SPLITJD1");
    put_number(out, 8, d.t.0);
    put_number(out, 12, homes.len() as u32);
    put_numbers(out, 16, homes);
}

/// Whether the numbers rise.
fn are_rising(homes: &[u32]) -> bool
    ensures { IsTrue result ↔ IsStrictlyIncreasing homes.now }
{
    homes.windows(2).all(|pair| pair[0] < pair[1])
}

/// Whether the numbers are those of blocks that have a home outside the journal.
fn are_homes(homes: &[u32]) -> bool
    ensures { IsTrue result ↔ All (λ home. (1 ≤ home) × (home ≤ 261)) homes.now }
{
    homes.iter().all(|home| 1 <= *home && *home <= MOST_HOMES)
}

/// Whether a transaction may have these home blocks.
fn is_descriptor(t: u32, homes: &[u32]) -> bool
    requires { length homes.now ≤ 261 }
    ensures { IsTrue result ↔ IsDescriptor t homes.now }
{
    1 <= t && !homes.is_empty() && are_rising(homes) && are_homes(homes)
}

/// Whether the block is the descriptor of these numbers, which stand at their places in it.
fn is_descriptor_block(b: &[u8], t: u32, homes: &[u32]) -> bool
    requires block { length b.now ≡ 4096 }
    requires few { length homes.now ≤ 261 }
    requires number { t ≡ number_at b.now 8 }
    requires count { length homes.now ≡ number_at b.now 12 }
    requires homes { take (4 * length homes.now) (drop 16 b.now) ≡ numbers homes.now }
    ensures { IsTrue result ↔ (b.now ≡ descriptor_block t homes.now) }
{
    is_framed(b, b"SPLITJD1", 16 + 4 * homes.len(), BLOCK)
}

/// Whether a transaction may have these home blocks, and the block is their descriptor.
fn is_described(b: &[u8], t: u32, homes: &[u32]) -> bool
    requires block { length b.now ≡ 4096 }
    requires few { length homes.now ≤ 261 }
    requires number { t ≡ number_at b.now 8 }
    requires count { length homes.now ≡ number_at b.now 12 }
    requires homes { take (4 * length homes.now) (drop 16 b.now) ≡ numbers homes.now }
    ensures { IsTrue result ↔ (IsDescriptor t homes.now × (b.now ≡ descriptor_block t homes.now)) }
{
    is_descriptor(t, homes) && is_descriptor_block(b, t, homes)
}

/// What a descriptor says, or none where the block is no descriptor.
pub fn read_desc(alloc: Global, b: &[u8]) -> Result<Option<Desc>, AllocError>
    ensures { IfOk result (λ read. IsReading IsDescriptorImage descriptor_spelling b.now read) }
{
    if b.len() != BLOCK {
        return Ok(None);
    }
    let t = number_at(b, 8);
    let count = number_at(b, 12);
    if count > MOST_HOMES {
        return Ok(None);
    }
    let count = count as usize;
    let homes = numbers_at(alloc, b, 16, count)?;
    let is_read = is_described(b, t, &homes);
    let homes = List::from_vec(homes);
    Ok(is_read.then_some(Desc { t: Txn(t), homes }))
}
