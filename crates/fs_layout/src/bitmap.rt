//! Block 1 of the disk: the bitmap of used blocks.
ghost use Rattle.std.specs.Prelude.{◌≡◌, ◌↔◌, ◌≤◌, ◌<◌, ◌+◌, ◌*◌, ◌^◌, ℕ, length, Bool, true, false, if◌then◌else◌, EachIndex, IsTrue, IfOk, slice_index_or, vec_len};
ghost use Rattle.split_types.specs.DiskLayout.{taken_block, number_of_bits, IsBitmap};
ghost use Rattle.fs_layout.specs.Reading.{IsReading};
ghost use Rattle.fs_layout.specs.BitsOf.{bit_of, bits_of};
ghost use Rattle.fs_layout.specs.Bitmaps.{bitmap_spelling, IsBitImage};

use crate::bytes::BLOCK;
use split_types::List;
use std::alloc::{AllocError, Global};

/// How many bits the block has: one for each block of the largest disk.
const BITS: u32 = 32_768;

/// How many blocks of metadata every disk has, all of which are used.
const METADATA: usize = 526;

/// A bitmap: the number of blocks of the disk, and for each block whether it is used.
#[derive(Debug, Drop)]
pub struct BitImage {
    pub device: u32,
    pub taken: List<bool>,
}

/// The bit of a block, 0 where the list has ended.
fn bit_in(taken: &[bool], i: usize) -> u8
    ensures { result ≡ (if slice_index_or taken.now i false then 1 else 0) }
{
    match taken.get(i) {
        Some(true) => 1,
        _ => 0,
    }
}

/// The byte of eight blocks, from this one on.
fn byte_in(taken: &[bool], from: usize) -> u8
    requires { from + 8 < 2 ^ 32 }
    ensures { result ≡ number_of_bits 8 (λ k. slice_index_or taken.now (from + k) false) }
{
    let low = bit_in(taken, from)
        + 2 * bit_in(taken, from + 1)
        + 4 * bit_in(taken, from + 2)
        + 8 * bit_in(taken, from + 3);
    let high = bit_in(taken, from + 4)
        + 2 * bit_in(taken, from + 5)
        + 4 * bit_in(taken, from + 6)
        + 8 * bit_in(taken, from + 7);
    low + 16 * high
}

/// Writes a bitmap.
pub fn write_bitmap(m: &BitImage, out: &mut [u8])
    requires block { length out.old ≡ 4096 }
    requires value { IsBitImage m.now.device m.now }
    ensures { out.new ≡ bitmap_spelling m.now }
{
    let taken = m.taken.as_slice();
    for j in 0..BLOCK {
        out[j] = byte_in(taken, 8 * j);
    }
}

/// The bit of a block.
fn bit_of(b: &[u8], i: u32) -> bool
    requires { i < 8 * length b.now }
    ensures { result ≡ bit_of b.now i }
{
    (b[(i / 8) as usize] >> (i % 8)) & 1 == 1
}

/// The bits of the first blocks.
fn bits_of(alloc: Global, b: &[u8], count: u32) -> Result<Vec<bool>, AllocError>
    requires { count ≤ 8 * length b.now }
    ensures bits { IfOk result (λ bits. bits.items ≡ bits_of b.now count) }
    ensures len { IfOk result (λ bits. vec_len bits ≡ count) }
{
    let mut bits = Vec::with_capacity(alloc, count as usize)?;
    for i in 0..count {
        bits.push_reserved(bit_of(b, i));
    }
    Ok(bits)
}

/// Whether all blocks are used.
fn are_used(taken: &[bool]) -> bool
    ensures { IsTrue result ↔ EachIndex taken.now (λ i. slice_index_or taken.now i false ≡ true) }
{
    taken.iter().all(|is_used| *is_used)
}

/// Whether the bits from a block on are 0.
fn is_clear(b: &[u8], from: u32) -> bool
    requires { length b.now ≡ 4096 }
    ensures { IsTrue result ↔ ((i : ℕ) → from ≤ i → i < 32768 → bit_of b.now i ≡ false) }
{
    for i in from..BITS {
        if bit_of(b, i) {
            return false;
        }
    }
    true
}

/// Whether the bits of the disk's blocks are a bitmap, of which this is the block.
fn is_bitmap(b: &[u8], taken: &[bool]) -> bool
    requires block { length b.now ≡ 4096 }
    requires least { 526 ≤ length taken.now }
    requires most { length taken.now ≤ 32768 }
    requires bits { taken.now ≡ bits_of b.now (length taken.now) }
    ensures { IsTrue result ↔ (IsBitmap (length taken.now) taken.now × (b.now ≡ taken_block taken.now)) }
{
    are_used(&taken[..METADATA]) && is_clear(b, taken.len() as u32)
}

/// What a bitmap says, or none where the block is no bitmap of a disk of `device` blocks.
pub fn read_bitmap(alloc: Global, b: &[u8], device: u32) -> Result<Option<BitImage>, AllocError>
    requires least { 1024 ≤ device }
    requires most { device ≤ 32768 }
    ensures { IfOk result (λ read. IsReading (IsBitImage device) bitmap_spelling b.now read) }
{
    if b.len() != BLOCK {
        return Ok(None);
    }
    let taken = bits_of(alloc, b, device)?;
    let is_read = is_bitmap(b, &taken);
    let taken = List::from_vec(taken);
    Ok(is_read.then_some(BitImage { device, taken }))
}
