//! Numbers, bytes and zeros in a block.
ghost use Rattle.std.specs.Prelude.{◌≡◌, ◌+◌, ◌-◌, ◌*◌, ◌^◌, ◌<◌, ◌≤◌, ◌++◌, ◌↔◌, length, take, drop, fold, max, IsTrue, All, EachIndex, IfOk, slice_index, vec_len};
ghost use Rattle.split_types.specs.DiskLayout.{zeros, number, numbers};
ghost use Rattle.fs_layout.specs.Fields.{number_at, with_bytes};

use std::alloc::{AllocError, Global};

/// The bytes of a block.
pub(crate) const BLOCK: usize = 4096;

/// The number at a place.
pub(crate) fn number_at(bytes: &[u8], at: usize) -> u32
    requires { at + 4 ≤ length bytes.now }
    ensures { result ≡ number_at bytes.now at }
{
    u32::from_le_bytes([bytes[at], bytes[at + 1], bytes[at + 2], bytes[at + 3]])
}

/// Whether the block begins with these bytes.
fn begins_with(bytes: &[u8], front: &[u8]) -> bool
    ensures { IsTrue result ↔ (take (length front.now) bytes.now ≡ front.now) }
{
    bytes.starts_with(front)
}

/// The greatest of the bytes, 0 where there are none. No byte ends it early, so it takes many at a time.
fn greatest(bytes: &[u8]) -> u8
    ensures { result ≡ fold max 0 bytes.now }
{
    bytes.iter().fold(0u8, |greatest, byte| greatest.max(*byte))
}

/// Whether each byte is 0.
fn are_zero(bytes: &[u8]) -> bool
    ensures { IsTrue result ↔ EachIndex bytes.now (λ i. slice_index bytes.now i ≡ 0) }
{
    greatest(bytes) == 0
}

/// Whether all bytes between two places are 0.
pub(crate) fn is_zero(bytes: &[u8], from: usize, to: usize) -> bool
    requires ordered { from ≤ to }
    requires within { to ≤ length bytes.now }
    ensures { IsTrue result ↔ (take (to - from) (drop from bytes.now) ≡ zeros (to - from)) }
{
    are_zero(&bytes[from..to])
}

/// Whether the block begins with these bytes, and all bytes between two places are 0.
pub(crate) fn is_framed(bytes: &[u8], front: &[u8], from: usize, to: usize) -> bool
    requires ordered { from ≤ to }
    requires within { to ≤ length bytes.now }
    ensures { IsTrue result
        ↔ ((take (length front.now) bytes.now ≡ front.now)
        × (take (to - from) (drop from bytes.now) ≡ zeros (to - from))) }
{
    begins_with(bytes, front) && is_zero(bytes, from, to)
}

/// Makes all bytes 0.
#[tactic(auto, unfolding(crate::specs::Fields::with_bytes, split_types::specs::DiskLayout::zeros))]
pub(crate) fn clear(out: &mut [u8])
    ensures { out.new ≡ zeros (length out.old) }
{
    out.fill(0);
}

/// Writes bytes from a place on.
pub(crate) fn put(out: &mut [u8], at: usize, bytes: &[u8])
    requires { at + length bytes.now ≤ length out.old }
    ensures { out.new ≡ with_bytes out.old at bytes.now }
{
    out[at..at + bytes.len()].copy_from_slice(bytes);
}

/// Writes a number from a place on.
pub(crate) fn put_number(out: &mut [u8], at: usize, value: u32)
    requires { at + 4 ≤ length out.old }
    ensures { out.new ≡ with_bytes out.old at (number value) }
{
    put(out, at, &value.to_le_bytes());
}

/// Writes numbers one after another, from a place on.
pub(crate) fn put_numbers(out: &mut [u8], at: usize, values: &[u32])
    requires { at + 4 * length values.now ≤ length out.old }
    ensures { out.new ≡ with_bytes out.old at (numbers values.now) }
{
    for (i, value) in values.iter().enumerate() {
        put_number(out, at + 4 * i, *value);
    }
}

/// The numbers that stand from a place on.
pub(crate) fn numbers_at(
    alloc: Global,
    bytes: &[u8],
    at: usize,
    count: usize,
) -> Result<Vec<u32>, AllocError>
    requires { at + 4 * count ≤ length bytes.now }
    ensures spelled { IfOk result (λ values. take (4 * count) (drop at bytes.now) ≡ numbers values.items) }
    ensures len { IfOk result (λ values. vec_len values ≡ count) }
    ensures fit { IfOk result (λ values. All (λ n. n < 2 ^ 32) values.items) }
{
    let mut values = Vec::with_capacity(alloc, count)?;
    for i in 0..count {
        values.push_reserved(number_at(bytes, at + 4 * i));
    }
    Ok(values)
}
