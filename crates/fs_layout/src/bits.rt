//! A bitmap that is kept as it lies on the disk.
ghost use Rattle.std.specs.Prelude.{◌≡◌, ℕ, ◌<◌, length, false, IfOk, slice_index_or, slice_set};
ghost use Rattle.split_types.specs.DiskLayout.{taken_block};
ghost use Rattle.fs_layout.specs.BitsOf.{all_bits_of};

use crate::bytes::BLOCK;
use std::alloc::{AllocError, Global};
use std::marker::Model;

/// Whether each of 32,768 blocks is used. A change touches one byte, and the block of the bitmap is there at any time.
#[derive(Debug, Drop)]
pub struct BlockBits {
    bytes: Vec<u8>,
}

impl Model for BlockBits {
    ghost use Rattle.std.specs.Prelude.{◌≡◌, List, Bool, length};
    ghost use Rattle.fs_layout.specs.BitsOf.{all_bits_of};

    ghost Value = { List Bool };

    ghost view = { λ b. all_bits_of b.bytes.items };

    ghost invariant = { λ b. length b.bytes.items ≡ 4096 };
}

/// A block of zeros.
fn zero_bytes(alloc: Global) -> Result<Vec<u8>, AllocError>
    ensures len { IfOk result (λ bytes. length bytes.items ≡ 4096) }
    ensures zeros { IfOk result (λ bytes. (j : ℕ) → slice_index_or bytes.items j 0 ≡ 0) }
{
    let bytes = vec![in alloc; 0; BLOCK]?;
    Ok(bytes)
}

/// Sets the bit of a block.
fn set_bit(bytes: &mut Vec<u8>, block: u32, is_used: bool)
    requires len { length bytes.old.items ≡ 4096 }
    requires within { block < 32768 }
    ensures len { length bytes.new.items ≡ 4096 }
    ensures bits { all_bits_of bytes.new.items ≡ slice_set (all_bits_of bytes.old.items) block is_used }
{
    let place = (block / 8) as usize;
    let mask = 1u8 << (block % 8);
    if is_used {
        bytes[place] |= mask;
    } else {
        bytes[place] &= !mask;
    }
}

impl BlockBits {
    /// No block is used.
    pub fn new(alloc: Global) -> Result<BlockBits, AllocError>
        ensures len { IfOk result (λ bits. length bits ≡ 32768) }
        ensures none { IfOk result (λ bits. (i : ℕ) → slice_index_or bits i false ≡ false) }
    {
        Ok(BlockBits {
            bytes: zero_bytes(alloc)?,
        })
    }

    /// Says of a block whether it is used.
    pub fn set(&mut self, block: u32, is_used: bool)
        requires { block < 32768 }
        ensures { self.new ≡ slice_set self.old block is_used }
    {
        set_bit(&mut self.bytes, block, is_used);
    }

    /// Writes the block of the bitmap.
    pub fn put(&self, out: &mut [u8])
        requires { length out.old ≡ 4096 }
        ensures { out.new ≡ taken_block self.now }
    {
        out.copy_from_slice(&self.bytes);
    }
}
