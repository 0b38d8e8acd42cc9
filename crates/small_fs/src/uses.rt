//! How many pages have each block.
ghost use Rattle.std.specs.Prelude.{◌≡◌, ℕ, ◌+◌, ◌<◌, ◌≤◌, ◌^◌, ◌==◌, slice_index, count_by, length, Some, IfOk};
ghost use Rattle.split_types.specs.DiskLayout.{bitmap_block};
ghost use Rattle.small_fs.specs.Uses.{is_counted, use_of};

use fs_layout::BlockBits;
use std::alloc::{AllocError, Global};
use std::marker::Model;

/// The number of blocks of the largest disk.
const BLOCKS: usize = 32_768;

/// How many pages have each block, and the bitmap of the blocks that are used: those before the data and those that
/// some page has.
#[derive(Debug, Drop)]
pub(crate) struct Uses {
    first: u32,
    pages: Vec<u32>,
    bits: BlockBits,
}

impl Model for Uses {
    ghost use Rattle.small_fs.specs.Uses.{Counts};

    ghost Value = { Counts };

    ghost use Rattle.small_fs.specs.Uses.{counts_of, AreCounts};

    ghost view = { counts_of };

    ghost invariant = { AreCounts };
}

/// Numbers of which each is 0.
fn zeros(alloc: Global, n: usize) -> Result<Vec<u32>, AllocError>
    ensures len { IfOk result (λ numbers. length numbers.items ≡ n) }
    ensures none { IfOk result (λ numbers. (i : ℕ) → slice_index numbers.items i ≡ 0) }
{
    let numbers = vec![in alloc; 0; n]?;
    Ok(numbers)
}

impl Uses {
    /// No page has a block, and data begins at block `first`.
    pub(crate) fn new(alloc: Global, first: u32) -> Result<Uses, AllocError>
        requires { first ≤ 32768 }
        ensures first { IfOk result (λ u. u.first ≡ first) }
        ensures none { IfOk result (λ u. (block : ℕ) → slice_index u.pages block ≡ 0) }
    {
        let mut bits = BlockBits::new(alloc)?;
        for block in 0..first {
            bits.set(block, true);
        }
        Ok(Uses {
            first,
            pages: zeros(alloc, BLOCKS)?,
            bits,
        })
    }

    /// One more page has the block.
    pub(crate) fn add(&mut self, block: u32)
        requires within { block < 32768 }
        requires few { slice_index self.old.pages block + 1 < 2 ^ 32 }
        ensures first { self.new.first ≡ self.old.first }
        ensures pages { (b : ℕ) →
            slice_index self.new.pages b ≡ slice_index self.old.pages b + use_of b (Some block) }
    {
        self.pages[block as usize] += 1;
        self.bits.set(block, true);
    }

    /// One page less has the block.
    fn remove_one(&mut self, block: u32)
        requires { 0 < slice_index self.old.pages block }
        ensures first { self.new.first ≡ self.old.first }
        ensures pages { (b : ℕ) →
            slice_index self.new.pages b + use_of b (Some block) ≡ slice_index self.old.pages b }
    {
        let left = self.pages[block as usize] - 1;
        self.pages[block as usize] = left;
        self.bits.set(block, left > 0 || block < self.first);
    }

    /// One page less has the block, if there is one.
    pub(crate) fn remove(&mut self, block: Option<u32>)
        requires { (b : ℕ) → use_of b block ≤ slice_index self.old.pages b }
        ensures first { self.new.first ≡ self.old.first }
        ensures pages { (b : ℕ) → slice_index self.new.pages b + use_of b block ≡ slice_index self.old.pages b }
    {
        if let Some(block) = block {
            self.remove_one(block);
        }
    }

    /// One page less has each of these blocks.
    pub(crate) fn remove_all(&mut self, blocks: &[u32])
        requires { (b : ℕ) → count_by (λ block. block == b) blocks.now ≤ slice_index self.old.pages b }
        ensures first { self.new.first ≡ self.old.first }
        ensures pages { (b : ℕ) →
            slice_index self.new.pages b + count_by (λ block. block == b) blocks.now ≡ slice_index self.old.pages b }
    {
        for block in blocks {
            self.remove_one(*block);
        }
    }

    /// Writes the bitmap of the blocks that are used.
    pub(crate) fn put(&self, out: &mut [u8])
        requires { length out.old ≡ 4096 }
        ensures { out.new ≡ bitmap_block (is_counted self.now) }
    {
        self.bits.put(out);
    }
}
