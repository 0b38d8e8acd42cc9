//! Blocks that have one byte at each place.
ghost use Rattle.std.specs.Prelude.{◌≡◌, ℕ, ◌+◌, ◌*◌, ◌≤◌, [], min, slice_index_or, vec_len, IfOk, OnOk};
ghost use Rattle.sim_disk.specs.Bytes.{filled};
ghost use Rattle.sim_disk.specs.Shared.{IsMade};

use crate::blocks::{BLOCK, filled_block};
use std::alloc::{AllocError, Global};
use std::marker::Model;

/// How many bytes there are.
const BYTES: usize = 256;

/// How many blocks a write of filled blocks has at most.
const MOST: usize = 16;

/// Memory for one block.
#[derive(Drop)]
struct Blank {
    memory: Vec<u8>,
}

impl Model for Blank {
    ghost use Rattle.std.specs.Prelude.{◌≡◌, ◌≤◌, [], vec_capacity};

    ghost Value = { Unit {0} };

    ghost view = { λ b. tt };

    ghost invariant = { λ b. (b.memory.items ≡ []) × (4096 ≤ vec_capacity b.memory) };
}

/// For each byte the block that has it at each place, from when it was made on, and nothing before.
#[derive(Drop)]
pub(crate) struct Shared {
    blocks: Vec<Vec<u8>>,
    // For how many bytes the block isn't made yet.
    left: usize,
    // Memory for blocks that are made later.
    ready: Vec<Blank>,
}

impl Model for Shared {
    ghost use Rattle.std.specs.Prelude.{map, vec_len};
    ghost use Rattle.sim_disk.specs.Shared.{Stock, AreFilled};

    ghost Value = { Stock };

    ghost view = { λ s. record {
      blocks = map (λ v. v.items) s.blocks.items;
      left = s.left;
      ready = vec_len s.ready;
    } };

    ghost invariant = { λ s. AreFilled (map (λ v. v.items) s.blocks.items) s.left };
}

impl Blank {
    /// Memory for one block.
    fn new(alloc: Global) -> Result<Blank, AllocError> {
        Ok(Blank {
            memory: Vec::with_capacity(alloc, BLOCK)?,
        })
    }

    /// The block with this byte at each place.
    fn filled(self, byte: u8) -> Vec<u8>
        ensures { result.items ≡ filled byte }
    {
        let mut memory = self.memory;
        let _ = memory.resize(BLOCK, byte);
        memory
    }
}

/// Lets memory for at least `n` blocks be ready.
fn stock_up(ready: &mut Vec<Blank>, n: usize) -> Result<(), AllocError>
    ensures ok { OnOk result (n ≤ vec_len ready.new) }
    ensures more { vec_len ready.old ≤ vec_len ready.new }
{
    let alloc = *ready.allocator();
    for _ in ready.len()..n {
        ready.push(Blank::new(alloc)?)?;
    }
    Ok(())
}

impl Shared {
    /// No block is made.
    pub(crate) fn new(alloc: Global) -> Result<Shared, AllocError> {
        let mut blocks = Vec::with_capacity(alloc, BYTES)?;
        for _ in 0..BYTES {
            blocks.push_reserved(Vec::new(alloc));
        }
        Ok(Shared {
            blocks,
            left: BYTES,
            ready: Vec::new(alloc),
        })
    }

    /// The block of a byte, which was made.
    pub(crate) fn of(&self, byte: u8) -> &[u8]
        requires { IsMade self.now.blocks byte }
        ensures { result.now ≡ filled byte }
    {
        &self.blocks[byte as usize]
    }

    /// Keeps the block of a byte, which wasn't made before.
    fn put(&mut self, byte: u8, block: Vec<u8>)
        requires none { slice_index_or self.old.blocks byte [] ≡ [] }
        requires block { block.items ≡ filled byte }
        ensures made { IsMade self.new.blocks byte }
        ensures others { (other : ℕ) → IsMade self.old.blocks other → IsMade self.new.blocks other }
        ensures left { self.new.left + 1 ≡ self.old.left }
        ensures ready { self.new.ready ≡ self.old.ready }
    {
        self.blocks[byte as usize] = block;
        self.left -= 1;
    }

    /// Makes the block of a byte, unless it was made.
    pub(crate) fn make(&mut self, alloc: Global, byte: u8) -> Result<(), AllocError>
        ensures made { OnOk result (IsMade self.new.blocks byte) }
        ensures others { (other : ℕ) → IsMade self.old.blocks other → IsMade self.new.blocks other }
        ensures left { self.new.left ≤ self.old.left }
        ensures ready { self.new.ready ≡ self.old.ready }
    {
        if self.blocks[byte as usize].is_empty() {
            let block = filled_block(alloc, byte)?;
            self.put(byte, block);
        }
        Ok(())
    }

    /// Makes the block of a byte, unless it was made, in memory that is ready where one isn't made.
    pub(crate) fn make_ready(&mut self, byte: u8)
        requires { min 1 self.old.left ≤ self.old.ready }
        ensures made { IsMade self.new.blocks byte }
        ensures others { (other : ℕ) → IsMade self.old.blocks other → IsMade self.new.blocks other }
        ensures ready { (n : ℕ) → min (n + 1) self.old.left ≤ self.old.ready → min n self.new.left ≤ self.new.ready }
    {
        if self.blocks[byte as usize].is_empty() {
            let blank = self.ready.pop().unwrap();
            self.put(byte, blank.filled(byte));
        }
    }

    /// Lets memory be ready for the blocks that `n` writes of filled blocks may need.
    pub(crate) fn room(&mut self, n: usize) -> Result<(), AllocError>
        ensures blocks { self.new.blocks ≡ self.old.blocks }
        ensures left { self.new.left ≡ self.old.left }
        ensures ready { self.old.ready ≤ self.new.ready }
        ensures ok { OnOk result (min (16 * n) self.new.left ≤ self.new.ready) }
    {
        let blocks = if n < MOST { MOST * n } else { BYTES };
        let wanted = if blocks < self.left {
            blocks
        } else {
            self.left
        };
        stock_up(&mut self.ready, wanted)
    }

    /// The same blocks once more, with no memory ready.
    pub(crate) fn copy(&self, alloc: Global) -> Result<Shared, AllocError>
        ensures { IfOk result (λ s. s.blocks ≡ self.now.blocks) }
    {
        Ok(Shared {
            blocks: self.blocks.clone()?,
            left: self.left,
            ready: Vec::new(alloc),
        })
    }
}
