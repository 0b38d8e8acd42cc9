//! The bytes that blocks are filled with.
ghost use Rattle.std.specs.Prelude.{◌≡◌, ◌<◌, ◌≤◌, ◌++◌, ◌∷◌, [], length};

use std::marker::Model;

/// The bytes that blocks one after another are filled with: one for each block, and 16 at most.
#[derive(Drop)]
pub struct Fills {
    bytes: [u8; 16],
    blocks: usize,
}

impl Model for Fills {
    ghost use Rattle.std.specs.Prelude.{ℕ, ◌≤◌, List, take};

    ghost Value = { List ℕ };

    ghost view = { λ f. take f.blocks f.bytes };

    ghost invariant = { λ f. f.blocks ≤ 16 };
}

impl Fills {
    /// Those of no block.
    pub fn none() -> Fills
        ensures { result ≡ [] }
    {
        Fills {
            bytes: [0; 16],
            blocks: 0,
        }
    }

    /// How many blocks there are.
    pub fn len(&self) -> usize
        ensures same { result ≡ length self.now }
        ensures few { result ≤ 16 }
    {
        self.blocks
    }

    /// The bytes one after another.
    pub fn as_slice(&self) -> &[u8]
        ensures { result.now ≡ self.now }
    {
        &self.bytes[..self.blocks]
    }

    /// Adds a block that is filled with this byte.
    pub fn push(&mut self, byte: u8)
        requires { length self.old < 16 }
        ensures { self.new ≡ self.old ++ byte ∷ [] }
    {
        self.bytes[self.blocks] = byte;
        self.blocks += 1;
    }
}
