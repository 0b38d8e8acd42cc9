//! A list that contracts see as the list of its items.
ghost use Rattle.std.specs.Prelude.{◌≡◌, ◌<◌, [], ◌∷◌, ◌++◌, length, slice_get, Some, OnOk, OnErr};

use std::alloc::{AllocError, Global};
use std::marker::Model;

/// A list of `X`.
#[derive(Debug, Drop)]
pub struct List<X> {
    items: Vec<X>,
}

impl<X> Model for List<X> {
    ghost use Rattle.std.specs.Prelude.{List as Items};

    ghost Value = { Items X };

    ghost view = { λ l. l.items.items };
}

impl<X> List<X> {
    /// The empty list; it takes no memory.
    pub fn new(alloc: Global) -> List<X>
        ensures { result ≡ [] }
    {
        List {
            items: Vec::new(alloc),
        }
    }

    /// The list of these items; it takes no memory.
    pub fn from_vec(items: Vec<X>) -> List<X>
        ensures { result ≡ items.items }
    {
        List { items }
    }

    /// Appends `x`.
    pub fn push(&mut self, x: X) -> Result<(), AllocError>
    where
        X: Drop,
        ensures ok { OnOk result (self.new ≡ self.old ++ x ∷ []) }
        ensures err { OnErr result (self.new ≡ self.old) }
    {
        self.items.push(x)?;
        Ok(())
    }

    /// How many items there are.
    pub fn len(&self) -> usize
        ensures { result ≡ length self.now }
    {
        self.items.len()
    }

    /// The item at place `i`, counted from 0.
    pub fn at(&self, i: usize) -> &X
        requires { i < length self.now }
        ensures { slice_get self.now i ≡ Some result.now }
    {
        &self.items[i]
    }

    /// All items.
    pub fn as_slice(&self) -> &[X]
        ensures { result.now ≡ self.now }
    {
        self.items.as_slice()
    }
}

/// Bytes.
pub type Text = List<u8>;

/// Blocks of the disk, by number.
pub type BlockList = List<u32>;

/// Events of a history, by place.
pub type PlaceList = List<u32>;

/// Writes of blocks, in order.
pub type WriteList = List<BlockWrite>;

/// A write of one block: its number and its 4,096 bytes.
#[derive(Debug, Drop)]
pub struct BlockWrite {
    pub block: u32,
    pub bytes: Text,
}
