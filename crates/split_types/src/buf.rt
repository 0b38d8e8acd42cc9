//! Buffers, and short lists of them.
ghost use Rattle.std.specs.Prelude.{◌≡◌, [], ◌∷◌};

use crate::ids::{Serial, Slot};
use std::marker::Model;

/// A buffer that can be dirty: a page of a file's data, or a block of metadata.
#[derive(Clone, Copy, Debug, PartialEq, Eq)]
pub enum Buf {
    /// A page of the file of this serial.
    Page(Serial, u32),
    /// The bitmap of used blocks.
    Bitmap,
    /// A block of the directory.
    Dir(u32),
    /// The inode of a slot.
    Inode(Slot),
}

/// A list of at most three buffers, which takes no memory.
#[derive(Debug, Drop)]
pub struct BufList {
    items: [Buf; 3],
    len: usize,
}

impl Model for BufList {
    ghost use Rattle.std.specs.Prelude.{List, take, length, ◌≡◌, ◌≤◌};
    ghost use Rattle.split_types.specs.declared.buf.Buf.{Buf};

    ghost Value = { List Buf };

    ghost view = { λ l. take l.len l.items };

    ghost invariant = { λ l. (l.len ≤ 3) × (length l.items ≡ 3) };
}

impl BufList {
    /// No buffer.
    pub(crate) fn none() -> BufList
        ensures { result ≡ [] }
    {
        BufList {
            items: [Buf::Bitmap, Buf::Bitmap, Buf::Bitmap],
            len: 0,
        }
    }

    /// This buffer.
    pub(crate) fn one(a: Buf) -> BufList
        ensures { result ≡ a ∷ [] }
    {
        BufList {
            items: [a, a, a],
            len: 1,
        }
    }

    /// These two buffers.
    pub(crate) fn two(a: Buf, b: Buf) -> BufList
        ensures { result ≡ a ∷ b ∷ [] }
    {
        BufList {
            items: [a, b, b],
            len: 2,
        }
    }

    /// These three buffers.
    pub(crate) fn three(a: Buf, b: Buf, c: Buf) -> BufList
        ensures { result ≡ a ∷ b ∷ c ∷ [] }
    {
        BufList {
            items: [a, b, c],
            len: 3,
        }
    }

    /// All buffers of the list.
    pub fn as_slice(&self) -> &[Buf]
        ensures { result.now ≡ self.now }
    {
        &self.items[..self.len]
    }
}
