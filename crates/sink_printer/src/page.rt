//! The page of text that waits to be handed over.
ghost use Rattle.std.specs.Prelude.{◌≡◌, ◌+◌, ◌≤◌, ◌<◌, [], ◌∷◌, ◌++◌, ◌↔◌, IsTrue, length, IfOk};

use std::alloc::{AllocError, Global};
use std::marker::Model;

/// How many bytes a page holds.
pub(crate) const ROOM: usize = 65_536;

/// Memory for 65,536 bytes of text.
#[derive(Drop)]
pub struct Page {
    bytes: Vec<u8>,
    len: usize,
}

impl Model for Page {
    ghost use Rattle.std.specs.Prelude.{ℕ, ◌≡◌, ◌≤◌, List, take, vec_len};

    ghost Value = { List ℕ };

    ghost view = { λ p. take p.len p.bytes.items };

    ghost invariant = { λ p. (vec_len p.bytes ≡ 65536) × (p.len ≤ 65536) };
}

impl Page {
    /// An empty page.
    pub fn new(alloc: Global) -> Result<Page, AllocError>
        ensures { IfOk result (λ p. p ≡ []) }
    {
        Ok(Page {
            bytes: vec![in alloc; 0u8; ROOM]?,
            len: 0,
        })
    }

    /// Whether so many more bytes fit on the page.
    #[inline(always)]
    pub(crate) fn has_room(&self, bytes: usize) -> bool
        ensures { IsTrue result ↔ (length self.now + bytes ≤ 65536) }
    {
        bytes <= ROOM - self.len
    }

    /// All that stands on the page.
    #[inline(always)]
    pub(crate) fn as_slice(&self) -> &[u8]
        ensures { result.now ≡ self.now }
    {
        &self.bytes[..self.len]
    }

    /// Puts bytes behind those that stand there.
    #[inline(always)]
    pub(crate) fn put(&mut self, bytes: &[u8])
        requires { length self.old + length bytes.now ≤ 65536 }
        ensures { self.new ≡ self.old ++ bytes.now }
    {
        let end = self.len + bytes.len();
        self.bytes[self.len..end].copy_from_slice(bytes);
        self.len = end;
    }

    /// Puts a byte behind those that stand there.
    #[inline(always)]
    fn push(&mut self, byte: u8)
        requires { length self.old < 65536 }
        ensures { self.new ≡ self.old ++ byte ∷ [] }
    {
        self.bytes[self.len] = byte;
        self.len += 1;
    }

    /// Puts two bytes behind those that stand there.
    #[inline(always)]
    pub(crate) fn put_pair(&mut self, first: u8, second: u8)
        requires { length self.old + 2 ≤ 65536 }
        ensures { self.new ≡ self.old ++ first ∷ second ∷ [] }
    {
        self.push(first);
        self.push(second);
    }

    /// Puts three bytes behind those that stand there.
    #[inline(always)]
    pub(crate) fn put_triple(&mut self, first: u8, second: u8, third: u8)
        requires { length self.old + 3 ≤ 65536 }
        ensures { self.new ≡ self.old ++ first ∷ second ∷ third ∷ [] }
    {
        self.push(first);
        self.push(second);
        self.push(third);
    }

    /// Empties the page.
    pub(crate) fn clear(&mut self)
        ensures { self.new ≡ [] }
    {
        self.len = 0;
    }
}
