//! What bytes a page has.
ghost use Rattle.std.specs.Prelude.{◌≡◌, ◌+◌, ◌<◌, ◌≤◌, ◌++◌, length, replicate, IfSome, sum, slice_range, vec_len, vec_capacity};
ghost use Rattle.page_cache.specs.Bytes.{filled};
ghost use Rattle.page_cache.specs.Pool.{TakesOne, KeepsAll};
ghost use Rattle.page_cache.specs.Stored.{bytes_of};

use crate::bytes;
use crate::bytes::PAGE;
use crate::patch::Patch;
use crate::pool::Pool;
use std::marker::Model;
use std::mem;

/// The bytes of a page as they are kept: one byte that they all are, that and another which some of them are, or
/// each of them.
#[derive(Debug, Drop)]
pub(crate) enum Stored {
    Filled(u8),
    Patched(Patch),
    Bytes(Vec<u8>),
}

/// The bytes of a page. They take no memory as long as one byte alone was written over one.
#[derive(Debug, Drop)]
pub(crate) struct Content {
    stored: Stored,
}

impl Model for Content {
    ghost use Rattle.std.specs.Prelude.{◌≡◌, ℕ, List, length};
    ghost use Rattle.page_cache.specs.Stored.{bytes_of};

    ghost Value = { List ℕ };

    ghost view = { λ c. bytes_of c.stored };

    ghost invariant = { λ c. length (bytes_of c.stored) ≡ 4096 };
}

impl Stored {
    /// A vector with these bytes.
    fn into_vec(self, pool: &mut Pool) -> Vec<u8>
        requires len { length (bytes_of self) ≡ 4096 }
        requires ready { 0 < pool.old.pages }
        ensures items { result.items ≡ bytes_of self }
        ensures pool { TakesOne pool.old pool.new }
    {
        match self {
            Stored::Filled(byte) => {
                let mut bytes = pool.take();
                bytes::fill_all(&mut bytes, byte);
                bytes
            }
            Stored::Patched(patch) => {
                let mut bytes = pool.take();
                patch.write_to(&mut bytes);
                bytes
            }
            Stored::Bytes(bytes) => bytes,
        }
    }

    /// What they become where one byte is written from a place on up to another, if that takes no memory.
    fn rewritten(&self, from: usize, to: usize, byte: u8) -> Option<Stored>
        requires len { length (bytes_of self.now) ≡ 4096 }
        requires order { from ≤ to }
        requires within { to ≤ 4096 }
        ensures { IfSome result (λ stored. bytes_of stored ≡ filled (bytes_of self.now) from to byte) }
    {
        if to - from == PAGE {
            return Some(Stored::Filled(byte));
        }
        match self {
            Stored::Filled(all) => Some(Stored::over(*all, from, to, byte)),
            Stored::Patched(patch) => Some(Stored::over(
                patch.base_under(from, to)?,
                from,
                to,
                byte,
            )),
            Stored::Bytes(_) => None,
        }
    }

    /// One byte all over, and then one from a place on up to another.
    fn over(all: u8, from: usize, to: usize, byte: u8) -> Stored
        requires order { from ≤ to }
        requires within { to ≤ 4096 }
        ensures { bytes_of result ≡ filled (replicate 4096 all) from to byte }
    {
        if all == byte {
            Stored::Filled(byte)
        } else {
            Stored::Patched(Patch::new(all, from, to, byte))
        }
    }

    /// A vector for other bytes.
    fn into_memory(self, pool: &mut Pool) -> Vec<u8>
        requires len { length (bytes_of self) ≡ 4096 }
        requires ready { 0 < pool.old.pages }
        ensures len { length result.items ≡ 4096 }
        ensures pool { TakesOne pool.old pool.new }
    {
        match self {
            Stored::Filled(_) | Stored::Patched(_) => pool.take(),
            Stored::Bytes(bytes) => bytes,
        }
    }

    /// Gives the memory back, where there is some.
    fn give_back(self, pool: &mut Pool)
        requires { length (bytes_of self) ≡ 4096 }
        ensures { KeepsAll pool.old pool.new }
    {
        if let Stored::Bytes(bytes) = self {
            pool.give(bytes);
        }
    }
}

impl Content {
    /// The same byte all over.
    pub(crate) fn filled(byte: u8) -> Content
        ensures { result ≡ replicate 4096 byte }
    {
        Content {
            stored: Stored::Filled(byte),
        }
    }

    /// The byte that they all are, where it is known that they are one.
    pub(crate) fn all(&self) -> Option<u8>
        ensures { IfSome result (λ byte. self.now ≡ replicate 4096 byte) }
    {
        match &self.stored {
            Stored::Filled(byte) => Some(*byte),
            Stored::Patched(_) | Stored::Bytes(_) => None,
        }
    }

    /// Writes one byte all over.
    pub(crate) fn fill_all(&mut self, pool: &mut Pool, byte: u8)
        ensures value { self.new ≡ replicate 4096 byte }
        ensures pool { KeepsAll pool.old pool.new }
    {
        let old = mem::replace(&mut self.stored, Stored::Filled(byte));
        old.give_back(pool);
    }

    /// Writes one byte from a place on up to another.
    pub(crate) fn fill(&mut self, pool: &mut Pool, from: usize, to: usize, byte: u8)
        requires order { from ≤ to }
        requires within { to ≤ 4096 }
        requires ready { 0 < pool.old.pages }
        ensures value { self.new ≡ filled self.old from to byte }
        ensures len { length self.new ≡ 4096 }
        ensures pool { TakesOne pool.old pool.new }
    {
        if let Some(stored) = self.stored.rewritten(from, to, byte) {
            let old = mem::replace(&mut self.stored, stored);
            old.give_back(pool);
            return;
        }
        let old = mem::replace(&mut self.stored, Stored::Filled(byte));
        let mut bytes = old.into_vec(pool);
        bytes::fill(&mut bytes, from, to, byte);
        self.stored = Stored::Bytes(bytes);
    }

    /// Takes these bytes for its own.
    pub(crate) fn copy_in(&mut self, pool: &mut Pool, bytes: &[u8])
        requires len { length bytes.now ≡ 4096 }
        requires ready { 0 < pool.old.pages }
        ensures value { self.new ≡ bytes.now }
        ensures pool { TakesOne pool.old pool.new }
    {
        let old = mem::replace(&mut self.stored, Stored::Filled(0));
        let mut own = old.into_memory(pool);
        own.copy_from_slice(bytes);
        self.stored = Stored::Bytes(own);
    }

    /// Gives the memory back, where there is some.
    pub(crate) fn give_back(self, pool: &mut Pool)
        ensures { KeepsAll pool.old pool.new }
    {
        self.stored.give_back(pool);
    }

    /// The sum of the bytes from a place on up to another.
    pub(crate) fn sum(&self, from: usize, to: usize) -> u64
        requires order { from ≤ to }
        requires within { to ≤ 4096 }
        ensures { result ≡ sum (slice_range self.now from to) }
    {
        match &self.stored {
            Stored::Filled(byte) => bytes::sum_of(to - from, *byte),
            Stored::Patched(patch) => patch.sum(from, to),
            Stored::Bytes(bytes) => bytes::sum(&bytes[from..to]),
        }
    }

    /// Puts the bytes behind those of a run, which has room for them.
    pub(crate) fn append_to(&self, run: &mut Vec<u8>)
        requires { vec_len run.old + 4096 ≤ vec_capacity run.old }
        ensures items { run.new.items ≡ run.old.items ++ self.now }
        ensures capacity { vec_capacity run.old ≤ vec_capacity run.new }
    {
        match &self.stored {
            Stored::Filled(byte) => bytes::append(run, PAGE, *byte),
            Stored::Patched(patch) => patch.append_to(run),
            Stored::Bytes(bytes) => {
                let _ = run.extend_from_slice(bytes);
            }
        }
    }
}
