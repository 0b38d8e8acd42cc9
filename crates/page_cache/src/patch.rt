//! A page of one byte of which some bytes were written over.
ghost use Rattle.std.specs.Prelude.{◌≡◌, ◌+◌, ◌≤◌, ◌++◌, length, replicate, sum, take, slice_range, vec_len, vec_capacity, IfSome, ℕ};
ghost use Rattle.page_cache.specs.Bytes.{filled};

use crate::bytes;
use crate::bytes::PAGE;
use std::marker::Model;

/// One byte all over a page, but for another from a place on up to another.
#[derive(Debug, Drop)]
pub(crate) struct Patch {
    base: u8,
    from: usize,
    to: usize,
    byte: u8,
}

impl Model for Patch {
    ghost use Rattle.std.specs.Prelude.{ℕ, List};
    ghost use Rattle.page_cache.specs.Bytes.{patched, IsPatch};

    ghost Value = { List ℕ };

    ghost view = { λ p. patched p.base p.from p.to p.byte };

    ghost invariant = { λ p. IsPatch p.from p.to };
}

impl Patch {
    /// A page of one byte, written over from a place on up to another.
    pub(crate) fn new(base: u8, from: usize, to: usize, byte: u8) -> Patch
        requires order { from ≤ to }
        requires within { to ≤ 4096 }
        ensures { result ≡ filled (replicate 4096 base) from to byte }
    {
        Patch {
            base,
            from,
            to,
            byte,
        }
    }

    /// The byte under what was written over, where other bytes cover all of that.
    pub(crate) fn base_under(&self, from: usize, to: usize) -> Option<u8>
        requires { to ≤ 4096 }
        ensures { IfSome result (λ base. (byte : ℕ)
            → filled (replicate 4096 base) from to byte ≡ filled self.now from to byte) }
    {
        if self.from < from || to < self.to {
            return None;
        }
        Some(self.base)
    }

    /// Writes all its bytes over others.
    pub(crate) fn write_to(&self, bytes: &mut [u8])
        requires { length bytes.old ≡ 4096 }
        ensures value { bytes.new ≡ self.now }
        ensures len { length bytes.new ≡ 4096 }
    {
        bytes::fill_all(bytes, self.base);
        bytes::fill(bytes, self.from, self.to, self.byte);
    }

    /// Puts its bytes behind those of a run, which has room for them.
    pub(crate) fn append_to(&self, run: &mut Vec<u8>)
        requires { vec_len run.old + 4096 ≤ vec_capacity run.old }
        ensures items { run.new.items ≡ run.old.items ++ self.now }
        ensures capacity { vec_capacity run.old ≤ vec_capacity run.new }
    {
        bytes::append(run, self.from, self.base);
        bytes::append(run, self.to - self.from, self.byte);
        bytes::append(run, PAGE - self.to, self.base);
    }

    /// The sum of the bytes from a place on up to another.
    pub(crate) fn sum(&self, from: usize, to: usize) -> u64
        requires order { from ≤ to }
        requires within { to ≤ 4096 }
        ensures { result ≡ sum (slice_range self.now from to) }
    {
        self.sum_up_to(to) - self.sum_up_to(from)
    }

    /// The sum of the bytes up to a place.
    fn sum_up_to(&self, to: usize) -> u64
        requires { to ≤ 4096 }
        ensures { result ≡ sum (take to self.now) }
    {
        if to <= self.from {
            return bytes::sum_of(to, self.base);
        }
        let before = bytes::sum_of(self.from, self.base);
        if to <= self.to {
            return before + bytes::sum_of(to - self.from, self.byte);
        }
        before
            + bytes::sum_of(self.to - self.from, self.byte)
            + bytes::sum_of(to - self.to, self.base)
    }
}
