//! Writes in flight.
ghost use Rattle.std.specs.Prelude.{◌≡◌, ◌+◌, ◌^◌, ◌<◌, ◌≤◌, true, not, Some, IsSome, IsSomeAnd, slice_get, length, filter, find, option_copied, sum_by, count_by, vec_len, vec_capacity, OnOk};
ghost use Rattle.sim_disk.specs.Load.{bytes_of};
ghost use Rattle.sim_disk.specs.Medium.{covers, brings, count_of, is_of, write_of};
ghost use Rattle.sim_disk.specs.Sheet.{Overwrites};

use crate::blocks::{BLOCK, Blocks};
use crate::load::Load;
use split_types::ReqId;
use std::alloc::{AllocError, Global};
use std::marker::Model;

/// A write that was started and isn't finished: its request, its first block and what it brings to its blocks.
#[derive(Drop)]
pub(crate) struct Write {
    id: ReqId,
    first: u32,
    load: Load,
}

impl Model for Write {
    ghost use Rattle.sim_disk.specs.Load.{bytes_of};
    ghost use Rattle.sim_disk.specs.Medium.{InFlight};

    ghost Value = { InFlight };

    ghost view = { λ w. record { id = w.id; first = w.first; bytes = bytes_of w.load } };
}

impl Write {
    /// The write of this load from block `first` on.
    pub(crate) fn new(id: ReqId, first: u32, load: Load) -> Write
        ensures { result ≡ record { id = id; first = first; bytes = bytes_of load } }
    {
        Write { id, first, load }
    }

    /// How many blocks it has.
    pub(crate) fn count(&self) -> usize
        ensures { result ≡ count_of self.now }
    {
        self.load.count()
    }

    /// Whether it is that of a request.
    pub(crate) fn is_of(&self, id: ReqId) -> bool
        ensures { result ≡ is_of id self.now }
    {
        self.id == id
    }

    /// Whether it covers a block.
    pub(crate) fn covers(&self, b: u32) -> bool
        ensures { result ≡ covers self.now b }
    {
        self.first <= b && ((b - self.first) as usize) < self.count()
    }

    /// Lets a block that it covers hold what it brings to it.
    pub(crate) fn bring(&self, alloc: Global, blocks: &mut Blocks, b: u32) -> Result<(), AllocError>
        requires within { b < length blocks.old.blocks }
        requires covered { covers self.now b ≡ true }
        ensures { OnOk result (Overwrites blocks.old.blocks blocks.new.blocks b 1 (λ i. brings self.now b)) }
    {
        let at = (b - self.first) as usize;
        match &self.load {
            Load::Filled(fills) => blocks.fill(alloc, b, 1, fills.as_slice()[at]),
            Load::Bytes(bytes) => {
                blocks.overwrite(alloc, b, &bytes[at * BLOCK..at * BLOCK + BLOCK])
            }
        }
    }

    /// Its first block, and what it brings to its blocks.
    pub(crate) fn into_parts(self) -> (u32, Load)
        ensures first { result.0 ≡ self.first }
        ensures bytes { bytes_of result.1 ≡ self.bytes }
    {
        let Write { id: _, first, load } = self;
        (first, load)
    }
}

/// The place of the write of a request, which is in flight.
fn place_of(writes: &[Write], id: ReqId) -> usize
    requires { IsSome (write_of writes.now id) }
    ensures { IsSomeAnd (slice_get writes.now result) (λ w. is_of id w ≡ true) }
{
    for (at, w) in writes.iter().enumerate() {
        if w.is_of(id) {
            return at;
        }
    }
    unreachable!()
}

/// Takes out the write of a request, which has one.
pub(crate) fn take(writes: &mut Vec<Write>, id: ReqId) -> Write
    requires there { IsSome (write_of writes.old.items id) }
    requires once { count_by (is_of id) writes.old.items ≤ 1 }
    ensures write { write_of writes.old.items id ≡ Some result }
    ensures others { writes.new.items ≡ filter (λ w. not (is_of id w)) writes.old.items }
    ensures len { vec_len writes.new + 1 ≡ vec_len writes.old }
    ensures capacity { vec_capacity writes.new ≡ vec_capacity writes.old }
{
    let at = place_of(writes, id);
    writes.remove(at)
}

/// The write that covers a block, where one does.
pub(crate) fn write_over(writes: &[Write], b: u32) -> Option<&Write>
    ensures { option_copied result ≡ find (λ w. covers w b) writes.now }
{
    writes.iter().find(|w| w.covers(b))
}

/// How many blocks writes have together.
pub(crate) fn blocks_together(writes: &[Write]) -> u32
    requires { sum_by count_of writes.now < 2 ^ 32 }
    ensures { result ≡ sum_by count_of writes.now }
{
    let mut blocks = 0;
    for w in writes {
        blocks += w.count();
    }
    blocks as u32
}
