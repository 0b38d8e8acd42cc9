//! What the blocks of a disk hold.
ghost use Rattle.std.specs.Prelude.{◌≡◌, ℕ, ◌+◌, ◌*◌, ◌/◌, ◌<◌, ◌≤◌, min, length, All, IfOk, IfSome, OnOk, OnErr};
ghost use Rattle.sim_disk.specs.Bytes.{filled, spread, block_of, block_at};
ghost use Rattle.sim_disk.specs.Load.{bytes_of};
ghost use Rattle.sim_disk.specs.Sheet.{Overwrites};

use crate::load::Load;
use crate::runs::{Place, Run, settle};
use crate::shared::Shared;
use slab::Slab;
use std::alloc::{AllocError, Global};
use std::marker::Model;

/// How many bytes a block has.
pub(crate) const BLOCK: usize = 4096;

/// The blocks of a disk. Each stands in a run, which leaves with the last block that stands in it, or is one of
/// the shared blocks, which have one byte at each place.
#[derive(Drop)]
pub(crate) struct Blocks {
    places: Vec<Place>,
    runs: Slab<Run>,
    shared: Shared,
}

impl Model for Blocks {
    ghost use Rattle.sim_disk.specs.Sheet.{Sheet};

    ghost Value = { Sheet };

    ghost use Rattle.std.specs.Prelude.{map, ◌-◌};
    ghost use Rattle.slab.specs.Slab.{slab_len};
    ghost use Rattle.sim_disk.specs.Runs.{content, AreHeld};

    ghost view = { λ b. record {
      blocks = map (content b.runs) b.places.items;
      room = b.runs.capacity - slab_len b.runs;
      left = b.shared.left;
      ready = b.shared.ready;
    } };

    ghost invariant = { λ b. AreHeld b.places.items b.runs b.shared.blocks };
}

/// One block with this byte at each place.
pub(crate) fn filled_block(alloc: Global, byte: u8) -> Result<Vec<u8>, AllocError>
    ensures { IfOk result (λ v. v.items ≡ filled byte) }
{
    vec![in alloc; byte; BLOCK]
}

impl Blocks {
    /// `n` blocks of zeros, which share one.
    pub(crate) fn new(alloc: Global, n: u32) -> Result<Blocks, AllocError>
        ensures size { IfOk result (λ b. length b.blocks ≡ n) }
        ensures zeros { IfOk result (λ b. All (λ bytes. bytes ≡ filled 0) b.blocks) }
    {
        let mut shared = Shared::new(alloc)?;
        shared.make(alloc, 0)?;
        let places = vec![in alloc; Place::Filled(0); n as usize]?;
        Ok(Blocks {
            places,
            runs: Slab::new(alloc),
            shared,
        })
    }

    /// How many blocks there are.
    pub(crate) fn len(&self) -> u32
        ensures { result ≡ length self.now.blocks }
    {
        self.places.len() as u32
    }

    /// The bytes of a block.
    pub(crate) fn read(&self, b: u32) -> &[u8]
        requires { b < length self.now.blocks }
        ensures bytes { result.now ≡ block_at self.now.blocks b }
        ensures len { length result.now ≡ 4096 }
    {
        match self.places[b as usize] {
            Place::Filled(byte) => self.shared.of(byte),
            Place::Within { at, run } => {
                let from = at as usize * BLOCK;
                &self.runs[run].bytes[from..from + BLOCK]
            }
        }
    }

    /// The byte that a block has at each place, where it is one of the shared blocks.
    pub(crate) fn fill_of(&self, b: u32) -> Option<u8>
        requires { b < length self.now.blocks }
        ensures { IfSome result (λ byte. block_at self.now.blocks b ≡ filled byte) }
    {
        match self.places[b as usize] {
            Place::Filled(byte) => Some(byte),
            Place::Within { .. } => None,
        }
    }

    /// Makes room for `n` more runs of bytes.
    fn reserve(&mut self, n: usize) -> Result<(), AllocError>
        ensures blocks { self.new.blocks ≡ self.old.blocks }
        ensures room { self.old.room ≤ self.new.room }
        ensures left { self.new.left ≡ self.old.left }
        ensures ready { self.new.ready ≡ self.old.ready }
        ensures ok { OnOk result (n ≤ self.new.room) }
    {
        self.runs.reserve(n)
    }

    /// Makes room for what `n` more writes hold.
    pub(crate) fn room(&mut self, n: usize) -> Result<(), AllocError>
        ensures blocks { self.new.blocks ≡ self.old.blocks }
        ensures room { self.old.room ≤ self.new.room }
        ensures left { self.new.left ≡ self.old.left }
        ensures ready { self.old.ready ≤ self.new.ready }
        ensures runs { OnOk result (n ≤ self.new.room) }
        ensures fills { OnOk result (min (16 * n) self.new.left ≤ self.new.ready) }
    {
        self.reserve(n)?;
        self.shared.room(n)
    }

    /// Lets the `n` blocks from `first` on hold this byte at each place.
    pub(crate) fn fill(
        &mut self,
        alloc: Global,
        first: u32,
        n: u32,
        byte: u8,
    ) -> Result<(), AllocError>
        requires within { first + n ≤ length self.old.blocks }
        ensures blocks { OnOk result (Overwrites self.old.blocks self.new.blocks first n (λ i. filled byte)) }
        ensures err { OnErr result (self.new.blocks ≡ self.old.blocks) }
        ensures room { self.old.room ≤ self.new.room }
        ensures left { self.new.left ≤ self.old.left }
        ensures ready { self.new.ready ≡ self.old.ready }
    {
        self.shared.make(alloc, byte)?;
        for i in 0..n {
            settle(
                &mut self.places,
                &mut self.runs,
                (first + i) as usize,
                Place::Filled(byte),
            );
        }
        Ok(())
    }

    /// Lets the blocks from `first` on each hold its fill at each place.
    fn hold_filled(&mut self, first: u32, fills: &[u8])
        requires few { length fills.now ≤ 16 }
        requires within { first + length fills.now ≤ length self.old.blocks }
        requires ready { min 16 self.old.left ≤ self.old.ready }
        ensures bytes { Overwrites self.old.blocks self.new.blocks first (length fills.now)
            (block_of (spread fills.now)) }
        ensures room { self.old.room ≤ self.new.room }
        ensures ready { (n : ℕ) → min (16 + n) self.old.left ≤ self.old.ready → min n self.new.left ≤ self.new.ready }
    {
        for at in 0..fills.len() {
            let fill = fills[at];
            self.shared.make_ready(fill);
            settle(
                &mut self.places,
                &mut self.runs,
                first as usize + at,
                Place::Filled(fill),
            );
        }
    }

    /// Lets the `n` blocks from `first` on stand in a run of these bytes.
    fn hold_run(&mut self, first: u32, n: u32, bytes: Vec<u8>)
        requires within { first + n ≤ length self.old.blocks }
        requires whole { 4096 * n ≤ length bytes.items }
        requires room { 0 < self.old.room }
        ensures bytes { Overwrites self.old.blocks self.new.blocks first n (block_of bytes.items) }
        ensures room { self.old.room ≤ self.new.room + 1 }
        ensures left { self.new.left ≡ self.old.left }
        ensures ready { self.new.ready ≡ self.old.ready }
    {
        let run = self.runs.insert_reserved(Run { bytes, uses: 0 });
        for i in 0..n {
            settle(
                &mut self.places,
                &mut self.runs,
                (first + i) as usize,
                Place::Within { at: i, run },
            );
        }
    }

    /// Lets the `n` blocks from `first` on hold what a write brings to them.
    pub(crate) fn hold(&mut self, first: u32, n: u32, load: Load)
        requires within { first + n ≤ length self.old.blocks }
        requires count { n ≡ length (bytes_of load) / 4096 }
        requires room { 0 < self.old.room }
        requires ready { min 16 self.old.left ≤ self.old.ready }
        ensures bytes { Overwrites self.old.blocks self.new.blocks first n (block_of (bytes_of load)) }
        ensures room { self.old.room ≤ self.new.room + 1 }
        ensures ready { (n : ℕ) → min (16 + n) self.old.left ≤ self.old.ready → min n self.new.left ≤ self.new.ready }
    {
        match load {
            Load::Filled(fills) => self.hold_filled(first, fills.as_slice()),
            Load::Bytes(bytes) => self.hold_run(first, n, bytes),
        }
    }

    /// Lets a block hold these bytes.
    pub(crate) fn overwrite(
        &mut self,
        alloc: Global,
        b: u32,
        bytes: &[u8],
    ) -> Result<(), AllocError>
        requires within { b < length self.old.blocks }
        requires whole { length bytes.now ≡ 4096 }
        ensures bytes { OnOk result (Overwrites self.old.blocks self.new.blocks b 1 (λ i. bytes.now)) }
    {
        self.reserve(1)?;
        let bytes = Vec::from_slice(alloc, bytes)?;
        self.hold_run(b, 1, bytes);
        Ok(())
    }

    /// Blocks that hold the same, and share among them what these share.
    pub(crate) fn copy(&self, alloc: Global) -> Result<Blocks, AllocError>
        ensures { IfOk result (λ b. b.blocks ≡ self.now.blocks) }
    {
        let places = Vec::from_slice(alloc, &self.places)?;
        let runs = self.runs.clone()?;
        let shared = self.shared.copy(alloc)?;
        Ok(Blocks {
            places,
            runs,
            shared,
        })
    }
}
