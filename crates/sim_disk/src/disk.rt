//! The disk.
ghost use Rattle.std.specs.Prelude.{◌≡◌, ℕ, ◌+◌, ◌%◌, ◌/◌, ◌<◌, ◌≤◌, [], ◌∷◌, ◌++◌, length, filter, not, true, false, All, IfOk, IfSome, IsOk, IsSome, None, OnOk, OnErr};
ghost use Rattle.sim_disk.specs.Bytes.{filled, spread, block_of, block_at};
ghost use Rattle.sim_disk.specs.Fields.{IsWithin};
ghost use Rattle.sim_disk.specs.Sheet.{Overwrites};
ghost use Rattle.sim_disk.specs.Medium.{AreApart, count_of, is_of, write_of};

mod crash;

use crate::blocks::Blocks;
use crate::fills::Fills;
use crate::load::Load;
use crate::write::{Write, take};
pub use crash::Fate;
use split_types::ReqId;
use std::alloc::{AllocError, Global};
use std::marker::Model;

/// The blocks of a disk and the writes in flight.
#[derive(Drop)]
pub struct Disk {
    blocks: Blocks,
    // In the order of their starts.
    writes: Vec<Write>,
    // For how many more writes there is room.
    spare: u32,
}

impl Model for Disk {
    ghost use Rattle.sim_disk.specs.Medium.{Medium};

    ghost Value = { Medium };

    ghost use Rattle.sim_disk.specs.Fields.{medium_of, IsKept};

    ghost view = { medium_of };

    ghost invariant = { IsKept };
}

impl Disk {
    /// A disk of this many blocks, all zeros, with nothing in flight.
    pub fn new(alloc: Global, blocks: u32) -> Result<Disk, AllocError>
        ensures size { IfOk result (λ d. length d.blocks ≡ blocks) }
        ensures zeros { IfOk result (λ d. All (λ bytes. bytes ≡ filled 0) d.blocks) }
        ensures writes { IfOk result (λ d. d.writes ≡ []) }
    {
        Ok(Disk {
            blocks: Blocks::new(alloc, blocks)?,
            writes: Vec::new(alloc),
            spare: 0,
        })
    }

    /// How many blocks the disk has.
    pub fn blocks(&self) -> u32
        ensures { result ≡ length self.now.blocks }
    {
        self.blocks.len()
    }

    /// The 4,096 bytes of a block. Writes in flight aren't seen.
    pub fn read(&self, block: u32) -> &[u8]
        requires { block < length self.now.blocks }
        ensures bytes { result.now ≡ block_at self.now.blocks block }
        ensures len { length result.now ≡ 4096 }
    {
        self.blocks.read(block)
    }

    /// The byte that a block has at each place, where it is known that one is.
    pub fn fill_of(&self, block: u32) -> Option<u8>
        requires { block < length self.now.blocks }
        ensures { IfSome result (λ byte. block_at self.now.blocks block ≡ filled byte) }
    {
        self.blocks.fill_of(block)
    }

    /// Makes room for `n` more writes.
    pub fn room(&mut self, n: u32) -> Result<(), AllocError>
        ensures ok { OnOk result (n ≤ self.new.spare) }
        ensures spare { self.old.spare ≤ self.new.spare }
        ensures rest { self.new ≡ record self.old { spare = self.new.spare } }
        ensures err { OnErr result (self.new ≡ self.old) }
        ensures succeeds { n ≤ self.old.spare → IsOk result }
    {
        if n <= self.spare {
            return Ok(());
        }
        self.writes.reserve(n as usize)?;
        self.blocks.room(self.writes.len() + n as usize)?;
        self.spare = n;
        Ok(())
    }

    /// Lets the `n` blocks from `first` on hold this byte at each place; all of them share one block in memory.
    pub fn fill(&mut self, alloc: Global, first: u32, n: u32, byte: u8) -> Result<(), AllocError>
        requires { first + n ≤ length self.old.blocks }
        ensures blocks { OnOk result (Overwrites self.old.blocks self.new.blocks first n (λ i. filled byte)) }
        ensures rest { OnOk result (self.new ≡ record self.old { blocks = self.new.blocks }) }
        ensures err { OnErr result (self.new ≡ self.old) }
    {
        self.blocks.fill(alloc, first, n, byte)
    }

    /// Lets a write be in flight.
    fn send(&mut self, w: Write) -> Result<(), AllocError>
        requires within { IsWithin (length self.old.blocks) w }
        requires apart { All (AreApart w) self.old.writes }
        requires other { write_of self.old.writes w.id ≡ None }
        ensures writes { OnOk result (self.new.writes ≡ self.old.writes ++ w ∷ []) }
        ensures blocks { OnOk result (self.new.blocks ≡ self.old.blocks) }
        ensures spare { OnOk result (self.old.spare ≤ self.new.spare + 1) }
        ensures err { OnErr result (self.new ≡ self.old) }
        ensures succeeds { 0 < self.old.spare → IsOk result }
    {
        self.room(1)?;
        self.writes.push_reserved(w);
        self.spare -= 1;
        Ok(())
    }

    /// Starts a write of these bytes, which are whole blocks, from block `first` on. It succeeds where there is
    /// room.
    pub fn start(&mut self, id: ReqId, first: u32, bytes: Vec<u8>) -> Result<(), AllocError>
        requires whole { length bytes.items % 4096 ≡ 0 }
        requires within { first + length bytes.items / 4096 ≤ length self.old.blocks }
        requires apart { All (AreApart record { id = id; first = first; bytes = bytes.items }) self.old.writes }
        requires other { write_of self.old.writes id ≡ None }
        ensures writes { OnOk result (self.new.writes ≡
            self.old.writes ++ record { id = id; first = first; bytes = bytes.items } ∷ []) }
        ensures blocks { OnOk result (self.new.blocks ≡ self.old.blocks) }
        ensures spare { OnOk result (self.old.spare ≤ self.new.spare + 1) }
        ensures err { OnErr result (self.new ≡ self.old) }
        ensures succeeds { 0 < self.old.spare → IsOk result }
    {
        self.send(Write::new(id, first, Load::Bytes(bytes)))
    }

    /// Starts a write of as many whole blocks as there are fills, from block `first` on; each has its fill at each
    /// place. It takes no memory for bytes. It succeeds where there is room.
    pub fn start_filled(&mut self, id: ReqId, first: u32, fills: Fills) -> Result<(), AllocError>
        requires within { first + length fills ≤ length self.old.blocks }
        requires apart { All (AreApart record { id = id; first = first; bytes = spread fills }) self.old.writes }
        requires other { write_of self.old.writes id ≡ None }
        ensures writes { OnOk result (self.new.writes ≡
            self.old.writes ++ record { id = id; first = first; bytes = spread fills } ∷ []) }
        ensures blocks { OnOk result (self.new.blocks ≡ self.old.blocks) }
        ensures spare { OnOk result (self.old.spare ≤ self.new.spare + 1) }
        ensures err { OnErr result (self.new ≡ self.old) }
        ensures succeeds { 0 < self.old.spare → IsOk result }
    {
        self.send(Write::new(id, first, Load::Filled(fills)))
    }

    /// Ends the write of this request, which is in flight: its blocks hold its bytes where it ends well, and
    /// else stay as they are.
    pub fn finish(&mut self, id: ReqId, ok: bool)
        requires { IsSome (write_of self.old.writes id) }
        ensures writes { self.new.writes ≡ filter (λ w. not (is_of id w)) self.old.writes }
        ensures ok { ok ≡ true → IfSome (write_of self.old.writes id)
            (λ w. Overwrites self.old.blocks self.new.blocks w.first (count_of w) (block_of w.bytes)) }
        ensures bad { ok ≡ false → self.new.blocks ≡ self.old.blocks }
        ensures spare { self.new.spare ≡ self.old.spare }
    {
        let w = take(&mut self.writes, id);
        if ok {
            let (first, load) = w.into_parts();
            let n = load.count() as u32;
            self.blocks.hold(first, n, load);
        }
    }
}
