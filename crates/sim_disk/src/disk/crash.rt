//! What a crash leaves of a disk.
ghost use Rattle.std.specs.Prelude.{◌≡◌, ℕ, ◌<◌, true, length, All, Some, IfOk, OnOk};
ghost use Rattle.sim_disk.specs.Bytes.{block_at};
ghost use Rattle.sim_disk.specs.Sheet.{Overwrites};
ghost use Rattle.sim_disk.specs.Medium.{covers, brings};
ghost use Rattle.sim_disk.specs.Crash.{in_flight_below, in_flight_count, fated, crashed_at, IsFate, IsCrashed};

use super::Disk;
use crate::blocks::Blocks;
use crate::write::{Write, blocks_together, write_over};
use std::alloc::{AllocError, Global};

/// What becomes of a block of a write in flight at a crash.
#[derive(Drop)]
pub enum Fate {
    /// It holds what it held before.
    Old,
    /// It holds what was written.
    New,
    /// It holds these 4,096 bytes.
    Bytes(Vec<u8>),
}

/// Lets a block that a write in flight covers hold what its fate makes of it.
fn apply_fate(
    alloc: Global,
    blocks: &mut Blocks,
    b: u32,
    w: &Write,
    fate: &Fate,
) -> Result<(), AllocError>
    requires within { b < length blocks.old.blocks }
    requires covered { covers w.now b ≡ true }
    requires size { IsFate fate.now }
    ensures { OnOk result (Overwrites blocks.old.blocks blocks.new.blocks b 1
        (λ i. fated (Some fate.now) (block_at blocks.old.blocks b) (brings w.now b))) }
{
    match fate {
        Fate::Old => Ok(()),
        Fate::New => w.bring(alloc, blocks, b),
        Fate::Bytes(bytes) => blocks.overwrite(alloc, b, bytes),
    }
}

/// The blocks after a crash, with these writes in flight and these fates.
fn crashed(
    alloc: Global,
    before: &Blocks,
    writes: &[Write],
    fates: &[Fate],
) -> Result<Blocks, AllocError>
    requires count { length fates.now ≡ in_flight_below writes.now (length before.now.blocks) }
    requires sizes { All IsFate fates.now }
    ensures size { IfOk result (λ after. length after.blocks ≡ length before.now.blocks) }
    ensures blocks { IfOk result (λ after. (b : ℕ) → b < length before.now.blocks →
        block_at after.blocks b ≡ crashed_at before.now.blocks writes.now fates.now b) }
{
    let mut after = before.copy(alloc)?;
    let mut next = 0;
    for b in 0..before.len() {
        if let Some(w) = write_over(writes, b) {
            apply_fate(alloc, &mut after, b, w, &fates[next])?;
            next += 1;
        }
    }
    Ok(after)
}

impl Disk {
    /// How many blocks the writes in flight cover.
    pub fn blocks_in_flight(&self) -> u32
        ensures { result ≡ in_flight_count self.now }
    {
        blocks_together(&self.writes)
    }

    /// The disk after a crash, with nothing in flight. Each block in flight has one of these fates, by rising
    /// block; all others hold what they held.
    pub fn crash(&self, alloc: Global, fates: Vec<Fate>) -> Result<Disk, AllocError>
        requires count { length fates.items ≡ in_flight_count self.now }
        requires sizes { All IsFate fates.items }
        ensures { IfOk result (IsCrashed self.now fates.items) }
    {
        let blocks = crashed(alloc, &self.blocks, &self.writes, &fates)?;
        Ok(Disk {
            blocks,
            writes: Vec::new(alloc),
            spare: 0,
        })
    }
}
