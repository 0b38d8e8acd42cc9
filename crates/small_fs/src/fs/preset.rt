//! The files that are there at the start.
ghost use Rattle.std.specs.Prelude.{◌≡◌, ℕ, ◌⊎◌, ◌+◌, ◌<◌, ◌≤◌, length, replicate, slice_index_or, sum_by, Some, None, All, AllPairs, IsFalse, IfOk};
ghost use Rattle.std.specs.Str.{bytes_eq};
ghost use Rattle.split_types.specs.LiveFiles.{slot_named, preset_file, preset_slots};
ghost use Rattle.small_fs.specs.Files.{next_file, with_file};

use super::{Fs, SLOTS};
use crate::file::File;
use crate::maps::{Maps, empty_map};
use crate::uses::Uses;
use fixed_places::{Least, Table};
use split_types::{Preset, Slot};
use std::alloc::{AllocError, Global};

/// The bytes of a page.
const PAGE: u32 = 4096;

/// So many slots without a file.
fn no_files(alloc: Global, n: usize) -> Result<Vec<Option<File>>, AllocError>
    ensures { IfOk result (λ files. files.items ≡ replicate n None) }
{
    let mut files = Vec::with_capacity(alloc, n)?;
    for _ in 0..n {
        files.push(None)?;
    }
    Ok(files)
}

/// So many free slots, each with its own number as key.
fn free_slots(alloc: Global, n: u32) -> Result<Least<u32>, AllocError>
    requires { 0 < n }
    ensures len { IfOk result (λ free. length free ≡ n) }
    ensures keys { IfOk result (λ free. (s : ℕ) → s < n → slice_index_or free s None ≡ Some s) }
{
    let mut free = Least::new(alloc, n as usize)?;
    for s in 0..n {
        free.set(s as usize, Some(s));
    }
    Ok(free)
}

impl Fs {
    /// No file, where data begins at block `first`.
    fn empty(alloc: Global, first: u32) -> Result<Fs, AllocError>
        requires { first ≤ 32768 }
        ensures first { IfOk result (λ fs. fs.first ≡ first) }
        ensures slots { IfOk result (λ fs. fs.slots ≡ replicate 256 None) }
        ensures next { IfOk result (λ fs. fs.next ≡ 0) }
    {
        Ok(Fs {
            files: no_files(alloc, SLOTS)?,
            names: Table::new(alloc, SLOTS)?,
            serials: Table::new(alloc, SLOTS)?,
            free: free_slots(alloc, SLOTS as u32)?,
            uses: Uses::new(alloc, first)?,
            maps: Maps::new(alloc),
            next: 0,
        })
    }

    /// Puts a preset file into a free slot, with a map of which no page has a block yet; its pages stand from a block
    /// on.
    fn insert_preset(&mut self, at: Slot, f: &Preset, map: Vec<u32>, block: u32)
        requires free { next_file self.old ≡ Some (at, record { 0 = self.old.next }) }
        requires fresh { slot_named self.old.slots f.now.name ≡ None }
        requires few { self.old.next < 4294967295 }
        requires map { map.items ≡ replicate 1008 0 }
        requires pages { f.now.pages ≤ 1008 }
        requires first { 526 ≤ block }
        requires fit { block + f.now.pages ≤ 32768 }
        ensures { self.new ≡ record self.old {
          slots = with_file at.0 (Some (preset_file self.old.next block f.now)) self.old.slots;
          next = self.old.next + 1;
        } }
    {
        let size = PAGE * f.pages;
        self.insert(at, f.name, map);
        self.grow(at, size);
        self.map_run(at, 0, f.pages, block, size);
    }

    /// The preset files, in their order, whose pages stand one after another from block `first` on. Data begins at
    /// this block, and all blocks below it are used.
    pub fn new(alloc: Global, files: &[Preset], first: u32) -> Result<Fs, AllocError>
        requires few { length files.now ≤ 256 }
        requires pages { All (λ f. f.pages ≤ 1008) files.now }
        requires apart { AllPairs (λ f g. IsFalse (bytes_eq f.name g.name)) files.now }
        requires first { (first ≡ 526) ⊎ (first ≡ 1318) }
        requires fit { first + sum_by (λ f. f.pages) files.now ≤ 32768 }
        ensures first { IfOk result (λ fs. fs.first ≡ first) }
        ensures slots { IfOk result (λ fs. fs.slots ≡ preset_slots first files.now) }
        ensures next { IfOk result (λ fs. fs.next ≡ length files.now) }
    {
        let mut fs = Fs::empty(alloc, first)?;
        let mut block = first;
        for (i, file) in files.iter().enumerate() {
            let map = empty_map(alloc)?;
            fs.insert_preset(Slot(i as u32), file, map, block);
            block += file.pages;
        }
        Ok(fs)
    }
}
