//! The file system.
ghost use Rattle.std.specs.Prelude.{◌≡◌, ◌≢◌, ◌⊎◌, ◌↔◌, ◌+◌, ◌<◌, ◌≤◌, length, replicate, sum_by, Some, None, Ok, Err, All, AllPairs, IsFalse, IsSome, IfOk, IfSome, IsOk, OnOk, OnErr, option_map};
ghost use Rattle.std.specs.Str.{bytes_eq};
ghost use Rattle.split_types.specs.LiveFiles.{file_at, slot_named, slot_of_serial, made_file, grown_file, mapped_file, block_of_page, blocks_of, preset_slots, metadata_block};
ghost use Rattle.small_fs.specs.Files.{next_file, with_file, changed};
ghost use Rattle.small_fs.specs.Metadata.{IsMetadata};

mod preset;

use crate::file::File;
use crate::image::{put_slot_entries, put_slot_inode};
use crate::keys::{FileName, FileSerial};
use crate::mapping::map_pages;
use crate::maps::Maps;
use crate::uses::Uses;
use fixed_places::{Least, Table};
use split_types::{BlockList, Buf, List, Name, Serial, Slot};
use std::alloc::{AllocError, Global};
use std::marker::Model;

/// How many slots there are.
const SLOTS: usize = 256;

/// How many slots a block of the directory has.
const ENTRIES: usize = 64;

/// The live files.
#[derive(Drop)]
pub struct Fs {
    files: Vec<Option<File>>,
    names: Table<FileName>,
    serials: Table<FileSerial>,
    // Each free slot has its own number as key.
    free: Least<u32>,
    uses: Uses,
    maps: Maps,
    next: u32,
}

impl Model for Fs {
    ghost use Rattle.small_fs.specs.Files.{Files};

    ghost Value = { Files };

    ghost use Rattle.small_fs.specs.Fields.{files_of, IsKept};

    ghost view = { files_of };

    ghost invariant = { IsKept };
}

/// Why a file was not made.
#[derive(Clone, Copy, Debug, Drop, PartialEq, Eq)]
pub enum MakeFault {
    /// A live file has the name.
    Exists,
    /// Every slot has a file.
    NoSlot,
    /// There was no memory.
    Memory,
}

impl From<AllocError> for MakeFault {
    ghost use Rattle.std.specs.Prelude.{◌≡◌};
    ghost use Rattle.small_fs.specs.declared.fs.MakeFault.{MakeFault};

    ghost from_gives = { λ e result. result ≡ MakeFault.Memory };

    fn from(_: AllocError) -> MakeFault {
        MakeFault::Memory
    }
}

/// Makes the size of the file of a slot the greater of the old and the given one.
fn grow(files: &mut Vec<Option<File>>, s: Slot, size: u32)
    requires { IsSome (file_at files.old.items s.0) }
    ensures { files.new.items ≡ changed (grown_file size) s.0 files.old.items }
{
    if let Some(file) = &mut files[s.0 as usize] {
        file.grow(size);
    }
}

/// Takes the file of a slot out.
fn take(files: &mut Vec<Option<File>>, s: Slot) -> File
    requires { IsSome (file_at files.old.items s.0) }
    ensures file { file_at files.old.items s.0 ≡ Some result }
    ensures rest { files.new.items ≡ with_file s.0 None files.old.items }
{
    files[s.0 as usize].take().unwrap()
}

impl Fs {
    /// The live file of a name, by its slot; none exactly where no live file has the name.
    pub fn find(&self, n: &Name) -> Option<Slot>
        ensures slot { option_map (λ slot. slot.0) result ≡ slot_named self.now.slots n.now }
        ensures live { IfSome result (λ slot. IsSome (file_at self.now.slots slot.0)) }
    {
        let at = self.names.find(&FileName(*n))?;
        Some(Slot(at as u32))
    }

    /// The live file of a serial, by its slot; none exactly where no live file has the serial.
    pub fn slot_of(&self, s: Serial) -> Option<Slot>
        ensures slot { option_map (λ slot. slot.0) result ≡ slot_of_serial self.now.slots s }
        ensures live { IfSome result (λ slot. IsSome (file_at self.now.slots slot.0)) }
    {
        let at = self.serials.find(&FileSerial(s))?;
        Some(Slot(at as u32))
    }

    /// The slot and the serial of the next file: the least free slot, and the least serial never used; none exactly
    /// where every slot has a file.
    pub fn to_make(&self) -> Option<(Slot, Serial)>
        ensures { result ≡ next_file self.now }
    {
        let at = self.free.least()?;
        Some((Slot(at as u32), Serial(self.next)))
    }

    /// Makes room for `n` more files.
    pub fn room(&mut self, alloc: Global, n: u32) -> Result<(), AllocError>
        ensures ok { OnOk result (n ≤ self.new.spare) }
        ensures spare { self.old.spare ≤ self.new.spare }
        ensures rest { self.new ≡ record self.old { spare = self.new.spare } }
        ensures err { OnErr result (self.new ≡ self.old) }
        ensures succeeds { n ≤ self.old.spare → IsOk result }
    {
        self.maps.room(alloc, n)
    }

    /// Puts an empty file of a name into a free slot, with a map of which no page has a block.
    fn insert(&mut self, at: Slot, n: Name, map: Vec<u32>)
        requires free { next_file self.old ≡ Some (at, record { 0 = self.old.next }) }
        requires fresh { slot_named self.old.slots n ≡ None }
        requires few { self.old.next < 4294967295 }
        requires map { map.items ≡ replicate 1008 0 }
        ensures { self.new ≡ record self.old {
          slots = with_file at.0 (Some (made_file record { 0 = self.old.next } n)) self.old.slots;
          next = self.old.next + 1;
        } }
    {
        let serial = Serial(self.next);
        let at = at.0 as usize;
        self.names.put(at, FileName(n));
        self.serials.put(at, FileSerial(serial));
        self.free.set(at, None);
        self.files[at] = Some(File::made(serial, n, map));
        self.next += 1;
    }

    /// Makes an empty file of a name, in the least free slot and with the least serial never used.
    ///
    /// # Errors
    ///
    /// `Exists` exactly where a live file has the name; else `NoSlot` exactly where every slot has a file; `Memory`
    /// where there is no memory, which is not so where there is room. Nothing changes then.
    pub fn make(&mut self, alloc: Global, n: Name) -> Result<(Slot, Serial), MakeFault>
        requires { self.old.next < 4294967295 }
        ensures next { IfOk result (λ made. next_file self.old ≡ Some made) }
        ensures slots { IfOk result (λ made. self.new.slots ≡
            with_file made.0.0 (Some (made_file made.1 n)) self.old.slots) }
        ensures live { IfOk result (λ made. IsSome (file_at self.new.slots made.0.0)) }
        ensures counted { OnOk result (self.new.next ≡ self.old.next + 1) }
        ensures first { self.new.first ≡ self.old.first }
        ensures spare { OnOk result (self.old.spare ≤ self.new.spare + 1) }
        ensures exists { result ≡ Err MakeFault.Exists ↔ IsSome (slot_named self.old.slots n) }
        ensures no_slot { result ≡ Err MakeFault.NoSlot
            ↔ ((slot_named self.old.slots n ≡ None) × (next_file self.old ≡ None)) }
        ensures err { OnErr result (self.new ≡ self.old) }
        ensures succeeds { 0 < self.old.spare → result ≢ Err MakeFault.Memory }
    {
        if self.find(&n).is_some() {
            return Err(MakeFault::Exists);
        }
        let Some(made) = self.to_make() else {
            return Err(MakeFault::NoSlot);
        };
        let map = self.maps.take(alloc)?;
        self.insert(made.0, n, map);
        Ok(made)
    }

    /// The serial of the file of a slot.
    pub fn serial_of(&self, s: Slot) -> Serial
        requires { IsSome (file_at self.now.slots s.0) }
        ensures { IfSome (file_at self.now.slots s.0) (λ f. result ≡ f.serial) }
    {
        self.file(s).serial()
    }

    /// The size of the file of a slot, in bytes.
    pub fn size_of(&self, s: Slot) -> u32
        requires { IsSome (file_at self.now.slots s.0) }
        ensures { IfSome (file_at self.now.slots s.0) (λ f. result ≡ f.size) }
    {
        self.file(s).size()
    }

    /// The size that the inode of the file of a slot says, in bytes.
    pub fn disk_size_of(&self, s: Slot) -> u32
        requires { IsSome (file_at self.now.slots s.0) }
        ensures { IfSome (file_at self.now.slots s.0) (λ f. result ≡ f.disk_size) }
    {
        self.file(s).disk_size()
    }

    /// The block of a page of the file of a slot; none exactly where the page has none.
    pub fn map_of(&self, s: Slot, page: u32) -> Option<u32>
        requires live { IsSome (file_at self.now.slots s.0) }
        requires page { page < 1008 }
        ensures { IfSome (file_at self.now.slots s.0) (λ f. result ≡ block_of_page f page) }
    {
        self.file(s).block(page)
    }

    /// The file of a slot.
    fn file(&self, s: Slot) -> &File
        requires { IsSome (file_at self.now.slots s.0) }
        ensures { file_at self.now.slots s.0 ≡ Some result.now }
    {
        self.files[s.0 as usize].as_ref().unwrap()
    }

    /// Makes the size of the file of a slot the greater of the old and the given one.
    pub fn grow(&mut self, s: Slot, size: u32)
        requires { IsSome (file_at self.old.slots s.0) }
        ensures { self.new ≡ record self.old { slots = changed (grown_file size) s.0 self.old.slots } }
    {
        grow(&mut self.files, s, size);
    }

    /// Gives the `n` pages of the file of a slot from `page` on the blocks from `first` on, and sets the size that its
    /// inode says, in bytes.
    pub fn map_run(&mut self, s: Slot, page: u32, n: u32, first: u32, disk_size: u32)
        requires live { IsSome (file_at self.old.slots s.0) }
        requires pages { page + n ≤ 1008 }
        requires first { 526 ≤ first }
        requires blocks { first + n ≤ 32768 }
        requires size { disk_size ≤ 4128768 }
        ensures { self.new ≡ record self.old {
          slots = changed (mapped_file page n first disk_size) s.0 self.old.slots;
        } }
    {
        let mut file = take(&mut self.files, s);
        map_pages(&mut self.uses, &mut file, page, n, first);
        file.set_disk_size(disk_size);
        self.files[s.0 as usize] = Some(file);
    }

    /// Drops the file of a slot, and answers the blocks that its pages had, by rising page. It takes no memory.
    pub fn drop_file(&mut self, s: Slot) -> BlockList
        requires { IsSome (file_at self.old.slots s.0) }
        ensures blocks { IfSome (file_at self.old.slots s.0) (λ f. result ≡ blocks_of f) }
        ensures rest { self.new ≡ record self.old { slots = with_file s.0 None self.old.slots } }
    {
        let at = s.0 as usize;
        let _ = self.names.take(at);
        let _ = self.serials.take(at);
        self.free.set(at, Some(s.0));
        let blocks = take(&mut self.files, s).into_blocks();
        self.uses.remove_all(&blocks);
        List::from_vec(blocks)
    }

    /// Writes the block of a buffer of metadata, as the files are now.
    pub fn image(&self, b: Buf, out: &mut [u8])
        requires buffer { IsMetadata b }
        requires block { length out.old ≡ 4096 }
        ensures { out.new ≡ metadata_block self.now.first self.now.slots b }
    {
        match b {
            Buf::Page(_, _) => unreachable!(),
            Buf::Bitmap => self.uses.put(out),
            Buf::Dir(k) => {
                let from = ENTRIES * k as usize;
                put_slot_entries(&self.files[from..from + ENTRIES], out);
            }
            Buf::Inode(s) => put_slot_inode(&self.files[s.0 as usize], out),
        }
    }
}
