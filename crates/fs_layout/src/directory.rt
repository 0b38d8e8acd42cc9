//! Blocks 2 to 5 of the disk: the directory, an entry for each slot.
ghost use Rattle.std.specs.Prelude.{◌≡◌, ◌↔◌, ◌≤◌, ◌<◌, ◌+◌, ◌*◌, ◌^◌, length, take, drop, IsTrue, IfOk, IfSome, All, flat_map};
ghost use Rattle.split_types.specs.DiskLayout.{file_entry, IsEntry};
ghost use Rattle.fs_layout.specs.Fields.{number_at};
ghost use Rattle.fs_layout.specs.Reading.{IsReading};
ghost use Rattle.fs_layout.specs.Directory.{file_spelling, IsFileImage, entry_spelling, IsEntryImage, dir_spelling, IsDirImage};

use crate::bytes::{BLOCK, clear, is_zero, number_at, put, put_number};
use split_types::{List, Name, Serial};
use std::alloc::{AllocError, Global};

/// The bytes of an entry.
const ENTRY: usize = 64;

/// The most bytes that a name can have.
const MOST_NAME: usize = 32;

/// How many entries a block has.
const ENTRIES: usize = 64;

/// A file in the directory.
#[derive(Clone, Copy, Debug)]
pub struct DirEntry {
    pub serial: Serial,
    pub name: Name,
}

/// A block of the directory: the file of each of its 64 slots, none where the slot is free.
#[derive(Debug, Drop)]
pub struct DirImage {
    pub entries: List<Option<DirEntry>>,
}

/// Writes an entry of the directory, 64 bytes: that of a file, or of a free slot.
pub fn put_entry(entry: &Option<DirEntry>, out: &mut [u8])
    requires len { length out.old ≡ 64 }
    requires serial { IfSome entry.now (λ e. e.serial.0 + 1 < 2 ^ 32) }
    ensures { out.new ≡ entry_spelling entry.now }
{
    clear(out);
    match entry {
        None => {}
        Some(file) => {
            put_number(out, 0, file.serial.0 + 1);
            out[4] = file.name.len() as u8;
            put(out, 5, file.name.as_slice());
        }
    }
}

/// Writes a block of the directory from its entries.
fn put_dir(entries: &[Option<DirEntry>], out: &mut [u8])
    requires block { length out.old ≡ 4096 }
    requires slots { length entries.now ≡ 64 }
    requires serials { All (λ entry. IfSome entry (λ e. e.serial.0 + 1 < 2 ^ 32)) entries.now }
    ensures { out.new ≡ flat_map entry_spelling entries.now }
{
    for (j, entry) in entries.iter().enumerate() {
        put_entry(entry, &mut out[ENTRY * j..ENTRY * j + ENTRY]);
    }
}

/// Writes a block of the directory.
pub fn write_dir(d: &DirImage, out: &mut [u8])
    requires block { length out.old ≡ 4096 }
    requires value { IsDirImage d.now }
    ensures { out.new ≡ dir_spelling d.now }
{
    put_dir(d.entries.as_slice(), out);
}

/// The file of an entry of a serial, or none where the bytes are no entry of a file.
fn read_file(b: &[u8], serial: Serial) -> Option<DirEntry>
    requires len { length b.now ≡ 64 }
    requires serial { serial.0 + 1 ≡ number_at b.now 0 }
    requires fits { serial.0 + 1 < 2 ^ 32 }
    ensures { IsReading IsFileImage file_spelling b.now result }
{
    let len = b[4] as usize;
    if len > MOST_NAME {
        return None;
    }
    let name = Name::new(&b[5..5 + len])?;
    is_zero(b, 5 + len, ENTRY).then_some(DirEntry { serial, name })
}

/// The file of an entry, none where the entry is that of a free slot, or none at all where the bytes are no entry.
fn read_entry(b: &[u8]) -> Option<Option<DirEntry>>
    requires { length b.now ≡ 64 }
    ensures { IsReading IsEntryImage entry_spelling b.now result }
{
    let number = number_at(b, 0);
    if number == 0 {
        is_zero(b, 0, ENTRY).then_some(None)
    } else {
        read_file(b, Serial(number - 1)).map(Some)
    }
}

/// The files of a block of the directory, or none where the block is no block of a directory.
pub fn read_dir(alloc: Global, b: &[u8]) -> Result<Option<DirImage>, AllocError>
    ensures { IfOk result (λ read. IsReading IsDirImage dir_spelling b.now read) }
{
    if b.len() != BLOCK {
        return Ok(None);
    }
    let mut entries = Vec::with_capacity(alloc, ENTRIES)?;
    for j in 0..ENTRIES {
        match read_entry(&b[ENTRY * j..ENTRY * j + ENTRY]) {
            None => return Ok(None),
            Some(entry) => entries.push(entry)?,
        }
    }
    Ok(Some(DirImage {
        entries: List::from_vec(entries),
    }))
}
