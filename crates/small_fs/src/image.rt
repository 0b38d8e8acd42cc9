//! The blocks of metadata that files give.
ghost use Rattle.std.specs.Prelude.{◌≡◌, ◌+◌, ◌*◌, ◌≤◌, length, take, drop, flat_map};
ghost use Rattle.split_types.specs.LiveFiles.{slot_entry, slot_inode};

use crate::file::File;
use fs_layout::{put_entry, put_inode};

/// The bytes of an entry of the directory.
const ENTRY: usize = 64;

/// Writes the entry of a slot.
fn put_slot_entry(file: &Option<File>, out: &mut [u8])
    requires { length out.old ≡ 64 }
    ensures { out.new ≡ slot_entry file.now }
{
    match file {
        None => put_entry(&None, out),
        Some(file) => put_entry(&Some(file.entry()), out),
    }
}

/// Writes the block of the directory of these 64 slots.
pub(crate) fn put_slot_entries(files: &[Option<File>], out: &mut [u8])
    requires block { length out.old ≡ 4096 }
    requires slots { length files.now ≡ 64 }
    ensures { out.new ≡ flat_map slot_entry files.now }
{
    for (j, file) in files.iter().enumerate() {
        put_slot_entry(file, &mut out[ENTRY * j..ENTRY * j + ENTRY]);
    }
}

/// Writes the inode of a slot.
pub(crate) fn put_slot_inode(file: &Option<File>, out: &mut [u8])
    requires { length out.old ≡ 4096 }
    ensures { out.new ≡ slot_inode file.now }
{
    match file {
        None => put_inode(None, 0, &[], out),
        Some(file) => put_inode(Some(file.serial()), file.disk_size(), file.pointers(), out),
    }
}
