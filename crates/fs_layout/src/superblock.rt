//! Block 0 of the disk.
ghost use Rattle.std.specs.Prelude.{◌≡◌, ◌↔◌, ◌≤◌, length, IsTrue};
ghost use Rattle.split_types.specs.DiskLayout.{super_block, IsSuper};
ghost use Rattle.fs_layout.specs.Fields.{number_at};
ghost use Rattle.fs_layout.specs.Reading.{IsReading};
ghost use Rattle.fs_layout.specs.Super.{label, super_spelling, IsSuperImage};

use crate::bytes::{BLOCK, clear, is_framed, number_at, put, put_number};

/// What the superblock says: the version of the layout, and how many blocks the disk has.
#[derive(Clone, Copy, Debug, PartialEq, Eq)]
pub struct SuperImage {
    pub version: u32,
    pub device: u32,
}

/// What the superblock of a version begins with.
fn label(version: u32) -> [u8; 8]
    requires { version ≤ 2 }
    ensures { result ≡ label version }
{
    let mut label = *b"SPLITFS0";
    label[7] += version as u8;
    label
}

/// Writes the superblock of a disk of `device` blocks.
pub fn write_super(version: u32, device: u32, out: &mut [u8])
    requires block { length out.old ≡ 4096 }
    requires value { IsSuper version device }
    ensures { out.new ≡ super_block version device }
{
    clear(out);
    put(out, 0, &label(version));
    put_number(out, 8, version);
    put_number(out, 12, device);
}

/// Whether a disk of the version may have so many blocks.
fn is_super(version: u32, device: u32) -> bool
    ensures { IsTrue result ↔ IsSuper version device }
{
    let least = match version {
        1 => 1024,
        2 => 2048,
        _ => return false,
    };
    least <= device && device <= 32768
}

/// Whether the block is the superblock of these numbers, which stand at their places in it.
fn is_super_block(b: &[u8], version: u32, device: u32) -> bool
    requires block { length b.now ≡ 4096 }
    requires known { version ≤ 2 }
    requires version { version ≡ number_at b.now 8 }
    requires device { device ≡ number_at b.now 12 }
    ensures { IsTrue result ↔ (b.now ≡ super_block version device) }
{
    is_framed(b, &label(version), 16, BLOCK)
}

/// Whether the block is the superblock of these numbers, and a disk may have them.
fn is_spelled(b: &[u8], version: u32, device: u32) -> bool
    requires block { length b.now ≡ 4096 }
    requires version { version ≡ number_at b.now 8 }
    requires device { device ≡ number_at b.now 12 }
    ensures { IsTrue result ↔ (IsSuper version device × (b.now ≡ super_block version device)) }
{
    is_super(version, device) && is_super_block(b, version, device)
}

/// What the superblock says, or none where the block is no superblock.
pub fn read_super(b: &[u8]) -> Option<SuperImage>
    ensures { IsReading IsSuperImage super_spelling b.now result }
{
    if b.len() != BLOCK {
        return None;
    }
    let version = number_at(b, 8);
    let device = number_at(b, 12);
    is_spelled(b, version, device).then_some(SuperImage { version, device })
}
