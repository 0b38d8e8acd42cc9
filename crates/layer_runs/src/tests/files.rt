//! Files through a file system.
ghost use Rattle.std.specs.Prelude.{◌≡◌, IfOk};
ghost use Rattle.small_fs.specs.Metadata.{IsMetadata};

use super::found;
use small_fs::Fs;
use split_types::{Buf, Name, Preset, Serial, Slot};
use std::alloc::{AllocError, Global};
use std::test::Fail;

/// A name of one byte.
fn name(byte: u8) -> Result<Name, Fail> {
    found(Name::new(&[byte]))
}

/// A file system with no file.
fn no_files(alloc: Global) -> Result<Fs, AllocError>
    ensures { IfOk result (λ fs. fs.next ≡ 0) }
{
    Fs::new(alloc, &[], 526)
}

/// A file system with one file of two pages.
fn one_file(alloc: Global, name: Name) -> Result<Fs, AllocError> {
    let file = Preset {
        name,
        pages: 2,
        fill: 65,
    };
    Fs::new(alloc, &[file], 526)
}

#[test]
fn presets_are_there(rt: HostRuntime) -> Result<(), Fail> {
    let a = name(b'a')?;
    let fs = one_file(rt.alloc(), a)?;
    let seen = (fs.find(&a), fs.slot_of(Serial(0)), fs.to_make());
    assert_eq!(rt;
        seen,
        (Some(Slot(0)), Some(Slot(0)), Some((Slot(1), Serial(1))))
    );
    Ok(())
}

#[test]
fn presets_have_serials_sizes_and_blocks(rt: HostRuntime) -> Result<(), Fail> {
    let a = name(b'a')?;
    let fs = one_file(rt.alloc(), a)?;
    let slot = found(fs.find(&a))?;
    let sizes = (fs.size_of(slot), fs.disk_size_of(slot));
    let seen = (fs.serial_of(slot), sizes, fs.map_of(slot, 1));
    assert_eq!(rt; seen, (Serial(0), (8192, 8192), Some(527)));
    Ok(())
}

#[test]
fn files_are_made_and_grow(rt: HostRuntime) -> Result<(), Fail> {
    let a = name(b'a')?;
    let mut fs = no_files(rt.alloc())?;
    let made = fs.make(rt.alloc(), a)?;
    fs.grow(made.0, 10);
    assert_eq!(rt; (made, fs.find(&a)), ((Slot(0), Serial(0)), Some(Slot(0))));
    Ok(())
}

#[test]
fn there_is_room(rt: HostRuntime) -> Result<(), Fail> {
    let mut fs = no_files(rt.alloc())?;
    fs.room(rt.alloc(), 2)?;
    assert_eq!(rt; fs.to_make(), Some((Slot(0), Serial(0))));
    Ok(())
}

#[test]
fn pages_are_mapped_again(rt: HostRuntime) -> Result<(), Fail> {
    let a = name(b'a')?;
    let mut fs = one_file(rt.alloc(), a)?;
    let slot = found(fs.find(&a))?;
    fs.map_run(slot, 1, 2, 600, 10000);
    let slot = found(fs.find(&a))?;
    assert_eq!(rt; fs.map_of(slot, 2), Some(601));
    Ok(())
}

#[test]
fn files_are_dropped(rt: HostRuntime) -> Result<(), Fail> {
    let a = name(b'a')?;
    let mut fs = one_file(rt.alloc(), a)?;
    let slot = found(fs.find(&a))?;
    let blocks = fs.drop_file(slot);
    assert_eq!(rt; blocks.as_slice(), [526, 527].as_slice());
    Ok(())
}

/// A byte of the block of a buffer of metadata.
fn byte(alloc: Global, fs: &Fs, b: Buf, at: usize) -> Result<Option<u8>, AllocError>
    requires { IsMetadata b }
{
    let mut block = vec![in alloc; 0u8; 4096]?;
    fs.image(b, &mut block);
    Ok(block.get(at).copied())
}

/// A byte of the bitmap, one of an inode and one of the directory.
fn three_bytes(alloc: Global, fs: &Fs) -> Result<[Option<u8>; 3], AllocError> {
    let of_bitmap = byte(alloc, fs, Buf::Bitmap, 65)?;
    let of_inode = byte(alloc, fs, Buf::Inode(Slot(0)), 64)?;
    let of_directory = byte(alloc, fs, Buf::Dir(0), 5)?;
    Ok([of_bitmap, of_inode, of_directory])
}

#[test]
fn metadata_is_spelled(rt: HostRuntime) -> Result<(), Fail> {
    let alloc = rt.alloc();
    let fs = one_file(alloc, name(b'a')?)?;
    let bytes = three_bytes(alloc, &fs)?;
    assert_eq!(rt; bytes, [Some(255), Some(14), Some(b'a')]);
    Ok(())
}
