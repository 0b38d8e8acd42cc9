//! Blocks as bytes: images made by hand, which are read and written again.
ghost use Rattle.std.specs.Prelude.{◌≡◌, length, IfOk};

use super::found;
use fs_layout::{
    BlockBits, Desc, DirEntry, SuperImage, put_entry, put_inode, read_bitmap, read_commit,
    read_desc, read_dir, read_inode, read_super, write_bitmap, write_commit, write_desc, write_dir,
    write_inode, write_super,
};
use split_types::{List, Name, Serial, Txn};
use std::alloc::{AllocError, Global};
use std::test::Fail;

/// A block of equal bytes.
fn block(alloc: Global, byte: u8) -> Result<Vec<u8>, AllocError>
    ensures { IfOk result (λ bytes. length bytes.items ≡ 4096) }
{
    let bytes = vec![in alloc; byte; 4096]?;
    Ok(bytes)
}

/// The bytes from one place on up to another; none where there aren't so many.
fn part(bytes: &[u8], from: usize, to: usize) -> &[u8] {
    bytes.get(from..to).unwrap_or(b"".as_slice())
}

/// The bytes with another one in a place.
fn changed(bytes: Vec<u8>, at: usize, byte: u8) -> Vec<u8> {
    let mut bytes = bytes;
    if let Some(place) = bytes.get_mut(at) {
        *place = byte;
    }
    bytes
}

/// The first superblock, as bytes.
fn first_super(alloc: Global) -> Result<Vec<u8>, AllocError> {
    let mut out = block(alloc, 7)?;
    write_super(1, 1024, &mut out);
    Ok(out)
}

/// The second superblock, of a disk twice as large.
fn second_super(alloc: Global) -> Result<Vec<u8>, AllocError> {
    let mut out = block(alloc, 7)?;
    write_super(2, 2048, &mut out);
    Ok(out)
}

/// What a superblock says: the version, and the blocks of the disk.
fn super_of(bytes: &[u8]) -> Option<(u32, u32)> {
    let SuperImage { version, device } = read_super(bytes)?;
    Some((version, device))
}

#[test]
fn superblocks(rt: HostRuntime) -> Result<(), Fail> {
    let first = first_super(rt.alloc())?;
    let second = second_super(rt.alloc())?;
    let starts = (part(&first, 0, 16), part(&second, 0, 16));
    let due = (
        b"SPLITFS1\x01\0\0\0\0\x04\0\0".as_slice(),
        b"SPLITFS2\x02\0\0\0\0\x08\0\0".as_slice(),
    );
    assert_eq!(rt; starts, due);
    let read = (super_of(&first), super_of(&changed(second, 9, 1)));
    assert_eq!(rt; read, (Some((1, 1024)), None));
    Ok(())
}

/// The block of a directory of one entry, which is its second.
fn directory(alloc: Global, name: Name) -> Result<Vec<u8>, AllocError> {
    let mut out = block(alloc, 0)?;
    let serial = Serial(6);
    put_entry(&Some(DirEntry { serial, name }), &mut out[64..128]);
    put_entry(&None, &mut out[128..192]);
    Ok(out)
}

/// The block of a directory, read and written again; none where it is no directory.
fn directory_again(alloc: Global, bytes: &[u8]) -> Result<Option<Vec<u8>>, AllocError> {
    let Some(image) = read_dir(alloc, bytes)? else {
        return Ok(None);
    };
    let mut out = block(alloc, 7)?;
    write_dir(&image, &mut out);
    Ok(Some(out))
}

#[test]
fn directories(rt: HostRuntime) -> Result<(), Fail> {
    let name = found(Name::new(b"log"))?;
    let out = directory(rt.alloc(), name)?;
    assert_eq!(rt; part(&out, 64, 73), b"\x07\0\0\0\x03log\0".as_slice());
    let again = found(directory_again(rt.alloc(), &out)?)?;
    assert!(rt; again == out);
    let odd = changed(out, 70, b'A');
    assert!(rt; directory_again(rt.alloc(), &odd)?.is_none());
    Ok(())
}

/// The block of the inode of a file whose second page has a block.
fn inode(alloc: Global) -> Result<Vec<u8>, AllocError> {
    let mut blocks = vec![in alloc; 0u32; 1008]?;
    blocks[1] = 526;
    let mut out = block(alloc, 7)?;
    put_inode(Some(Serial(6)), 5000, &blocks, &mut out);
    Ok(out)
}

/// The block of an inode, read and written again; none where it is no inode.
fn inode_again(alloc: Global, bytes: &[u8]) -> Result<Option<Vec<u8>>, AllocError> {
    let Some(image) = read_inode(alloc, bytes, 1024)? else {
        return Ok(None);
    };
    let mut out = block(alloc, 7)?;
    write_inode(&image, &mut out);
    Ok(Some(out))
}

#[test]
fn inodes(rt: HostRuntime) -> Result<(), Fail> {
    let out = inode(rt.alloc())?;
    let parts = (part(&out, 0, 8), part(&out, 64, 72));
    let due = (
        b"\x07\0\0\0\x88\x13\0\0".as_slice(),
        b"\0\0\0\0\x0e\x02\0\0".as_slice(),
    );
    assert_eq!(rt; parts, due);
    let again = found(inode_again(rt.alloc(), &out)?)?;
    assert!(rt; again == out);
    let odd = changed(out, 4095, 1);
    assert!(rt; inode_again(rt.alloc(), &odd)?.is_none());
    Ok(())
}

/// The bits of the blocks before the data, and of the last block.
fn bits(alloc: Global) -> Result<BlockBits, AllocError> {
    let mut bits = BlockBits::new(alloc)?;
    for block in 0u32..526 {
        bits.set(block, true);
    }
    bits.set(1023, true);
    bits.set(600, true);
    bits.set(600, false);
    Ok(bits)
}

/// The block of a bitmap.
fn bitmap(alloc: Global) -> Result<Vec<u8>, AllocError> {
    let bits = bits(alloc)?;
    let mut out = block(alloc, 7)?;
    bits.put(&mut out);
    Ok(out)
}

/// The block of a bitmap, read and written again; none where it is no bitmap.
fn bitmap_again(alloc: Global, bytes: &[u8]) -> Result<Option<Vec<u8>>, AllocError> {
    let Some(image) = read_bitmap(alloc, bytes, 1024)? else {
        return Ok(None);
    };
    let mut out = block(alloc, 7)?;
    write_bitmap(&image, &mut out);
    Ok(Some(out))
}

#[test]
fn bitmaps(rt: HostRuntime) -> Result<(), Fail> {
    let out = bitmap(rt.alloc())?;
    let parts = (part(&out, 64, 67), part(&out, 75, 76), part(&out, 127, 128));
    let due = (
        b"\xff\x3f\0".as_slice(),
        b"\0".as_slice(),
        b"\x80".as_slice(),
    );
    assert_eq!(rt; parts, due);
    let again = found(bitmap_again(rt.alloc(), &out)?)?;
    assert!(rt; again == out);
    let odd = changed(out, 128, 1);
    assert!(rt; bitmap_again(rt.alloc(), &odd)?.is_none());
    Ok(())
}

/// The block of a commit.
fn commit(alloc: Global) -> Result<Vec<u8>, AllocError> {
    let mut out = block(alloc, 7)?;
    write_commit(Txn(3), &mut out);
    Ok(out)
}

/// The transaction of the block of a commit.
fn committed(bytes: &[u8]) -> Option<u32> {
    Some(read_commit(bytes)?.0)
}

/// The block of a descriptor of two homes.
fn descriptor(alloc: Global) -> Result<Vec<u8>, AllocError> {
    let mut homes = List::new(alloc);
    homes.push(1)?;
    homes.push(261)?;
    let mut out = block(alloc, 7)?;
    write_desc(&Desc { t: Txn(3), homes }, &mut out);
    Ok(out)
}

/// The homes of the block of a descriptor.
fn homes(alloc: Global, bytes: &[u8]) -> Result<Option<List<u32>>, AllocError> {
    let Some(desc) = read_desc(alloc, bytes)? else {
        return Ok(None);
    };
    Ok(Some(desc.homes))
}

#[test]
fn commits(rt: HostRuntime) -> Result<(), Fail> {
    let out = commit(rt.alloc())?;
    let read = (part(&out, 0, 16), committed(&out));
    assert_eq!(rt; read, (b"SPLITJC1\x03\0\0\0\0\0\0\0".as_slice(), Some(3)));
    assert!(rt; homes(rt.alloc(), &out)?.is_none());
    Ok(())
}

#[test]
fn descriptors(rt: HostRuntime) -> Result<(), Fail> {
    let out = descriptor(rt.alloc())?;
    let homes = found(homes(rt.alloc(), &out)?)?;
    let read = (part(&out, 0, 24), homes.as_slice(), committed(&out));
    let start = b"SPLITJD1\x03\0\0\0\x02\0\0\0\x01\0\0\0\x05\x01\0\0".as_slice();
    assert_eq!(rt; read, (start, [1, 261].as_slice(), None));
    Ok(())
}
