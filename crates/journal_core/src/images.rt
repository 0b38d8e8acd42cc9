//! The blocks of metadata: their places, and their images in memory.
ghost use Rattle.std.specs.Prelude.{◌≡◌, ℕ, ◌+◌, ◌<◌, ◌≤◌, if◌then◌else◌, length};
ghost use Rattle.split_types.specs.Parents.{buffer_at};
ghost use Rattle.split_types.specs.LiveFiles.{metadata_block};
ghost use Rattle.small_fs.specs.Metadata.{IsMetadata};
ghost use Rattle.journal_core.specs.Places.{place_of, images_taken};

use small_fs::Fs;
use split_types::{Buf, Slot};

/// How many bytes a block has.
pub(crate) const BLOCK: usize = 4096;

/// How many blocks of metadata there are: the bitmap, 4 of the directory, and 256 inodes.
pub(crate) const BLOCKS: usize = 261;

/// The place of a buffer among the blocks of metadata.
pub(crate) fn place_of(b: Buf) -> usize
    requires { IsMetadata b }
    ensures place { result ≡ place_of b }
    ensures within { result < 261 }
{
    match b {
        Buf::Bitmap | Buf::Page(_, _) => 0,
        Buf::Dir(k) => 1 + k as usize,
        Buf::Inode(slot) => 5 + slot.0 as usize,
    }
}

/// The buffer of a place.
fn buffer_at(place: usize) -> Buf
    requires { place < 261 }
    ensures buffer { result ≡ buffer_at (place + 1) }
    ensures metadata { IsMetadata result }
{
    let block = place as u32 + 1;
    if block == 1 {
        Buf::Bitmap
    } else if block < 6 {
        Buf::Dir(block - 2)
    } else {
        Buf::Inode(Slot(block - 6))
    }
}

/// Takes the image of a buffer anew where it is marked.
fn retake(fs: &Fs, place: usize, is_marked: bool, image: &mut [u8; BLOCK])
    requires { place < 261 }
    ensures { image.new
        ≡ (if is_marked then metadata_block fs.now.first fs.now.slots (buffer_at (place + 1)) else image.old) }
{
    if is_marked {
        fs.image(buffer_at(place), image);
    }
}

/// Takes the images of all marked buffers anew.
pub(crate) fn take_images<T>(fs: &Fs, marks: &[Option<T>], images: &mut Vec<[u8; BLOCK]>)
    requires few { length marks.now ≤ 261 }
    requires images { length images.old.items ≡ length marks.now }
    ensures { images.new.items ≡ images_taken fs.now.first fs.now.slots marks.now images.old.items }
{
    for (place, mark) in marks.iter().enumerate() {
        retake(fs, place, mark.is_some(), &mut images[place]);
    }
}
