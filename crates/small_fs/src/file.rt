//! A live file.
ghost use Rattle.std.specs.Prelude.{◌≡◌, ◌+◌, ◌<◌, ◌≤◌, replicate, length, map, slice_set, Some};
ghost use Rattle.split_types.specs.LiveFiles.{made_file, grown_file, block_of_page, blocks_of, pointer};

use fs_layout::DirEntry;
use split_types::{Name, Serial};
use std::marker::Model;

/// How many pages a file can have.
pub(crate) const PAGES: usize = 1008;

/// A live file. Its size is what its calls see, and its disk size what its inode says, in bytes.
#[derive(Debug, Drop)]
pub(crate) struct File {
    serial: Serial,
    name: Name,
    size: u32,
    disk_size: u32,
    // The block of each page, 0 where it has none.
    pointers: Vec<u32>,
    // No page from here on has a block.
    mapped: u32,
}

impl Model for File {
    ghost use Rattle.split_types.specs.LiveFiles.{LiveFile};

    ghost Value = { LiveFile };

    ghost use Rattle.small_fs.specs.Pointers.{file_of, IsFile};

    ghost view = { file_of };

    ghost invariant = { IsFile };
}

impl File {
    /// An empty file, with a map of which no page has a block.
    pub(crate) fn made(serial: Serial, name: Name, pointers: Vec<u32>) -> File
        requires serial { serial.0 < 4294967295 }
        requires map { pointers.items ≡ replicate 1008 0 }
        ensures { result ≡ made_file serial name }
    {
        File {
            serial,
            name,
            size: 0,
            disk_size: 0,
            pointers,
            mapped: 0,
        }
    }

    /// The size that its calls see, in bytes.
    pub(crate) fn size(&self) -> u32
        ensures { result ≡ self.now.size }
    {
        self.size
    }

    /// The size that its inode says, in bytes.
    pub(crate) fn disk_size(&self) -> u32
        ensures { result ≡ self.now.disk_size }
    {
        self.disk_size
    }

    /// The block of a page, none where it has none.
    pub(crate) fn block(&self, page: u32) -> Option<u32>
        requires { page < 1008 }
        ensures { result ≡ block_of_page self.now page }
    {
        let block = self.pointers[page as usize];
        if block == 0 { None } else { Some(block) }
    }

    /// Makes the size the greater of the old and the given one.
    pub(crate) fn grow(&mut self, size: u32)
        ensures { self.new ≡ grown_file size self.old }
    {
        self.size = self.size.max(size);
    }

    /// Sets the size that its inode says.
    pub(crate) fn set_disk_size(&mut self, size: u32)
        ensures { self.new ≡ record self.old { disk_size = size } }
    {
        self.disk_size = size;
    }

    /// Gives a page a block; the block that it had is handed out.
    pub(crate) fn set_block(&mut self, page: u32, block: u32) -> Option<u32>
        requires page { page < 1008 }
        requires block { 0 < block }
        ensures had { result ≡ block_of_page self.old page }
        ensures has { self.new ≡ record self.old { blocks = slice_set self.old.blocks page (Some block) } }
    {
        let had = self.block(page);
        self.pointers[page as usize] = block;
        self.mapped = self.mapped.max(page + 1);
        had
    }

    /// The blocks that its pages have, by rising page.
    pub(crate) fn into_blocks(self) -> Vec<u32>
        ensures { result.items ≡ blocks_of self }
    {
        let mut blocks = self.pointers;
        blocks.truncate(self.mapped as usize);
        blocks.retain(|block| *block != 0);
        blocks
    }

    /// Its entry in the directory.
    pub(crate) fn entry(&self) -> DirEntry
        ensures same { result ≡ record { serial = self.now.serial; name = self.now.name } }
        ensures fits { self.now.serial.0 < 4294967295 }
    {
        DirEntry {
            serial: self.serial,
            name: self.name,
        }
    }

    /// Its serial.
    pub(crate) fn serial(&self) -> Serial
        ensures same { result ≡ self.now.serial }
        ensures fits { result.0 < 4294967295 }
    {
        self.serial
    }

    /// The block of each page, 0 where it has none.
    pub(crate) fn pointers(&self) -> &[u32]
        ensures blocks { result.now ≡ map pointer self.now.blocks }
        ensures pages { length result.now ≡ 1008 }
    {
        &self.pointers
    }
}
