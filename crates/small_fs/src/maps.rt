//! Memory for the maps of files.
ghost use Rattle.std.specs.Prelude.{◌≡◌, ◌+◌, ◌<◌, ◌≤◌, replicate, IfOk, IsOk, OnOk, OnErr};

use crate::file::PAGES;
use std::alloc::{AllocError, Global};
use std::marker::Model;

/// Maps without blocks for files that are yet to be made. Contracts see for how many there is memory.
#[derive(Debug, Drop)]
pub(crate) struct Maps {
    maps: Vec<Vec<u32>>,
    // How many of them are promised.
    spare: u32,
}

impl Model for Maps {
    ghost use Rattle.std.specs.Prelude.{◌≡◌, ℕ, ◌≤◌, replicate, vec_len, All};

    ghost Value = { ℕ };

    ghost view = { λ m. m.spare };

    ghost invariant = { λ m. (m.spare ≤ vec_len m.maps) × All (λ map. map.items ≡ replicate 1008 0) m.maps.items };
}

/// A map of which no page has a block.
pub(crate) fn empty_map(alloc: Global) -> Result<Vec<u32>, AllocError>
    ensures { IfOk result (λ map. map.items ≡ replicate 1008 0) }
{
    let map = vec![in alloc; 0; PAGES]?;
    Ok(map)
}

impl Maps {
    /// Memory for no file.
    pub(crate) fn new(alloc: Global) -> Maps
        ensures { result ≡ 0 }
    {
        Maps {
            maps: Vec::new(alloc),
            spare: 0,
        }
    }

    /// Takes memory for `n` files in all.
    pub(crate) fn room(&mut self, alloc: Global, n: u32) -> Result<(), AllocError>
        ensures ok { OnOk result (n ≤ self.new) }
        ensures spare { self.old ≤ self.new }
        ensures err { OnErr result (self.new ≡ self.old) }
        ensures succeeds { n ≤ self.old → IsOk result }
    {
        if n <= self.spare {
            return Ok(());
        }
        while self.maps.len() < n as usize {
            let map = empty_map(alloc)?;
            self.maps.push(map)?;
        }
        self.spare = n;
        Ok(())
    }

    /// A map of which no page has a block.
    pub(crate) fn take(&mut self, alloc: Global) -> Result<Vec<u32>, AllocError>
        ensures map { IfOk result (λ map. map.items ≡ replicate 1008 0) }
        ensures spare { OnOk result (self.old ≤ self.new + 1) }
        ensures err { OnErr result (self.new ≡ self.old) }
        ensures succeeds { 0 < self.old → IsOk result }
    {
        match self.maps.pop() {
            None => empty_map(alloc),
            Some(map) => {
                self.spare = self.spare.saturating_sub(1);
                Ok(map)
            }
        }
    }
}
