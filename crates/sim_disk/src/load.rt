//! What a write brings to its blocks.
ghost use Rattle.std.specs.Prelude.{◌≡◌, ◌/◌, length};
ghost use Rattle.sim_disk.specs.Load.{bytes_of};

use crate::blocks::BLOCK;
use crate::fills::Fills;

/// What a write brings to its blocks: a byte for each of them, that it has at each place, or their bytes.
#[derive(Drop)]
pub(crate) enum Load {
    Filled(Fills),
    Bytes(Vec<u8>),
}

impl Load {
    /// How many blocks there are.
    pub(crate) fn count(&self) -> usize
        ensures { result ≡ length (bytes_of self.now) / 4096 }
    {
        match self {
            Load::Filled(fills) => fills.len(),
            Load::Bytes(bytes) => bytes.len() / BLOCK,
        }
    }
}
