//! The bytes that a write carries.
ghost use Rattle.std.specs.Prelude.{◌≡◌};
ghost use Rattle.sim_disk.specs.Bytes.{spread};
ghost use Rattle.split_core.specs.Cargo.{bytes_of};

use sim_disk::Fills;
use std::marker::Model;

/// The bytes of a write: one for each page, where it is known that each page has one at each place, or each of them.
#[derive(Drop)]
pub(crate) enum Load {
    Filled(Fills),
    Bytes(Vec<u8>),
}

/// The bytes that a write carries. They take no memory where it is known of each page that one byte fills it.
#[derive(Drop)]
pub(crate) struct Cargo {
    load: Load,
}

impl Model for Cargo {
    ghost use Rattle.std.specs.Prelude.{ℕ, List};
    ghost use Rattle.split_core.specs.Cargo.{bytes_of};

    ghost Value = { List ℕ };

    ghost view = { λ c. bytes_of c.load };
}

impl Cargo {
    /// The bytes of pages that are filled with these.
    pub(crate) fn filled(fills: Fills) -> Cargo
        ensures { result ≡ spread fills }
    {
        Cargo {
            load: Load::Filled(fills),
        }
    }

    /// These bytes.
    pub(crate) fn of(bytes: Vec<u8>) -> Cargo
        ensures { result ≡ bytes.items }
    {
        Cargo {
            load: Load::Bytes(bytes),
        }
    }

    /// The bytes as they are kept.
    pub(crate) fn into_load(self) -> Load
        ensures { bytes_of result ≡ self }
    {
        self.load
    }
}
