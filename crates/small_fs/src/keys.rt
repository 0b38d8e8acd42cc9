//! By what a slot is found.
ghost use Rattle.std.specs.Prelude.{◌≡◌};
ghost use Rattle.small_fs.specs.Keys.{name_code};

use fixed_places::Key;
use split_types::{Name, Serial};

/// The name of a file, as a key.
#[derive(Clone, Copy, Debug)]
pub(crate) struct FileName(pub(crate) Name);

/// The serial of a file, as a key.
#[derive(Clone, Copy, Debug)]
pub(crate) struct FileSerial(pub(crate) Serial);

/// A number that tells most names apart.
fn code_of(name: &[u8]) -> u64
    ensures { result ≡ name_code name.now }
{
    name.iter().fold(
        0u64,
        |code, byte| code.wrapping_mul(31).wrapping_add(u64::from(*byte)),
    )
}

impl Key for FileName {
    ghost use Rattle.small_fs.specs.Keys.{name_code};

    ghost code_of = { λ key. name_code key.0 };

    fn code(&self) -> u64 {
        code_of(self.0.as_slice())
    }

    fn is_same(&self, other: &FileName) -> bool {
        self.0.as_slice() == other.0.as_slice()
    }
}

impl Key for FileSerial {
    ghost code_of = { λ key. key.0.0 };

    fn code(&self) -> u64 {
        u64::from(self.0.0)
    }

    fn is_same(&self, other: &FileSerial) -> bool {
        self.0.0 == other.0.0
    }
}
