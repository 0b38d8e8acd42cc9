//! The name of a file as a key.
ghost use Rattle.std.specs.Prelude.{◌≡◌};
ghost use Rattle.workload_reader.specs.FileNames.{code_of};

use fixed_places::Key;
use split_types::Name;

/// The name of a file.
#[derive(Clone, Copy, Debug)]
pub(crate) struct FileName(pub(crate) Name);

/// A number that tells most names apart.
fn code_of(name: &[u8]) -> u64
    ensures { result ≡ code_of name.now }
{
    name.iter().fold(
        0u64,
        |code, byte| code.wrapping_mul(31).wrapping_add(u64::from(*byte)),
    )
}

impl Key for FileName {
    ghost use Rattle.workload_reader.specs.FileNames.{code_of};

    ghost code_of = { λ name. code_of name.0 };

    fn code(&self) -> u64 {
        code_of(self.0.as_slice())
    }

    fn is_same(&self, other: &Self) -> bool {
        self.0.as_slice() == other.0.as_slice()
    }
}
