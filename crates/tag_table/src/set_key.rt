//! A set as a key.
ghost use Rattle.std.specs.Prelude.{◌≡◌};
ghost use Rattle.tag_table.specs.Codes.{mixed};

use cause_set::Causes;
use fixed_places::Key;

/// An odd number whose powers spread what they multiply over all bits.
const MIXER: u64 = 15_463_147_297_127_640_467;

/// A set by which its row is found.
#[derive(Clone, Copy, Debug)]
pub(crate) struct SetKey(pub(crate) Causes);

/// The code so far, with one more word of the set.
fn mixed(code: u64, word: u64) -> u64
    ensures { result ≡ mixed code word }
{
    code.wrapping_mul(MIXER).wrapping_add(word)
}

impl Key for SetKey {
    ghost use Rattle.tag_table.specs.Codes.{code_of};

    ghost code_of = { λ key. code_of key.0 };

    fn code(&self) -> u64 {
        let [a, b, c, d] = self.0.words();
        mixed(mixed(mixed(a, b), c), d)
    }

    fn is_same(&self, other: &SetKey) -> bool {
        self.0.is_same(&other.0)
    }
}
