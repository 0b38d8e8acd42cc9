// Where bytes come from.
ghost use Rattle.std.specs.Prelude.{◌≡◌, ℕ, ◌+◌, ◌<◌, ◌≤◌, min, List, [], ◌++◌, length, take, drop, Option};
ghost use Rattle.std.specs.Io.{ReadsAtMost};
ghost use Rattle.std.specs.Io.KnownBytes.{ReadConsumes};
ghost use Rattle.outside.specs.Faults.{HasCause};

/// A call of the outside failed.
#[derive(Clone, Copy, Debug, PartialEq, Eq)]
pub struct Failed;

/// Where bytes come from.
pub trait Source {
    // The bytes not yet taken, where told.
    ghost left: { Self → Option (List ℕ) };

    // How often it has failed.
    ghost faults: { Self → ℕ };

    /// Moves the next bytes to the front of `into` and says how many: none only at the end.
    fn read(&mut self, into: &mut [u8]) -> Result<usize, Failed>
        requires { 0 < length into.old }
        ensures bound { ReadsAtMost result into.new }
        ensures bytes { ReadConsumes (left self.old) (left self.new) result into.new }
        ensures cause { HasCause (faults self.old) (faults self.new) result };
}

/// Copies the front of the bytes, at most as many as `most`, and says how many.
pub(crate) fn give(bytes: &[u8], most: usize, into: &mut [u8]) -> usize
    requires { 0 < most }
    ensures count { result ≡ min (min (length into.new) most) (length bytes.now) }
    ensures bound { result ≤ length into.new }
    ensures within { result ≤ length bytes.now }
    ensures front { bytes.now ≡ take result into.new ++ drop result bytes.now }
    ensures end { result ≡ 0 → 0 < length into.new → bytes.now ≡ [] }
{
    let count = into.len().min(most).min(bytes.len());
    into[..count].copy_from_slice(&bytes[..count]);
    count
}
