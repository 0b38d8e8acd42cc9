// Where bytes go to.
ghost use Rattle.std.specs.Prelude.{◌≡◌, ℕ, ◌<◌, ◌≤◌, List, length, Option, None, IfOk};
ghost use Rattle.std.specs.Io.KnownBytes.{WriteAppends};
ghost use Rattle.outside.specs.Faults.{HasCause};

use crate::source::Failed;

/// Where bytes go to.
pub trait Sink {
    // The bytes taken, where told.
    ghost held: { Self → Option (List ℕ) };

    // How often it has failed.
    ghost faults: { Self → ℕ };

    // How many bytes it can hold, where told.
    ghost room: { Self → Option ℕ } = { λ _. None };

    /// Takes the front of `from` and says how many bytes: at least one, since a sink that takes
    /// nothing fails.
    fn write(&mut self, from: &[u8]) -> Result<usize, Failed>
        requires { 0 < length from.now }
        ensures some { IfOk result (λ k. 0 < k) }
        ensures bound { IfOk result (λ k. k ≤ length from.now) }
        ensures bytes { WriteAppends (held self.old) (held self.new) result from.now }
        ensures cause { HasCause (faults self.old) (faults self.new) result }
        ensures same_room { room self.new ≡ room self.old };
}
