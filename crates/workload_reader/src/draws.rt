//! Numbers that look as if they came by chance.
ghost use Rattle.std.specs.Prelude.{◌≡◌, ◌+◌, ◌<◌, ℕ};
ghost use Rattle.workload_reader.specs.Generated.{state, drawn};

/// A sequence of numbers, of which each comes from the one before.
#[derive(Clone, Copy, Debug)]
pub(crate) struct Draws {
    pub(crate) state: u32,
}

impl Draws {
    #[tactic(auto, using(crate::proofs::GeneratedLaws::state_more))]
    /// The next draw: one of the numbers below `most`.
    pub(crate) fn below(&mut self, most: u32) -> u32
        requires { 0 < most }
        ensures value { (n i : ℕ) → self.old.state ≡ state n i → result ≡ drawn n i most }
        ensures next { (n i : ℕ) → self.old.state ≡ state n i → self.new.state ≡ state n (i + 1) }
        ensures few { result < most }
    {
        let next = (1_664_525 * u64::from(self.state) + 1_013_904_223) % 4_294_967_296;
        self.state = next as u32;
        self.state / 65536 % most
    }
}
