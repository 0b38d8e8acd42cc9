//! Stores of tags.
ghost use Rattle.std.specs.Prelude.{◌≡◌, ◌+◌, ◌≤◌, ℕ, [], ◌∷◌, IfOk, IsOk, OnOk, OnErr};
ghost use Rattle.split_types.specs.Sets.{union_of, IsSet};
ghost use Rattle.cause_set.specs.Tags.{Tags, Moved, no_use, one_use};

use crate::Causes;
use split_types::Pid;
use std::alloc::AllocError;

/// A store of sets of processes, each behind tags.
///
/// A tag has a number, and a store may give one number several times: each time is one use. What a
/// store knows is seen as `now`: how often each number is in use, the members of each number, and for
/// how many more uses there is room. `Moved` says what a call does to that: which uses went, which
/// came, and that each number with more uses than went keeps its members.
///
/// A tag that is dropped and not released stays in use. Want of memory changes nothing that is in use.
/// Once there was made room for n uses, the next n calls that give a tag succeed.
pub trait TagStore {
    type Tag: Drop;

    ghost number: { Self.Tag → ℕ };

    ghost now: { Self → Tags };

    /// A tag with the one member `p`.
    fn single(&mut self, p: Pid) -> Result<Self::Tag, AllocError>
        requires first { 1 ≤ p.0 }
        requires last { p.0 ≤ 256 }
        ensures moved { IfOk result (λ t. Moved (now self.old) (now self.new) no_use (one_use (number t))) }
        ensures set { IfOk result (λ t. (now self.new).members (number t) ≡ p.0 ∷ []) }
        ensures err { OnErr result (Moved (now self.old) (now self.new) no_use no_use) }
        ensures spare { (now self.old).spare ≤ (now self.new).spare + 1 }
        ensures succeeds { 1 ≤ (now self.old).spare → IsOk result };

    /// A tag with the members of two tags, which may be one.
    fn join(&mut self, a: &Self::Tag, b: &Self::Tag) -> Result<Self::Tag, AllocError>
        requires a { 1 ≤ (now self.old).uses (number a.now) }
        requires b { 1 ≤ (now self.old).uses (number b.now) }
        ensures moved { IfOk result (λ t. Moved (now self.old) (now self.new) no_use (one_use (number t))) }
        ensures set { IfOk result (λ t. (now self.new).members (number t)
            ≡ union_of ((now self.old).members (number a.now) ∷ (now self.old).members (number b.now) ∷ [])) }
        ensures err { OnErr result (Moved (now self.old) (now self.new) no_use no_use) }
        ensures spare { (now self.old).spare ≤ (now self.new).spare + 1 }
        ensures succeeds { 1 ≤ (now self.old).spare → IsOk result };

    /// One more tag with the members of `t`.
    fn again(&mut self, t: &Self::Tag) -> Result<Self::Tag, AllocError>
        requires { 1 ≤ (now self.old).uses (number t.now) }
        ensures moved { IfOk result (λ u. Moved (now self.old) (now self.new) no_use (one_use (number u))) }
        ensures set { IfOk result (λ u. (now self.new).members (number u) ≡ (now self.old).members (number t.now)) }
        ensures is_set { IfOk result (λ u. IsSet ((now self.new).members (number u))) }
        ensures err { OnErr result (Moved (now self.old) (now self.new) no_use no_use) }
        ensures spare { (now self.old).spare ≤ (now self.new).spare + 1 }
        ensures succeeds { 1 ≤ (now self.old).spare → IsOk result };

    /// The members of a tag.
    fn members(&self, t: &Self::Tag) -> &Causes
        requires { 1 ≤ (now self.now).uses (number t.now) }
        ensures value { result.now ≡ (now self.now).members (number t.now) }
        ensures is_set { IsSet result.now };

    /// Ends the use of a tag.
    fn release(&mut self, t: Self::Tag)
        requires { 1 ≤ (now self.old).uses (number t) }
        ensures moved { Moved (now self.old) (now self.new) (one_use (number t)) no_use }
        ensures spare { (now self.old).spare ≤ (now self.new).spare };

    /// Makes room for `n` more uses.
    fn room(&mut self, n: u32) -> Result<(), AllocError>
        ensures moved { Moved (now self.old) (now self.new) no_use no_use }
        ensures ok { OnOk result (n ≤ (now self.new).spare) }
        ensures spare { (now self.old).spare ≤ (now self.new).spare };
}
