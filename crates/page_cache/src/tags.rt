//! Tags that change.
ghost use Rattle.std.specs.Prelude.{◌≡◌, ◌≤◌, ◌+◌, ℕ, [], ◌∷◌, IfOk, IsOk, OnErr, option_map};
ghost use Rattle.split_types.specs.Sets.{union_of};
ghost use Rattle.cause_set.specs.Tags.{Moved, no_use, one_use, same, use_in, set_in};

use cause_set::TagStore;
use split_types::Pid;
use std::alloc::AllocError;

/// A tag with the members of a tag, if there is one, and a process.
pub(crate) fn joined<S: TagStore>(
    tags: &mut S,
    tag: Option<&S::Tag>,
    by: Pid,
) -> Result<S::Tag, AllocError>
    requires first { 1 ≤ by.0 }
    requires last { by.0 ≤ 256 }
    requires live { (n : ℕ) → use_in same (option_map (λ t. S.number t.now) tag) n ≤ (S.now tags.old).uses n }
    ensures moved { IfOk result (λ t. Moved (S.now tags.old) (S.now tags.new) no_use (one_use (S.number t))) }
    ensures set { IfOk result (λ t. (S.now tags.new).members (S.number t)
        ≡ union_of (set_in same (S.now tags.old) (option_map (λ t. S.number t.now) tag.entry) ∷ (by.0 ∷ []) ∷ [])) }
    ensures err { OnErr result (Moved (S.now tags.old) (S.now tags.new) no_use no_use) }
    ensures spare { (S.now tags.old).spare ≤ (S.now tags.new).spare + 2 }
    ensures succeeds { 2 ≤ (S.now tags.old).spare → IsOk result }
{
    let alone = tags.single(by)?;
    match tag {
        None => Ok(alone),
        Some(t) => {
            let both = tags.join(t, &alone);
            tags.release(alone);
            both
        }
    }
}

/// A tag with the members of two tags; the first of them is released.
pub(crate) fn merged<S: TagStore>(
    tags: &mut S,
    whole: S::Tag,
    other: &S::Tag,
) -> Result<S::Tag, AllocError>
    requires whole { 1 ≤ (S.now tags.old).uses (S.number whole) }
    requires other { 1 ≤ (S.now tags.old).uses (S.number other.now) }
    ensures moved { IfOk result (λ t. Moved (S.now tags.old) (S.now tags.new) (one_use (S.number whole))
        (one_use (S.number t))) }
    ensures set { IfOk result (λ t. (S.now tags.new).members (S.number t)
        ≡ union_of ((S.now tags.old).members (S.number whole) ∷ (S.now tags.old).members (S.number other.now) ∷ [])) }
    ensures err { OnErr result (Moved (S.now tags.old) (S.now tags.new) (one_use (S.number whole)) no_use) }
    ensures spare { (S.now tags.old).spare ≤ (S.now tags.new).spare + 1 }
    ensures succeeds { 1 ≤ (S.now tags.old).spare → IsOk result }
{
    let both = tags.join(&whole, other);
    tags.release(whole);
    both
}

/// Ends the use of a tag, if there is one.
pub(crate) fn let_go<S: TagStore>(tags: &mut S, tag: Option<S::Tag>)
    requires live { (n : ℕ) → use_in S.number tag n ≤ (S.now tags.old).uses n }
    ensures moved { Moved (S.now tags.old) (S.now tags.new) (use_in S.number tag) no_use }
    ensures spare { (S.now tags.old).spare ≤ (S.now tags.new).spare }
{
    if let Some(t) = tag {
        tags.release(t);
    }
}
