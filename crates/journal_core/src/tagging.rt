//! Tags in places: each place has a tag of a store or is empty.
ghost use Rattle.std.specs.Prelude.{◌≡◌, ℕ, ◌+◌, ◌^◌, [], ◌∷◌, ◌++◌, if◌then◌else◌, vec_len, vec_capacity, ◌<◌, ◌≤◌, length, replicate, None, Some, IfOk, IfSome, IsOk, OnOk, OnErr};
ghost use Rattle.split_types.specs.Sets.{IsSet};
ghost use Rattle.cause_set.specs.Tags.{Moved, no_use, one_use, use_in, held};
ghost use Rattle.journal_core.specs.Causes.{Covered, causes_in, causes_at, wider, joined, joined_all, whole_of};
ghost use Rattle.journal_core.specs.Places.{blocks_of};

use cause_set::TagStore;
use std::alloc::{AllocError, Global};

/// That many empty places.
pub(crate) fn empty_places<S: TagStore>(
    alloc: Global,
    places: usize,
) -> Result<Vec<Option<S::Tag>>, AllocError>
    ensures { IfOk result (λ made. made.items ≡ replicate places None) }
{
    let mut made = Vec::with_capacity(alloc, places)?;
    for _ in 0..places {
        made.push_reserved(None);
    }
    Ok(made)
}

/// Empties a place; its tag is released.
pub(crate) fn free<S: TagStore>(tags: &mut S, place: &mut Option<S::Tag>)
    requires { Covered (use_in S.number place.old) (S.now tags.old) }
    ensures place { place.new ≡ None }
    ensures moved { Moved (S.now tags.old) (S.now tags.new) (use_in S.number place.old) no_use }
    ensures spare { (S.now tags.old).spare ≤ (S.now tags.new).spare }
{
    if let Some(t) = place.take() {
        tags.release(t);
    }
}

/// Puts a tag into a place; the tag that was there is released.
pub(crate) fn put<S: TagStore>(tags: &mut S, place: &mut Option<S::Tag>, t: S::Tag)
    requires { Covered (use_in S.number place.old) (S.now tags.old) }
    ensures place { place.new ≡ Some t }
    ensures moved { Moved (S.now tags.old) (S.now tags.new) (use_in S.number place.old) no_use }
    ensures spare { (S.now tags.old).spare ≤ (S.now tags.new).spare }
{
    if let Some(old) = place.replace(t) {
        tags.release(old);
    }
}

/// A tag for what a place has and for what `by` has.
pub(crate) fn widened<S: TagStore>(
    tags: &mut S,
    place: &Option<S::Tag>,
    by: &S::Tag,
) -> Result<S::Tag, AllocError>
    requires place { Covered (use_in S.number place.now) (S.now tags.old) }
    requires by { 1 ≤ (S.now tags.old).uses (S.number by.now) }
    ensures moved { IfOk result (λ t. Moved (S.now tags.old) (S.now tags.new) no_use (one_use (S.number t))) }
    ensures set { IfOk result (λ t. (S.now tags.new).members (S.number t)
        ≡ wider (causes_in S.number (S.now tags.old) place.now) ((S.now tags.old).members (S.number by.now))) }
    ensures is_set { IfOk result (λ t. IsSet ((S.now tags.new).members (S.number t))) }
    ensures err { OnErr result (Moved (S.now tags.old) (S.now tags.new) no_use no_use) }
    ensures spare { (S.now tags.old).spare ≤ (S.now tags.new).spare + 1 }
    ensures succeeds { 1 ≤ (S.now tags.old).spare → IsOk result }
{
    match place {
        None => tags.again(by),
        Some(t) => tags.join(t, by),
    }
}

/// A tag for what two places have, or none where both are empty.
pub(crate) fn both<S: TagStore>(
    tags: &mut S,
    place: &Option<S::Tag>,
    other: &Option<S::Tag>,
) -> Result<Option<S::Tag>, AllocError>
    requires place { Covered (use_in S.number place.now) (S.now tags.old) }
    requires other { Covered (use_in S.number other.now) (S.now tags.old) }
    ensures moved { IfOk result (λ made. Moved (S.now tags.old) (S.now tags.new) no_use (use_in S.number made)) }
    ensures set { IfOk result (λ made. causes_in S.number (S.now tags.new) made
        ≡ joined (causes_in S.number (S.now tags.old) place.now) (causes_in S.number (S.now tags.old) other.now)) }
    ensures err { OnErr result (Moved (S.now tags.old) (S.now tags.new) no_use no_use) }
    ensures spare { (S.now tags.old).spare ≤ (S.now tags.new).spare + 1 }
    ensures succeeds { 1 ≤ (S.now tags.old).spare → IsOk result }
{
    match (place, other) {
        (None, None) => Ok(None),
        (Some(t), None) => Ok(Some(tags.again(t)?)),
        (_, Some(by)) => Ok(Some(widened(tags, place, by)?)),
    }
}

/// Empties all places; their tags are released.
pub(crate) fn free_all<S: TagStore>(tags: &mut S, places: &mut Vec<Option<S::Tag>>)
    requires { Covered (held S.number places.old.items) (S.now tags.old) }
    ensures places { places.new.items ≡ replicate (length places.old.items) None }
    ensures moved { Moved (S.now tags.old) (S.now tags.new) (held S.number places.old.items) no_use }
    ensures spare { (S.now tags.old).spare ≤ (S.now tags.new).spare }
{
    for at in 0..places.len() {
        free(tags, &mut places[at]);
    }
}

/// Joins what a place has to `whole`, whose tag is given up for one of both.
fn with_place<S: TagStore>(
    tags: &mut S,
    mut whole: Option<S::Tag>,
    place: &Option<S::Tag>,
) -> Result<Option<S::Tag>, AllocError>
    requires { (n : ℕ) → use_in S.number whole n + use_in S.number place.now n ≤ (S.now tags.old).uses n }
    ensures moved { IfOk result (λ made.
        Moved (S.now tags.old) (S.now tags.new) (use_in S.number whole) (use_in S.number made)) }
    ensures set { IfOk result (λ made. causes_in S.number (S.now tags.new) made
        ≡ joined (causes_in S.number (S.now tags.old) whole) (causes_in S.number (S.now tags.old) place.now)) }
    ensures is_set { IfOk result (λ made.
        IfSome place.now (λ _. IfSome (causes_in S.number (S.now tags.new) made) IsSet)) }
    ensures err { OnErr result (Moved (S.now tags.old) (S.now tags.new) (use_in S.number whole) no_use) }
    ensures spare { (S.now tags.old).spare ≤ (S.now tags.new).spare + 1 }
    ensures succeeds { 1 ≤ (S.now tags.old).spare → IsOk result }
{
    let Some(by) = place else {
        return Ok(whole);
    };
    let made = widened(tags, &whole, by);
    free(tags, &mut whole);
    Ok(Some(made?))
}

/// One tag for what all places have, or none where all are empty.
pub(crate) fn union<S: TagStore>(
    tags: &mut S,
    places: &[Option<S::Tag>],
) -> Result<Option<S::Tag>, AllocError>
    requires { Covered (held S.number places.now) (S.now tags.old) }
    ensures moved { IfOk result (λ made. Moved (S.now tags.old) (S.now tags.new) no_use (use_in S.number made)) }
    ensures set { IfOk result (λ made. causes_in S.number (S.now tags.new) made
        ≡ whole_of (causes_at S.number (S.now tags.old) places.now)) }
    ensures err { OnErr result (Moved (S.now tags.old) (S.now tags.new) no_use no_use) }
    ensures spare { (S.now tags.old).spare ≤ (S.now tags.new).spare + length places.now }
    ensures succeeds { length places.now ≤ (S.now tags.old).spare → IsOk result }
{
    let mut whole = None;
    for place in places {
        whole = with_place(tags, whole, place)?;
    }
    Ok(whole)
}

/// Puts tags for what two lists have, place by place, into empty places. After want of memory they are empty again.
pub(crate) fn join_all<S: TagStore>(
    tags: &mut S,
    places: &[Option<S::Tag>],
    others: &[Option<S::Tag>],
    into: &mut Vec<Option<S::Tag>>,
) -> Result<(), AllocError>
    requires uses { (n : ℕ) → held S.number places.now n + held S.number others.now n ≤ (S.now tags.old).uses n }
    requires others { length others.now ≡ length places.now }
    requires empty { into.old.items ≡ replicate (length places.now) None }
    ensures moved { Moved (S.now tags.old) (S.now tags.new) no_use (held S.number into.new.items) }
    ensures set { OnOk result (causes_at S.number (S.now tags.new) into.new.items
        ≡ joined_all
        (causes_at S.number (S.now tags.old) places.now) (causes_at S.number (S.now tags.old) others.now)) }
    ensures len { OnOk result (length into.new.items ≡ length places.now) }
    ensures err { OnErr result (into.new.items ≡ replicate (length places.now) None) }
    ensures spare { (S.now tags.old).spare ≤ (S.now tags.new).spare + length places.now }
    ensures succeeds { length places.now ≤ (S.now tags.old).spare → IsOk result }
{
    for at in 0..places.len() {
        match both(tags, &places[at], &others[at]) {
            Ok(made) => into[at] = made,
            Err(error) => {
                free_all(tags, into);
                return Err(error);
            }
        }
    }
    Ok(())
}

/// Lists the blocks whose places have a tag, rising.
pub(crate) fn list_blocks<T>(places: &[Option<T>], into: &mut Vec<u32>)
    requires few { length places.now < 2 ^ 32 }
    requires room { length places.now ≤ vec_capacity into.old }
    ensures blocks { into.new.items ≡ blocks_of places.now }
    ensures room { vec_capacity into.new ≡ vec_capacity into.old }
{
    into.clear();
    for (at, place) in places.iter().enumerate() {
        list_block(place.is_some(), at as u32 + 1, into);
    }
}

/// Adds a block to a list.
fn list_block(is_taken: bool, block: u32, into: &mut Vec<u32>)
    requires { vec_len into.old < vec_capacity into.old }
    ensures blocks { into.new.items ≡ into.old.items ++ (if is_taken then block ∷ [] else []) }
    ensures room { vec_capacity into.new ≡ vec_capacity into.old }
{
    if is_taken {
        into.push_reserved(block);
    }
}
