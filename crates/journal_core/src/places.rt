//! Tags for the blocks of metadata, or for the slots of the journal.
ghost use Rattle.std.specs.Prelude.{◌≡◌, ℕ, ◌+◌, ◌^◌, ◌<◌, ◌≤◌, length, replicate, map, Some, None, slice_set, slice_index_or, vec_capacity, IfOk, IfNone, IfSome, IsOk, IsSome, OnOk, OnErr, option_map};
ghost use Rattle.cause_set.specs.Tags.{Moved, no_use, one_use, same, numbers, use_in, held};
ghost use Rattle.journal_core.specs.Causes.{Covered, causes_at, wider, whole_of};
ghost use Rattle.journal_core.specs.Places.{blocks_of};

use crate::tagging::{empty_places, free, free_all, put, union, widened};
use cause_set::TagStore;
use std::alloc::{AllocError, Global};
use std::marker::Model;

/// Places, each with a tag or empty.
#[derive(Drop)]
pub(crate) struct Places<S: TagStore> {
    tags: Vec<Option<S::Tag>>,
    // How many places have a tag.
    taken: u32,
}

impl<S: TagStore> Model for Places<S> {
    ghost use Rattle.std.specs.Prelude.{ℕ, List, Option};
    ghost use Rattle.cause_set.specs.Tags.{numbers};
    ghost use Rattle.journal_core.specs.Places.{IsCounted};

    ghost Value = { List (Option ℕ) };

    ghost view = { λ p. numbers S.number p.tags.items };

    ghost invariant = { λ p. IsCounted p.tags.items p.taken };
}

impl<S: TagStore> Places<S> {
    /// That many empty places.
    pub(crate) fn new(alloc: Global, places: usize) -> Result<Places<S>, AllocError>
        requires { places < 2 ^ 32 }
        ensures { IfOk result (λ made. made ≡ replicate places None) }
    {
        Ok(Places {
            tags: empty_places::<S>(alloc, places)?,
            taken: 0,
        })
    }

    /// How many places have a tag.
    pub(crate) fn taken(&self) -> u32
        ensures { result ≡ length (blocks_of self.now) }
    {
        self.taken
    }

    /// How many places there are.
    pub(crate) fn places(&self) -> usize
        ensures { result ≡ length self.now }
    {
        self.tags.len()
    }

    /// The tag in a place.
    pub(crate) fn get(&self, at: usize) -> Option<&S::Tag>
        requires { at < length self.now }
        ensures { option_map (λ t. S.number t.now) result ≡ slice_index_or self.now at None }
    {
        self.tags[at].as_ref()
    }

    /// The places.
    pub(crate) fn as_slice(&self) -> &[Option<S::Tag>]
        ensures { numbers S.number result.now ≡ self.now }
    {
        self.tags.as_slice()
    }

    /// Joins what `by` has to what a place has.
    pub(crate) fn mark(&mut self, tags: &mut S, at: usize, by: &S::Tag) -> Result<(), AllocError>
        requires at { at < length self.old }
        requires places { Covered (held same self.old) (S.now tags.old) }
        requires by { 1 ≤ (S.now tags.old).uses (S.number by.now) }
        ensures moved { Moved (S.now tags.old) (S.now tags.new) (held same self.old) (held same self.new) }
        ensures set { OnOk result (causes_at same (S.now tags.new) self.new
            ≡ slice_set (causes_at same (S.now tags.old) self.old) at
            (Some (wider (slice_index_or (causes_at same (S.now tags.old) self.old) at None)
            ((S.now tags.old).members (S.number by.now))))) }
        ensures len { length self.new ≡ length self.old }
        ensures err { OnErr result (self.new ≡ self.old) }
        ensures err_store { OnErr result (Moved (S.now tags.old) (S.now tags.new) no_use no_use) }
        ensures spare { (S.now tags.old).spare ≤ (S.now tags.new).spare + 1 }
        ensures succeeds { 1 ≤ (S.now tags.old).spare → IsOk result }
    {
        let t = widened(tags, &self.tags[at], by)?;
        self.put(tags, at, t);
        Ok(())
    }

    /// Puts a tag into a place; the tag that was there is released.
    pub(crate) fn put(&mut self, tags: &mut S, at: usize, t: S::Tag)
        requires at { at < length self.old }
        requires places { Covered (held same self.old) (S.now tags.old) }
        ensures places { self.new ≡ slice_set self.old at (Some (S.number t)) }
        ensures moved { Moved (S.now tags.old) (S.now tags.new) (use_in same (slice_index_or self.old at None)) no_use }
        ensures spare { (S.now tags.old).spare ≤ (S.now tags.new).spare }
    {
        let was_taken = self.tags[at].is_some();
        put(tags, &mut self.tags[at], t);
        self.taken += u32::from(!was_taken);
    }

    /// Empties a place; its tag is released.
    pub(crate) fn free(&mut self, tags: &mut S, at: usize)
        requires at { at < length self.old }
        requires places { Covered (held same self.old) (S.now tags.old) }
        ensures places { self.new ≡ slice_set self.old at None }
        ensures moved { Moved (S.now tags.old) (S.now tags.new) (use_in same (slice_index_or self.old at None)) no_use }
        ensures spare { (S.now tags.old).spare ≤ (S.now tags.new).spare }
    {
        let was_taken = self.tags[at].is_some();
        free(tags, &mut self.tags[at]);
        self.taken -= u32::from(was_taken);
    }

    /// Empties all places; their tags are released.
    pub(crate) fn free_all(&mut self, tags: &mut S)
        requires { Covered (held same self.old) (S.now tags.old) }
        ensures places { self.new ≡ replicate (length self.old) None }
        ensures moved { Moved (S.now tags.old) (S.now tags.new) (held same self.old) no_use }
        ensures spare { (S.now tags.old).spare ≤ (S.now tags.new).spare }
    {
        free_all(tags, &mut self.tags);
        self.taken = 0;
    }

    /// One tag for what all places have.
    pub(crate) fn union(&self, tags: &mut S) -> Result<S::Tag, AllocError>
        requires some { 0 < length (blocks_of self.now) }
        requires places { Covered (held same self.now) (S.now tags.old) }
        ensures moved { IfOk result (λ t. Moved (S.now tags.old) (S.now tags.new) no_use (one_use (S.number t))) }
        ensures set { IfOk result (λ t. Some ((S.now tags.new).members (S.number t))
            ≡ whole_of (causes_at same (S.now tags.old) self.now)) }
        ensures err { OnErr result (Moved (S.now tags.old) (S.now tags.new) no_use no_use) }
        ensures spare { (S.now tags.old).spare ≤ (S.now tags.new).spare + length self.now }
        ensures succeeds { length self.now ≤ (S.now tags.old).spare → IsOk result }
    {
        let made = union(tags, &self.tags)?;
        Ok(made.unwrap())
    }
}
