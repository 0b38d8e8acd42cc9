//! The buffers that the seals of a round took, until they go to their homes.
ghost use Rattle.std.specs.Prelude.{◌≡◌, ℕ, ◌+◌, ◌-◌, ◌^◌, ◌<◌, ◌≤◌, length, replicate, None, slice_get, slice_set, slice_index_or, IfOk, IsOk, OnOk, OnErr, option_map, nat_lt};
ghost use Rattle.cause_set.specs.Tags.{Moved, no_use, same, numbers, use_in, held};
ghost use Rattle.journal_core.specs.Causes.{Covered, causes_at, joined_all};
ghost use Rattle.journal_core.specs.Places.{blocks_of, place_in};

use crate::tagging::{empty_places, free, free_all, join_all, list_blocks};
use cause_set::TagStore;
use std::alloc::{AllocError, Global};
use std::marker::Model;
use std::mem;

/// For each block of metadata that a seal of the round took and no home request has carried, one tag for all whom it
/// was changed for before these seals.
#[derive(Drop)]
pub(crate) struct Round<S: TagStore> {
    tags: Vec<Option<S::Tag>>,
    // Always empty: what a seal makes of the tags comes here first, so that want of memory leaves them as they are.
    next: Vec<Option<S::Tag>>,
    // The home blocks of the round, rising, and how many of them were carried.
    homes: Vec<u32>,
    carried: usize,
}

impl<S: TagStore> Model for Round<S> {
    ghost use Rattle.std.specs.Prelude.{ℕ, List, Option, vec_capacity};
    ghost use Rattle.cause_set.specs.Tags.{numbers};
    ghost use Rattle.journal_core.specs.Places.{IsRound};

    ghost Value = { List (Option ℕ) };

    ghost view = { λ r. numbers S.number r.tags.items };

    ghost invariant = { λ r. IsRound r.tags.items r.next.items r.homes.items r.carried (vec_capacity r.homes) };
}

impl<S: TagStore> Round<S> {
    /// No buffer was taken; there are that many blocks.
    pub(crate) fn new(alloc: Global, blocks: usize) -> Result<Round<S>, AllocError>
        requires { blocks < 2 ^ 32 }
        ensures { IfOk result (λ made. made ≡ replicate blocks None) }
    {
        Ok(Round {
            tags: empty_places::<S>(alloc, blocks)?,
            next: empty_places::<S>(alloc, blocks)?,
            homes: Vec::with_capacity(alloc, blocks)?,
            carried: 0,
        })
    }

    /// Takes the marked buffers besides; nothing changes after want of memory.
    pub(crate) fn take(&mut self, tags: &mut S, marks: &[Option<S::Tag>]) -> Result<(), AllocError>
        requires blocks { length marks.now ≡ length self.old }
        requires uses { (n : ℕ) → held same self.old n + held S.number marks.now n ≤ (S.now tags.old).uses n }
        ensures moved { Moved (S.now tags.old) (S.now tags.new) (held same self.old) (held same self.new) }
        ensures set { OnOk result (causes_at same (S.now tags.new) self.new
            ≡ joined_all (causes_at same (S.now tags.old) self.old) (causes_at S.number (S.now tags.old) marks.now)) }
        ensures err { OnErr result (self.new ≡ self.old) }
        ensures err_store { OnErr result (Moved (S.now tags.old) (S.now tags.new) no_use no_use) }
        ensures len { length self.new ≡ length self.old }
        ensures spare { (S.now tags.old).spare ≤ (S.now tags.new).spare + length self.old }
        ensures succeeds { length self.old ≤ (S.now tags.old).spare → IsOk result }
    {
        join_all(tags, &self.tags, marks, &mut self.next)?;
        mem::swap(&mut self.tags, &mut self.next);
        free_all(tags, &mut self.next);
        list_blocks(&self.tags, &mut self.homes);
        self.carried = 0;
        Ok(())
    }

    /// Whether home blocks are left to be carried.
    pub(crate) fn is_left(&self) -> bool
        ensures { result ≡ nat_lt 0 (length (blocks_of self.now)) }
    {
        self.carried < self.homes.len()
    }

    /// The home block that is carried next; `None` exactly where none is left.
    pub(crate) fn next(&self) -> Option<u32>
        ensures { result ≡ slice_get (blocks_of self.now) 0 }
    {
        if self.is_left() {
            Some(self.homes[self.carried])
        } else {
            None
        }
    }

    /// The tag of a block.
    pub(crate) fn get(&self, at: usize) -> Option<&S::Tag>
        requires { at < length self.now }
        ensures { option_map (λ t. S.number t.now) result ≡ slice_index_or self.now at None }
    {
        self.tags[at].as_ref()
    }

    /// The next home block is carried; its tag is released.
    pub(crate) fn carry(&mut self, tags: &mut S)
        requires some { 0 < length (blocks_of self.old) }
        requires places { Covered (held same self.old) (S.now tags.old) }
        ensures places { self.new ≡ slice_set self.old (place_in (slice_get (blocks_of self.old) 0)) None }
        ensures moved { Moved (S.now tags.old) (S.now tags.new)
            (use_in same (slice_index_or self.old (place_in (slice_get (blocks_of self.old) 0)) None)) no_use }
        ensures spare { (S.now tags.old).spare ≤ (S.now tags.new).spare }
    {
        let at = self.homes[self.carried] as usize - 1;
        free(tags, &mut self.tags[at]);
        self.carried += 1;
    }
}
