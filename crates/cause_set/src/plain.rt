//! The plain store of tags.
ghost use Rattle.std.specs.Prelude.{◌≡◌, ◌+◌, ◌≤◌, ◌-◌, ℕ, [], IfOk, IsOk, OnOk, OnErr};
ghost use Rattle.split_types.specs.Sets.{IsSet};
ghost use Rattle.cause_set.specs.Tags.{Moved, no_use, one_use};
ghost use Rattle.cause_set.specs.PlainTags.{plain_tags};

use crate::{Causes, TagStore};
use slab::Slab;
use split_types::Pid;
use std::alloc::{AllocError, Global};

/// A store with one place for each use; a tag's number is its place.
#[derive(Drop)]
pub struct PlainTags {
    places: Slab<Causes>,
}

/// A tag of a plain store.
#[derive(Debug, Drop)]
pub struct PlainTag {
    place: usize,
}

impl PlainTags {
    /// A store without a tag.
    pub fn new(alloc: Global) -> Result<PlainTags, AllocError>
        ensures { IfOk result (λ store. (n : ℕ) → (plain_tags store).uses n ≡ 0) }
    {
        Ok(PlainTags {
            places: Slab::new(alloc),
        })
    }

    /// Keeps the set in a place of its own.
    fn put(&mut self, set: Causes) -> Result<PlainTag, AllocError>
        ensures moved { IfOk result (λ t. Moved (plain_tags self.old) (plain_tags self.new) no_use (one_use t.place)) }
        ensures set { IfOk result (λ t. (plain_tags self.new).members t.place ≡ set) }
        ensures err { OnErr result (Moved (plain_tags self.old) (plain_tags self.new) no_use no_use) }
        ensures spare { (plain_tags self.old).spare ≤ (plain_tags self.new).spare + 1 }
        ensures succeeds { 1 ≤ (plain_tags self.old).spare → IsOk result }
    {
        self.places.reserve(1)?;
        Ok(PlainTag {
            place: self.places.insert_reserved(set),
        })
    }
}

impl TagStore for PlainTags {
    type Tag = PlainTag;

    ghost number = { λ t. t.place };

    ghost now = { plain_tags };

    fn single(&mut self, p: Pid) -> Result<PlainTag, AllocError> {
        self.put(Causes::one(p))
    }

    fn join(&mut self, a: &PlainTag, b: &PlainTag) -> Result<PlainTag, AllocError> {
        self.put(self.members(a).union(self.members(b)))
    }

    fn again(&mut self, t: &PlainTag) -> Result<PlainTag, AllocError> {
        self.put(*self.members(t))
    }

    fn members(&self, t: &PlainTag) -> &Causes {
        let set = &self.places[t.place];
        set.rises();
        set
    }

    fn release(&mut self, t: PlainTag) {
        self.places.remove(t.place);
    }

    fn room(&mut self, n: u32) -> Result<(), AllocError> {
        self.places.reserve(n as usize)
    }
}
