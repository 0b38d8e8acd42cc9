//! How a page is found.
ghost use Rattle.std.specs.Prelude.{◌≡◌, ◌≢◌, ℕ, ◌<◌, ◌≤◌, ◌^◌, true, false, length, replicate, slice_set, slice_index, slice_index_or, Some, None, IfOk, IfNone, IfSome, IsSome, IsTrue, is_some, count_by, map};
ghost use Rattle.fixed_places.specs.Keys.{IsAbsent, IsPlaceOf};
ghost use Rattle.fixed_places.specs.Recency.{IsTouched, IsOldest, NoCandidate};
ghost use Rattle.fixed_places.specs.Tree.{HasNone};
ghost use Rattle.page_cache.specs.Guide.{Guided, marked, key_if, IsUnused, IsLeastKey};

use crate::key::PageKey;
use crate::page::Mark;
use crate::pins::Pins;
use crate::tally::Tally;
use fixed_places::{FreePlaces, Key, Least, Recency, Table};
use split_types::Pid;
use std::alloc::{AllocError, Global};
use std::marker::Model;

/// Which page is in which place, and the places that are looked for: of a page, the idle one touched longest
/// ago, the one of the least page that is ready, and those that a process pins.
#[derive(Debug, Drop)]
pub(crate) struct Guide {
    keys: Table<PageKey>,
    free: FreePlaces,
    idle: Recency,
    ready: Least<PageKey>,
    unsettled: Tally,
    pins: Pins,
}

impl Model for Guide {
    ghost use Rattle.page_cache.specs.Guide.{Guided, IsGuide};

    ghost Value = { Guided };

    ghost view = { λ g. record {
      keys = g.keys;
      touches = g.idle.touches;
      idle = g.idle.candidates;
      ready = g.ready;
      unsettled = g.unsettled;
      pins = g.pins;
    } };

    ghost invariant = { λ g. IsGuide g.keys g.free.taken g.idle.touches g.idle.candidates g.ready g.unsettled g.pins };
}

/// Makes a place a candidate or not, where that is news.
fn set_idle(idle: &mut Recency, at: usize, is_idle: bool)
    requires touches { at < length idle.old.touches }
    requires candidates { at < length idle.old.candidates }
    ensures { idle.new ≡ record idle.old { candidates = slice_set idle.old.candidates at is_idle } }
{
    if idle.is_candidate(at) != is_idle {
        idle.set(at, is_idle);
    }
}

/// The key, if the test is passed.
fn key_if(test: bool, key: PageKey) -> Option<PageKey>
    ensures { result ≡ key_if test key }
{
    if test { Some(key) } else { None }
}

/// Puts a key into a place or empties it, where that is news.
fn set_ready(ready: &mut Least<PageKey>, at: usize, key: Option<PageKey>)
    requires { at < length ready.old }
    ensures { ready.new ≡ slice_set ready.old at key }
{
    match (ready.key(at), key) {
        (None, None) => {}
        (Some(was), Some(is)) if was.is_same(&is) => {}
        _ => ready.set(at, key),
    }
}

impl Guide {
    /// Places without a page. It takes all memory that it needs.
    pub(crate) fn new(alloc: Global, places: usize) -> Result<Guide, AllocError>
        requires some { 0 < places }
        requires few { places ≤ 2 ^ 32 }
        ensures { IfOk result (IsUnused places) }
    {
        Ok(Guide {
            keys: Table::new(alloc, places)?,
            free: FreePlaces::new(alloc, places)?,
            idle: Recency::new(alloc, places)?,
            ready: Least::new(alloc, places)?,
            unsettled: Tally::new(alloc, places)?,
            pins: Pins::new(alloc, places)?,
        })
    }

    /// How many places have a page.
    pub(crate) fn held(&self) -> usize
        ensures { result ≡ count_by is_some self.now.keys }
    {
        self.free.taken()
    }

    /// How many places have a page that is dirty or busy.
    pub(crate) fn unsettled(&self) -> usize
        ensures { result ≡ count_by (λ mark. mark) self.now.unsettled }
    {
        self.unsettled.count()
    }

    /// The place of a page; `None` exactly where no place has it.
    pub(crate) fn find(&self, key: PageKey) -> Option<usize>
        ensures none { IfNone result (IsAbsent self.now.keys key) }
        ensures place { IfSome result (IsPlaceOf self.now.keys key) }
    {
        self.keys.find(&key)
    }

    /// The place of the idle page that was touched longest ago.
    pub(crate) fn oldest(&self) -> Option<usize>
        ensures none { IfNone result (NoCandidate record { touches = self.now.touches; candidates = self.now.idle }) }
        ensures oldest { IfSome result (IsOldest record { touches = self.now.touches; candidates = self.now.idle }) }
    {
        self.idle.oldest()
    }

    /// The place of the least page that is ready.
    pub(crate) fn first_ready(&self) -> Option<usize>
        ensures none { IfNone result (HasNone self.now.ready) }
        ensures first { IfSome result (IsLeastKey self.now.ready) }
    {
        self.ready.least()
    }

    /// A place that a process pins.
    pub(crate) fn pinned(&self, by: Pid) -> Option<usize>
        ensures none { IfNone result ((i : ℕ) → slice_index_or self.now.pins i None ≢ Some by) }
        ensures found { IfSome result (λ at. slice_index_or self.now.pins at None ≡ Some by) }
    {
        self.pins.find(by)
    }

    /// Puts a page that is in no place into a free one.
    pub(crate) fn enter(&mut self, key: PageKey) -> usize
        requires absent { IsAbsent self.old.keys key }
        requires free { count_by is_some self.old.keys < length self.old.keys }
        ensures within { result < length self.old.keys }
        ensures empty { slice_index_or self.old.keys result None ≡ None }
        ensures keys { self.new ≡ record self.old { keys = slice_set self.old.keys result (Some key) } }
    {
        let at = self.free.take();
        self.keys.put(at, key);
        at
    }

    /// Empties a place.
    pub(crate) fn leave(&mut self, at: usize)
        requires { IsSome (slice_index_or self.old.keys at None) }
        ensures { self.new ≡ record self.old { keys = slice_set self.old.keys at None } }
    {
        self.keys.take(at);
        self.free.give(at);
    }

    /// Marks a place, which has a page of this key if it is ready.
    pub(crate) fn mark(&mut self, at: usize, key: PageKey, mark: Mark)
        requires { at < length self.old.keys }
        ensures { self.new ≡ marked self.old at key mark }
    {
        set_idle(&mut self.idle, at, mark.is_idle);
        set_ready(&mut self.ready, at, key_if(mark.is_ready, key));
        self.unsettled.set(at, mark.is_unsettled);
        self.pins.set(at, mark.pin);
    }

    /// Touches the page in a place.
    pub(crate) fn touch(&mut self, at: usize)
        requires { at < length self.old.keys }
        ensures touches { IsTouched self.old.touches self.new.touches at }
        ensures rest { self.new ≡ record self.old { touches = self.new.touches } }
    {
        self.idle.touch(at);
    }
}
