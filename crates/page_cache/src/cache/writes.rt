//! Pages that are written.
ghost use Rattle.std.specs.Prelude.{◌≡◌, ℕ, ◌+◌, ◌<◌, ◌≤◌, slice_index_or, slice_set, sum, slice_range, IsSome, IsOk, OnOk, OnErr, None};
ghost use Rattle.cause_set.specs.Tags.{Moved, Covers, no_use, same, use_in, held};
ghost use Rattle.page_cache.specs.Cached.{page_of, IsDataPage, tag_in, tags_in};
ghost use Rattle.page_cache.specs.Changes.{Writes, CanWrite, Touches, IsLoaded, bytes_in, page_as};
ghost use Rattle.page_cache.specs.Held.{state_in};
ghost use Rattle.page_cache.specs.Steps.{IsSlot};

use super::Cache;
use crate::key::PageKey;
use crate::page::State;
use crate::tags::{joined, let_go};
use cause_set::TagStore;
use split_types::{Buf, Pid};
use std::alloc::{AllocError, Global};

impl<S: TagStore> Cache<S> {
    /// The sum of the bytes `from` to `to - 1` of a page, which is touched.
    pub fn get(&mut self, b: Buf, from: u32, to: u32) -> u64
        requires page { IsLoaded self.old b }
        requires order { from < to }
        requires within { to ≤ 4096 }
        ensures sum { result ≡ sum (slice_range (bytes_in (page_of self.old b)) from to) }
        ensures touched { Touches self.old self.new b }
        ensures rest { self.new ≡ record self.old { touches = self.new.touches } }
    {
        let at = self.place_of(b).unwrap();
        self.touch(at);
        self.sum_at(at, from, to)
    }

    /// The same sum; nothing is touched.
    pub fn peek_sum(&self, b: Buf, from: u32, to: u32) -> u64
        requires page { IsLoaded self.now b }
        requires order { from < to }
        requires within { to ≤ 4096 }
        ensures { result ≡ sum (slice_range (bytes_in (page_of self.now b)) from to) }
    {
        self.sum_at(self.place_of(b).unwrap(), from, to)
    }

    /// The sum of some bytes of the page in a place.
    fn sum_at(&self, at: usize, from: u32, to: u32) -> u64
        requires page { IsSome (slice_index_or self.now.places at None) }
        requires order { from < to }
        requires within { to ≤ 4096 }
        ensures { result ≡ sum (slice_range (bytes_in (slice_index_or self.now.places at None)) from to) }
    {
        self.page(at).bytes.sum(from as usize, to as usize)
    }

    /// The bytes `from` to `to - 1` of a page become `fill`, on behalf of a process. A page that isn't held
    /// takes a free place, and had zeros before.
    pub fn write(
        &mut self,
        alloc: Global,
        tags: &mut S,
        b: Buf,
        from: u32,
        to: u32,
        fill: u8,
        by: Pid,
    ) -> Result<(), AllocError>
        requires page { IsDataPage b }
        requires order { from < to }
        requires within { to ≤ 4096 }
        requires first { 1 ≤ by.0 }
        requires last { by.0 ≤ 256 }
        requires place { CanWrite self.old b }
        requires covers { Covers same (tags_in self.old) (S.now tags.old) }
        ensures ok { OnOk result (Writes (S.now tags.old) (S.now tags.new) self.old self.new b from to fill by) }
        ensures moved { Moved (S.now tags.old) (S.now tags.new) (held same (tags_in self.old))
            (held same (tags_in self.new)) }

        // After want of memory there may be more room.
        ensures err { OnErr result (self.new ≡ record self.old { spare = self.new.spare }) }
        ensures err_tags { OnErr result (Moved (S.now tags.old) (S.now tags.new) no_use no_use) }
        ensures spare { self.old.spare ≤ self.new.spare + 1 }
        ensures tags_spare { (S.now tags.old).spare ≤ (S.now tags.new).spare + 2 }
        ensures succeeds { 0 < self.old.spare → 2 ≤ (S.now tags.old).spare → IsOk result }
    {
        self.room(alloc, 1)?;
        let tag = joined(tags, self.tag(b), by)?;
        let at = self.dirty(tags, b, tag);
        self.fill(at, from, to, fill);
        self.touch(at);
        Ok(())
    }

    /// Lets a page be dirty under a tag; one that isn't held takes a free place, with zeros. It answers the
    /// place.
    fn dirty(&mut self, tags: &mut S, b: Buf, tag: S::Tag) -> usize
        requires page { IsDataPage b }
        requires place { CanWrite self.old b }
        requires ready { 0 < self.old.spare }
        requires live { (n : ℕ) → use_in same (tag_in (page_of self.old b)) n ≤ (S.now tags.old).uses n }
        ensures slot { IsSlot self.old.places b result (page_of self.old b) }
        ensures places { self.new ≡ record self.old {
          places = slice_set self.old.places result
              (page_as b (bytes_in (page_of self.old b)) (Some (S.number tag)) (state_in (page_of self.old b)));
          spare = self.new.spare;
        } }
        ensures spare { self.new.spare ≡ self.old.spare }
        ensures moved { Moved (S.now tags.old) (S.now tags.new) (use_in same (tag_in (page_of self.old b))) no_use }
        ensures tags_spare { (S.now tags.old).spare ≤ (S.now tags.new).spare }
    {
        if let Some(at) = self.place_of(b) {
            let state = self.page(at).state;
            let old = self.change(at, Some(tag), state);
            let_go(tags, old);
            return at;
        }
        self.enter(PageKey::of(b).unwrap(), Some(tag), State::new())
    }
}
