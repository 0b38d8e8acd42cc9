//! The steps of which the calls are made.
ghost use Rattle.std.specs.Prelude.{◌≡◌, ◌-◌, ◌<◌, ◌≤◌, length, replicate, slice_set, slice_index_or, None, IsSome, option_map, true};
ghost use Rattle.fixed_places.specs.Recency.{IsTouched};
ghost use Rattle.page_cache.specs.Bytes.{filled};
ghost use Rattle.page_cache.specs.Keys.{buf_of};
ghost use Rattle.page_cache.specs.Cached.{page_of, held_in, tag_in, is_loading};
ghost use Rattle.page_cache.specs.Changes.{loaded};
ghost use Rattle.page_cache.specs.Steps.{Enters, changed, with_bytes, with_state};

use super::Cache;
use crate::content::Content;
use crate::key::PageKey;
use crate::page::{Mark, Page, State};
use cause_set::TagStore;
use std::mem;

impl<S: TagStore> Cache<S> {
    /// Puts a page that isn't held into a free place, with zeros.
    pub(super) fn enter(&mut self, key: PageKey, tag: Option<S::Tag>, state: State) -> usize
        requires absent { page_of self.old (buf_of key) ≡ None }
        requires number { key.page < 1008 }
        requires free { held_in self.old < self.old.limit }
        requires ready { 0 < self.old.spare }
        ensures { Enters self.old self.new key (option_map S.number tag) state result }
    {
        self.pool.reserve(usize::from(state.loading));
        self.spare -= u32::from(state.loading);
        let at = self.guide.enter(key);
        self.guide.mark(at, key, Mark::of(tag.is_some(), state));
        self.places[at] = Some(Page {
            key,
            bytes: Content::filled(0),
            tag,
            state,
        });
        at
    }

    /// Empties a place, and hands out the tag that its page had.
    pub(super) fn leave(&mut self, at: usize) -> Option<S::Tag>
        requires { IsSome (slice_index_or self.old.places at None) }
        ensures tag { option_map S.number result ≡ tag_in (slice_index_or self.old.places at None) }
        ensures rest { self.new ≡ record self.old { places = slice_set self.old.places at None } }
    {
        let page = self.places[at].take().unwrap();
        self.guide.mark(at, page.key, Mark::none());
        self.guide.leave(at);
        self.pool.release(usize::from(page.state.loading));
        page.bytes.give_back(&mut self.pool);
        page.tag
    }

    /// Gives a page another tag and another state, and hands out the tag that it had.
    pub(super) fn change(&mut self, at: usize, tag: Option<S::Tag>, state: State) -> Option<S::Tag>
        requires page { IsSome (slice_index_or self.old.places at None) }
        requires loading { state.loading ≡ is_loading (slice_index_or self.old.places at None) }
        ensures tag { option_map S.number result ≡ tag_in (slice_index_or self.old.places at None) }
        ensures rest { self.new ≡ record self.old {
          places = slice_set self.old.places at
              (changed (option_map S.number tag) state (slice_index_or self.old.places at None));
        } }
    {
        let mark = Mark::of(tag.is_some(), state);
        let page = self.places[at].as_mut().unwrap();
        let old = mem::replace(&mut page.tag, tag);
        page.state = state;
        let key = page.key;
        self.guide.mark(at, key, mark);
        old
    }

    /// Gives a page another state.
    pub(super) fn restate(&mut self, at: usize, state: State)
        requires page { IsSome (slice_index_or self.old.places at None) }
        requires loading { state.loading ≡ is_loading (slice_index_or self.old.places at None) }
        ensures { self.new ≡ record self.old {
          places = slice_set self.old.places at
              (with_state state (slice_index_or self.old.places at None));
        } }
    {
        let page = self.places[at].as_mut().unwrap();
        page.state = state;
        let mark = Mark::of(page.tag.is_some(), state);
        let key = page.key;
        self.guide.mark(at, key, mark);
    }

    /// Writes one byte from a place of a page on up to another.
    pub(super) fn fill(&mut self, at: usize, from: u32, to: u32, byte: u8)
        requires page { IsSome (slice_index_or self.old.places at None) }
        requires order { from < to }
        requires within { to ≤ 4096 }
        requires ready { 0 < self.old.spare }
        ensures { self.new ≡ record self.old {
          places = slice_set self.old.places at
              (with_bytes (λ bytes. filled bytes from to byte) (slice_index_or self.old.places at None));
          spare = self.old.spare - 1;
        } }
    {
        self.spare -= 1;
        let page = self.places[at].as_mut().unwrap();
        page.bytes
            .fill(&mut self.pool, from as usize, to as usize, byte);
    }

    /// Gives a page that is loading its bytes.
    pub(super) fn copy_in(&mut self, at: usize, bytes: &[u8])
        requires loading { is_loading (slice_index_or self.old.places at None) ≡ true }
        requires len { length bytes.now ≡ 4096 }
        ensures { self.new ≡ record self.old {
          places = slice_set self.old.places at
              (option_map (loaded bytes.now) (slice_index_or self.old.places at None));
        } }
    {
        self.pool.release(1);
        let page = self.places[at].as_mut().unwrap();
        page.bytes.copy_in(&mut self.pool, bytes);
        let mark = page.end_load();
        let key = page.key;
        self.guide.mark(at, key, mark);
    }

    /// Gives a page that is loading its bytes: this one at each place.
    pub(super) fn fill_in(&mut self, at: usize, byte: u8)
        requires { is_loading (slice_index_or self.old.places at None) ≡ true }
        ensures { self.new ≡ record self.old {
          places = slice_set self.old.places at
              (option_map (loaded (replicate 4096 byte)) (slice_index_or self.old.places at None));
        } }
    {
        self.pool.release(1);
        let page = self.places[at].as_mut().unwrap();
        page.bytes.fill_all(&mut self.pool, byte);
        let mark = page.end_load();
        let key = page.key;
        self.guide.mark(at, key, mark);
    }

    /// Touches the page in a place.
    pub(super) fn touch(&mut self, at: usize)
        requires { at < length self.old.places }
        ensures touches { IsTouched self.old.touches self.new.touches at }
        ensures len { length self.old.touches ≡ length self.old.places }
        ensures rest { self.new ≡ record self.old { touches = self.new.touches } }
    {
        self.guide.touch(at);
    }
}
