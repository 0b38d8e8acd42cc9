//! Pages that are loaded.
ghost use Rattle.std.specs.Prelude.{◌≡◌, ◌+◌, ◌<◌, ◌≤◌, true, length, replicate, None, IsOk, OnOk, OnErr, option_map};
ghost use Rattle.page_cache.specs.Cached.{page_of, IsDataPage, held_in, is_loading, tags_in};
ghost use Rattle.page_cache.specs.Changes.{BeginsLoad, ChangesOnly, ChangesEach, KeepsTouches, Touches, loaded, unpinned};

use super::Cache;
use crate::key::PageKey;
use crate::page::State;
use cause_set::TagStore;
use split_types::{Buf, Pid};
use std::alloc::{AllocError, Global};

impl<S: TagStore> Cache<S> {
    /// A page that isn't held takes a free place, and its bytes are awaited, for a process.
    pub fn begin_load(&mut self, alloc: Global, b: Buf, by: Pid) -> Result<(), AllocError>
        requires page { IsDataPage b }
        requires absent { page_of self.old b ≡ None }
        requires free { held_in self.old < self.old.limit }
        ensures ok { OnOk result (BeginsLoad self.old self.new b by) }

        // After want of memory there may be more room.
        ensures err { OnErr result (self.new ≡ record self.old { spare = self.new.spare }) }
        ensures spare { self.old.spare ≤ self.new.spare + 1 }
        ensures succeeds { 0 < self.old.spare → IsOk result }
    {
        self.room(alloc, 1)?;
        let state = State {
            busy: false,
            loading: true,
            pin: Some(by),
        };
        self.enter(PageKey::of(b).unwrap(), None, state);
        Ok(())
    }

    /// The bytes of a page come that were awaited; it is touched. It is pinned by the process for which they were
    /// awaited, unless that was unpinned since.
    pub fn load(&mut self, b: Buf, bytes: &[u8])
        requires loading { is_loading (page_of self.old b) ≡ true }
        requires len { length bytes.now ≡ 4096 }
        ensures page { ChangesOnly self.old self.new b (option_map (loaded bytes.now) (page_of self.old b)) }
        ensures touched { Touches self.old self.new b }
        ensures spare { self.new.spare ≡ self.old.spare }
    {
        let at = self.place_of(b).unwrap();
        self.copy_in(at, bytes);
        self.touch(at);
    }

    /// Gives a page that is loading its bytes: this one at each place.
    pub fn load_filled(&mut self, b: Buf, byte: u8)
        requires { is_loading (page_of self.old b) ≡ true }
        ensures page { ChangesOnly self.old self.new b (option_map (loaded (replicate 4096 byte)) (page_of self.old b)) }
        ensures touched { Touches self.old self.new b }
        ensures spare { self.new.spare ≡ self.old.spare }
    {
        let at = self.place_of(b).unwrap();
        self.fill_in(at, byte);
        self.touch(at);
    }

    /// The bytes of a page aren't awaited any more: it isn't held.
    pub fn give_up(&mut self, b: Buf)
        requires { is_loading (page_of self.old b) ≡ true }
        ensures page { ChangesOnly self.old self.new b None }
        ensures touches { KeepsTouches self.old self.new }
        ensures spare { self.new.spare ≡ self.old.spare }
    {
        let at = self.place_of(b).unwrap();
        self.leave(at);
    }

    /// A process pins no page any more, and none of those whose bytes are awaited for it.
    pub fn unpin(&mut self, by: Pid)
        ensures pages { ChangesEach self.old self.new (λ k. unpinned by) }
        ensures tags { tags_in self.new ≡ tags_in self.old }
        ensures spare { self.new.spare ≡ self.old.spare }
    {
        while let Some(at) = self.guide.pinned(by) {
            let state = State {
                pin: None,
                ..self.page(at).state
            };
            self.restate(at, state);
        }
    }
}
