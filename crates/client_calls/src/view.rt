//! What a process sees.
ghost use Rattle.std.specs.Prelude.{◌≡◌, ◌<◌, ◌≤◌, Option, not, ◌&&◌, sum, slice_range};
ghost use Rattle.split_types.specs.declared.buf.Buf.{Buf as SomeBuf};
ghost use Rattle.split_types.specs.Clients.{evict_of};
ghost use Rattle.client_calls.specs.View.{is_crowded, is_full};
ghost use Rattle.client_calls.specs.Shows.{IsEvicted};
ghost use Rattle.client_calls.specs.Standing.{standing_of};
ghost use Rattle.page_cache.specs.Cached.{page_of};
ghost use Rattle.page_cache.specs.Changes.{IsLoaded, bytes_in};

use crate::moves::Move;
use crate::progress::Progress;
use crate::standing::Standing;
use cause_set::TagStore;
use delayed_alloc::Alloc;
use page_cache::Cache;
use small_fs::Fs;
use split_types::{Buf, Event, Pid, ReqId, Run};
use std::marker::Model;

/// What a process sees of the stack, and how far it has come itself.
#[derive(Drop)]
pub struct ClientView<'a, S: TagStore> {
    /// The pages that are held.
    pub cache: &'a Cache<S>,
    /// How many pages may be held.
    pub places: u32,
    /// How many processes there are.
    pub n: u32,
    /// The live files.
    pub fs: &'a Fs,
    /// Which blocks are free, and how many of them are promised.
    pub alloc: &'a Alloc,
    /// The run of pages that writeback has mapped, and whose request it hasn't added yet.
    pub mapped: Option<Run>,
    /// How far it has come.
    pub progress: Progress,
    /// Whether the scheduler lets its call in.
    pub may_admit: bool,
    /// Of an fsync, whether all that was put in its file before it was admitted is on the disk.
    pub flushable: bool,
    /// Of an fsync, whether the last change of its file before it was flushed is committed, or there is none.
    pub committed: bool,
    /// The number of requests so far, which is that of the next one.
    pub next_id: ReqId,
}

impl<'a, S: TagStore> Model for ClientView<'a, S> {
    ghost use Rattle.client_calls.specs.View.{View};

    ghost Value = { View };

    ghost view = { λ v. record {
      cache = v.cache.now;
      places = v.places;
      n = v.n;
      files = v.fs.now;
      blocks = v.alloc.now;
      mapped = v.mapped;
      progress = v.progress;
      may_admit = v.may_admit;
      flushable = v.flushable;
      committed = v.committed;
      next_id = v.next_id;
    } };
}

impl<'a, S: TagStore> ClientView<'a, S> {
    /// Whether all pages of the cache but one for each process, or more, are dirty or busy.
    pub(crate) fn is_crowded(&self) -> bool
        ensures { result ≡ is_crowded self.now }
    {
        self.places.saturating_sub(self.n) <= self.cache.dirty_or_busy()
    }

    /// Whether a put waits in a page that stands so: where the stack is crowded, no further page becomes dirty.
    pub(crate) fn holds_up(&self, page: Standing) -> bool
        ensures { result ≡ (not page.unsettled && is_crowded self.now) }
    {
        !page.unsettled && self.is_crowded()
    }

    /// Whether as many pages are held as may be.
    pub(crate) fn is_full(&self) -> bool
        ensures { result ≡ is_full self.now }
    {
        self.places <= self.cache.held()
    }

    /// How a page stands.
    pub(crate) fn standing(&self, b: Buf) -> Standing
        ensures { result ≡ standing_of (page_of self.now.cache b) }
    {
        Standing::of(self.cache.find(b))
    }

    /// The sum of the bytes of a piece; those of its page are there.
    pub(crate) fn sum(&self, m: &Move) -> u64
        requires loaded { IsLoaded self.now.cache (Buf.Page m.now.file.serial m.now.piece.page) }
        requires order { m.now.piece.from < m.now.piece.to }
        requires within { m.now.piece.to ≤ 4096 }
        ensures { let bytes = bytes_in (page_of self.now.cache (Buf.Page m.now.file.serial m.now.piece.page)) in
            result ≡ sum (slice_range bytes m.now.piece.from m.now.piece.to) }
    {
        self.cache.peek_sum(m.buf(), m.piece.from, m.piece.to)
    }

    /// The page that is evicted next, if there is one, is evicted by a process.
    pub(crate) fn evict(&self, by: Pid) -> Option<Event>
        ensures { (next : Option SomeBuf) → IsEvicted self.now.cache next → result ≡ evict_of by next }
    {
        match self.cache.victim()? {
            Buf::Page(serial, page) => Some(Event::Evict { by, serial, page }),
            Buf::Bitmap | Buf::Dir(_) | Buf::Inode(_) => None,
        }
    }
}
