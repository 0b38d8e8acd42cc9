//! The pages that the cache holds: the bytes and the causes of each, and how it stands.
ghost use Rattle.std.specs.Prelude.{◌≡◌, ℕ, ◌+◌, ◌^◌, ◌<◌, ◌≤◌, List, [], length, map, false, is_some, IfOk, IfSome, IsTrue, OnOk, true};
ghost use Rattle.std.specs.Option.{option_map};
ghost use Rattle.std.specs.List.{flat_map};
ghost use Rattle.cause_set.specs.Tags.{Tags, Moved, held, same, one_use, no_use};
ghost use Rattle.sim_disk.specs.Bytes.{block_at, spread};
ghost use Rattle.tag_table.specs.Tags.{tags_of};
ghost use Rattle.page_cache.specs.Cached.{page_of, is_busy, is_loading, tag_in, tags_in, causes_of};
ghost use Rattle.page_cache.specs.Changes.{IsReady, ChangesEach, ChangesOnly, KeepsTouches, taken_among, bytes_in, written};
ghost use Rattle.split_types.specs.declared.buf.Buf.TheVariants as buf;
ghost use Rattle.split_types.specs.declared.actor.Actor.{Actor};
ghost use Rattle.split_types.specs.declared.request.Request.{Request};
ghost use Rattle.split_types.specs.declared.workload.Workload.{Workload};
ghost use Rattle.split_types.specs.declared.event.Event.{Event};
ghost use Rattle.split_types.specs.declared.event.Event.TheVariants as event;
ghost use Rattle.split_types.specs.History.{◌▹◌};
ghost use Rattle.split_types.specs.Hooks.{is_among};
ghost use Rattle.split_types.specs.Parents.{pages_of};
ghost use Rattle.split_types.specs.Pages.{is_dirty};
ghost use Rattle.split_types.specs.Sets.{union_of};
ghost use Rattle.split_types.specs.Transactions.{is_of_commit};
ghost use Rattle.journal_core.specs.Causes.{Covered};
ghost use Rattle.split_types.specs.Accepted.{IsAccepted};
ghost use Rattle.split_core.specs.Asks.{asks};
ghost use Rattle.split_core.specs.Fits.{Fits};
ghost use Rattle.split_core.specs.Givens.{IsGiven};
ghost use Rattle.split_core.specs.Medium.{MediumStands};
ghost use Rattle.split_core.specs.Pages.{PagesStand, HasPagesRoom, PagesBefore, PagesAfter, IsDoneOf, held_by_pages};
ghost use Rattle.split_core.specs.Pages.{Releases, Loads, TouchesHeld, Gets};
ghost use Rattle.split_core.specs.Takings.{IsTaken, is_commit_add};

use crate::note::cargo::Cargo;
use crate::note::medium::Medium;
use crate::parts::Given;
use cause_set::{Causes, TagStore};
use hook_events::History;
use page_cache::Cache;
use sim_disk::{Disk, Fills};
use split_types::{Actor, Buf, Event, Pid, ReqKind, Request, Run, Serial, Workload};
use std::alloc::{AllocError, Global};
use std::mem;
use tag_table::{Table, TableTag};

/// How many bytes a page has.
const PAGE: u32 = 4096;

/// The cache, and the store of its tags.
#[derive(Drop)]
pub(crate) struct Pages {
    pub(crate) cache: Cache<Table>,
}

/// What a request that is added takes: what it carries, and the processes to blame for it.
#[derive(Drop)]
pub(crate) struct Taken {
    pub(crate) cargo: Cargo,
    pub(crate) tag: Causes,
}

impl Taken {
    /// What a request takes that carries nothing.
    fn of(alloc: Global, tag: Causes) -> Taken
        ensures cargo { result.cargo ≡ [] }
        ensures tag { result.tag ≡ tag }
    {
        Taken {
            cargo: Cargo::of(Vec::new(alloc)),
            tag,
        }
    }
}

/// Ends the use of a tag, and says whom it had.
fn let_go(tags: &mut Table, tag: TableTag) -> Causes
    requires { 1 ≤ (tags_of tags.old).uses tag.number }
    ensures set { result ≡ (tags_of tags.old).members tag.number }
    ensures moved { Moved (tags_of tags.old) (tags_of tags.new) (one_use tag.number) no_use }
    ensures spare { (tags_of tags.old).spare ≤ (tags_of tags.new).spare }
{
    let set = *tags.members(&tag);
    tags.release(tag);
    set
}

impl Pages {
    /// No page.
    pub(crate) fn new(alloc: Global, w: &Workload) -> Result<Pages, AllocError>
        ensures stands { IfOk result (λ p. (tags : _) → PagesStand w.now p tags []) }
        ensures none { IfOk result (λ p. (n : ℕ) → held same (tags_in p.cache) n ≡ 0) }
    {
        let cache = Cache::new(alloc, w.cache)?;
        Ok(Pages { cache })
    }

    /// Makes room for one more event.
    pub(crate) fn room(&mut self, alloc: Global) -> Result<(), AllocError>
        ensures stands { (w : Workload) (tags : Tags) (h : List Event) → PagesStand w self.old tags h
            → PagesStand w self.new tags h }
        ensures tags { (n : ℕ) → held_by_pages self.new n ≡ held_by_pages self.old n }
        ensures ok { OnOk result (0 < self.new.cache.spare) }
    {
        self.cache.room(alloc, 1)
    }

    /// Whether a page is dirty.
    pub(crate) fn is_dirty(&self, w: &Workload, h: &History, serial: Serial, page: u32) -> bool
        requires { (tags : Tags) × PagesStand w.now self.now tags h.now.events }
        ensures { result ≡ is_dirty w.now h.now.events (buf.Page serial page) }
    {
        match self.cache.find(Buf::Page(serial, page)) {
            Some(state) => state.dirty,
            None => false,
        }
    }

    /// A tag of all for whom the pages of a run are dirty.
    pub(crate) fn tag_of(&self, tags: &mut Table, run: Run) -> TableTag
        requires some { 1 ≤ run.n }
        requires few { run.n ≤ 16 }
        requires within { run.page + run.n ≤ 1008 }
        requires dirty { (k : ℕ) → k < run.n → IsTrue (is_some (tag_in (page_of self.now.cache (buf.Page run.serial (run.page + k))))) }
        requires covered { Covered (held_by_pages self.now) (tags_of tags.old) }
        requires room { 16 ≤ (tags_of tags.old).spare }
        ensures set { (tags_of tags.new).members result.number
            ≡ union_of (map (causes_of (tags_of tags.old) self.now.cache) (pages_of run.serial run.page run.n)) }
        ensures moved { Moved (tags_of tags.old) (tags_of tags.new) no_use (one_use result.number) }
        ensures spare { (tags_of tags.old).spare ≤ (tags_of tags.new).spare + 16 }
    {
        let first = self.cache.tag(Buf::Page(run.serial, run.page)).unwrap();
        let mut all = tags.again(first).unwrap();
        for k in 1..run.n {
            let more = self.cache.tag(Buf::Page(run.serial, run.page + k)).unwrap();
            let joined = tags.join(&all, more).unwrap();
            tags.release(mem::replace(&mut all, joined));
        }
        all
    }

    /// Whether a page is held.
    fn holds(&self, b: Buf) -> bool
        ensures { result ≡ is_some (page_of self.now.cache b) }
    {
        self.cache.find(b).is_some()
    }

    /// Whether a page is busy.
    fn is_busy(&self, b: Buf) -> bool
        ensures { result ≡ is_busy (page_of self.now.cache b) }
    {
        match self.cache.find(b) {
            Some(state) => state.busy,
            None => false,
        }
    }

    /// Whether a page is loading.
    fn is_loading(&self, b: Buf) -> bool
        ensures { result ≡ is_loading (page_of self.now.cache b) }
    {
        match self.cache.find(b) {
            Some(state) => state.loading,
            None => false,
        }
    }

    /// The bytes that the pages of a run are filled with, where it is known of each that one fills it.
    fn fills_of(&self, serial: Serial, page: u32, n: u32) -> Option<Fills>
        requires few { n ≤ 16 }
        requires within { page + n < 2 ^ 32 }
        ensures { IfSome result (λ fills. spread fills
            ≡ flat_map (λ b. bytes_in (page_of self.now.cache b)) (pages_of serial page n)) }
    {
        let mut fills = Fills::none();
        for k in 0..n {
            fills.push(self.cache.fill_of(Buf::Page(serial, page + k))?);
        }
        Some(fills)
    }

    /// A request takes pages out that are filled with these bytes.
    fn take_filled(
        &mut self,
        tags: &mut Table,
        serial: Serial,
        page: u32,
        n: u32,
        fills: Fills,
    ) -> Taken
        requires some { 1 ≤ n }
        requires few { n ≤ 16 }
        requires ready { (k : ℕ) → k < n → IsReady self.old.cache (buf.Page serial (page + k)) }
        requires tags { Covered (held_by_pages self.old) (tags_of tags.old) }
        requires room { HasPagesRoom self.old (tags_of tags.old) }
        requires fills { spread fills
            ≡ flat_map (λ b. bytes_in (page_of self.old.cache b)) (pages_of serial page n) }
        ensures cargo { result.cargo ≡ flat_map (λ b. bytes_in (page_of self.old.cache b)) (pages_of serial page n) }
        ensures set { result.tag
            ≡ union_of (map (causes_of (tags_of tags.old) self.old.cache) (pages_of serial page n)) }
        ensures pages { ChangesEach self.old.cache self.new.cache (taken_among serial page n) }
        ensures causes { (k : _) → is_among serial page n k ≡ false
            → causes_of (tags_of tags.new) self.new.cache k ≡ causes_of (tags_of tags.old) self.old.cache k }
        ensures moved { Moved (tags_of tags.old) (tags_of tags.new) (held_by_pages self.old) (held_by_pages self.new) }
        ensures spare { (tags_of tags.old).spare ≤ (tags_of tags.new).spare + 16 }
    {
        let tag = self.cache.take_tag(tags, serial, page, n).unwrap();
        Taken {
            cargo: Cargo::filled(fills),
            tag: let_go(tags, tag),
        }
    }

    /// A request takes pages out with each of their bytes.
    fn take_bytes(
        &mut self,
        alloc: Global,
        tags: &mut Table,
        serial: Serial,
        page: u32,
        n: u32,
    ) -> Taken
        requires some { 1 ≤ n }
        requires few { n ≤ 16 }
        requires ready { (k : ℕ) → k < n → IsReady self.old.cache (buf.Page serial (page + k)) }
        requires tags { Covered (held_by_pages self.old) (tags_of tags.old) }
        requires room { HasPagesRoom self.old (tags_of tags.old) }
        ensures cargo { result.cargo ≡ flat_map (λ b. bytes_in (page_of self.old.cache b)) (pages_of serial page n) }
        ensures set { result.tag
            ≡ union_of (map (causes_of (tags_of tags.old) self.old.cache) (pages_of serial page n)) }
        ensures pages { ChangesEach self.old.cache self.new.cache (taken_among serial page n) }
        ensures causes { (k : _) → is_among serial page n k ≡ false
            → causes_of (tags_of tags.new) self.new.cache k ≡ causes_of (tags_of tags.old) self.old.cache k }
        ensures moved { Moved (tags_of tags.old) (tags_of tags.new) (held_by_pages self.old) (held_by_pages self.new) }
        ensures spare { (tags_of tags.old).spare ≤ (tags_of tags.new).spare + 16 }
    {
        let (bytes, tag) = self.cache.take_out(alloc, tags, serial, page, n).unwrap();
        Taken {
            cargo: Cargo::of(bytes),
            tag: let_go(tags, tag),
        }
    }

    /// A request takes pages out.
    fn take(&mut self, alloc: Global, tags: &mut Table, serial: Serial, page: u32, n: u32) -> Taken
        requires some { 1 ≤ n }
        requires few { n ≤ 16 }
        requires ready { (k : ℕ) → k < n → IsReady self.old.cache (buf.Page serial (page + k)) }
        requires tags { Covered (held_by_pages self.old) (tags_of tags.old) }
        requires room { HasPagesRoom self.old (tags_of tags.old) }
        requires within { page + n < 2 ^ 32 }
        ensures cargo { result.cargo ≡ flat_map (λ b. bytes_in (page_of self.old.cache b)) (pages_of serial page n) }
        ensures set { result.tag
            ≡ union_of (map (causes_of (tags_of tags.old) self.old.cache) (pages_of serial page n)) }
        ensures pages { ChangesEach self.old.cache self.new.cache (taken_among serial page n) }
        ensures causes { (k : _) → is_among serial page n k ≡ false
            → causes_of (tags_of tags.new) self.new.cache k ≡ causes_of (tags_of tags.old) self.old.cache k }
        ensures moved { Moved (tags_of tags.old) (tags_of tags.new) (held_by_pages self.old) (held_by_pages self.new) }
        ensures spare { (tags_of tags.old).spare ≤ (tags_of tags.new).spare + 16 }
    {
        match self.fills_of(serial, page, n) {
            Some(fills) => self.take_filled(tags, serial, page, n, fills),
            None => self.take_bytes(alloc, tags, serial, page, n),
        }
    }

    /// A request is added.
    fn add(
        &mut self,
        alloc: Global,
        tags: &mut Table,
        w: &Workload,
        h: &History,
        by: Actor,
        request: &Request,
    ) -> Taken
        requires { PagesBefore w.now self.old (tags_of tags.old) h.now.events (event.Add by request.now) }
        ensures pages { PagesAfter w.now self.old self.new (tags_of tags.old) (tags_of tags.new)
            (h.now.events ▹ event.Add by request.now) }
        ensures spare { (tags_of tags.old).spare ≤ (tags_of tags.new).spare + 16 }
        ensures taken { is_of_commit request.now ≡ false → IsTaken w.now h.now.events (event.Add by request.now) result }
    {
        match request.kind {
            ReqKind::Read(by, serial, page) => {
                self.cache
                    .begin_load(alloc, Buf::Page(serial, page), by)
                    .unwrap();
                Taken::of(alloc, Causes::one(by))
            }
            ReqKind::Pages(serial, page) => self.take(alloc, tags, serial, page, request.n),
            _ => Taken::of(alloc, Causes::none()),
        }
    }

    /// A page isn't busy any more, if it was.
    fn settle(&mut self, b: Buf)
        ensures page { ChangesOnly self.old.cache self.new.cache b (option_map written (page_of self.old.cache b)) }
        ensures touches { KeepsTouches self.old.cache self.new.cache }
    {
        if self.is_busy(b) {
            self.cache.written(b);
        }
    }

    /// The pages of a run aren't busy any more; those of a file that was dropped weren't held any more.
    fn release(&mut self, serial: Serial, page: u32, n: u32)
        requires { page + n < 2 ^ 32 }
        ensures { Releases self.old.cache self.new.cache serial page n }
    {
        for k in 0..n {
            self.settle(Buf::Page(serial, page + k));
        }
    }

    /// A page that is loading has the bytes of a block; one of a file that was dropped isn't held any more.
    fn load(&mut self, b: Buf, disk: &Disk, block: u32)
        requires { block < length disk.now.blocks }
        ensures { Loads self.old.cache self.new.cache b (block_at disk.now.blocks block) }
    {
        if !self.is_loading(b) {
            return;
        }
        match disk.fill_of(block) {
            Some(byte) => self.cache.load_filled(b, byte),
            None => self.cache.load(b, disk.read(block)),
        }
    }

    /// Bytes of a page are read, if it is held.
    fn touch(&mut self, b: Buf, from: u32, to: u32)
        requires loaded { is_loading (page_of self.old.cache b) ≡ false }
        requires order { from < to }
        requires within { to ≤ 4096 }
        ensures { TouchesHeld self.old.cache self.new.cache b }
    {
        if self.holds(b) {
            let _sum = self.cache.get(b, from, to);
        }
    }

    /// Bytes of a page are got; a page without a block needn't be held.
    fn get(&mut self, by: Pid, b: Buf, from: u32, to: u32)
        requires loaded { is_loading (page_of self.old.cache b) ≡ false }
        requires order { from < to }
        requires within { to ≤ 4096 }
        ensures { Gets self.old.cache self.new.cache b by }
    {
        self.touch(b, from, to);
        self.cache.unpin(by);
    }

    /// A request is done.
    fn done(
        &mut self,
        tags: &Table,
        medium: &Medium,
        w: &Workload,
        h: &History,
        e: &Event,
        request: &Request,
    )
        requires before { PagesBefore w.now self.old (tags_of tags.now) h.now.events e.now }
        requires medium { MediumStands w.now medium.now h.now.events }
        requires is { IsDoneOf h.now.events e.now request.now }
        ensures { PagesAfter w.now self.old self.new (tags_of tags.now) (tags_of tags.now) (h.now.events ▹ e.now) }
    {
        match request.kind {
            ReqKind::Read(_, serial, page) => {
                self.load(Buf::Page(serial, page), &medium.disk, request.first);
            }
            ReqKind::Pages(serial, page) => self.release(serial, page, request.n),
            _ => {}
        }
    }

    /// A page is put for a process.
    fn put(
        &mut self,
        alloc: Global,
        tags: &mut Table,
        w: &Workload,
        h: &History,
        by: Pid,
        serial: Serial,
        page: u32,
        from: u32,
        to: u32,
        fill: u32,
    )
        requires { PagesBefore w.now self.old (tags_of tags.old) h.now.events (event.Put by serial page from to fill) }
        ensures pages { PagesAfter w.now self.old self.new (tags_of tags.old) (tags_of tags.new)
            (h.now.events ▹ event.Put by serial page from to fill) }
        ensures spare { (tags_of tags.old).spare ≤ (tags_of tags.new).spare + 16 }
    {
        self.cache
            .write(
                alloc,
                tags,
                Buf::Page(serial, page),
                from,
                to,
                fill as u8,
                by,
            )
            .unwrap();
        self.cache.unpin(by);
    }

    /// Takes note of an event that adds no request.
    fn follow(
        &mut self,
        alloc: Global,
        tags: &mut Table,
        medium: &Medium,
        w: &Workload,
        h: &History,
        e: &Event,
        given: &Given,
    )
        requires before { PagesBefore w.now self.old (tags_of tags.old) h.now.events e.now }
        requires medium { MediumStands w.now medium.now h.now.events }
        requires given { IsGiven w.now h.now.events e.now given.now }
        requires other { (by : Actor) (r : Request) → e.now ≡ event.Add by r → ⊥ }
        ensures pages { PagesAfter w.now self.old self.new (tags_of tags.old) (tags_of tags.new) (h.now.events ▹ e.now) }
        ensures spare { (tags_of tags.old).spare ≤ (tags_of tags.new).spare + 16 }
    {
        match *e {
            Event::Put {
                by,
                serial,
                page,
                from,
                to,
                fill,
            } => {
                self.put(alloc, tags, w, h, by, serial, page, from, to, fill);
            }
            Event::Get {
                by,
                serial,
                page,
                from,
                to,
                ..
            } => self.get(by, Buf::Page(serial, page), from, to),
            Event::Drop { serial, .. } => self.cache.free(tags, serial, given.size.div_ceil(PAGE)),
            Event::Ret { by, .. } => self.cache.unpin(by),
            Event::Evict { serial, page, .. } => self.cache.evict(Buf::Page(serial, page)),
            Event::Done { .. } => if let Some(request) = given.request {
                self.done(tags, medium, w, h, e, &request)
            },
            _ => {}
        }
    }

    /// Takes note of an event, and says what a request that it adds takes.
    pub(crate) fn note(
        &mut self,
        alloc: Global,
        tags: &mut Table,
        medium: &Medium,
        w: &Workload,
        h: &History,
        e: &Event,
        given: &Given,
    ) -> Taken
        requires accepted { IsAccepted w.now }
        requires stands { PagesStand w.now self.old (tags_of tags.old) h.now.events }
        requires tags { Covered (held_by_pages self.old) (tags_of tags.old) }
        requires medium { MediumStands w.now medium.now h.now.events }
        requires fits { Fits w.now h.now.events e.now }
        requires given { IsGiven w.now h.now.events e.now given.now }
        requires room { asks e.now ≡ true → HasPagesRoom self.old (tags_of tags.old) }
        ensures stands { PagesStand w.now self.new (tags_of tags.new) (h.now.events ▹ e.now) }
        ensures moved { Moved (tags_of tags.old) (tags_of tags.new) (held_by_pages self.old) (held_by_pages self.new) }
        ensures spare { (tags_of tags.old).spare ≤ (tags_of tags.new).spare + 16 }
        ensures taken { is_commit_add e.now ≡ false → IsTaken w.now h.now.events e.now result }
    {
        if let Event::Add { by, req } = *e {
            return self.add(alloc, tags, w, h, by, &req);
        }
        self.follow(alloc, tags, medium, w, h, e, given);
        Taken::of(alloc, Causes::none())
    }
}
