//! What writeback serves, and for whom.
ghost use Rattle.std.specs.Prelude.{◌≡◌, ℕ, ◌+◌, ◌<◌, ◌≤◌, [], map, Some, is_some, IsSome, IsTrue, true};
ghost use Rattle.std.specs.Option.{option_map};
ghost use Rattle.split_types.specs.declared.buf.Buf.TheVariants.{Page};
ghost use Rattle.split_types.specs.declared.request.Service.TheVariants.{Serving, Mapped};
ghost use Rattle.split_types.specs.Parents.{pages_of};
ghost use Rattle.split_types.specs.Sets.{union_of};
ghost use Rattle.split_types.specs.History.{◌▹◌};
ghost use Rattle.cause_set.specs.Tags.{Tags, Moved, no_use};
ghost use Rattle.journal_core.specs.Causes.{Covered};
ghost use Rattle.page_cache.specs.Cached.{page_of, tag_in, causes_of};
ghost use Rattle.proxies.specs.declared.writeback.Writeback.TheVariants.{Idle};
ghost use Rattle.proxies.specs.Causes.{causes_of_writeback};
ghost use Rattle.tag_table.specs.Tags.{tags_of};
ghost use Rattle.split_core.specs.Asks.{asks};
ghost use Rattle.split_core.specs.Fits.{Fits};
ghost use Rattle.split_core.specs.Pages.{PagesStand, held_by_pages};
ghost use Rattle.split_core.specs.Served.{ServedStands, service_of, held_by_service};

use crate::note::pages::Pages;
use cause_set::TagStore;
use hook_events::History;
use proxies::Writeback;
use split_types::{Event, ReqKind, Run, Workload};
use std::mem;
use tag_table::{Table, TableTag};

/// What writeback serves, with a tag of those for whom it does.
#[derive(Drop)]
pub(crate) struct Served {
    pub(crate) state: Writeback<TableTag>,
}

impl Served {
    /// Nothing is served.
    pub(crate) fn new() -> Served
        ensures stands { (tags : Tags) → ServedStands result tags [] }
        ensures none { (n : ℕ) → held_by_service result n ≡ 0 }
    {
        Served {
            state: Writeback::Idle,
        }
    }

    /// A run is served for all for whom its pages are dirty.
    fn serve(&mut self, tags: &mut Table, pages: &Pages, run: Run)
        requires idle { self.old.state ≡ Idle }
        requires some { 1 ≤ run.n }
        requires few { run.n ≤ 16 }
        requires within { run.page + run.n ≤ 1008 }
        requires dirty { (k : ℕ) → k < run.n → IsTrue (is_some (tag_in (page_of pages.now.cache (Page run.serial (run.page + k))))) }
        requires covered { Covered (held_by_pages pages.now) (tags_of tags.old) }
        requires room { 16 ≤ (tags_of tags.old).spare }
        ensures serving { service_of self.new.state ≡ Serving run }
        ensures causes { option_map (λ t. (tags_of tags.new).members t.number) (causes_of_writeback self.new.state)
            ≡ Some (union_of (map (causes_of (tags_of tags.old) pages.now.cache) (pages_of run.serial run.page run.n))) }
        ensures moved { Moved (tags_of tags.old) (tags_of tags.new) no_use (held_by_service self.new) }
        ensures spare { (tags_of tags.old).spare ≤ (tags_of tags.new).spare + 16 }
    {
        let causes = pages.tag_of(tags, run);
        self.state = Writeback::Serving { run, causes };
    }

    /// Pages of the run that is served have blocks: these.
    fn map(&mut self, run: Run)
        ensures mapped { IsSome (causes_of_writeback self.old.state) → service_of self.new.state ≡ Mapped run }
        ensures causes { causes_of_writeback self.new.state ≡ causes_of_writeback self.old.state }
    {
        self.state = match mem::replace(&mut self.state, Writeback::Idle) {
            Writeback::Idle => Writeback::Idle,
            Writeback::Serving { run: _, causes } | Writeback::Mapped { run: _, causes } => {
                Writeback::Mapped { run, causes }
            }
        };
    }

    /// Nothing is served any more.
    fn end(&mut self, tags: &mut Table)
        requires { Covered (held_by_service self.old) (tags_of tags.old) }
        ensures idle { self.new.state ≡ Idle }
        ensures moved { Moved (tags_of tags.old) (tags_of tags.new) (held_by_service self.old) no_use }
        ensures spare { (tags_of tags.old).spare ≤ (tags_of tags.new).spare }
    {
        match mem::replace(&mut self.state, Writeback::Idle) {
            Writeback::Idle => {}
            Writeback::Serving { run: _, causes } | Writeback::Mapped { run: _, causes } => {
                tags.release(causes)
            }
        }
    }

    /// Takes note of an event, where the pages are as they were before it.
    pub(crate) fn note(
        &mut self,
        tags: &mut Table,
        pages: &Pages,
        w: &Workload,
        h: &History,
        e: &Event,
    )
        requires stands { ServedStands self.old (tags_of tags.old) h.now.events }
        requires pages { PagesStand w.now pages.now (tags_of tags.old) h.now.events }
        requires covered { (n : ℕ) → held_by_pages pages.now n + held_by_service self.old n ≤ (tags_of tags.old).uses n }
        requires fits { Fits w.now h.now.events e.now }
        requires room { asks e.now ≡ true → 16 ≤ (tags_of tags.old).spare }
        ensures stands { ServedStands self.new (tags_of tags.new) (h.now.events ▹ e.now) }
        ensures moved { Moved (tags_of tags.old) (tags_of tags.new) (held_by_service self.old) (held_by_service self.new) }
        ensures spare { (tags_of tags.old).spare ≤ (tags_of tags.new).spare + 16 }
    {
        match *e {
            Event::Serve { serial, page, n } => { self.serve(tags, pages, Run { serial, page, n }) }
            Event::Map {
                serial,
                page,
                n,
                ..
            } => self.map(Run { serial, page, n }),
            Event::Skip => self.end(tags),
            Event::Add { req, .. } => if let ReqKind::Pages(..) = req.kind {
                self.end(tags)
            },
            _ => {}
        }
    }
}
