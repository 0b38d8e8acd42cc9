//! What writeback does next.
ghost use Rattle.std.specs.Prelude.{◌≡◌, ◌+◌, ◌≤◌, Some, None};
ghost use Rattle.split_types.specs.declared.request.Service.TheVariants as service;
ghost use Rattle.split_types.specs.FileMaps.{mapped_block};
ghost use Rattle.split_types.specs.Writeback.{service};
ghost use Rattle.split_types.specs.Serving.{service_state, next_serve, next_of_serving, next_of_mapped, next_of_placed, map_of, map_free, add_of, next_of_writeback};
ghost use Rattle.split_core.specs.Clients.{mapped_run};
ghost use Rattle.split_core.specs.Fits.{DropFits};

use crate::machine::Core;
use proxies::Writeback;
use split_types::{Actor, Event, ReqId, ReqKind, Request, Run, Slot};
use writeback::next_service;

/// The bytes of a page.
const PAGE: u32 = 4096;

impl Core {
    /// The run of writeback whose pages are mapped, and whose request isn't added; none where there is none.
    pub(crate) fn mapped(&self) -> Option<Run>
        ensures { result ≡ mapped_run (service self.now.history) }
    {
        match &self.parts.service.state {
            Writeback::Mapped { run, causes: _ } => Some(*run),
            Writeback::Idle | Writeback::Serving { run: _, causes: _ } => None,
        }
    }

    /// The serve of a run from the first page that is ready.
    fn next_serve(&self) -> Option<Event>
        ensures { result ≡ next_serve self.now.workload self.now.history }
    {
        let run = next_service(&self.parts.pages.cache, &self.parts.filing.fs)?;
        Some(Event::Serve {
            serial: run.serial,
            page: run.page,
            n: run.n,
        })
    }

    /// The request that writes out a run to the blocks from this one on.
    fn add_of(&self, run: Run, block: u32) -> Event
        ensures { result ≡ add_of (service_state self.now.workload self.now.history run) block }
    {
        Event::Add {
            by: Actor::Wb,
            req: Request {
                id: ReqId(self.parts.book.entries.len() as u32),
                kind: ReqKind::Pages(run.serial, run.page),
                first: block,
                n: run.n,
            },
        }
    }

    /// The first `n` pages of a run get the blocks from this one on, or keep them.
    fn map_of(&self, slot: Slot, run: Run, n: u32, block: u32, new: bool) -> Event
        requires file { DropFits self.now.workload self.now.history slot run.serial }
        requires within { run.page + n ≤ 1008 }
        ensures { result ≡ map_of (service_state self.now.workload self.now.history run) n block new }
    {
        let fs = &self.parts.filing.fs;
        let end = fs.size_of(slot).min(PAGE * (run.page + n));
        Event::Map {
            slot,
            serial: run.serial,
            page: run.page,
            n,
            block,
            new,
            size: fs.disk_size_of(slot).max(end),
        }
    }

    /// The pages of a run that is served, which have no blocks, get free ones.
    fn map_free(&self, slot: Slot, run: Run) -> Event
        requires serving { service self.now.history ≡ service.Serving run }
        requires file { DropFits self.now.workload self.now.history slot run.serial }
        requires unplaced { mapped_block self.now.workload self.now.history run.serial.0 run.page ≡ None }
        ensures { map_free (service_state self.now.workload self.now.history run) ≡ Some result }
    {
        let (block, n) = self.parts.filing.alloc.peek_run(run.n);
        self.map_of(slot, run, n, block, true)
    }

    /// A run whose pages have the blocks from this one on is written out once the inode says all its bytes.
    fn next_of_placed(&self, slot: Slot, run: Run, block: u32) -> Event
        requires file { DropFits self.now.workload self.now.history slot run.serial }
        requires within { run.page + run.n ≤ 1008 }
        ensures { next_of_placed (service_state self.now.workload self.now.history run) block ≡ Some result }
    {
        let fs = &self.parts.filing.fs;
        let end = fs.size_of(slot).min(PAGE * (run.page + run.n));
        if fs.disk_size_of(slot) < end {
            self.map_of(slot, run, run.n, block, false)
        } else {
            self.add_of(run, block)
        }
    }

    /// What comes next with a run that is served, whose file is there.
    fn next_of_serving(&self, slot: Slot, run: Run) -> Option<Event>
        requires serving { service self.now.history ≡ service.Serving run }
        requires file { DropFits self.now.workload self.now.history slot run.serial }
        ensures { result ≡ next_of_serving (service_state self.now.workload self.now.history run) }
    {
        match self.parts.filing.fs.map_of(slot, run.page) {
            None => Some(self.map_free(slot, run)),
            Some(block) => Some(self.next_of_placed(slot, run, block)),
        }
    }

    /// What comes next with a run that is mapped, whose file is there.
    fn next_of_mapped(&self, slot: Slot, run: Run) -> Option<Event>
        requires mapped { service self.now.history ≡ service.Mapped run }
        requires file { DropFits self.now.workload self.now.history slot run.serial }
        ensures { result ≡ next_of_mapped (service_state self.now.workload self.now.history run) }
    {
        let block = self.parts.filing.fs.map_of(slot, run.page)?;
        Some(self.add_of(run, block))
    }

    /// The next event of writeback: a run whose file was dropped is skipped.
    pub(crate) fn next_of_writeback(&self) -> Option<Event>
        ensures { result ≡ next_of_writeback self.now.workload self.now.history }
    {
        let fs = &self.parts.filing.fs;
        match &self.parts.service.state {
            Writeback::Idle => self.next_serve(),
            Writeback::Serving { run, causes: _ } => match fs.slot_of(run.serial) {
                None => Some(Event::Skip),
                Some(slot) => self.next_of_serving(slot, *run),
            },
            Writeback::Mapped { run, causes: _ } => match fs.slot_of(run.serial) {
                None => Some(Event::Skip),
                Some(slot) => self.next_of_mapped(slot, *run),
            },
        }
    }
}
