//! What an fsync waits for: pages of its file that aren't on the disk, and the transaction of the file's last change.
ghost use Rattle.std.specs.Prelude.{◌≡◌, ◌+◌, ◌-◌, ◌<◌, ◌≤◌, [], length, map, count_by, slice_index_or, true, Some, None, IfOk, IfSome, not, ◌&&◌};
ghost use Rattle.std.specs.List.{list_any};
ghost use Rattle.split_types.specs.declared.workload.Workload.{Workload};
ghost use Rattle.split_types.specs.declared.event.Event.{Event};
ghost use Rattle.split_types.specs.declared.event.Event.TheVariants as event;
ghost use Rattle.split_types.specs.declared.ids.Txn.{Txn};
ghost use Rattle.split_types.specs.History.{◌▹◌};
ghost use Rattle.split_types.specs.Accepted.{IsAccepted};
ghost use Rattle.split_types.specs.Legal.{IsLegal};
ghost use Rattle.split_types.specs.Calls.{call_of};
ghost use Rattle.split_types.specs.Files.{bound_file};
ghost use Rattle.split_types.specs.Syncing.{admit_place, awaited_txn, is_written, is_safe};
ghost use Rattle.journal_core.specs.Journaled.{is_committed as says_committed};
ghost use Rattle.split_core.specs.Fits.{Fits};
ghost use Rattle.split_core.specs.Givens.{IsGiven, is_sync};
ghost use Rattle.split_core.specs.Pages.{IsDoneOf};
ghost use Rattle.split_types.specs.FileMaps.{is_committed};
ghost use Rattle.split_core.specs.Filing.{FilesAre};
ghost use Rattle.split_core.specs.Syncs.{no_pages, pages_taken, pages_done, has_file, SyncsStand, live_slot, new_file, no_call, file_changed, call_changed, file_put, file_taken, file_done, file_mapped, is_of, call_taken, call_done, call_dropped, call_admitted, call_flushed, call_returned};

use crate::note::page_set::PageSet;
use crate::parts::Given;
use hook_events::History;
use journal_core::Journal;
use small_fs::Fs;
use split_types::{Actor, Event, Pid, ReqKind, Request, Serial, Slot, Txn, Workload};
use std::alloc::{AllocError, Global};
use tag_table::Table;

/// So many files may be there.
const SLOTS: usize = 256;

/// The pages of a file that are to be written: those that are dirty, and those that an unfinished request writes.
#[derive(Clone, Copy, Debug)]
pub(crate) struct Unwritten {
    pub(crate) dirty: PageSet,
    pub(crate) flying: PageSet,
}

/// What is kept of the file of a slot: its pages that are to be written, and the transaction of its last make or map.
#[derive(Clone, Copy, Debug)]
pub(crate) struct FileSync {
    pub(crate) pages: Unwritten,
    pub(crate) change: Option<Txn>,
}

/// What is kept of a process: the file of its fsync that was admitted and hasn't returned, the pages of it that were put
/// before and aren't on the disk, and the transaction that its last fsync awaits which was flushed.
#[derive(Clone, Copy, Debug)]
pub(crate) struct CallSync {
    pub(crate) file: Option<Serial>,
    pub(crate) pages: Unwritten,
    pub(crate) awaited: Option<Txn>,
}

/// The files by slot, the fsyncs by process, and how many of these were admitted and haven't returned.
#[derive(Debug, Drop)]
pub(crate) struct Syncs {
    pub(crate) files: Vec<FileSync>,
    pub(crate) calls: Vec<CallSync>,
    pub(crate) admitted: u32,
}

impl Unwritten {
    /// No page.
    fn new() -> Unwritten
        ensures { result ≡ no_pages }
    {
        Unwritten {
            dirty: PageSet::new(),
            flying: PageSet::new(),
        }
    }

    /// A request takes these pages: those of them that are dirty are on their way.
    fn take(&mut self, page: u32, n: u32)
        requires { page + n ≤ 1008 }
        ensures { self.new ≡ pages_taken page n self.old }
    {
        for k in page..page + n {
            if self.dirty.remove(k) {
                self.flying.insert(k);
            }
        }
    }

    /// The request for these pages is done.
    fn done(&mut self, page: u32, n: u32)
        requires { page + n ≤ 1008 }
        ensures { self.new ≡ pages_done page n self.old }
    {
        for k in page..page + n {
            let _was = self.flying.remove(k);
        }
    }

    /// Whether all is on the disk.
    fn is_written(&self) -> bool
        ensures { result ≡ (not (list_any (λ b. b) self.now.dirty) && not (list_any (λ b. b) self.now.flying)) }
    {
        self.dirty.is_empty() && self.flying.is_empty()
    }
}

impl FileSync {
    /// A file of which no page was put.
    fn new(change: Option<Txn>) -> FileSync
        ensures { result ≡ new_file change }
    {
        FileSync {
            pages: Unwritten::new(),
            change,
        }
    }
}

impl CallSync {
    /// No fsync.
    fn none() -> CallSync
        ensures { result ≡ no_call }
    {
        CallSync {
            file: None,
            pages: Unwritten::new(),
            awaited: None,
        }
    }

    /// Whether it is an fsync of this file.
    fn is_of(&self, serial: Serial) -> bool
        ensures { result ≡ is_of serial self.now }
    {
        match self.file {
            Some(file) => file.0 == serial.0,
            None => false,
        }
    }

    /// A request takes pages of a file.
    fn take(&mut self, serial: Serial, page: u32, n: u32)
        requires { page + n ≤ 1008 }
        ensures { self.new ≡ call_taken serial page n self.old }
    {
        if self.is_of(serial) {
            self.pages.take(page, n);
        }
    }

    /// The request for pages of a file is done.
    fn done(&mut self, serial: Serial, page: u32, n: u32)
        requires { page + n ≤ 1008 }
        ensures { self.new ≡ call_done serial page n self.old }
    {
        if self.is_of(serial) {
            self.pages.done(page, n);
        }
    }

    /// A file is dropped: what was put of it and not taken is gone.
    fn drop_file(&mut self, serial: Serial)
        ensures { self.new ≡ call_dropped serial self.old }
    {
        if self.is_of(serial) {
            self.pages.dirty = PageSet::new();
        }
    }
}

/// A request takes pages of a file, for each process.
fn take_all(calls: &mut [CallSync], serial: Serial, page: u32, n: u32)
    requires { page + n ≤ 1008 }
    ensures { calls.new ≡ map (call_taken serial page n) calls.old }
{
    for call in calls.iter_mut() {
        call.take(serial, page, n);
    }
}

/// The request for pages of a file is done, for each process.
fn done_all(calls: &mut [CallSync], serial: Serial, page: u32, n: u32)
    requires { page + n ≤ 1008 }
    ensures { calls.new ≡ map (call_done serial page n) calls.old }
{
    for call in calls.iter_mut() {
        call.done(serial, page, n);
    }
}

/// A file is dropped, for each process.
fn drop_all(calls: &mut [CallSync], serial: Serial)
    ensures { calls.new ≡ map (call_dropped serial) calls.old }
{
    for call in calls.iter_mut() {
        call.drop_file(serial);
    }
}

/// The slot of a file, where that is there.
fn live_slot(w: &Workload, h: &History, fs: &Fs, serial: Serial) -> Option<Slot>
    requires accepted { IsAccepted w.now }
    requires legal { IsLegal w.now h.now.events }
    requires files { FilesAre w.now fs.now h.now.events }
    ensures { result ≡ live_slot w.now h.now.events serial }
{
    fs.slot_of(serial)
}

impl Syncs {
    /// Before any event.
    pub(crate) fn new(alloc: Global, w: &Workload) -> Result<Syncs, AllocError>
        requires { IsAccepted w.now }
        ensures { IfOk result (λ s. SyncsStand w.now s []) }
    {
        let files = vec![in alloc; FileSync::new(None); SLOTS]?;
        let calls = vec![in alloc; CallSync::none(); w.procs.len()]?;
        Ok(Syncs {
            files,
            calls,
            admitted: 0,
        })
    }

    /// Whether all puts of the file of a process's fsync that came before its admit are on the disk.
    pub(crate) fn is_written(&self, w: &Workload, h: &History, p: Pid) -> bool
        requires accepted { IsAccepted w.now }
        requires legal { IsLegal w.now h.now.events }
        requires stands { SyncsStand w.now self.now h.now.events }
        requires first { 1 ≤ p.0 }
        requires last { p.0 ≤ length w.now.procs }
        ensures { is_sync (call_of w.now h.now.events p.0) ≡ true
            → result ≡ is_written h.now.events (bound_file w.now h.now.events p.0) (admit_place h.now.events p.0) }
    {
        let call = &self.calls[(p.0 - 1) as usize];
        call.file.is_some() && call.pages.is_written()
    }

    /// Whether the last change of its file before it was flushed is committed.
    pub(crate) fn is_safe(
        &self,
        w: &Workload,
        h: &History,
        journal: &Journal<Table>,
        p: Pid,
    ) -> bool
        requires stands { SyncsStand w.now self.now h.now.events }
        requires committed { (t : Txn) → says_committed journal.now t ≡ is_committed h.now.events t }
        requires first { 1 ≤ p.0 }
        requires last { p.0 ≤ length w.now.procs }
        ensures { result ≡ is_safe h.now.events (awaited_txn w.now h.now.events p.0) }
    {
        match self.calls[(p.0 - 1) as usize].awaited {
            Some(t) => journal.committed(t),
            None => true,
        }
    }

    /// A file is made in a slot.
    fn make(&mut self, slot: Slot, t: Txn)
        requires { slot.0 < length self.old.files.items }
        ensures files { self.new.files.items ≡ file_changed (λ x. new_file (Some t)) (Some slot) self.old.files.items }
        ensures calls { self.new.calls ≡ self.old.calls }
        ensures admitted { self.new.admitted ≡ self.old.admitted }
    {
        self.files[slot.0 as usize] = FileSync::new(Some(t));
    }

    /// A file is changed by a map.
    fn change(&mut self, slot: Slot, t: Txn)
        requires { slot.0 < length self.old.files.items }
        ensures files { self.new.files.items ≡ file_changed (file_mapped t) (Some slot) self.old.files.items }
        ensures calls { self.new.calls ≡ self.old.calls }
        ensures admitted { self.new.admitted ≡ self.old.admitted }
    {
        self.files[slot.0 as usize].change = Some(t);
    }

    /// A page of the file of a slot is put.
    fn put(&mut self, at: Option<Slot>, page: u32)
        requires slot { IfSome at (λ k. k.0 < length self.old.files.items) }
        requires page { page < 1008 }
        ensures files { self.new.files.items ≡ file_changed (file_put page) at self.old.files.items }
        ensures calls { self.new.calls ≡ self.old.calls }
        ensures admitted { self.new.admitted ≡ self.old.admitted }
    {
        if let Some(slot) = at {
            self.files[slot.0 as usize].pages.dirty.insert(page);
        }
    }

    /// An fsync is admitted, with what the file of a slot has to be written.
    fn begin(&mut self, by: Pid, slot: Slot, serial: Serial)
        requires first { 1 ≤ by.0 }
        requires last { by.0 ≤ length self.old.calls.items }
        requires slot { slot.0 < length self.old.files.items }
        requires few { self.old.admitted ≤ 32 }
        ensures files { self.new.files ≡ self.old.files }
        ensures calls { self.new.calls.items ≡ call_changed
            (call_admitted serial (slice_index_or self.old.files.items slot.0 (new_file None)).pages)
            (by.0 - 1) self.old.calls.items }
        ensures admitted { self.new.admitted ≡ self.old.admitted + 1 }
    {
        let pages = self.files[slot.0 as usize].pages;
        let call = &mut self.calls[(by.0 - 1) as usize];
        call.file = Some(serial);
        call.pages = pages;
        self.admitted += 1;
    }

    /// An fsync of the file of a slot is flushed.
    fn flush(&mut self, by: Pid, slot: Slot)
        requires first { 1 ≤ by.0 }
        requires last { by.0 ≤ length self.old.calls.items }
        requires slot { slot.0 < length self.old.files.items }
        ensures files { self.new.files ≡ self.old.files }
        ensures calls { self.new.calls.items ≡ call_changed
            (call_flushed (slice_index_or self.old.files.items slot.0 (new_file None)).change)
            (by.0 - 1) self.old.calls.items }
        ensures admitted { self.new.admitted ≡ self.old.admitted }
    {
        let change = self.files[slot.0 as usize].change;
        self.calls[(by.0 - 1) as usize].awaited = change;
    }

    /// The file that a process's fsync is bound to.
    fn file_of(&self, by: Pid) -> Option<Serial>
        requires first { 1 ≤ by.0 }
        requires last { by.0 ≤ length self.now.calls.items }
        ensures { result ≡ (slice_index_or self.now.calls.items (by.0 - 1) no_call).file }
    {
        self.calls[(by.0 - 1) as usize].file
    }

    /// A call returns.
    fn ret(&mut self, by: Pid)
        requires first { 1 ≤ by.0 }
        requires last { by.0 ≤ length self.old.calls.items }
        requires admitted { self.old.admitted ≡ count_by has_file self.old.calls.items }
        ensures files { self.new.files ≡ self.old.files }
        ensures calls { self.new.calls.items ≡ call_changed call_returned (by.0 - 1) self.old.calls.items }
        ensures admitted { self.new.admitted ≡ count_by has_file self.new.calls.items }
    {
        if self.file_of(by).is_some() {
            self.calls[(by.0 - 1) as usize].file = None;
            self.admitted -= 1;
        }
    }

    /// A request takes pages of a file, which stands in a slot if it is there.
    fn take(&mut self, at: Option<Slot>, serial: Serial, page: u32, n: u32)
        requires slot { IfSome at (λ k. k.0 < length self.old.files.items) }
        requires pages { page + n ≤ 1008 }
        requires admitted { self.old.admitted ≡ count_by has_file self.old.calls.items }
        ensures files { self.new.files.items ≡ file_changed (file_taken page n) at self.old.files.items }
        ensures calls { self.new.calls.items ≡ map (call_taken serial page n) self.old.calls.items }
        ensures admitted { self.new.admitted ≡ self.old.admitted }
    {
        if let Some(slot) = at {
            self.files[slot.0 as usize].pages.take(page, n);
        }
        if self.admitted > 0 {
            take_all(&mut self.calls, serial, page, n);
        }
    }

    /// The request for pages of a file is done, which stands in a slot if it is there.
    fn done(&mut self, at: Option<Slot>, serial: Serial, page: u32, n: u32)
        requires slot { IfSome at (λ k. k.0 < length self.old.files.items) }
        requires pages { page + n ≤ 1008 }
        requires admitted { self.old.admitted ≡ count_by has_file self.old.calls.items }
        ensures files { self.new.files.items ≡ file_changed (file_done page n) at self.old.files.items }
        ensures calls { self.new.calls.items ≡ map (call_done serial page n) self.old.calls.items }
        ensures admitted { self.new.admitted ≡ self.old.admitted }
    {
        if let Some(slot) = at {
            self.files[slot.0 as usize].pages.done(page, n);
        }
        if self.admitted > 0 {
            done_all(&mut self.calls, serial, page, n);
        }
    }

    /// A file is dropped.
    fn drop_file(&mut self, serial: Serial)
        requires admitted { self.old.admitted ≡ count_by has_file self.old.calls.items }
        ensures files { self.new.files ≡ self.old.files }
        ensures calls { self.new.calls.items ≡ map (call_dropped serial) self.old.calls.items }
        ensures admitted { self.new.admitted ≡ self.old.admitted }
    {
        if self.admitted > 0 {
            drop_all(&mut self.calls, serial);
        }
    }

    /// A call is admitted.
    fn admit(&mut self, w: &Workload, h: &History, fs: &Fs, by: Pid, given: &Given)
        requires accepted { IsAccepted w.now }
        requires stands { SyncsStand w.now self.old h.now.events }
        requires files { FilesAre w.now fs.now h.now.events }
        requires fits { Fits w.now h.now.events (event.Admit by) }
        requires given { IsGiven w.now h.now.events (event.Admit by) given.now }
        ensures { SyncsStand w.now self.new (h.now.events ▹ event.Admit by) }
    {
        if !given.syncs {
            return;
        }
        if let Some(serial) = given.file {
            if let Some(slot) = live_slot(w, h, fs, serial) {
                self.begin(by, slot, serial);
            }
        }
    }

    /// An fsync is flushed.
    fn flushed(&mut self, w: &Workload, h: &History, fs: &Fs, by: Pid)
        requires accepted { IsAccepted w.now }
        requires stands { SyncsStand w.now self.old h.now.events }
        requires files { FilesAre w.now fs.now h.now.events }
        requires fits { Fits w.now h.now.events (event.Flushed by) }
        ensures { SyncsStand w.now self.new (h.now.events ▹ event.Flushed by) }
    {
        if let Some(serial) = self.file_of(by) {
            if let Some(slot) = live_slot(w, h, fs, serial) {
                self.flush(by, slot);
            }
        }
    }

    /// A request is added.
    fn add(&mut self, w: &Workload, h: &History, fs: &Fs, by: Actor, request: &Request)
        requires accepted { IsAccepted w.now }
        requires stands { SyncsStand w.now self.old h.now.events }
        requires files { FilesAre w.now fs.now h.now.events }
        requires fits { Fits w.now h.now.events (event.Add by request.now) }
        ensures { SyncsStand w.now self.new (h.now.events ▹ event.Add by request.now) }
    {
        if let ReqKind::Pages(serial, page) = request.kind {
            self.take(live_slot(w, h, fs, serial), serial, page, request.n);
        }
    }

    /// A request is done.
    fn end(&mut self, w: &Workload, h: &History, fs: &Fs, e: &Event, request: &Request)
        requires accepted { IsAccepted w.now }
        requires stands { SyncsStand w.now self.old h.now.events }
        requires files { FilesAre w.now fs.now h.now.events }
        requires fits { Fits w.now h.now.events e.now }
        requires done { IsDoneOf h.now.events e.now request.now }
        ensures { SyncsStand w.now self.new (h.now.events ▹ e.now) }
    {
        if let ReqKind::Pages(serial, page) = request.kind {
            self.done(live_slot(w, h, fs, serial), serial, page, request.n);
        }
    }

    /// Takes note of an event.
    pub(crate) fn note(&mut self, w: &Workload, h: &History, fs: &Fs, e: &Event, given: &Given)
        requires accepted { IsAccepted w.now }
        requires stands { SyncsStand w.now self.old h.now.events }
        requires files { FilesAre w.now fs.now h.now.events }
        requires fits { Fits w.now h.now.events e.now }
        requires given { IsGiven w.now h.now.events e.now given.now }
        ensures { SyncsStand w.now self.new (h.now.events ▹ e.now) }
    {
        match *e {
            Event::Make { slot, .. } => self.make(slot, given.next),
            Event::Map { slot, .. } => self.change(slot, given.next),
            Event::Put { serial, page, .. } => self.put(live_slot(w, h, fs, serial), page),
            Event::Drop { serial, .. } => self.drop_file(serial),
            Event::Admit { by } => self.admit(w, h, fs, by, given),
            Event::Flushed { by } => self.flushed(w, h, fs, by),
            Event::Ret { by, .. } => self.ret(by),
            Event::Add { by, req } => self.add(w, h, fs, by, &req),
            Event::Done { .. } => if let Some(request) = given.request {
                self.end(w, h, fs, e, &request)
            },
            _ => {}
        }
    }
}
