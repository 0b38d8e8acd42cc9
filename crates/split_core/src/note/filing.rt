//! The files, and the blocks of the disk.
ghost use Rattle.std.specs.Prelude.{◌≡◌, ◌+◌, ◌-◌, ◌*◌, ◌<◌, ◌≤◌, List, [], Some, None, IfOk, OnOk, IsSome, IfSome, true};
ghost use Rattle.std.specs.Bool.{OnTrue, OnFalse};
ghost use Rattle.split_types.specs.declared.workload.Workload.{Workload};
ghost use Rattle.split_types.specs.declared.event.Event.{Event};
ghost use Rattle.split_types.specs.declared.event.Event.TheVariants as event;
ghost use Rattle.split_types.specs.History.{◌▹◌};
ghost use Rattle.split_types.specs.Accepted.{IsAccepted};
ghost use Rattle.split_types.specs.Legal.{IsLegal};
ghost use Rattle.split_types.specs.Calls.{name_of};
ghost use Rattle.split_types.specs.Files.{file_for};
ghost use Rattle.split_types.specs.FileSlots.{slot_of};
ghost use Rattle.split_types.specs.FileMaps.{mapped_block};
ghost use Rattle.split_types.specs.Workloads.{first_block, preset_pages};
ghost use Rattle.split_core.specs.Asks.{asks};
ghost use Rattle.split_core.specs.Fits.{IsFilePage, Fits};
ghost use Rattle.std.specs.Option.{option_map};
ghost use Rattle.split_core.specs.Givens.{IsGiven};
ghost use Rattle.split_types.specs.LiveFiles.{file_at, made_file, grown_file, mapped_file, blocks_of, slot_of_serial};
ghost use Rattle.delayed_alloc.specs.Blocks.{free_count};
ghost use Rattle.small_fs.specs.Files.{with_file, changed, next_file};
ghost use Rattle.split_core.specs.Filing.{FilingStands, HasFilingRoom, IsFor, MayMake, AreTaken, LetsGo, settles, Takes};

use crate::parts::Given;
use delayed_alloc::Alloc;
use hook_events::History;
use small_fs::Fs;
use split_types::{Call, Event, Name, ReqKind, Request, Serial, Slot, Txn, Workload};
use std::alloc::{AllocError, Global};

/// The first block of data of the first layout of the disk.
const FIRST_OF_ALL: u32 = 526;

/// The first block of data of the second, whose journal is longer.
const FIRST_OF_SECOND: u32 = 1318;

/// The bytes of a page.
const PAGE: u32 = 4096;

/// The files that are there, and which blocks are taken, free or waiting.
#[derive(Drop)]
pub(crate) struct Filing {
    pub(crate) fs: Fs,
    pub(crate) alloc: Alloc,
}

/// The first block of data.
pub(crate) fn first_block(w: &Workload) -> u32
    requires { IsAccepted w.now }
    ensures { result ≡ first_block w.now }
{
    if w.version < 2 {
        FIRST_OF_ALL
    } else {
        FIRST_OF_SECOND
    }
}

/// How many pages all preset files have.
fn preset_pages(w: &Workload) -> u32
    requires { IsAccepted w.now }
    ensures { result ≡ preset_pages w.now }
{
    let mut pages = 0;
    for file in w.files.as_slice() {
        pages += file.pages;
    }
    pages
}

/// The blocks of a dropped file wait until the transaction is committed that takes the drop.
fn let_go(alloc: &mut Alloc, blocks: &[u32], t: Txn)
    requires { AreTaken alloc.old blocks.now }
    ensures { LetsGo alloc.old alloc.new t blocks.now 0 }
{
    for block in blocks {
        alloc.free_later(*block, t);
    }
}

/// Takes back the promises of so many free blocks.
fn take_back(alloc: &mut Alloc, n: u32)
    requires { n ≤ alloc.old.reserved }
    ensures states { alloc.new.states ≡ alloc.old.states }
    ensures reserved { alloc.new.reserved ≡ alloc.old.reserved - n }
{
    for _taken in 0..n {
        alloc.unreserve();
    }
}

/// The name that a call names.
pub(crate) fn name_of(call: &Call) -> &Name
    ensures { result.now ≡ name_of call.now }
{
    match call {
        Call::Creat { name }
        | Call::Write { name, .. }
        | Call::Read { name, .. }
        | Call::Fsync { name }
        | Call::Unlink { name } => name,
    }
}

impl Filing {
    /// The preset files, before any event.
    pub(crate) fn new(alloc: Global, w: &Workload) -> Result<Filing, AllocError>
        requires { IsAccepted w.now }
        ensures { IfOk result (λ f. FilingStands w.now f []) }
    {
        let first = first_block(w);
        let fs = Fs::new(alloc, w.files.as_slice(), first)?;
        let used = first - FIRST_OF_ALL + preset_pages(w);
        let blocks = Alloc::new(alloc, w.device, used)?;
        Ok(Filing { fs, alloc: blocks })
    }

    /// The slot of the file that a call works on where it is admitted now; a creat works on none.
    pub(crate) fn slot_for(&self, w: &Workload, h: &History, call: &Call) -> Option<Slot>
        requires accepted { IsAccepted w.now }
        requires legal { IsLegal w.now h.now.events }
        requires stands { FilingStands w.now self.now h.now.events }
        ensures slot { option_map (slot_of w.now h.now.events) (file_for w.now h.now.events (Some call.now)) ≡ result }
        ensures live { IfSome result (λ slot. IsSome (file_at self.now.fs.slots slot.0)) }
        ensures file { IfSome result (λ slot. IfSome (file_at self.now.fs.slots slot.0)
            (IsFor w.now h.now.events call.now)) }
    {
        match call {
            Call::Creat { .. } => None,
            _ => self.fs.find(name_of(call)),
        }
    }

    /// The block of a page of a file that is there, if it has one.
    pub(crate) fn block_of(
        &self,
        w: &Workload,
        h: &History,
        serial: Serial,
        page: u32,
    ) -> Option<u32>
        requires accepted { IsAccepted w.now }
        requires legal { IsLegal w.now h.now.events }
        requires stands { FilingStands w.now self.now h.now.events }
        requires page { IsFilePage w.now h.now.events serial page }
        ensures { result ≡ mapped_block w.now h.now.events serial.0 page }
    {
        let slot = self.fs.slot_of(serial)?;
        self.fs.map_of(slot, page)
    }

    /// Makes room for one more event.
    pub(crate) fn room(&mut self, alloc: Global) -> Result<(), AllocError>
        ensures stands { (w : Workload) (h : List Event) → FilingStands w self.old h → FilingStands w self.new h }
        ensures ok { OnOk result (HasFilingRoom self.new) }
    {
        self.fs.room(alloc, 1)
    }

    /// A file of this name is made.
    fn make(&mut self, alloc: Global, name: Option<Name>)
        requires may { IfSome name (MayMake self.old.fs) }
        ensures slots { IfSome name (λ n. IfSome (next_file self.old.fs) (λ at. self.new.fs.slots ≡
            with_file at.0.0 (Some (made_file at.1 n)) self.old.fs.slots)) }
        ensures counted { IfSome name (λ n. self.new.fs.next ≡ self.old.fs.next + 1) }
        ensures first { self.new.fs.first ≡ self.old.fs.first }
        ensures blocks { self.new.alloc ≡ self.old.alloc }
    {
        if let Some(name) = name {
            let _made = self.fs.make(alloc, name);
        }
    }

    /// A file is dropped; a transaction takes that.
    fn drop_file(&mut self, slot: Slot, promised: u32, t: Txn)
        requires live { IsSome (file_at self.old.fs.slots slot.0) }
        requires taken { IfSome (file_at self.old.fs.slots slot.0) (λ f. AreTaken self.old.alloc (blocks_of f)) }
        requires promised { promised ≤ self.old.alloc.reserved }
        ensures files { self.new.fs ≡ record self.old.fs { slots = with_file slot.0 None self.old.fs.slots } }
        ensures blocks { IfSome (file_at self.old.fs.slots slot.0)
            (λ f. LetsGo self.old.alloc self.new.alloc t (blocks_of f) promised) }
    {
        let blocks = self.fs.drop_file(slot);
        let_go(&mut self.alloc, blocks.as_slice(), t);
        take_back(&mut self.alloc, promised);
    }

    /// A request is done; the blocks that wait for the transaction that it commits, if it does, are free.
    fn settle(&mut self, request: Option<Request>)
        ensures files { self.new.fs ≡ self.old.fs }
        ensures blocks { self.new.alloc ≡ settles request self.old.alloc }
    {
        if let Some(request) = request {
            if let ReqKind::Commit(t) = request.kind {
                self.alloc.settle(t);
            }
        }
    }

    /// Bytes of a page are put, up to this one of the page.
    fn put(&mut self, serial: Serial, page: u32, to: u32, promise: bool)
        requires page { page < 1008 }
        requires to { to ≤ 4096 }
        requires promise { OnTrue promise (self.old.alloc.reserved < free_count self.old.alloc) }
        ensures files { IfSome (slot_of_serial self.old.fs.slots serial) (λ at. self.new.fs ≡
            record self.old.fs { slots = changed (grown_file (4096 * page + to)) at self.old.fs.slots }) }
        ensures promised { OnTrue promise (self.new.alloc ≡
            record self.old.alloc { reserved = self.old.alloc.reserved + 1 }) }
        ensures kept { OnFalse promise (self.new.alloc ≡ self.old.alloc) }
    {
        if let Some(slot) = self.fs.slot_of(serial) {
            self.fs.grow(slot, PAGE * page + to);
        }
        if promise {
            let _promised = self.alloc.reserve();
        }
    }

    /// Pages get blocks, or keep them.
    fn map(&mut self, slot: Slot, page: u32, n: u32, block: u32, new: bool, size: u32)
        requires live { IsSome (file_at self.old.fs.slots slot.0) }
        requires pages { page + n ≤ 1008 }
        requires first { 526 ≤ block }
        requires blocks { block + n ≤ 32768 }
        requires size { size ≤ 4128768 }
        requires some { OnTrue new (1 ≤ n) }
        requires promised { OnTrue new (n ≤ self.old.alloc.reserved) }
        ensures files { self.new.fs ≡ record self.old.fs {
          slots = changed (mapped_file page n block size) slot.0 self.old.fs.slots;
        } }
        ensures taken { OnTrue new (Takes self.old.alloc self.new.alloc n) }
        ensures kept { OnFalse new (self.new.alloc ≡ self.old.alloc) }
    {
        if new {
            let _run = self.alloc.take_run(n);
        }
        self.fs.map_run(slot, page, n, block, size);
    }

    /// Takes note of an event.
    pub(crate) fn note(
        &mut self,
        alloc: Global,
        w: &Workload,
        h: &History,
        e: &Event,
        given: &Given,
    )
        requires accepted { IsAccepted w.now }
        requires stands { FilingStands w.now self.old h.now.events }
        requires fits { Fits w.now h.now.events e.now }
        requires given { IsGiven w.now h.now.events e.now given.now }
        requires room { asks e.now ≡ true → HasFilingRoom self.old }
        ensures { FilingStands w.now self.new (h.now.events ▹ e.now) }
    {
        match *e {
            Event::Make { .. } => self.make(alloc, given.name),
            Event::Drop { slot, .. } => self.drop_file(slot, given.promised, given.next),
            Event::Put {
                serial,
                page,
                to,
                ..
            } => self.put(serial, page, to, given.promise),
            Event::Map {
                slot,
                page,
                n,
                block,
                new,
                size,
                ..
            } => self.map(slot, page, n, block, new, size),
            Event::Done { .. } => self.settle(given.request),
            _ => {}
        }
    }
}
