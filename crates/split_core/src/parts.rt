//! The parts together, and what one hands to another.
ghost use Rattle.std.specs.Prelude.{◌≡◌, ℕ, ◌+◌, ◌^◌, ◌<◌, ◌&&◌, length, List, [], true, Some, None, not, is_none, count_by, IfOk, OnOk};
ghost use Rattle.std.specs.Option.{option_copied, option_map};
ghost use Rattle.split_types.specs.declared.workload.Workload.{Workload};
ghost use Rattle.split_types.specs.declared.event.Event.{Event};
ghost use Rattle.split_types.specs.History.{◌▹◌, adds};
ghost use Rattle.split_types.specs.Calls.{call_of, name_of};
ghost use Rattle.split_types.specs.declared.event.Event.TheVariants as event;
ghost use Rattle.split_types.specs.declared.buf.Buf.TheVariants as buf;
ghost use Rattle.split_types.specs.Legal.{IsLegal};
ghost use Rattle.split_types.specs.Files.{file_for};
ghost use Rattle.split_types.specs.FileSizes.{size_of_some};
ghost use Rattle.split_types.specs.FileMaps.{mapped_block, is_reserved, reserved_pages};
ghost use Rattle.split_types.specs.Pages.{is_dirty};
ghost use Rattle.split_types.specs.PagesInCache.{is_page_of};
ghost use Rattle.split_types.specs.Accepted.{IsAccepted};
ghost use Rattle.split_core.specs.Plans.{PlanStands};
ghost use Rattle.split_core.specs.Asks.{asks};
ghost use Rattle.split_core.specs.Fits.{ClientFits, DropFits, IsFilePage, Fits};
ghost use Rattle.split_core.specs.Givens.{IsGiven, GivenDrop, GivenDone, is_sync};
ghost use Rattle.tag_table.specs.Tags.{tags_of};
ghost use Rattle.split_core.specs.Book.{BookStands};
ghost use Rattle.split_core.specs.Clients.{ClientsStand};
ghost use Rattle.split_core.specs.Counts.{CountsStand};
ghost use Rattle.split_core.specs.Filing.{FilingStands};
ghost use Rattle.split_core.specs.Medium.{MediumStands};
ghost use Rattle.split_core.specs.Money.{MoneyStands};
ghost use Rattle.split_core.specs.Pages.{PagesStand, held_by_pages};
ghost use Rattle.split_core.specs.Journaling.{JournalStands, held_by_journal};
ghost use Rattle.split_core.specs.Served.{ServedStands};
ghost use Rattle.split_core.specs.Takings.{Brings, IsTaken, is_commit_add};
ghost use Rattle.split_core.specs.StandsFor.{PartsStand, TagsStand, HasRoom};
ghost use Rattle.cause_set.specs.Tags.{Tags};

use crate::note::book::Book;
use crate::note::clients::Clients;
use crate::note::counts::Counts;
use crate::note::dispatch::Dispatch;
use crate::note::filing::{Filing, name_of};
use crate::note::journaling::{Journaling, is_commit_add};
use crate::note::medium::Medium;
use crate::note::money::Money;
use crate::note::pages::{Pages, Taken};
use crate::note::service::Served;
use crate::note::syncs::Syncs;
use crate::note::time::Time;
use crate::plan::Plan;
use cause_set::{Causes, TagStore};
use hook_events::History;
use split_types::{Call, Event, Name, Pid, ReqId, Request, Serial, Slot, Txn, Workload, actor_of};
use std::alloc::{AllocError, Global};
use tag_table::Table;

/// The bytes of a page.
const PAGE: u32 = 4096;

/// An event takes at most so many tags out of their store: one for each page that it takes or serves, and two for each
/// buffer that is sealed.
const TAGS_OF_AN_EVENT: u32 = 554;

/// What is kept as the history grows.
#[derive(Drop)]
pub(crate) struct Parts {
    pub(crate) clients: Clients,
    pub(crate) filing: Filing,
    pub(crate) pages: Pages,
    pub(crate) journaling: Journaling,
    pub(crate) syncs: Syncs,
    /// The store of the tags that pages, the journal and the run that is served have.
    pub(crate) tags: Table,
    pub(crate) medium: Medium,
    pub(crate) book: Book,
    pub(crate) dispatch: Dispatch,
    pub(crate) service: Served,
    pub(crate) time: Time,
    pub(crate) money: Money,
    pub(crate) counts: Counts,
}

/// What one part hands to another with an event: of a call that is admitted the file that it works on and the
/// file's size; of a make the name of its file; of a put whether its page needs the promise of a free block; of a
/// drop the file's size, how many of its pages have such a promise, and the transaction that takes it; of a send or
/// completion its request, and of a completion the cost and the tag.
#[derive(Clone, Copy, Debug)]
pub(crate) struct Given {
    pub(crate) file: Option<Serial>,
    pub(crate) size: u32,
    pub(crate) name: Option<Name>,
    pub(crate) promise: bool,
    pub(crate) promised: u32,
    pub(crate) next: Txn,
    pub(crate) syncs: bool,
    pub(crate) request: Option<Request>,
    pub(crate) cost: u64,
    pub(crate) tag: Causes,
}

/// Whether an event asks for memory.
fn asks(e: &Event) -> bool
    ensures { result ≡ asks e.now }
{
    matches!(
        *e,
        Event::Make { .. }
            | Event::Put { .. }
            | Event::Drop { .. }
            | Event::Serve { .. }
            | Event::Map { .. }
            | Event::Seal { .. }
            | Event::Add { .. }
            | Event::Send { .. },
    )
}

/// Whether it is an fsync.
fn is_sync(call: &Call) -> bool
    ensures { result ≡ is_sync (Some call.now) }
{
    matches!(call, Call::Fsync { .. })
}

impl Given {
    /// Nothing.
    pub(crate) fn none() -> Given
        ensures file { result.file ≡ None }
        ensures size { result.size ≡ 0 }
        ensures name { result.name ≡ None }
    {
        Given {
            file: None,
            size: 0,
            name: None,
            promise: false,
            promised: 0,
            next: Txn(0),
            syncs: false,
            request: None,
            cost: 0,
            tag: Causes::none(),
        }
    }
}

/// The parts of calls and requests before any event.
fn calls_and_requests(
    alloc: Global,
    w: &Workload,
    plan: &Plan,
) -> Result<(Clients, Book), AllocError>
    requires accepted { IsAccepted w.now }
    requires plan { PlanStands w.now plan.now }
    ensures clients { IfOk result (λ r. ClientsStand w.now r.0 []) }
    ensures book { IfOk result (λ r. BookStands r.1 []) }
{
    let clients = Clients::new(alloc, w, plan)?;
    let book = Book::new(alloc, w)?;
    Ok((clients, book))
}

/// The sums of bills and of events before any event.
fn sums(alloc: Global, w: &Workload) -> Result<(Money, Counts), AllocError>
    requires accepted { IsAccepted w.now }
    ensures money { IfOk result (λ r. MoneyStands w.now r.0 []) }
    ensures counts { IfOk result (λ r. CountsStand w.now r.1 []) }
{
    let money = Money::new(alloc, w)?;
    let counts = Counts::new(alloc, w)?;
    Ok((money, counts))
}

/// The files, and the disk, before any event.
fn device(alloc: Global, w: &Workload) -> Result<(Filing, Medium), AllocError>
    requires accepted { IsAccepted w.now }
    ensures filing { IfOk result (λ r. FilingStands w.now r.0 []) }
    ensures medium { IfOk result (λ r. MediumStands w.now r.1 []) }
{
    let filing = Filing::new(alloc, w)?;
    let medium = Medium::new(alloc, w, &filing.fs)?;
    Ok((filing, medium))
}

/// The cache and the journal before any event.
fn memory(alloc: Global, w: &Workload) -> Result<(Pages, Journaling), AllocError>
    requires accepted { IsAccepted w.now }
    ensures pages { IfOk result (λ r. (tags : Tags) → PagesStand w.now r.0 tags []) }
    ensures journaling { IfOk result (λ r. (tags : Tags) → JournalStands w.now r.1 tags []) }
    ensures none { IfOk result (λ r. (n : ℕ) → held_by_pages r.0 n + held_by_journal r.1 n ≡ 0) }
{
    let pages = Pages::new(alloc, w)?;
    let journaling = Journaling::new(alloc, w)?;
    Ok((pages, journaling))
}

impl Parts {
    /// The parts before any event.
    pub(crate) fn new(alloc: Global, w: &Workload, plan: &Plan) -> Result<Parts, AllocError>
        requires accepted { IsAccepted w.now }
        requires plan { PlanStands w.now plan.now }
        ensures { IfOk result (λ p. PartsStand w.now p []) }
    {
        let (clients, book) = calls_and_requests(alloc, w, plan)?;
        let (money, counts) = sums(alloc, w)?;
        let (filing, medium) = device(alloc, w)?;
        let (pages, journaling) = memory(alloc, w)?;
        let syncs = Syncs::new(alloc, w)?;
        let tags = Table::new(alloc)?;
        let dispatch = Dispatch::new(alloc)?;
        Ok(Parts {
            clients,
            filing,
            pages,
            journaling,
            syncs,
            tags,
            medium,
            book,
            dispatch,
            service: Served::new(),
            time: Time::new(),
            money,
            counts,
        })
    }

    /// Makes room for whatever this event asks for.
    pub(crate) fn room(&mut self, alloc: Global, e: &Event) -> Result<(), AllocError>
        ensures stands { (w : Workload) (h : List Event) → PartsStand w self.old h → PartsStand w self.new h }
        ensures ok { OnOk result (asks e.now ≡ true → HasRoom self.new) }
    {
        if !asks(e) {
            return Ok(());
        }
        self.filing.room(alloc)?;
        self.pages.room(alloc)?;
        self.tags.room(TAGS_OF_AN_EVENT)?;
        self.medium.room()?;
        self.book.room()?;
        self.dispatch.room()
    }

    /// The call of a process that is under way, or else its next one.
    fn call_of<'a>(&self, w: &Workload, plan: &'a Plan, h: &History, p: Pid) -> Option<&'a Call>
        requires accepted { IsAccepted w.now }
        requires plan { PlanStands w.now plan.now }
        requires stands { PartsStand w.now self.now h.now.events }
        requires client { ClientFits w.now h.now.events p }
        ensures { option_copied result ≡ call_of w.now h.now.events p.0 }
    {
        let returned = self.clients.client(w, h, p).returned;
        plan.call(w, p, returned)
    }

    /// Hands on the file that a call works on where it is admitted now, and the file's size.
    fn give_file(&self, w: &Workload, h: &History, call: &Call, given: &mut Given)
        requires accepted { IsAccepted w.now }
        requires legal { IsLegal w.now h.now.events }
        requires stands { PartsStand w.now self.now h.now.events }
        requires file { given.old.file ≡ None }
        requires size { given.old.size ≡ 0 }
        ensures file { given.new.file ≡ file_for w.now h.now.events (Some call.now) }
        ensures size { given.new.size ≡ size_of_some w.now h.now.events (file_for w.now h.now.events (Some call.now)) }
    {
        if let Some(slot) = self.filing.slot_for(w, h, call) {
            given.file = Some(self.filing.fs.serial_of(slot));
            given.size = self.filing.fs.size_of(slot);
        }
    }

    /// What is handed on of a call that is admitted.
    fn give_admit(&self, w: &Workload, plan: &Plan, h: &History, p: Pid, given: &mut Given)
        requires accepted { IsAccepted w.now }
        requires plan { PlanStands w.now plan.now }
        requires stands { PartsStand w.now self.now h.now.events }
        requires fits { Fits w.now h.now.events (event.Admit p) }
        requires file { given.old.file ≡ None }
        requires size { given.old.size ≡ 0 }
        ensures { IsGiven w.now h.now.events (event.Admit p) given.new }
    {
        if let Some(call) = self.call_of(w, plan, h, p) {
            self.give_file(w, h, call, given);
            given.syncs = is_sync(call);
        }
    }

    /// What is handed on of a file that is made by a process.
    fn give_make(&self, w: &Workload, plan: &Plan, h: &History, by: Pid, given: &mut Given)
        requires accepted { IsAccepted w.now }
        requires plan { PlanStands w.now plan.now }
        requires stands { PartsStand w.now self.now h.now.events }
        requires client { ClientFits w.now h.now.events by }
        requires name { given.old.name ≡ None }
        ensures { given.new.name ≡ option_map name_of (call_of w.now h.now.events by.0) }
    {
        if let Some(call) = self.call_of(w, plan, h, by) {
            given.name = Some(*name_of(call));
        }
    }

    /// Whether a page that is put needs the promise of a free block.
    fn is_promise_due(&self, w: &Workload, h: &History, serial: Serial, page: u32) -> bool
        requires accepted { IsAccepted w.now }
        requires legal { IsLegal w.now h.now.events }
        requires stands { PartsStand w.now self.now h.now.events }
        requires page { IsFilePage w.now h.now.events serial page }
        ensures { result ≡ (not (is_dirty w.now h.now.events (buf.Page serial page))
            && is_none (mapped_block w.now h.now.events serial.0 page)) }
    {
        !self.pages.is_dirty(w, h, serial, page)
            && self.filing.block_of(w, h, serial, page).is_none()
    }

    /// What is handed on of a request that is done.
    fn give_done(&self, w: &Workload, h: &History, id: ReqId, given: &mut Given)
        requires book { BookStands self.now.book h.now.events }
        requires added { id.0 < adds h.now.events }
        ensures { GivenDone w.now h.now.events id.0 given.new }
    {
        let entry = self.book.entry(h, id);
        given.request = Some(entry.request);
        given.cost = entry.cost;
        given.tag = entry.tag;
    }

    /// What is handed on of a file that is dropped.
    fn give_drop(&self, w: &Workload, h: &History, slot: Slot, serial: Serial, given: &mut Given)
        requires accepted { IsAccepted w.now }
        requires legal { IsLegal w.now h.now.events }
        requires short { length h.now.events < 2 ^ 31 }
        requires stands { PartsStand w.now self.now h.now.events }
        requires file { DropFits w.now h.now.events slot serial }
        ensures { GivenDrop w.now h.now.events serial given.new }
    {
        given.size = self.filing.fs.size_of(slot);
        given.promised = self.promises_of(w, h, slot, serial);
        given.next = self.journaling.next_txn(w, h);
    }

    /// Says what the parts hand to each other with an event, where nothing is said yet.
    pub(crate) fn give(&self, w: &Workload, plan: &Plan, h: &History, e: &Event, given: &mut Given)
        requires accepted { IsAccepted w.now }
        requires plan { PlanStands w.now plan.now }
        requires stands { PartsStand w.now self.now h.now.events }
        requires fits { Fits w.now h.now.events e.now }
        requires file { given.old.file ≡ None }
        requires size { given.old.size ≡ 0 }
        requires name { given.old.name ≡ None }
        ensures { IsGiven w.now h.now.events e.now given.new }
    {
        match *e {
            Event::Admit { by } => self.give_admit(w, plan, h, by, given),
            Event::Make { by, .. } => {
                self.give_make(w, plan, h, by, given);
                given.next = self.journaling.next_txn(w, h);
            }
            Event::Map { .. } => given.next = self.journaling.next_txn(w, h),
            Event::Put { serial, page, .. } => {
                given.promise = self.is_promise_due(w, h, serial, page)
            }
            Event::Drop { slot, serial, .. } => self.give_drop(w, h, slot, serial, given),
            Event::Send { id, .. } => given.request = Some(self.book.entry(h, id).request),
            Event::Done { id, .. } => self.give_done(w, h, id, given),
            _ => {}
        }
    }

    /// Whether a free block is promised to a page of a file that is there.
    fn is_promised(&self, w: &Workload, h: &History, serial: Serial, page: u32) -> bool
        requires accepted { IsAccepted w.now }
        requires legal { IsLegal w.now h.now.events }
        requires stands { PartsStand w.now self.now h.now.events }
        requires page { IsFilePage w.now h.now.events serial page }
        ensures { result ≡ is_reserved w.now h.now.events (buf.Page serial page) }
    {
        self.pages.is_dirty(w, h, serial, page)
            && self.filing.block_of(w, h, serial, page).is_none()
    }

    /// To how many pages of a file a free block is promised.
    fn promises_of(&self, w: &Workload, h: &History, slot: Slot, serial: Serial) -> u32
        requires accepted { IsAccepted w.now }
        requires stands { PartsStand w.now self.now h.now.events }
        requires legal { IsLegal w.now h.now.events }
        requires file { DropFits w.now h.now.events slot serial }
        ensures { result ≡ count_by (is_page_of serial) (reserved_pages w.now h.now.events) }
    {
        let pages = self.filing.fs.size_of(slot).div_ceil(PAGE);
        let mut promised = 0;
        for page in 0..pages {
            if self.is_promised(w, h, serial, page) {
                promised += 1;
            }
        }
        promised
    }

    /// The bytes that a request carries which the commit thread adds; none for any other event.
    pub(crate) fn content(
        &self,
        alloc: Global,
        w: &Workload,
        h: &History,
        e: &Event,
    ) -> Result<Vec<u8>, AllocError>
        requires accepted { IsAccepted w.now }
        requires legal { IsLegal w.now (h.now.events ▹ e.now) }
        requires stands { PartsStand w.now self.now h.now.events }
        ensures { IfOk result (λ bytes. is_commit_add e.now ≡ true → Brings w.now h.now.events e.now bytes.items) }
    {
        self.journaling.content(alloc, &self.tags, w, h, e)
    }

    /// The holders of tags take note of an event: the journal, what is served, and the pages. Says what a request takes
    /// that is added.
    fn note_holders(
        &mut self,
        alloc: Global,
        w: &Workload,
        h: &History,
        e: &Event,
        given: &Given,
        content: Vec<u8>,
    ) -> Taken
        requires accepted { IsAccepted w.now }
        requires stands { PartsStand w.now self.old h.now.events }
        requires fits { Fits w.now h.now.events e.now }
        requires given { IsGiven w.now h.now.events e.now given.now }
        requires content { is_commit_add e.now ≡ true → Brings w.now h.now.events e.now content.items }
        requires room { asks e.now ≡ true → HasRoom self.old }
        ensures others { self.new ≡ record self.old {
          pages = self.new.pages;
          journaling = self.new.journaling;
          tags = self.new.tags;
          service = self.new.service;
        } }
        ensures pages { PagesStand w.now self.new.pages (tags_of self.new.tags) (h.now.events ▹ e.now) }
        ensures journaling { JournalStands w.now self.new.journaling (tags_of self.new.tags) (h.now.events ▹ e.now) }
        ensures service { ServedStands self.new.service (tags_of self.new.tags) (h.now.events ▹ e.now) }
        ensures tags { TagsStand self.new }
        ensures taken { IsTaken w.now h.now.events e.now result }
    {
        let of_commit = if is_commit_add(e) {
            Some(self.journaling.take(&self.tags, w, h, e, content))
        } else {
            None
        };
        self.journaling.note(
            &mut self.tags,
            &self.filing.fs,
            &self.service,
            w,
            h,
            e,
            given,
        );
        self.service.note(&mut self.tags, &self.pages, w, h, e);
        let taken = self
            .pages
            .note(alloc, &mut self.tags, &self.medium, w, h, e, given);
        of_commit.unwrap_or(taken)
    }

    /// Takes note of an event, with the bytes that a request carries which the commit thread adds.
    pub(crate) fn note(
        &mut self,
        alloc: Global,
        w: &Workload,
        plan: &Plan,
        h: &History,
        e: &Event,
        given: &Given,
        content: Vec<u8>,
    )
        requires accepted { IsAccepted w.now }
        requires plan { PlanStands w.now plan.now }
        requires stands { PartsStand w.now self.old h.now.events }
        requires fits { Fits w.now h.now.events e.now }
        requires given { IsGiven w.now h.now.events e.now given.now }
        requires content { is_commit_add e.now ≡ true → Brings w.now h.now.events e.now content.items }
        requires room { asks e.now ≡ true → HasRoom self.old }
        ensures { PartsStand w.now self.new (h.now.events ▹ e.now) }
    {
        let actor = actor_of(e);
        let taken = self.note_holders(alloc, w, h, e, given, content);
        self.syncs.note(w, h, &self.filing.fs, e, given);
        self.filing.note(alloc, w, h, e, given);
        self.clients.note(w, plan, h, actor, e, given);
        self.book.note(w, h, e, &taken.tag);
        self.medium.note(w, h, e, given, taken.cargo);
        self.dispatch.note(w, h, e, given);
        self.time.note(w, h, e, given);
        self.money.note(w, h, e, given);
        self.counts.note(w, h, actor, e);
    }
}
