//! The journal: which buffers of metadata are marked, and what the commit thread does with them.
ghost use Rattle.std.specs.Prelude.{◌≡◌, ℕ, ◌+◌, ◌^◌, ◌<◌, ◌≤◌, [], ◌∷◌, length, All, IfOk, true};
ghost use Rattle.split_types.specs.declared.ids.Txn.{Txn};
ghost use Rattle.split_types.specs.declared.event.Event.TheVariants as event;
ghost use Rattle.split_types.specs.History.{◌▹◌};
ghost use Rattle.split_types.specs.Hooks.{dirties};
ghost use Rattle.split_types.specs.Rounds.{next_txn};
ghost use Rattle.split_types.specs.Transactions.{journal_slots, is_of_commit};
ghost use Rattle.split_types.specs.Accepted.{IsAccepted};
ghost use Rattle.split_types.specs.Legal.{IsLegal};
ghost use Rattle.cause_set.specs.Tags.{Tags, Moved};
ghost use Rattle.journal_core.specs.Causes.{Covered};
ghost use Rattle.journal_core.specs.Journaled.{seen};
ghost use Rattle.small_fs.specs.Metadata.{IsMetadata};
ghost use Rattle.tag_table.specs.Tags.{tags_of};
ghost use Rattle.split_core.specs.Asks.{asks};
ghost use Rattle.split_core.specs.Filing.{FilesAre};
ghost use Rattle.split_core.specs.Fits.{Fits};
ghost use Rattle.split_core.specs.Givens.{IsGiven};
ghost use Rattle.split_core.specs.Journaling.{JournalStands, held_by_journal, mark_all};
ghost use Rattle.split_core.specs.Served.{ServedStands, held_by_service};
ghost use Rattle.split_core.specs.Takings.{Brings, IsTaken, is_commit_add};

use crate::note::cargo::Cargo;
use crate::note::pages::Taken;
use crate::note::service::Served;
use crate::parts::Given;
use cause_set::TagStore;
use hook_events::History;
use journal_core::Journal;
use small_fs::Fs;
use split_types::{Event, Pid, ReqKind, Request, Txn, Workload, dirties};
use std::alloc::{AllocError, Global};
use tag_table::{Table, TableTag};

/// The journal, with the tags of what it holds.
#[derive(Drop)]
pub(crate) struct Journaling {
    pub(crate) journal: Journal<Table>,
}

/// The number of slots of the journal.
fn slots(w: &Workload) -> u32
    requires { IsAccepted w.now }
    ensures { result ≡ journal_slots w.now }
{
    if w.version < 2 { 1 } else { 4 }
}

/// Whether a request is one of the commit thread.
pub(crate) fn is_of_commit(r: &Request) -> bool
    ensures { result ≡ is_of_commit r.now }
{
    !matches!(r.kind, ReqKind::Read(..) | ReqKind::Pages(..))
}

/// Whether an event adds a request of the commit thread.
pub(crate) fn is_commit_add(e: &Event) -> bool
    ensures { result ≡ is_commit_add e.now }
{
    match e {
        Event::Add { req, .. } => is_of_commit(req),
        _ => false,
    }
}

impl Journaling {
    /// Nothing is marked, and no transaction is in the journal.
    pub(crate) fn new(alloc: Global, w: &Workload) -> Result<Journaling, AllocError>
        requires { IsAccepted w.now }
        ensures stands { IfOk result (λ j. (tags : Tags) → JournalStands w.now j tags []) }
        ensures none { IfOk result (λ j. (n : ℕ) → held_by_journal j n ≡ 0) }
    {
        let journal = Journal::new(alloc, slots(w))?;
        Ok(Journaling { journal })
    }

    /// The transaction that is sealed next.
    pub(crate) fn next_txn(&self, w: &Workload, h: &History) -> Txn
        requires accepted { IsAccepted w.now }
        requires legal { IsLegal w.now h.now.events }
        requires stands { (tags : Tags) × JournalStands w.now self.now tags h.now.events }
        requires short { length h.now.events < 2 ^ 31 }
        ensures { result ≡ next_txn h.now.events }
    {
        self.journal.to_seal().0
    }

    /// The bytes that a request of the commit thread carries which comes next; none for any other event.
    pub(crate) fn content(
        &self,
        alloc: Global,
        tags: &Table,
        w: &Workload,
        h: &History,
        e: &Event,
    ) -> Result<Vec<u8>, AllocError>
        requires accepted { IsAccepted w.now }
        requires legal { IsLegal w.now (h.now.events ▹ e.now) }
        requires stands { JournalStands w.now self.now (tags_of tags.now) h.now.events }
        ensures { IfOk result (λ bytes. is_commit_add e.now ≡ true → Brings w.now h.now.events e.now bytes.items) }
    {
        if is_commit_add(e) {
            self.journal.content(alloc)
        } else {
            Ok(Vec::new(alloc))
        }
    }

    /// What a request of the commit thread takes that comes next: these bytes, and for whom the journal has it added.
    pub(crate) fn take(
        &self,
        tags: &Table,
        w: &Workload,
        h: &History,
        e: &Event,
        content: Vec<u8>,
    ) -> Taken
        requires accepted { IsAccepted w.now }
        requires fits { Fits w.now h.now.events e.now }
        requires stands { JournalStands w.now self.now (tags_of tags.now) h.now.events }
        requires covered { Covered (held_by_journal self.now) (tags_of tags.now) }
        requires add { is_commit_add e.now ≡ true }
        requires content { Brings w.now h.now.events e.now content.items }
        ensures { IsTaken w.now h.now.events e.now result }
    {
        Taken {
            cargo: Cargo::of(content),
            tag: *tags.members(self.journal.tag()),
        }
    }

    /// The buffers that an event dirties are marked for the members of a tag.
    fn mark(&mut self, tags: &mut Table, e: &Event, by: &TableTag)
        requires metadata { All IsMetadata (dirties e.now) }
        requires uses { Covered (held_by_journal self.old) (tags_of tags.old) }
        requires by { held_by_journal self.old by.now.number < (tags_of tags.old).uses by.now.number }
        requires room { 3 ≤ (tags_of tags.old).spare }
        ensures moved { Moved (tags_of tags.old) (tags_of tags.new) (held_by_journal self.old) (held_by_journal self.new) }
        ensures marked { seen (tags_of tags.new) self.new.journal
            ≡ mark_all (dirties e.now) ((tags_of tags.old).members by.now.number) (seen (tags_of tags.old) self.old.journal) }
        ensures spare { (tags_of tags.old).spare ≤ (tags_of tags.new).spare + 3 }
    {
        for b in dirties(e).as_slice() {
            self.journal.mark(tags, *b, by).unwrap();
        }
    }

    /// The same for a process alone.
    fn mark_by(&mut self, tags: &mut Table, e: &Event, by: Pid)
        requires metadata { All IsMetadata (dirties e.now) }
        requires uses { Covered (held_by_journal self.old) (tags_of tags.old) }
        requires first { 1 ≤ by.0 }
        requires last { by.0 ≤ 256 }
        requires room { 4 ≤ (tags_of tags.old).spare }
        ensures moved { Moved (tags_of tags.old) (tags_of tags.new) (held_by_journal self.old) (held_by_journal self.new) }
        ensures marked { seen (tags_of tags.new) self.new.journal
            ≡ mark_all (dirties e.now) (by.0 ∷ []) (seen (tags_of tags.old) self.old.journal) }
        ensures spare { (tags_of tags.old).spare ≤ (tags_of tags.new).spare + 4 }
    {
        let tag = tags.single(by).unwrap();
        self.mark(tags, e, &tag);
        tags.release(tag);
    }

    /// Takes note of an event. A map marks what it dirties for those for whom writeback serves.
    pub(crate) fn note(
        &mut self,
        tags: &mut Table,
        fs: &Fs,
        service: &Served,
        w: &Workload,
        h: &History,
        e: &Event,
        given: &Given,
    )
        requires accepted { IsAccepted w.now }
        requires stands { JournalStands w.now self.old (tags_of tags.old) h.now.events }
        requires covered { (n : ℕ) → held_by_journal self.old n + held_by_service service.now n ≤ (tags_of tags.old).uses n }
        requires files { (t : Txn) (k : ℕ) → e.now ≡ event.Seal t k → FilesAre w.now fs.now h.now.events }
        requires service { ServedStands service.now (tags_of tags.old) h.now.events }
        requires fits { Fits w.now h.now.events e.now }
        requires given { IsGiven w.now h.now.events e.now given.now }
        requires room { asks e.now ≡ true → 522 ≤ (tags_of tags.old).spare }
        ensures stands { JournalStands w.now self.new (tags_of tags.new) (h.now.events ▹ e.now) }
        ensures moved { Moved (tags_of tags.old) (tags_of tags.new) (held_by_journal self.old) (held_by_journal self.new) }
        ensures spare { (tags_of tags.old).spare ≤ (tags_of tags.new).spare + 522 }
    {
        match *e {
            Event::Make { by, .. } | Event::Drop { by, .. } => self.mark_by(tags, e, by),
            Event::Map { .. } => if let Some(causes) = service.state.causes() {
                self.mark(tags, e, causes)
            },
            Event::Seal { .. } => {
                let _sealed = self.journal.seal(tags, fs).unwrap();
            }
            Event::Add { req, .. } => if is_of_commit(&req) {
                self.journal.added(tags)
            },
            Event::Done { .. } => if let Some(request) = given.request
                && is_of_commit(&request)
            {
                self.journal.on_done(tags, request.kind, request.first)
            },
            _ => {}
        }
    }
}
