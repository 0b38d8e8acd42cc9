//! What a report shows of a core.
ghost use Rattle.std.specs.Prelude.{◌≡◌, ◌<◌, List, map, ◌∷◌, [], IfOk, if◌then◌else◌};
ghost use Rattle.split_types.specs.History.{adds};
ghost use Rattle.split_types.specs.Blame.{tag};
ghost use Rattle.split_types.specs.declared.workload.Workload.{Workload};
ghost use Rattle.split_types.specs.declared.event.Event.{Event};
ghost use Rattle.split_types.specs.Accepted.{IsAccepted};
ghost use Rattle.split_types.specs.FactsOf.{is_queued, shares_of, request_fact, facts_of};
ghost use Rattle.split_types.specs.Legal.{is_drained};
ghost use Rattle.split_types.specs.LiveSets.{live_sets};
ghost use Rattle.split_core.specs.Book.{IsEntry, AreEntries};

use crate::machine::Core;
use crate::note::book::Entry;
use cause_set::{Causes, share_of};
use split_types::{Facts, List, Pid, ReqFact, ReqId, ReqState};
use std::alloc::{AllocError, Global};

/// The processes of a tag, each with its share of a cost.
fn shares_of(alloc: Global, cost: u64, tag: &Causes) -> Result<List<(Pid, u64)>, AllocError>
    ensures { IfOk result (λ l. l ≡ shares_of cost (tag.now ∷ []) tag.now) }
{
    let mut shares = Vec::with_capacity(alloc, tag.len() as usize)?;
    for p in tag.iter() {
        shares.push((p, share_of(cost, tag, p)))?;
    }
    Ok(List::from_vec(shares))
}

/// The cost that is shown of a request: 0 where it isn't done.
fn shown_cost(entry: &Entry) -> u64
    ensures { result ≡ (if is_queued entry.now.state then 0 else entry.now.cost) }
{
    match entry.state {
        ReqState::Queued => 0,
        _ => entry.cost,
    }
}

/// What is shown of a request.
fn request_fact(alloc: Global, entry: &Entry) -> Result<ReqFact, AllocError>
    ensures { (w : Workload) (h : List Event) → IsAccepted w → IsEntry h entry.now.request.id.0 entry.now
        → IfOk result (λ f. f ≡ request_fact w h entry.now.request) }
{
    let cost = shown_cost(entry);
    let shares = shares_of(alloc, cost, &entry.tag)?;
    Ok(ReqFact {
        req: entry.request,
        state: entry.state,
        cost,
        shares,
    })
}

/// What is shown of each of some requests.
fn request_facts(alloc: Global, entries: &[Entry]) -> Result<Vec<ReqFact>, AllocError>
    ensures { (w : Workload) (h : List Event) → IsAccepted w → AreEntries h entries.now
        → IfOk result (λ v. v.items ≡ map (λ x. request_fact w h x.request) entries.now) }
{
    let mut facts = Vec::with_capacity(alloc, entries.len())?;
    for entry in entries {
        facts.push(request_fact(alloc, entry)?)?;
    }
    Ok(facts)
}

impl Core {
    /// The processes to blame for a request.
    pub fn tag(&self, id: ReqId) -> &Causes
        requires { id.0 < adds self.now.history }
        ensures { result.now ≡ tag self.now.history id.0 }
    {
        &self.parts.book.entry(&self.history, id).tag
    }

    /// Whether all calls have returned, no request is queued or in flight, no page is dirty, no buffer of metadata is
    /// marked, and no transaction is in the journal.
    pub fn drained(&self) -> bool
        ensures { result ≡ is_drained self.now.workload self.now.history }
    {
        let parts = &self.parts;
        if (parts.clients.finished as usize) < self.workload.procs.len() {
            return false;
        }
        if !parts.dispatch.is_empty() {
            return false;
        }
        if parts.pages.cache.first_dirty().is_some() {
            return false;
        }
        let journal = &parts.journaling.journal;
        !journal.can_seal() && journal.next_request(true).is_none()
    }

    /// How many different sets of processes the stack keeps: of those to blame for dirty pages and blocks of metadata, for
    /// what goes home, for the run that is served, and for the transactions in the journal.
    pub fn sets(&self) -> usize
        ensures { result ≡ live_sets self.now.history }
    {
        self.parts.tags.sets()
    }

    /// What a report shows.
    pub fn facts(&self, alloc: Global) -> Result<Facts, AllocError>
        ensures { IfOk result (λ f. f ≡ facts_of self.now.workload self.now.history) }
    {
        let reqs = request_facts(alloc, self.parts.book.entries.as_slice())?;
        let billed = Vec::from_slice(alloc, self.parts.money.billed.as_slice())?;
        let made = Vec::from_slice(alloc, self.parts.counts.made.as_slice())?;
        Ok(Facts {
            reqs: List::from_vec(reqs),
            billed: List::from_vec(billed),
            accounts: List::new(alloc),
            made: List::from_vec(made),
            clock: self.parts.time.clock,
        })
    }
}
