//! How far each process has come.
ghost use Rattle.std.specs.Prelude.{◌≡◌, ◌≢◌, ℕ, ◌+◌, ◌-◌, ◌<◌, ◌≤◌, [], length, slice_get, Some, IfOk};
ghost use Rattle.split_types.specs.declared.workload.Workload.{Workload};
ghost use Rattle.split_core.specs.declared.note.clients.Client.{Client};
ghost use Rattle.split_types.specs.declared.actor.Actor.TheVariants as actor;
ghost use Rattle.split_types.specs.declared.event.Event.{Event};
ghost use Rattle.split_types.specs.History.{◌▹◌};
ghost use Rattle.split_types.specs.Hooks.{maker};
ghost use Rattle.split_types.specs.Workloads.{calls_of};
ghost use Rattle.split_core.specs.Awaits.{done_for};
ghost use Rattle.split_core.specs.Fits.{Fits};
ghost use Rattle.split_core.specs.Givens.{IsGiven};
ghost use Rattle.split_core.specs.Plans.{PlanStands};
ghost use Rattle.split_core.specs.Clients.{client_of, ClientsStand};

use crate::parts::Given;
use crate::plan::Plan;
use hook_events::History;
use split_types::{Actor, Event, Pid, ReqKind, Request, Serial, Workload};
use std::alloc::{AllocError, Global};

/// How far a process has come.
#[derive(Clone, Copy, Debug)]
pub(crate) struct Client {
    /// How many of its calls have returned.
    pub(crate) returned: u32,
    /// Whether a call is under way, and whether it was admitted.
    pub(crate) entered: bool,
    pub(crate) admitted: bool,
    /// Whether it made its file, dropped it, or was flushed.
    pub(crate) acted: bool,
    /// The file that its admitted call is bound to, which may have been dropped since, and the size that it had when
    /// the call was admitted.
    pub(crate) file: Option<Serial>,
    pub(crate) size: u32,
    /// The bytes that it put or got since it last entered a call, and the sum of those that it got.
    pub(crate) moved: u64,
    pub(crate) got: u64,
    /// Whether its call added a read, and no read for it was done since.
    pub(crate) awaits: bool,
}

/// All processes.
#[derive(Debug, Drop)]
pub(crate) struct Clients {
    pub(crate) clients: Vec<Client>,
    /// So many processes, from the first on, have no call left; the one behind them has.
    pub(crate) finished: u32,
}

impl Client {
    /// A process that made no event yet.
    fn new() -> Client
        ensures { (w : Workload) (p : ℕ) → result ≡ client_of w [] p }
    {
        Client {
            returned: 0,
            entered: false,
            admitted: false,
            acted: false,
            file: None,
            size: 0,
            moved: 0,
            got: 0,
            awaits: false,
        }
    }

    /// Takes note of an event that process `by` made.
    fn note(&mut self, w: &Workload, h: &History, by: Pid, e: &Event, given: &Given)
        requires is { self.old ≡ client_of w.now h.now.events by.0 }
        requires maker { maker e.now ≡ actor.Client by }
        requires fits { Fits w.now h.now.events e.now }
        requires given { IsGiven w.now h.now.events e.now given.now }
        ensures { self.new ≡ client_of w.now (h.now.events ▹ e.now) by.0 }
    {
        match *e {
            Event::Enter { .. } => {
                self.entered = true;
                self.moved = 0;
                self.got = 0;
            }
            Event::Admit { .. } => {
                self.admitted = true;
                self.file = given.file;
                self.size = given.size;
            }
            Event::Put { from, to, .. } => self.moved += u64::from(to - from),
            Event::Get { from, to, sum, .. } => {
                self.moved += u64::from(to - from);
                self.got += sum;
            }
            Event::Make { .. } | Event::Drop { .. } | Event::Flushed { .. } => self.acted = true,
            Event::Add { .. } => self.awaits = true,
            Event::Ret { .. } => {
                self.returned += 1;
                self.entered = false;
                self.admitted = false;
                self.acted = false;
                self.file = None;
                self.awaits = false;
            }
            _ => {}
        }
    }
}

/// The process for which a request reads that is done now.
fn reader_of_done(w: &Workload, h: &History, e: &Event, given: &Given) -> Option<Pid>
    requires given { IsGiven w.now h.now.events e.now given.now }
    ensures { result ≡ done_for h.now.events e.now }
{
    match (*e, given.request) {
        (
            Event::Done { .. },
            Some(
                Request {
                    kind: ReqKind::Read(by, ..),
                    ..
                },
            ),
        ) => Some(by),
        _ => None,
    }
}

/// How many processes, from the first on, have no call left, where so many are known to have none.
fn finished_from(w: &Workload, plan: &Plan, clients: &[Client], known: u32) -> u32
    requires stands { PlanStands w.now plan.now }
    requires processes { length clients.now ≡ length w.now.procs }
    requires procs { length w.now.procs ≤ 32 }
    requires known { known ≤ length w.now.procs }
    ensures least { known ≤ result }
    ensures most { result ≤ length w.now.procs }
    ensures finished { (i : ℕ) (x : Client) → known ≤ i → i < result → slice_get clients.now i ≡ Some x
        → x.returned ≡ length (calls_of w.now (i + 1)) }
    ensures left { (x : Client) → slice_get clients.now result ≡ Some x
        → x.returned ≢ length (calls_of w.now (result + 1)) }
{
    let n = clients.len() as u32;
    for i in known..n {
        let returned = clients[i as usize].returned as usize;
        if returned != plan.call_count(w, Pid(i + 1)) {
            return i;
        }
    }
    n
}

impl Clients {
    /// Processes that made no event yet.
    pub(crate) fn new(alloc: Global, w: &Workload, plan: &Plan) -> Result<Clients, AllocError>
        requires stands { PlanStands w.now plan.now }
        requires procs { length w.now.procs ≤ 32 }
        ensures { IfOk result (λ c. ClientsStand w.now c []) }
    {
        let clients = vec![in alloc; Client::new(); w.procs.len()]?;
        let finished = finished_from(w, plan, &clients, 0);
        Ok(Clients { clients, finished })
    }

    /// How far a process has come.
    pub(crate) fn client(&self, w: &Workload, h: &History, p: Pid) -> &Client
        requires stands { ClientsStand w.now self.now h.now.events }
        requires first { 1 ≤ p.0 }
        requires last { p.0 ≤ length w.now.procs }
        ensures { result.now ≡ client_of w.now h.now.events p.0 }
    {
        &self.clients[(p.0 - 1) as usize]
    }

    /// Takes note of an event that this actor made.
    pub(crate) fn note(
        &mut self,
        w: &Workload,
        plan: &Plan,
        h: &History,
        actor: Actor,
        e: &Event,
        given: &Given,
    )
        requires stands { ClientsStand w.now self.old h.now.events }
        requires plan { PlanStands w.now plan.now }
        requires made { actor ≡ maker e.now }
        requires fits { Fits w.now h.now.events e.now }
        requires given { IsGiven w.now h.now.events e.now given.now }
        ensures { ClientsStand w.now self.new (h.now.events ▹ e.now) }
    {
        if let Actor::Client(by) = actor {
            self.clients[(by.0 - 1) as usize].note(w, h, by, e, given);
            if let Event::Ret { .. } = *e {
                self.finished = finished_from(w, plan, &self.clients, self.finished);
            }
        } else if let Some(by) = reader_of_done(w, h, e, given) {
            self.clients[(by.0 - 1) as usize].awaits = false;
        }
    }
}
