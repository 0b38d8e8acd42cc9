//! What each actor does next.
ghost use Rattle.std.specs.Prelude.{◌≡◌, ◌≤◌, length, is_some, false};
ghost use Rattle.split_types.specs.FileSizes.{if_live};
ghost use Rattle.split_types.specs.Next.{next_of_dispatcher, next_of_completion, next};
ghost use Rattle.split_core.specs.Clients.{IsProgress};
ghost use Rattle.split_core.specs.Dispatch.{is_ordered_done};

use crate::machine::Core;
use client_calls::{ClientView, Progress, next_before_admit, next_event};
use cost_model::cost;
use sched_api::{FifoSched, SchedView, SplitSched};
use split_types::{Actor, Event, Pid, ReqId, Serial};

impl Core {
    /// How far a process has come, as the decision on its next event sees it.
    fn progress(&self, p: Pid) -> Progress
        requires first { 1 ≤ p.0 }
        requires last { p.0 ≤ length self.now.workload.procs }
        ensures { IsProgress self.now.workload self.now.history p.0 result }
    {
        let client = self.parts.clients.client(&self.workload, &self.history, p);
        Progress {
            call: self.plan.call(&self.workload, p, client.returned).copied(),
            number: client.returned,
            entered: client.entered,
            admitted: client.admitted,
            acted: client.acted,
            bound: client.file,
            size_at_admit: client.size,
            moved: client.moved as u32,
            sum: client.got,
            bad_read: false,
        }
    }

    /// Whether the file that a call is bound to is still there.
    fn is_there(&self, file: Option<Serial>) -> bool
        ensures { result ≡ is_some (if_live self.now.workload self.now.history file) }
    {
        match file {
            Some(serial) => self.parts.filing.fs.slot_of(serial).is_some(),
            None => false,
        }
    }

    /// The next event of a process: none while it awaits a read of a file that is there.
    pub(crate) fn next_of_client(&self, p: Pid) -> Option<Event>
        requires first { 1 ≤ p.0 }
        requires last { p.0 ≤ length self.now.workload.procs }
        ensures { result ≡ next self.now.workload self.now.history (Actor.Client p) }
    {
        let client = self.parts.clients.client(&self.workload, &self.history, p);
        if client.awaits && self.is_there(client.file) {
            return None;
        }
        let progress = self.progress(p);
        if let Some(next) = next_before_admit(p, &progress, true) {
            return next;
        }
        let view = ClientView {
            cache: &self.parts.pages.cache,
            places: self.workload.cache,
            n: self.workload.procs.len() as u32,
            fs: &self.parts.filing.fs,
            alloc: &self.parts.filing.alloc,
            mapped: self.mapped(),
            progress,
            may_admit: true,
            flushable: self
                .parts
                .syncs
                .is_written(&self.workload, &self.history, p),
            committed: self.parts.syncs.is_safe(
                &self.workload,
                &self.history,
                &self.parts.journaling.journal,
                p,
            ),
            next_id: ReqId(self.parts.book.entries.len() as u32),
        };
        next_event(p, &view)
    }

    /// What the scheduler sees.
    fn sched_view(&self) -> SchedView<'_>
        ensures stopped { result.stopped ≡ false }
        ensures ordered { result.ordered_done ≡ is_ordered_done self.now.history }
    {
        SchedView {
            clock: self.parts.time.clock,
            stopped: false,
            ordered_done: self.parts.dispatch.is_ordered_done(),
            waiting: &[],
            syncing: &[],
            billed: &[],
            billing: &[],
            balances: &[],
        }
    }

    /// The next event of the dispatcher: where fewer requests than the depth are in flight, the one is sent that the
    /// scheduler picks.
    fn next_of_dispatcher(&self) -> Option<Event>
        ensures { result ≡ next_of_dispatcher self.now.workload self.now.history }
    {
        let queue = &self.parts.dispatch.queue;
        if queue.in_flight() >= self.workload.depth {
            return None;
        }
        let id = FifoSched.pick(queue, &self.sched_view())?;
        let request = &self.parts.book.entry(&self.history, id).request;
        Some(Event::Send {
            id,
            cost: cost(self.parts.time.head, request.first, request.n),
        })
    }

    /// The next event of a completion: the request at this place in flight is done.
    fn next_of_completion(&self, k: u32) -> Option<Event>
        ensures { result ≡ next_of_completion self.now.history k }
    {
        let queue = &self.parts.dispatch.queue;
        if k >= queue.in_flight() {
            return None;
        }
        let (request, _cost) = queue.peek_done(k);
        Some(Event::Done {
            k,
            id: request.id,
            ok: true,
        })
    }

    /// The next event of an actor, or none.
    pub(crate) fn next(&self, a: Actor) -> Option<Event>
        ensures { result ≡ next self.now.workload self.now.history a }
    {
        match a {
            Actor::Client(p) => {
                if p.0 >= 1 && p.0 as usize <= self.workload.procs.len() {
                    self.next_of_client(p)
                } else {
                    None
                }
            }
            Actor::Wb => self.next_of_writeback(),
            Actor::Cm => self.next_of_commit(),
            Actor::Dq => self.next_of_dispatcher(),
            Actor::Dn(k) => self.next_of_completion(k),
            Actor::Tk => None,
        }
    }
}
