//! The requests that are queued, those that are in flight, and what a commit waits for.
ghost use Rattle.std.specs.Prelude.{◌≡◌, ◌==◌, ◌&&◌, ◌||◌, ◌<◌, [], length, not, List, IfOk, OnOk, true};
ghost use Rattle.split_types.specs.History.{◌▹◌};
ghost use Rattle.split_types.specs.declared.workload.Workload.{Workload};
ghost use Rattle.split_types.specs.declared.event.Event.{Event};
ghost use Rattle.split_core.specs.Asks.{asks};
ghost use Rattle.split_core.specs.Fits.{Fits};
ghost use Rattle.split_core.specs.Givens.{IsGiven};
ghost use Rattle.split_core.specs.Dispatch.{DispatchStands, commits_first};

use crate::note::ordered::Ordered;
use crate::parts::Given;
use block_queue::Queue;
use hook_events::History;
use sched_api::oldest_write;
use split_types::{Event, ReqKind, Workload};
use std::alloc::{AllocError, Global};

#[derive(Drop)]
pub(crate) struct Dispatch {
    pub(crate) queue: Queue,
    pub(crate) ordered: Ordered,
}

impl Dispatch {
    /// No request.
    pub(crate) fn new(alloc: Global) -> Result<Dispatch, AllocError>
        ensures { IfOk result (λ d. DispatchStands d []) }
    {
        let queue = Queue::new(alloc)?;
        Ok(Dispatch {
            queue,
            ordered: Ordered::new(),
        })
    }

    /// Makes room for one more request.
    pub(crate) fn room(&mut self) -> Result<(), AllocError>
        ensures stands { (h : List Event) → DispatchStands self.old h → DispatchStands self.new h }
        ensures ok { OnOk result (0 < self.new.queue.spare) }
    {
        self.queue.room(1)
    }

    /// Whether no request is queued or in flight.
    pub(crate) fn is_empty(&self) -> bool
        ensures { result ≡ (length self.now.queue.queued == 0 && length self.now.queue.in_flight == 0) }
    {
        self.queue.queued().is_empty() && self.queue.in_flight() == 0
    }

    /// Whether the data of the transaction is done which the oldest queued write commits; true where that commits none.
    pub(crate) fn is_ordered_done(&self) -> bool
        ensures { result ≡ (self.now.ordered.left == 0 || not (commits_first self.now.queue.queued)) }
    {
        if self.ordered.left == 0 {
            return true;
        }
        match oldest_write(&self.queue) {
            Some(request) => !matches!(request.kind, ReqKind::Commit(_)),
            None => true,
        }
    }

    /// Takes note of an event.
    pub(crate) fn note(&mut self, w: &Workload, h: &History, e: &Event, given: &Given)
        requires stands { DispatchStands self.old h.now.events }
        requires fits { Fits w.now h.now.events e.now }
        requires given { IsGiven w.now h.now.events e.now given.now }
        requires room { asks e.now ≡ true → 0 < self.old.queue.spare }
        ensures { DispatchStands self.new (h.now.events ▹ e.now) }
    {
        self.ordered.note(w, h, e, given);
        match *e {
            Event::Add { req, .. } => self.queue.add(req).unwrap(),
            Event::Send { id, cost } => self.queue.send(id, cost),
            Event::Done { k, .. } => {
                let _done = self.queue.done(k);
            }
            _ => {}
        }
    }
}
