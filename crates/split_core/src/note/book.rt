//! The requests, with what is known of each.
ghost use Rattle.std.specs.Prelude.{◌≡◌, ◌<◌, [], List, IfOk, OnOk, vec_len, true};
ghost use Rattle.std.specs.Vec.{vec_capacity};
ghost use Rattle.split_types.specs.declared.event.Event.{Event};
ghost use Rattle.split_types.specs.History.{◌▹◌, adds};
ghost use Rattle.split_core.specs.Asks.{asks};
ghost use Rattle.split_core.specs.Fits.{Fits};
ghost use Rattle.split_core.specs.Takings.{IsTagged};
ghost use Rattle.split_core.specs.Book.{IsEntry, BookStands};

use cause_set::Causes;
use hook_events::History;
use split_types::{Event, ReqId, ReqState, Request, Workload};
use std::alloc::{AllocError, Global};

/// A request, the processes to blame for it, what it costs (0 until it is sent), and how far it has come.
#[derive(Clone, Copy, Debug)]
pub(crate) struct Entry {
    pub(crate) tag: Causes,
    pub(crate) cost: u64,
    pub(crate) request: Request,
    pub(crate) state: ReqState,
}

/// All requests by number.
#[derive(Debug, Drop)]
pub(crate) struct Book {
    pub(crate) entries: Vec<Entry>,
}

impl Book {
    /// No request. Room is made for about as many as there are calls.
    pub(crate) fn new(alloc: Global, w: &Workload) -> Result<Book, AllocError>
        ensures { IfOk result (λ b. BookStands b []) }
    {
        let entries = Vec::with_capacity(alloc, w.calls.len())?;
        Ok(Book { entries })
    }

    /// Makes room for one more request.
    pub(crate) fn room(&mut self) -> Result<(), AllocError>
        ensures stands { (h : List Event) → BookStands self.old h → BookStands self.new h }
        ensures ok { OnOk result (vec_len self.new.entries < vec_capacity self.new.entries) }
    {
        self.entries.reserve(1)
    }

    /// The request of this number.
    pub(crate) fn entry(&self, h: &History, id: ReqId) -> &Entry
        requires stands { BookStands self.now h.now.events }
        requires added { id.0 < adds h.now.events }
        ensures { IsEntry h.now.events id.0 result.now }
    {
        &self.entries[id.0 as usize]
    }

    /// Takes note of an event, with the tag of a request that it adds.
    pub(crate) fn note(&mut self, w: &Workload, h: &History, e: &Event, tag: &Causes)
        requires stands { BookStands self.old h.now.events }
        requires fits { Fits w.now h.now.events e.now }
        requires tag { IsTagged h.now.events e.now tag.now }
        requires room { asks e.now ≡ true → vec_len self.old.entries < vec_capacity self.old.entries }
        ensures { BookStands self.new (h.now.events ▹ e.now) }
    {
        match *e {
            Event::Add { req, .. } => self.entries.push_reserved(Entry {
                tag: *tag,
                cost: 0,
                request: req,
                state: ReqState::Queued,
            }),
            Event::Send { id, cost } => self.entries[id.0 as usize].cost = cost,
            Event::Done { id, .. } => self.entries[id.0 as usize].state = ReqState::Done,
            _ => {}
        }
    }
}
