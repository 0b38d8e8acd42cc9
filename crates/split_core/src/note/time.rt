//! Where the disk's head stands, and what the clock says.
ghost use Rattle.std.specs.Prelude.{[]};
ghost use Rattle.split_types.specs.History.{◌▹◌};
ghost use Rattle.split_core.specs.Fits.{Fits};
ghost use Rattle.split_core.specs.Givens.{IsGiven};
ghost use Rattle.split_core.specs.Time.{TimeStands};

use crate::parts::Given;
use hook_events::History;
use split_types::{Event, Workload};

#[derive(Clone, Copy, Debug)]
pub(crate) struct Time {
    /// The block behind the last request that was sent.
    pub(crate) head: u32,
    pub(crate) clock: u64,
}

impl Time {
    pub(crate) fn new() -> Time
        ensures { TimeStands result [] }
    {
        Time { head: 0, clock: 0 }
    }

    /// Takes note of an event.
    pub(crate) fn note(&mut self, w: &Workload, h: &History, e: &Event, given: &Given)
        requires stands { TimeStands self.old h.now.events }
        requires fits { Fits w.now h.now.events e.now }
        requires given { IsGiven w.now h.now.events e.now given.now }
        ensures { TimeStands self.new (h.now.events ▹ e.now) }
    {
        match *e {
            Event::Send { .. } => if let Some(request) = given.request {
                self.head = request.first + request.n
            },
            Event::Done { .. } => self.clock += given.cost,
            _ => {}
        }
    }
}
