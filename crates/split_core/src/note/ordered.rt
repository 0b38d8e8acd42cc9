//! What a commit request waits for: the requests for pages that were added before the last seal.
ghost use Rattle.std.specs.Prelude.{◌≡◌, []};
ghost use Rattle.split_types.specs.History.{◌▹◌};
ghost use Rattle.split_types.specs.Requests.{is_pages};
ghost use Rattle.split_core.specs.Dispatch.{OrderedStands};
ghost use Rattle.split_core.specs.Fits.{Fits};
ghost use Rattle.split_core.specs.Givens.{IsGiven};

use crate::parts::Given;
use hook_events::History;
use split_types::{Event, ReqKind, Request, Workload};

/// How many requests were added, in all and before the last seal; and how many of those for pages aren't done yet, of
/// both.
#[derive(Clone, Copy, Debug)]
pub(crate) struct Ordered {
    pub(crate) added: u32,
    pub(crate) before: u32,
    pub(crate) pages: u32,
    pub(crate) left: u32,
}

/// Whether a request is for pages.
fn is_pages(r: &Request) -> bool
    ensures { result ≡ is_pages r.now }
{
    matches!(r.kind, ReqKind::Pages(..))
}

impl Ordered {
    /// No request.
    pub(crate) fn new() -> Ordered
        ensures { OrderedStands result [] }
    {
        Ordered {
            added: 0,
            before: 0,
            pages: 0,
            left: 0,
        }
    }

    /// Takes note of an event.
    pub(crate) fn note(&mut self, w: &Workload, h: &History, e: &Event, given: &Given)
        requires stands { OrderedStands self.old h.now.events }
        requires fits { Fits w.now h.now.events e.now }
        requires given { IsGiven w.now h.now.events e.now given.now }
        ensures { OrderedStands self.new (h.now.events ▹ e.now) }
    {
        match *e {
            Event::Add { req, .. } => {
                self.added += 1;
                if is_pages(&req) {
                    self.pages += 1;
                }
            }
            Event::Seal { .. } => {
                self.before = self.added;
                self.left = self.pages;
            }
            Event::Done { id, .. } => if let Some(request) = given.request {
                if is_pages(&request) {
                    self.pages -= 1;
                    if id.0 < self.before {
                        self.left -= 1;
                    }
                }
            },
            _ => {}
        }
    }
}
