//! What the commit thread does next.
ghost use Rattle.std.specs.Prelude.{◌≡◌};
ghost use Rattle.std.specs.List.{list_all};
ghost use Rattle.split_types.specs.Calls.{is_finished};
ghost use Rattle.split_types.specs.Workloads.{processes};
ghost use Rattle.split_types.specs.Committing.{next_of_commit};

use crate::machine::Core;
use split_types::{Actor, Event, ReqId, Request};

impl Core {
    /// Whether all calls have returned.
    pub(crate) fn all_returned(&self) -> bool
        ensures { result ≡ list_all (is_finished self.now.workload self.now.history) (processes self.now.workload) }
    {
        self.parts.clients.finished as usize == self.workload.procs.len()
    }

    /// The next event of the commit thread: the request that the journal has due, or else a seal, where one may be made
    /// and no map waits for its request.
    pub(crate) fn next_of_commit(&self) -> Option<Event>
        ensures { result ≡ next_of_commit self.now.workload self.now.history }
    {
        let journal = &self.parts.journaling.journal;
        if let Some(due) = journal.next_request(self.all_returned()) {
            return Some(Event::Add {
                by: Actor::Cm,
                req: Request {
                    id: ReqId(self.parts.book.entries.len() as u32),
                    kind: due.kind,
                    first: due.first,
                    n: due.n,
                },
            });
        }
        if !journal.can_seal() || self.mapped().is_some() {
            return None;
        }
        let (t, k) = journal.to_seal();
        Some(Event::Seal { t, k })
    }
}
