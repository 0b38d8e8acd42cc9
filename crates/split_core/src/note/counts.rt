//! The events that each actor made.
ghost use Rattle.std.specs.Prelude.{◌≡◌, ◌+◌, ◌^◌, ◌<◌, ◌≤◌, [], length, IfOk};
ghost use Rattle.split_types.specs.History.{◌▹◌};
ghost use Rattle.split_types.specs.Hooks.{maker};
ghost use Rattle.split_core.specs.Fits.{Fits};
ghost use Rattle.split_core.specs.Counts.{place_of, IsActor, CountsStand};

use hook_events::History;
use split_types::{Actor, Event, Workload};
use std::alloc::{AllocError, Global};

/// The actors that are no processes.
const OTHERS: usize = 5;

/// One count for each process, and then for `wb`, `cm`, `dq`, `dn` and `tk`.
#[derive(Debug, Drop)]
pub(crate) struct Counts {
    pub(crate) made: Vec<u64>,
}

/// The place of an actor's count, where there are so many processes.
fn place_of(n: usize, actor: Actor) -> usize
    requires few { n ≤ 32 }
    requires actor { IsActor n actor }
    ensures { result ≡ place_of n actor }
{
    match actor {
        Actor::Client(p) => (p.0 - 1) as usize,
        Actor::Wb => n,
        Actor::Cm => n + 1,
        Actor::Dq => n + 2,
        Actor::Dn(_) => n + 3,
        Actor::Tk => n + 4,
    }
}

impl Counts {
    /// No event.
    pub(crate) fn new(alloc: Global, w: &Workload) -> Result<Counts, AllocError>
        requires { length w.now.procs ≤ 32 }
        ensures { IfOk result (λ c. CountsStand w.now c []) }
    {
        let made = vec![in alloc; 0; w.procs.len() + OTHERS]?;
        Ok(Counts { made })
    }

    /// Takes note of an event that this actor made.
    pub(crate) fn note(&mut self, w: &Workload, h: &History, actor: Actor, e: &Event)
        requires stands { CountsStand w.now self.old h.now.events }
        requires made { actor ≡ maker e.now }
        requires fits { Fits w.now h.now.events e.now }
        ensures { CountsStand w.now self.new (h.now.events ▹ e.now) }
    {
        let place = place_of(w.procs.len(), actor);
        self.made[place] += 1;
    }
}
