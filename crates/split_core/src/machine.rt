//! The core, and what may be read of it.
ghost use Rattle.std.specs.Prelude.{◌≡◌, ℕ, ◌<◌, ◌≤◌, [], length, IfOk};
ghost use Rattle.split_types.specs.Accepted.{IsAccepted};
ghost use Rattle.split_types.specs.Legal.{IsLegal};
ghost use Rattle.split_types.specs.DiskBytes.{disk_block};
ghost use Rattle.sim_disk.specs.Bytes.{block_at};

use crate::parts::Parts;
use crate::plan::Plan;
use hook_events::History;
use sim_disk::Disk;
use split_types::Workload;
use std::alloc::{AllocError, Global};
use std::marker::Model;

/// So many events come of a call that writes one page which has its block: it is entered and admitted, puts, and
/// returns, and the page is served, added, sent and done.
const EVENTS_OF_A_CALL: u32 = 8;

/// The stack of a workload: the events that it has made, and what it needs to make the next.
///
/// Contracts see it as its workload and its history.
#[derive(Drop)]
pub struct Core {
    pub(crate) alloc: Global,
    pub(crate) workload: Workload,
    pub(crate) plan: Plan,
    pub(crate) history: History,
    pub(crate) parts: Parts,
}

impl Model for Core {
    ghost use Rattle.split_core.specs.StandsFor.{Simulation, StandsFor};

    ghost Value = { Simulation };

    ghost view = { λ c. record { workload = c.workload; history = c.history.events } };

    ghost invariant = { λ c. StandsFor c.workload c.plan c.parts c.history.events };
}

/// The history of no event, with room for those that come of calls of one page each.
fn history_of(alloc: Global, w: &Workload) -> Result<History, AllocError>
    requires { IsAccepted w.now }
    ensures { IfOk result (λ h. h.events ≡ []) }
{
    let mut history = History::new(alloc)?;
    history.room(EVENTS_OF_A_CALL * w.calls.len() as u32)?;
    Ok(history)
}

impl Core {
    /// The stack of a workload before any event.
    pub fn new(alloc: Global, w: Workload) -> Result<Core, AllocError>
        requires { IsAccepted w }
        ensures { IfOk result (λ core. core ≡ record { workload = w; history = [] }) }
    {
        let history = history_of(alloc, &w)?;
        let plan = Plan::new(alloc, &w)?;
        let parts = Parts::new(alloc, &w, &plan)?;
        Ok(Core {
            alloc,
            workload: w,
            plan,
            history,
            parts,
        })
    }

    /// What is simulated.
    pub fn workload(&self) -> &Workload
        ensures { result.now ≡ self.now.workload }
    {
        &self.workload
    }

    /// The disk: each block holds what the last write of it that was done well carried, and before any the metadata of
    /// the preset files or their bytes.
    pub fn disk(&self) -> &Disk
        ensures size { length result.now.blocks ≡ self.now.workload.device }
        ensures blocks { (x : ℕ) → x < self.now.workload.device
            → block_at result.now.blocks x ≡ disk_block self.now.workload self.now.history x }
    {
        &self.parts.medium.disk
    }

    /// The events that were made: a legal history.
    pub fn history(&self) -> &History
        ensures events { result.now.events ≡ self.now.history }
        ensures legal { IsLegal self.now.workload self.now.history }
    {
        &self.history
    }
}
