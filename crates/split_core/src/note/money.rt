//! What is billed to each process.
ghost use Rattle.std.specs.Prelude.{◌≡◌, ℕ, ◌+◌, ◌<◌, ◌≤◌, ◌^◌, [], length, slice_index, IfOk, IsTrue};
ghost use Rattle.split_types.specs.History.{◌▹◌};
ghost use Rattle.split_types.specs.Sets.{has};
ghost use Rattle.split_types.specs.Share.{share_of};
ghost use Rattle.split_core.specs.Fits.{Fits};
ghost use Rattle.split_core.specs.Givens.{IsGiven};
ghost use Rattle.split_core.specs.Money.{MoneyStands};

use crate::parts::Given;
use cause_set::{Causes, share_of};
use hook_events::History;
use split_types::{Event, Workload};
use std::alloc::{AllocError, Global};

#[derive(Debug, Drop)]
pub(crate) struct Money {
    pub(crate) billed: Vec<u64>,
}

/// Bills a cost to each process of a tag, by its share.
fn bill(billed: &mut [u64], cost: u64, tag: &Causes)
    requires payers { (p : ℕ) → IsTrue (has tag.now p) → (1 ≤ p) × (p ≤ length billed.old) }
    requires room { (i : ℕ) → i < length billed.old
        → slice_index billed.old i + share_of cost tag.now (i + 1) < 2 ^ 64 }
    ensures { (i : ℕ) → i < length billed.old
        → slice_index billed.new i ≡ slice_index billed.old i + share_of cost tag.now (i + 1) }
{
    tag.rises();
    for p in tag.iter() {
        billed[(p.0 - 1) as usize] += share_of(cost, tag, p);
    }
}

impl Money {
    /// Nothing is billed to any process.
    pub(crate) fn new(alloc: Global, w: &Workload) -> Result<Money, AllocError>
        ensures { IfOk result (λ m. MoneyStands w.now m []) }
    {
        let billed = vec![in alloc; 0; w.procs.len()]?;
        Ok(Money { billed })
    }

    /// Takes note of an event.
    pub(crate) fn note(&mut self, w: &Workload, h: &History, e: &Event, given: &Given)
        requires stands { MoneyStands w.now self.old h.now.events }
        requires fits { Fits w.now h.now.events e.now }
        requires given { IsGiven w.now h.now.events e.now given.now }
        ensures { MoneyStands w.now self.new (h.now.events ▹ e.now) }
    {
        if let Event::Done { .. } = *e {
            bill(&mut self.billed, given.cost, &given.tag);
        }
    }
}
