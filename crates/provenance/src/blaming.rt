//! The processes to blame for an event.
ghost use Rattle.std.specs.Prelude.{◌≡◌, ◌≤◌, ◌<◌, ◌^◌, [], ◌∷◌, length, IfOk};
ghost use Rattle.split_types.specs.Sets.{union_of};
ghost use Rattle.split_types.specs.Blame.{own_blame, blame};
ghost use Rattle.provenance.specs.Found.{numbers};

use crate::parentage::parents_before;
use cause_set::Causes;
use hook_events::{History, Steps};
use split_types::{Event, Pid, ReqKind, Workload};
use std::alloc::{AllocError, Global};
use std::sync::ledger::Ledger;

/// The set of a process; empty for a number that no process has.
fn set_of(p: Pid) -> Causes
    ensures { result ≡ union_of ((p.0 ∷ []) ∷ []) }
{
    if 1 <= p.0 && p.0 <= 256 {
        Causes::one(p)
    } else {
        Causes::none()
    }
}

/// The process that makes a put, a make, a drop or an added read.
fn author(e: &Event) -> Option<Pid>
    ensures { numbers result ≡ own_blame e.now }
{
    match *e {
        Event::Make { by, .. } | Event::Put { by, .. } | Event::Drop { by, .. } => Some(by),
        Event::Add { req, .. } => match req.kind {
            ReqKind::Read(p, _, _) => Some(p),
            _ => None,
        },
        _ => None,
    }
}

/// The set of that process.
fn own(e: &Event) -> Causes
    ensures { result ≡ union_of (own_blame e.now ∷ []) }
{
    match author(e) {
        Some(p) => set_of(p),
        None => Causes::none(),
    }
}

/// The processes to blame for the event at place `i`: its own, and those to blame for its parents. Of the
/// workload nothing is read.
pub fn blame<L: Ledger>(
    alloc: Global,
    w: &Workload,
    h: &History,
    i: usize,
    steps: &mut Steps<L>,
) -> Result<Causes, AllocError>
    requires within { i < length h.now.events }
    requires short { length h.now.events ≤ 2 ^ 32 }
    ensures { IfOk result (λ causes. causes ≡ blame h.now.events i) }
{
    let e = h.at(i, steps);
    let parents = parents_before(alloc, h, i, &e, steps)?;
    let mut causes = own(&e);
    for parent in parents.as_slice() {
        causes = causes.union(&blame(alloc, w, h, *parent as usize, steps)?);
    }
    Ok(causes)
}
