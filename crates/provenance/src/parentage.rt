//! The parents of an event.
ghost use Rattle.std.specs.Prelude.{◌≡◌, ◌≤◌, ◌<◌, ◌^◌, length, IfOk, IfSome};
ghost use Rattle.std.specs.List.{flat_map};
ghost use Rattle.split_types.specs.History.{older};
ghost use Rattle.split_types.specs.OpenDirtyings.{open_at};
ghost use Rattle.split_types.specs.Parents.{pages_of, metadata_buffers, buffer_at, parents_of, parents_of_add};
ghost use Rattle.split_types.specs.Rounds.{round_of};
ghost use Rattle.provenance.specs.Found.{listed};

use crate::target::{Target, block_target};
use crate::walk::{last_serve, open_before, round_places, seal_place};
use hook_events::{History, Steps};
use split_types::{Event, PlaceList, ReqKind, Request, Serial, Txn};
use std::alloc::{AllocError, Global};
use std::sync::ledger::Ledger;

/// The open dirtyings of `n` pages after the first `count` events.
fn open_pages<L: Ledger>(
    alloc: Global,
    h: &History,
    count: usize,
    serial: Serial,
    page: u32,
    n: u32,
    steps: &mut Steps<L>,
) -> Result<PlaceList, AllocError>
    requires within { count ≤ length h.now.events }
    requires short { length h.now.events ≤ 2 ^ 32 }
    ensures { IfOk result (λ places. places ≡ flat_map (open_at (older h.now.events count)) (pages_of serial page n)) }
{
    let mut places = PlaceList::new(alloc);
    for k in 0..n {
        let target = Target::Page(serial, u64::from(page) + u64::from(k));
        open_before(h, count, &target, &mut places, steps)?;
    }
    Ok(places)
}

/// The open dirtyings of all blocks of metadata after the first `count` events.
fn open_metadata<L: Ledger>(
    alloc: Global,
    h: &History,
    count: usize,
    steps: &mut Steps<L>,
) -> Result<PlaceList, AllocError>
    requires within { count ≤ length h.now.events }
    requires short { length h.now.events ≤ 2 ^ 32 }
    ensures { IfOk result (λ places. places ≡ flat_map (open_at (older h.now.events count)) metadata_buffers) }
{
    let mut places = PlaceList::new(alloc);
    for k in 0u32..261 {
        open_before(h, count, &block_target(k + 1), &mut places, steps)?;
    }
    Ok(places)
}

/// The open dirtyings of a block of metadata before each seal of a transaction's round, after the first
/// `count` events.
fn open_in_round<L: Ledger>(
    alloc: Global,
    h: &History,
    count: usize,
    t: Txn,
    block: u32,
    steps: &mut Steps<L>,
) -> Result<PlaceList, AllocError>
    requires within { count ≤ length h.now.events }
    requires short { length h.now.events ≤ 2 ^ 32 }
    ensures { IfOk result (λ places. places ≡ flat_map (λ seal. open_at seal.before (buffer_at block))
        (round_of (older h.now.events count) t)) }
{
    let seals = round_places(alloc, h, count, t, steps)?;
    let mut places = PlaceList::new(alloc);
    for seal in seals.as_slice() {
        open_before(h, *seal as usize, &block_target(block), &mut places, steps)?;
    }
    Ok(places)
}

/// The list of the place that was found, if any.
fn list_of(alloc: Global, found: Option<usize>) -> Result<PlaceList, AllocError>
    requires { IfSome found (λ place. place < 2 ^ 32) }
    ensures { IfOk result (λ places. places ≡ listed found) }
{
    let mut places = PlaceList::new(alloc);
    if let Some(place) = found {
        places.push(place as u32)?;
    }
    Ok(places)
}

/// The parents of a request that is added after the first `count` events.
fn parents_of_add<L: Ledger>(
    alloc: Global,
    h: &History,
    count: usize,
    r: &Request,
    steps: &mut Steps<L>,
) -> Result<PlaceList, AllocError>
    requires within { count ≤ length h.now.events }
    requires short { length h.now.events ≤ 2 ^ 32 }
    ensures { IfOk result (λ places. places ≡ parents_of_add (older h.now.events count) r.now) }
{
    match r.kind {
        ReqKind::Read(_, _, _) => Ok(PlaceList::new(alloc)),
        ReqKind::Pages(serial, page) => open_pages(alloc, h, count, serial, page, r.n, steps),
        ReqKind::Log(t) | ReqKind::Commit(t) | ReqKind::Clear(t) => {
            list_of(alloc, seal_place(h, count, t, steps))
        }
        ReqKind::Home(t) => open_in_round(alloc, h, count, t, r.first, steps),
    }
}

/// The parents of an event that comes after the first `count` events.
pub(crate) fn parents_before<L: Ledger>(
    alloc: Global,
    h: &History,
    count: usize,
    e: &Event,
    steps: &mut Steps<L>,
) -> Result<PlaceList, AllocError>
    requires within { count ≤ length h.now.events }
    requires short { length h.now.events ≤ 2 ^ 32 }
    ensures { IfOk result (λ places. places ≡ parents_of (older h.now.events count) e.now) }
{
    match *e {
        Event::Add { req, .. } => parents_of_add(alloc, h, count, &req, steps),
        Event::Serve { serial, page, n } => open_pages(alloc, h, count, serial, page, n, steps),
        Event::Map { .. } => list_of(alloc, last_serve(h, count, steps)),
        Event::Seal { .. } => open_metadata(alloc, h, count, steps),
        _ => Ok(PlaceList::new(alloc)),
    }
}

/// The parents of an event that comes after the history, by their places.
pub fn parents<L: Ledger>(
    alloc: Global,
    h: &History,
    e: &Event,
    steps: &mut Steps<L>,
) -> Result<PlaceList, AllocError>
    requires { length h.now.events ≤ 2 ^ 32 }
    ensures { IfOk result (λ places. places ≡ parents_of h.now.events e.now) }
{
    parents_before(alloc, h, h.len(), e, steps)
}
