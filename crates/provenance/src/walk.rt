//! Walks back from a place of a history.
ghost use Rattle.std.specs.Prelude.{◌≡◌, ◌≤◌, ◌<◌, ◌+◌, ◌^◌, [], ◌∷◌, ◌++◌, length, map, All, OnOk, IfOk, IfSome, if◌then◌else◌};
ghost use Rattle.split_types.specs.Hooks.{is_dirtied};
ghost use Rattle.split_types.specs.History.{older};
ghost use Rattle.split_types.specs.OpenDirtyings.{open_at};
ghost use Rattle.split_types.specs.Parents.{last_serve};
ghost use Rattle.split_types.specs.Rounds.{seal_place, round_of};
ghost use Rattle.split_types.specs.ByPlace.{is_serve, is_seal, is_seal_of, is_clear_add};
ghost use Rattle.provenance.specs.Targets.{buffer_of};
ghost use Rattle.provenance.specs.Found.{listed, sealing_at};

use crate::target::{Target, is_closed, is_dirtied};
use hook_events::{History, Steps};
use split_types::{Event, PlaceList, ReqKind, Txn};
use std::alloc::{AllocError, Global};
use std::sync::ledger::Ledger;

/// Appends the place of the event where the event dirties the target.
fn push_dirtied(
    e: &Event,
    place: u32,
    target: &Target,
    places: &mut PlaceList,
) -> Result<(), AllocError>
    ensures { OnOk result (places.new ≡ places.old ++ (if is_dirtied e.now (buffer_of target.now) then place ∷ []
        else [])) }
{
    if is_dirtied(e, target) {
        places.push(place)?;
    }
    Ok(())
}

/// Appends the places of the target's open dirtyings after the first `count` events.
pub(crate) fn open_before<L: Ledger>(
    h: &History,
    count: usize,
    target: &Target,
    places: &mut PlaceList,
    steps: &mut Steps<L>,
) -> Result<(), AllocError>
    requires within { count ≤ length h.now.events }
    requires short { length h.now.events ≤ 2 ^ 32 }
    ensures { OnOk result (places.new ≡ places.old ++ open_at (older h.now.events count) (buffer_of target.now)) }
{
    let mut rest = count;
    while rest > 0 {
        rest -= 1;
        let e = h.at(rest, steps);
        push_dirtied(&e, rest as u32, target, places)?;
        if is_closed(&e, target) {
            rest = 0;
        }
    }
    Ok(())
}

/// The place of the last serve among the first `count` events.
pub(crate) fn last_serve<L: Ledger>(
    h: &History,
    count: usize,
    steps: &mut Steps<L>,
) -> Option<usize>
    requires { count ≤ length h.now.events }
    ensures place { listed result ≡ last_serve (older h.now.events count) }
    ensures within { IfSome result (λ place. place < count) }
{
    let mut rest = count;
    while rest > 0 {
        rest -= 1;
        if is_serve(&h.at(rest, steps)) {
            return Some(rest);
        }
    }
    None
}

/// The place of the seal of a transaction among the first `count` events.
pub(crate) fn seal_place<L: Ledger>(
    h: &History,
    count: usize,
    t: Txn,
    steps: &mut Steps<L>,
) -> Option<usize>
    requires { count ≤ length h.now.events }
    ensures place { listed result ≡ seal_place (older h.now.events count) t }
    ensures within { IfSome result (λ place. place < count) }
{
    let mut rest = count;
    while rest > 0 {
        rest -= 1;
        if is_seal_of(&h.at(rest, steps), t) {
            return Some(rest);
        }
    }
    None
}

/// The places of the seals of a transaction's round among the first `count` events, the newest first: none
/// where the transaction's own seal isn't among them.
pub(crate) fn round_places<L: Ledger>(
    alloc: Global,
    h: &History,
    count: usize,
    t: Txn,
    steps: &mut Steps<L>,
) -> Result<PlaceList, AllocError>
    requires within { count ≤ length h.now.events }
    requires short { length h.now.events ≤ 2 ^ 32 }
    ensures within { IfOk result (λ places. All (λ place. place < count) places) }
    ensures round { IfOk result (λ places. map (sealing_at h.now.events) places ≡ round_of (older h.now.events count) t) }
{
    let mut places = PlaceList::new(alloc);
    let mut has_own = false;
    let mut rest = count;
    while rest > 0 {
        rest -= 1;
        let e = h.at(rest, steps);
        if is_seal(&e) {
            places.push(rest as u32)?;
            has_own |= is_seal_of(&e, t);
        } else if is_clear_add(&e) {
            if has_own {
                return Ok(places);
            }
            places = PlaceList::new(alloc);
        }
    }
    if has_own {
        Ok(places)
    } else {
        Ok(PlaceList::new(alloc))
    }
}

/// Whether the event is a serve.
fn is_serve(e: &Event) -> bool
    ensures { result ≡ is_serve e.now }
{
    matches!(*e, Event::Serve { .. })
}

/// Whether the event is a seal.
fn is_seal(e: &Event) -> bool
    ensures { result ≡ is_seal e.now }
{
    matches!(*e, Event::Seal { .. })
}

/// Whether the event adds a request that clears a transaction.
fn is_clear_add(e: &Event) -> bool
    ensures { result ≡ is_clear_add e.now }
{
    match *e {
        Event::Add { req, .. } => matches!(req.kind, ReqKind::Clear(_)),
        _ => false,
    }
}

/// Whether the event is the seal of the transaction.
fn is_seal_of(e: &Event, t: Txn) -> bool
    ensures { result ≡ is_seal_of t e.now }
{
    match *e {
        Event::Seal { t: sealed, .. } => sealed.0 == t.0,
        _ => false,
    }
}
