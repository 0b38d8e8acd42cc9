//! The growing list of events.
ghost use Rattle.std.specs.Prelude.{◌≡◌, ◌+◌, ◌<◌, ◌≤◌, [], length, vec_len, Some, IsOk, IfOk, OnOk, OnErr};
ghost use Rattle.std.specs.Vec.{vec_capacity};
ghost use Rattle.hook_events.specs.Packing.{event_of, IsPlaced, IsFront};
ghost use Rattle.split_types.specs.History.{◌▹◌, event_at};

use crate::packed::Packed;
use crate::steps::Steps;
use split_types::Event;
use std::alloc::{AllocError, Global};
use std::marker::Model;
use std::sync::ledger::Ledger;

/// Room is made for so many events at least, so that few events ask for memory.
const STRIDE: usize = 64;

/// The events that the stack has made. An event's place is the number of events before it.
///
/// An event takes sixteen bytes where it is of a kind that comes often and its numbers are small.
#[derive(Debug, Drop)]
pub struct History {
    packed: Vec<Packed>,
    /// The events that are kept whole.
    whole: Vec<Event>,
    /// For so many more events there is room, whichever they are.
    spare: usize,
}

impl Model for History {
    ghost use Rattle.std.specs.Prelude.{◌+◌, ◌≤◌, All, length, map, reverse, vec_len};
    ghost use Rattle.std.specs.Vec.{vec_capacity};
    ghost use Rattle.hook_events.specs.Log.{Log};
    ghost use Rattle.hook_events.specs.Packing.{event_of, IsPlaced};

    ghost Value = { Log };

    ghost view = { λ h. record { events = reverse (map (event_of h.whole.items) h.packed.items); spare = h.spare } };

    ghost invariant = { λ h. All (IsPlaced (length h.whole.items)) h.packed.items
        × (vec_len h.packed + h.spare ≤ vec_capacity h.packed)
        × (vec_len h.whole + h.spare ≤ vec_capacity h.whole) };
}

/// An event in few bytes; where that can't be it is kept whole.
fn packed(whole: &mut Vec<Event>, e: Event) -> Packed
    requires { vec_len whole.old < vec_capacity whole.old }
    ensures event { event_of whole.new.items result ≡ e }
    ensures placed { IsPlaced (length whole.new.items) result }
    ensures kept { IsFront whole.old.items whole.new.items }
    ensures len { vec_len whole.new ≤ vec_len whole.old + 1 }
    ensures capacity { vec_capacity whole.new ≡ vec_capacity whole.old }
{
    if let Some(packed) = Packed::new(&e) {
        return packed;
    }
    let place = whole.len();
    whole.push_reserved(e);
    Packed::Whole(place)
}

impl History {
    /// The empty history.
    pub fn new(alloc: Global) -> Result<History, AllocError>
        ensures { IfOk result (λ h. h.events ≡ []) }
    {
        Ok(History {
            packed: Vec::new(alloc),
            whole: Vec::new(alloc),
            spare: 0,
        })
    }

    /// Makes room for `n` more events.
    pub fn room(&mut self, n: u32) -> Result<(), AllocError>
        ensures events { self.new.events ≡ self.old.events }
        ensures ok { OnOk result (n ≤ self.new.spare) }
        ensures err { OnErr result (self.new ≡ self.old) }
        ensures spare { self.old.spare ≤ self.new.spare }
        ensures succeeds { n ≤ self.old.spare → IsOk result }
    {
        let n = n as usize;
        if self.spare < n {
            self.make_room(n.max(STRIDE))?;
        }
        Ok(())
    }

    /// Makes room for `n` more events, where there isn't yet.
    fn make_room(&mut self, n: usize) -> Result<(), AllocError>
        requires { self.old.spare ≤ n }
        ensures events { self.new.events ≡ self.old.events }
        ensures ok { OnOk result (self.new.spare ≡ n) }
        ensures err { OnErr result (self.new ≡ self.old) }
    {
        self.packed.reserve(n)?;
        self.whole.reserve(n)?;
        self.spare = n;
        Ok(())
    }

    /// Appends an event. It succeeds where there is room.
    pub fn push(&mut self, e: Event) -> Result<(), AllocError>
        ensures ok { OnOk result (self.new.events ≡ self.old.events ▹ e) }
        ensures err { OnErr result (self.new.events ≡ self.old.events) }
        ensures spare { self.old.spare ≤ self.new.spare + 1 }
        ensures succeeds { 1 ≤ self.old.spare → IsOk result }
    {
        if self.spare == 0 {
            self.make_room(STRIDE)?;
        }
        self.keep(e);
        Ok(())
    }

    /// Appends an event for which there is room.
    fn keep(&mut self, e: Event)
        requires { 1 ≤ self.old.spare }
        ensures events { self.new.events ≡ self.old.events ▹ e }
        ensures spare { self.old.spare ≡ self.new.spare + 1 }
    {
        let packed = packed(&mut self.whole, e);
        self.packed.push_reserved(packed);
        self.spare -= 1;
    }

    /// How many events there are.
    pub fn len(&self) -> usize
        ensures { result ≡ length self.now.events }
    {
        self.packed.len()
    }

    /// The event at place `i`: one counted read.
    pub fn at<L: Ledger>(&self, i: usize, steps: &mut Steps<L>) -> Event
        requires { i < length self.now.events }
        ensures event { event_at self.now.events i ≡ Some result }
        ensures cost { steps.new ≡ steps.old + 1 }
    {
        steps.tick();
        self.packed[i].event(&self.whole)
    }
}
