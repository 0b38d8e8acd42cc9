// A source and a sink in memory that fail at listed calls.
ghost use Rattle.std.specs.Prelude.{◌≡◌, ℕ, ◌+◌, ◌-◌, ◌^◌, ◌<◌, ◌≤◌, ◌⊎◌, ◌↔◌, min, List, [], ◌++◌, length, take, drop, Some, IfOk, IsErr, IsTrue, MatchResult, Contains, vec_len, vec_capacity};
ghost use Rattle.std.specs.Io.{ReadsAtMost};
ghost use Rattle.std.specs.Io.KnownBytes.{ReadConsumes, WriteAppends};
ghost use Rattle.outside.specs.Faults.{HasCause};
ghost use Rattle.outside.specs.Store.{Store, store_took, store_failed};
ghost use Rattle.outside.specs.Supply.{Supply, supply_gave, supply_failed};

use crate::sink::Sink;
use crate::source::{Failed, Source, give};
use std::alloc::{AllocError, Global};
use std::marker::Model;

/// Whether the call with this number is among those listed.
fn is_listed(fails: &[u32], call: u64) -> bool
    ensures { IsTrue result ↔ Contains fails.now call }
{
    for fail in fails {
        if u64::from(*fail) == call {
            return true;
        }
    }
    false
}

/// Gives its bytes in order, at most `piece` at a call, and fails at the calls whose numbers,
/// counted from 0, are listed.
#[derive(Drop)]
pub struct MemSource {
    bytes: Vec<u8>,
    taken: usize,
    piece: usize,
    fails: Vec<u32>,
    calls: u64,
    faults: u64,
}

impl Model for MemSource {
    ghost Value = { Supply };

    ghost view = { λ s. record {
      left = drop s.taken s.bytes.items;
      piece = s.piece;
      fails = s.fails.items;
      calls = s.calls;
      faults = s.faults;
    } };

    ghost invariant = { λ s. (s.taken ≤ vec_len s.bytes) × (0 < s.piece) };
}

impl MemSource {
    /// A source of these bytes that no call has been made of.
    pub fn new(bytes: Vec<u8>, piece: usize, fails: Vec<u32>) -> MemSource
        requires { 0 < piece }
        ensures { result ≡ record {
          left = bytes.items;
          piece = piece;
          fails = fails.items;
          calls = 0;
          faults = 0;
        } }
    {
        MemSource {
            bytes,
            taken: 0,
            piece,
            fails,
            calls: 0,
            faults: 0,
        }
    }

    /// The bytes not yet taken.
    pub fn rest(&self) -> &[u8]
        ensures { result.now ≡ self.now.left }
    {
        &self.bytes[self.taken..]
    }
}

impl Source for MemSource {
    ghost left = { λ s. Some s.left };

    ghost faults = { λ s. s.faults };

    fn read(&mut self, into: &mut [u8]) -> Result<usize, Failed>
        requires { 0 < length into.old }
        ensures bound { ReadsAtMost result into.new }
        ensures bytes { ReadConsumes (Some self.old.left) (Some self.new.left) result into.new }
        ensures cause { HasCause self.old.faults self.new.faults result }

        // Which calls fail, how many bytes the others give, and what each leaves.
        ensures fails { IsErr result ↔ Contains self.old.fails self.old.calls }
        ensures count { IfOk result (λ n.
            n ≡ min (min (length into.old) self.old.piece) (length self.old.left)) }
        ensures noted { MatchResult result (λ n. self.new ≡ supply_gave self.old n)
            (λ _. self.new ≡ supply_failed self.old) }
    {
        let call = self.calls;
        self.calls = self.calls.saturating_add(1);
        if is_listed(&self.fails, call) {
            self.faults = self.faults.saturating_add(1);
            return Err(Failed);
        }
        let count = give(&self.bytes[self.taken..], self.piece, into);
        self.taken += count;
        Ok(count)
    }
}

/// Holds at most `room` bytes and takes at most `piece` at a call. It fails at the calls whose
/// numbers, counted from 0, are listed, and where it holds `room` bytes.
#[derive(Drop)]
pub struct MemSink {
    bytes: Vec<u8>,
    room: usize,
    piece: usize,
    fails: Vec<u32>,
    calls: u64,
    faults: u64,
}

impl Model for MemSink {
    ghost Value = { Store };

    ghost view = { λ s. record {
      held = s.bytes.items;
      room = s.room;
      piece = s.piece;
      fails = s.fails.items;
      calls = s.calls;
      faults = s.faults;
    } };

    ghost invariant = { λ s.
        (vec_len s.bytes ≤ s.room) × (s.room ≤ vec_capacity s.bytes) × (0 < s.piece) };
}

impl MemSink {
    /// An empty sink that no call has been made of. It takes the memory for `room` bytes at once.
    pub fn new(
        alloc: Global,
        room: usize,
        piece: usize,
        fails: Vec<u32>,
    ) -> Result<MemSink, AllocError>
        requires { 0 < piece }
        ensures { IfOk result (λ s. s ≡ record {
          held = [];
          room = room;
          piece = piece;
          fails = fails.items;
          calls = 0;
          faults = 0;
        }) }
    {
        let bytes = Vec::with_capacity(alloc, room)?;
        Ok(MemSink {
            bytes,
            room,
            piece,
            fails,
            calls: 0,
            faults: 0,
        })
    }

    /// The bytes taken.
    pub fn held(&self) -> &[u8]
        ensures { result.now ≡ self.now.held }
    {
        &self.bytes
    }
}

impl Sink for MemSink {
    ghost held = { λ s. Some s.held };

    ghost faults = { λ s. s.faults };

    ghost room = { λ s. Some s.room };

    fn write(&mut self, from: &[u8]) -> Result<usize, Failed>
        requires { 0 < length from.now }
        ensures some { IfOk result (λ k. 0 < k) }
        ensures bound { IfOk result (λ k. k ≤ length from.now) }
        ensures bytes { WriteAppends (Some self.old.held) (Some self.new.held) result from.now }
        ensures cause { HasCause self.old.faults self.new.faults result }
        ensures same_room { Some self.new.room ≡ Some self.old.room }

        // Which calls fail, how many bytes the others take, and what each leaves.
        ensures fails { IsErr result
            ↔ (Contains self.old.fails self.old.calls ⊎ (length self.old.held ≡ self.old.room)) }
        ensures count { IfOk result (λ k. k ≡ min (min (length from.now) self.old.piece)
            (self.old.room - length self.old.held)) }
        ensures noted { MatchResult result (λ k. self.new ≡ store_took self.old from.now k)
            (λ _. self.new ≡ store_failed self.old) }
    {
        let call = self.calls;
        self.calls = self.calls.saturating_add(1);
        let free = self.room - self.bytes.len();
        if free == 0 || is_listed(&self.fails, call) {
            self.faults = self.faults.saturating_add(1);
            return Err(Failed);
        }
        let count = from.len().min(self.piece).min(free);
        match self.bytes.extend_from_slice(&from[..count]) {
            Ok(()) => Ok(count),
            Err(_) => unreachable!(),
        }
    }
}
