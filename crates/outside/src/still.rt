// A source that never fails, and a sink that fails only where it is full.
ghost use Rattle.std.specs.Prelude.{◌≡◌, ℕ, ◌-◌, ◌<◌, ◌≤◌, ◌↔◌, min, List, [], length, drop, Some, IfOk, IsOk, IsErr, vec_len, vec_capacity};
ghost use Rattle.std.specs.Io.{ReadsAtMost};
ghost use Rattle.std.specs.Io.KnownBytes.{ReadConsumes, WriteAppends};
ghost use Rattle.outside.specs.Faults.{HasCause, Counts};

use crate::sink::Sink;
use crate::source::{Failed, Source, give};
use std::alloc::{AllocError, Global};
use std::marker::Model;

/// Gives its bytes in order and never fails.
#[derive(Drop)]
pub struct StillSource {
    bytes: Vec<u8>,
    taken: usize,
}

impl Model for StillSource {
    ghost Value = { List ℕ };

    ghost view = { λ s. drop s.taken s.bytes.items };

    ghost invariant = { λ s. s.taken ≤ vec_len s.bytes };
}

impl StillSource {
    /// A source of these bytes.
    pub fn new(bytes: Vec<u8>) -> StillSource
        ensures { result ≡ bytes.items }
    {
        StillSource { bytes, taken: 0 }
    }

    /// The bytes not yet taken.
    pub fn rest(&self) -> &[u8]
        ensures { result.now ≡ self.now }
    {
        &self.bytes[self.taken..]
    }
}

impl Source for StillSource {
    ghost left = { λ s. Some s };

    ghost faults = { λ _. 0 };

    fn read(&mut self, into: &mut [u8]) -> Result<usize, Failed>
        requires { 0 < length into.old }
        ensures bound { ReadsAtMost result into.new }
        ensures bytes { ReadConsumes (Some self.old) (Some self.new) result into.new }
        ensures cause { HasCause 0 0 result }

        // It never fails, and gives all that there is room for.
        ensures never { IsOk result }
        ensures count { IfOk result (λ n. n ≡ min (length into.old) (length self.old)) }
    {
        let count = give(&self.bytes[self.taken..], usize::MAX, into);
        self.taken += count;
        Ok(count)
    }
}

/// Holds at most `room` bytes, and fails exactly where it holds that many.
#[derive(Drop)]
pub struct StillSink {
    bytes: Vec<u8>,
    room: usize,
    faults: u64,
    pub ghost in_range: { vec_len bytes ≤ room },
    pub ghost reserved: { room ≤ vec_capacity bytes },
    pub ghost silent: { vec_len bytes < room → faults ≡ 0 },
}

impl StillSink {
    /// An empty sink. It takes the memory for `room` bytes at once.
    pub fn new(alloc: Global, room: usize) -> Result<StillSink, AllocError>
        ensures held { IfOk result (λ s. ⟦<StillSink as Sink>⟧.held s ≡ Some []) }
        ensures room { IfOk result (λ s. ⟦<StillSink as Sink>⟧.room s ≡ Some room) }
        ensures faults { IfOk result (λ s. ⟦<StillSink as Sink>⟧.faults s ≡ 0) }
    {
        let bytes = Vec::with_capacity(alloc, room)?;
        Ok(StillSink {
            bytes,
            room,
            faults: 0,
        })
    }

    /// The bytes taken.
    pub fn held(&self) -> &[u8]
        ensures { ⟦<StillSink as Sink>⟧.held self.now ≡ Some result.now }
    {
        &self.bytes
    }
}

impl Sink for StillSink {
    ghost held = { λ s. Some s.bytes.items };

    ghost faults = { λ s. s.faults };

    ghost room = { λ s. Some s.room };

    fn write(&mut self, from: &[u8]) -> Result<usize, Failed>
        requires { 0 < length from.now }
        ensures some { IfOk result (λ k. 0 < k) }
        ensures bound { IfOk result (λ k. k ≤ length from.now) }
        ensures bytes { WriteAppends (Some self.old.bytes.items) (Some self.new.bytes.items)
            result from.now }
        ensures cause { HasCause self.old.faults self.new.faults result }
        ensures same_room { Some self.new.room ≡ Some self.old.room }

        // It fails exactly where it is full, and takes all that there is room for.
        ensures fails { IsErr result ↔ (vec_len self.old.bytes ≡ self.old.room) }
        ensures count { IfOk result (λ k.
            k ≡ min (length from.now) (self.old.room - vec_len self.old.bytes)) }
        ensures counted { Counts self.old.faults self.new.faults result }
    {
        let room = self.room - self.bytes.len();
        if room == 0 {
            self.faults = self.faults.saturating_add(1);
            return Err(Failed);
        }
        let count = from.len().min(room);
        match self.bytes.extend_from_slice(&from[..count]) {
            Ok(()) => Ok(count),
            Err(_) => unreachable!(),
        }
    }
}
