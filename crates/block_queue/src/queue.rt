//! The queue.
ghost use Rattle.std.specs.Prelude.{◌≡◌, ◌+◌, ◌<◌, ◌≤◌, [], ◌∷◌, ◌++◌, length, map, filter, not, Some, slice_get, vec_len, vec_capacity, All, Any, IfOk, IsOk, OnOk, OnErr};
ghost use Rattle.std.specs.List.{remove};
ghost use Rattle.split_types.specs.Requests.{is_numbered};
ghost use Rattle.block_queue.specs.Backlog.{Backlog, IsById, is_read};

use crate::waiting::Waiting;
use split_types::{ReqId, ReqKind, Request};
use std::alloc::{AllocError, Global};
use std::marker::Model;

/// The requests that wait and those in flight.
#[derive(Debug, Drop)]
pub struct Queue {
    queued: Waiting,
    // Those that wait and are reads, once more.
    reads: Waiting,
    in_flight: Vec<(Request, u64)>,
    next_id: u32,
    // For how many more requests all three have room.
    spare: u32,
}

impl Model for Queue {
    ghost use Rattle.block_queue.specs.Backlog.{Backlog};

    ghost Value = { Backlog };

    ghost use Rattle.block_queue.specs.Fields.{backlog_of, IsKept};

    ghost view = { backlog_of };

    ghost invariant = { IsKept };
}

/// Whether the request reads a page for a process.
fn is_read(r: &Request) -> bool
    ensures { result ≡ is_read r.now }
{
    matches!(r.kind, ReqKind::Read(_, _, _))
}

impl Queue {
    /// The empty queue: no request waits, and none is in flight.
    pub fn new(alloc: Global) -> Result<Queue, AllocError>
        ensures queued { IfOk result (λ q. q.queued ≡ []) }
        ensures in_flight { IfOk result (λ q. q.in_flight ≡ []) }
        ensures next_id { IfOk result (λ q. q.next_id ≡ 0) }
    {
        Ok(Queue {
            queued: Waiting::new(alloc),
            reads: Waiting::new(alloc),
            in_flight: Vec::new(alloc),
            next_id: 0,
            spare: 0,
        })
    }

    /// Makes room for `n` more requests.
    pub fn room(&mut self, n: u32) -> Result<(), AllocError>
        ensures ok { OnOk result (n ≤ self.new.spare) }
        ensures spare { self.old.spare ≤ self.new.spare }
        ensures rest { self.new ≡ record self.old { spare = self.new.spare } }
        ensures err { OnErr result (self.new ≡ self.old) }
        ensures succeeds { n ≤ self.old.spare → IsOk result }
    {
        if n <= self.spare {
            return Ok(());
        }
        self.queued.room(n)?;
        self.reads.room(n)?;
        let places = self.queued.as_slice().len().saturating_add(n as usize);
        self.in_flight.reserve(places)?;
        self.spare = n;
        Ok(())
    }

    /// Adds a request at the end. It succeeds where there is room.
    pub fn add(&mut self, r: Request) -> Result<(), AllocError>
        requires above { self.old.next_id ≤ r.id.0 }
        requires few { r.id.0 < 4294967295 }
        ensures queued { OnOk result (self.new.queued ≡ self.old.queued ++ r ∷ []) }
        ensures in_flight { OnOk result (self.new.in_flight ≡ self.old.in_flight) }
        ensures next_id { OnOk result (self.new.next_id ≡ r.id.0 + 1) }
        ensures spare { OnOk result (self.old.spare ≤ self.new.spare + 1) }
        ensures err { OnErr result (self.new ≡ self.old) }
        ensures succeeds { 0 < self.old.spare → IsOk result }
    {
        self.room(1)?;
        if is_read(&r) {
            self.reads.push(r);
        }
        self.queued.push(r);
        self.next_id = r.id.0 + 1;
        self.spare -= 1;
        Ok(())
    }

    /// Sends the request of this id, which waits, at this cost: it is then the last one in flight.
    pub fn send(&mut self, id: ReqId, cost: u64)
        requires { Any (λ r. r.id ≡ id) self.old.queued }
        ensures queued { self.new.queued ≡ filter (λ r. not (is_numbered id r)) self.old.queued }
        ensures in_flight { self.new.in_flight ≡ self.old.in_flight
            ++ map (λ r. (r, cost)) (filter (is_numbered id) self.old.queued) }
        ensures next_id { self.new.next_id ≡ self.old.next_id }
        ensures spare { self.old.spare ≤ self.new.spare }
    {
        let r = self.queued.take(id);
        if is_read(&r) {
            let _ = self.reads.take(id);
        }
        self.in_flight.push_reserved((r, cost));
    }

    /// Takes out the request at this place among those in flight, with its cost.
    pub fn done(&mut self, k: u32) -> (Request, u64)
        requires { k < length self.old.in_flight }
        ensures request { slice_get self.old.in_flight k ≡ Some result }
        ensures in_flight { self.new.in_flight ≡ remove self.old.in_flight k }
        ensures queued { self.new.queued ≡ self.old.queued }
        ensures next_id { self.new.next_id ≡ self.old.next_id }
        ensures spare { self.old.spare ≤ self.new.spare }
    {
        self.in_flight.remove(k as usize)
    }

    /// The request at this place among those in flight, with its cost.
    pub fn peek_done(&self, k: u32) -> (Request, u64)
        requires { k < length self.now.in_flight }
        ensures { slice_get self.now.in_flight k ≡ Some result }
    {
        self.in_flight[k as usize]
    }

    /// The requests that wait, the oldest first.
    pub fn queued(&self) -> &[Request]
        ensures requests { result.now ≡ self.now.queued }
        ensures by_id { IsById self.now.queued }
    {
        self.queued.as_slice()
    }

    /// The reads among the requests that wait, the oldest first.
    pub fn reads(&self) -> &[Request]
        ensures { result.now ≡ filter is_read self.now.queued }
    {
        self.reads.as_slice()
    }

    /// How many requests are in flight.
    pub fn in_flight(&self) -> u32
        ensures { result ≡ length self.now.in_flight }
    {
        self.in_flight.len() as u32
    }
}
