//! Requests that wait, in one slice.
ghost use Rattle.std.specs.Prelude.{◌≡◌, ◌+◌, ◌-◌, ◌<◌, ◌≤◌, [], ◌∷◌, ◌++◌, length, drop, Some, slice_get, vec_len, vec_capacity, filter, not, All, Any, IsSomeAnd, OnOk};
ghost use Rattle.std.specs.List.{remove};
ghost use Rattle.split_types.specs.Requests.{is_numbered};
ghost use Rattle.block_queue.specs.Backlog.{IsById};

use split_types::{ReqId, Request};
use std::alloc::{AllocError, Global};
use std::marker::Model;

/// Requests by rising id, the oldest first, in one slice. They stand behind the places of those that
/// left at the front; these places are taken again once the vector is full. There are twice as many
/// places as requests have room, so that each request is moved at most once on average.
#[derive(Debug, Drop)]
pub(crate) struct Waiting {
    items: Vec<Request>,
    // How many places stand before the oldest request.
    start: usize,
}

impl Model for Waiting {
    ghost use Rattle.std.specs.Prelude.{drop, vec_len, vec_capacity, ◌-◌, ◌/◌, ◌≤◌};
    ghost use Rattle.block_queue.specs.Stock.{Stock};
    ghost use Rattle.block_queue.specs.Backlog.{IsById};

    ghost Value = { Stock };

    ghost view = { λ w. record {
      requests = drop w.start w.items.items;
      spare = vec_capacity w.items / 2 - (vec_len w.items - w.start);
    } };

    ghost invariant = { λ w. (w.start ≤ vec_len w.items) × IsById (drop w.start w.items.items) };
}

/// Takes the first `n` requests away.
fn drop_front(items: &mut Vec<Request>, n: usize)
    requires { n ≤ vec_len items.old }
    ensures items { items.new.items ≡ drop n items.old.items }
    ensures capacity { vec_capacity items.new ≡ vec_capacity items.old }
{
    let left = items.len() - n;
    items.copy_within(n.., 0);
    items.truncate(left);
}

/// Moves the requests from `start` to before `place` up by one, over the request at `place`.
fn move_up(items: &mut Vec<Request>, start: usize, place: usize)
    requires order { start ≤ place }
    requires within { place < vec_len items.old }
    ensures left { drop (start + 1) items.new.items ≡ remove (drop start items.old.items) (place - start) }
    ensures len { vec_len items.new ≡ vec_len items.old }
    ensures capacity { vec_capacity items.new ≡ vec_capacity items.old }
{
    items.copy_within(start..place, start + 1);
}

impl Waiting {
    /// No request.
    pub(crate) fn new(alloc: Global) -> Waiting
        ensures { result.requests ≡ [] }
    {
        Waiting {
            items: Vec::new(alloc),
            start: 0,
        }
    }

    /// Makes room for `n` more requests.
    pub(crate) fn room(&mut self, n: u32) -> Result<(), AllocError>
        ensures requests { self.new.requests ≡ self.old.requests }
        ensures ok { OnOk result (n ≤ self.new.spare) }
        ensures spare { self.old.spare ≤ self.new.spare }
        ensures had_room { n ≤ self.old.spare → self.new ≡ self.old }
    {
        let more = n as usize;
        let queued = self.items.len() - self.start;
        if more <= (self.items.capacity() / 2).saturating_sub(queued) {
            return Ok(());
        }
        self.items.reserve(queued.saturating_add(2 * more))
    }

    /// Adds a request at the end.
    pub(crate) fn push(&mut self, r: Request)
        requires room { 0 < self.old.spare }
        requires above { All (λ q. q.id.0 < r.id.0) self.old.requests }
        ensures requests { self.new.requests ≡ self.old.requests ++ r ∷ [] }
        ensures spare { self.new.spare + 1 ≡ self.old.spare }
    {
        if self.items.len() == self.items.capacity() {
            drop_front(&mut self.items, self.start);
            self.start = 0;
        }
        self.items.push_reserved(r);
    }

    /// The place of the request of this id.
    fn place_of(&self, id: ReqId) -> usize
        requires { Any (λ r. r.id ≡ id) self.now.requests }
        ensures found { IsSomeAnd (slice_get self.now.requests result) (λ r. r.id ≡ id) }
        ensures by_id { IsById self.now.requests }
    {
        let waiting = self.as_slice();
        if waiting[0].id == id {
            return 0;
        }
        waiting.binary_search_by_key(&id.0, |r| r.id.0).unwrap()
    }

    /// Takes the request at this place out; those on its shorter side move.
    fn remove(&mut self, at: usize) -> Request
        requires { at < length self.old.requests }
        ensures request { slice_get self.old.requests at ≡ Some result }
        ensures requests { self.new.requests ≡ remove self.old.requests at }
        ensures spare { self.old.spare ≤ self.new.spare }
    {
        let place = self.start + at;
        if at >= (self.items.len() - self.start) / 2 {
            return self.items.remove(place);
        }
        let r = self.items[place];
        move_up(&mut self.items, self.start, place);
        self.start += 1;
        r
    }

    /// Takes the request of this id out.
    pub(crate) fn take(&mut self, id: ReqId) -> Request
        requires { Any (λ r. r.id ≡ id) self.old.requests }
        ensures request { filter (is_numbered id) self.old.requests ≡ result ∷ [] }
        ensures requests { self.new.requests ≡ filter (λ r. not (is_numbered id r)) self.old.requests }
        ensures spare { self.old.spare ≤ self.new.spare }
    {
        let at = self.place_of(id);
        self.remove(at)
    }

    /// All requests, the oldest first.
    pub(crate) fn as_slice(&self) -> &[Request]
        ensures requests { result.now ≡ self.now.requests }
        ensures by_id { IsById self.now.requests }
    {
        &self.items[self.start..]
    }
}
