//! Which place was touched longest ago.
ghost use Rattle.std.specs.Prelude.{◌≡◌, ◌^◌, ◌<◌, ◌≤◌, ◌-◌, Bool, true, false, length, replicate, slice_set, slice_index_or, Some, None, IfOk, IfNone, IfSome, is_some, count_by, nat_lt, map};
ghost use Rattle.fixed_places.specs.Recency.{IsTouched, IsOldest, NoCandidate, IsRecency, KeepsOrder, AreRekeyed, rekeyed};

use crate::least::Least;
use std::alloc::{AllocError, Global};
use std::marker::Model;
use std::mem;

/// When each place was last touched, as far as order goes, and which places are candidates. A touch, a
/// change of candidates and the candidate touched longest ago take a number of steps that grows with the
/// logarithm of the number of places.
#[derive(Debug, Drop)]
pub struct Recency {
    // A number for each place, of which the later touched has the greater, and one above all of them.
    touches: Vec<u64>,
    next: u64,
    // The numbers of the candidates.
    candidates: Least<u64>,
    // Room for other numbers in the same order.
    others: Vec<u64>,
}

impl Model for Recency {
    ghost use Rattle.std.specs.Prelude.{map, is_some};
    ghost use Rattle.fixed_places.specs.Recency.{Touched, IsRecency};

    ghost Value = { Touched };

    ghost view = { λ r. record { touches = r.touches.items; candidates = map is_some r.candidates } };

    ghost invariant = { λ r. IsRecency r.touches.items r.next r.candidates r.others.items };
}

impl Recency {
    /// Places of which none is a candidate. It takes all memory that it needs.
    pub fn new(alloc: Global, places: usize) -> Result<Recency, AllocError>
        requires some { 0 < places }
        requires few { places ≤ 2 ^ 32 }
        ensures touches { IfOk result (λ r. length r.touches ≡ places) }
        ensures candidates { IfOk result (λ r. r.candidates ≡ replicate places false) }
    {
        Ok(Recency {
            touches: vec![in alloc; 0; places]?,
            next: 1,
            candidates: Least::new(alloc, places)?,
            others: vec![in alloc; 0; places]?,
        })
    }

    /// How many places there are.
    pub fn places(&self) -> usize
        ensures touches { result ≡ length self.now.touches }
        ensures candidates { result ≡ length self.now.candidates }
    {
        self.touches.len()
    }

    /// Whether a place is a candidate.
    pub fn is_candidate(&self, at: usize) -> bool
        requires { at < length self.now.touches }
        ensures { result ≡ slice_index_or self.now.candidates at false }
    {
        self.candidates.key(at).is_some()
    }

    /// Makes a place a candidate, or lets it be none.
    pub fn set(&mut self, at: usize, is_candidate: bool)
        requires { at < length self.old.touches }
        ensures { self.new ≡ record self.old { candidates = slice_set self.old.candidates at is_candidate } }
    {
        let touch = self.touches[at];
        self.candidates
            .set(at, if is_candidate { Some(touch) } else { None });
    }

    /// Touches a place.
    pub fn touch(&mut self, at: usize)
        requires { at < length self.old.touches }
        ensures touches { IsTouched self.old.touches self.new.touches at }
        ensures candidates { self.new.candidates ≡ self.old.candidates }
    {
        let touch = number(
            &mut self.touches,
            &mut self.others,
            &mut self.candidates,
            self.next,
        );
        self.touches[at] = touch;
        rekey(&mut self.candidates, at, touch);
        self.next = touch + 1;
    }

    /// The candidate touched longest ago; `None` exactly where no place is a candidate.
    pub fn oldest(&self) -> Option<usize>
        ensures none { IfNone result (NoCandidate self.now) }
        ensures oldest { IfSome result (IsOldest self.now) }
    {
        self.candidates.least()
    }
}

/// A number above those of all touches, with another one above it. Where there is none the touches are
/// numbered from 0 on, in the same order.
fn number(
    touches: &mut Vec<u64>,
    others: &mut Vec<u64>,
    candidates: &mut Least<u64>,
    next: u64,
) -> u64
    requires { IsRecency touches.old.items next candidates.old others.old.items }
    ensures number { IsRecency touches.new.items result candidates.new others.new.items }
    ensures above { result < 2 ^ 64 - 1 }
    ensures order { KeepsOrder touches.old.items touches.new.items }
    ensures candidates { map is_some candidates.new ≡ map is_some candidates.old }
{
    if next < u64::MAX {
        return next;
    }
    put_ranks(touches, others);
    mem::swap(touches, others);
    rekey_all(candidates, touches);
    touches.len() as u64
}

/// How many touches came before one.
fn rank(touches: &[u64], touch: u64) -> u64
    ensures { result ≡ count_by (λ other. nat_lt other touch) touches.now }
{
    touches.iter().filter(|other| **other < touch).count() as u64
}

/// Puts the rank of each touch in its place.
fn put_ranks(touches: &[u64], ranks: &mut Vec<u64>)
    requires { length ranks.old.items ≡ length touches.now }
    ensures { ranks.new.items ≡ map (λ touch. count_by (λ other. nat_lt other touch) touches.now) touches.now }
{
    for (i, touch) in touches.iter().enumerate() {
        ranks[i] = rank(touches, *touch);
    }
}

/// Keeps the candidates under other numbers.
fn rekey_all(candidates: &mut Least<u64>, touches: &[u64])
    requires { length candidates.old ≡ length touches.now }
    ensures len { length candidates.new ≡ length candidates.old }
    ensures rekeyed { AreRekeyed candidates.old candidates.new touches.now }
{
    for (i, touch) in touches.iter().enumerate() {
        rekey(candidates, i, *touch);
    }
}

/// Keeps a place, if it is a candidate, under another number.
fn rekey(candidates: &mut Least<u64>, at: usize, touch: u64)
    requires { at < length candidates.old }
    ensures { candidates.new ≡ slice_set candidates.old at (rekeyed touch (slice_index_or candidates.old at None)) }
{
    if candidates.key(at).is_some() {
        candidates.set(at, Some(touch));
    }
}
