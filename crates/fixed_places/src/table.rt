//! A place by its key.
ghost use Rattle.std.specs.Prelude.{◌≡◌, ℕ, ◌^◌, ◌<◌, ◌≤◌, length, replicate, slice_set, slice_index_or, Some, None, IfOk, IfNone, IfSome, IsSome, IsTrue, ◌↔◌, ◌++◌, ◌-◌};
ghost use Rattle.fixed_places.specs.Keys.{IsPlaceOf, IsAbsent};
ghost use Rattle.fixed_places.specs.Spread.{chain_of};

use crate::chains::Chains;
use crate::key::Key;
use std::alloc::{AllocError, Global};
use std::marker::Model;

/// 2^64 divided by the golden ratio: a product with it spreads numbers that lie close together.
const SPREAD: u64 = 11_400_714_819_323_198_485;

/// A key or none in each place, no key twice, and the place of each key: found, put and taken in a
/// number of steps that is constant on average, where the codes of the keys differ.
#[derive(Debug, Drop)]
pub struct Table<K: Key> {
    // The places of the keys whose codes lead to one chain are in that chain.
    chains: Chains,
    keys: Vec<Option<K>>,
}

impl<K: Key> Model for Table<K> {
    ghost use Rattle.std.specs.Prelude.{List, Option};
    ghost use Rattle.fixed_places.specs.Spread.{IsTable};

    ghost Value = { List (Option K) };

    ghost view = { λ t. t.keys.items };

    ghost invariant = { λ t. IsTable K.code_of t.chains t.keys.items };
}

impl<K: Key> Table<K> {
    /// Empty places. It takes all memory that it needs.
    pub fn new(alloc: Global, places: usize) -> Result<Table<K>, AllocError>
        requires some { 0 < places }
        requires few { places ≤ 2 ^ 32 }
        ensures { IfOk result (λ t. t ≡ replicate places None) }
    {
        Ok(Table {
            chains: Chains::new(alloc, places, places)?,
            keys: vec![in alloc; None; places]?,
        })
    }

    /// How many places there are.
    pub fn places(&self) -> usize
        ensures { result ≡ length self.now }
    {
        self.keys.len()
    }

    /// The key in a place.
    pub fn key(&self, at: usize) -> Option<K>
        requires { at < length self.now }
        ensures { result ≡ slice_index_or self.now at None }
    {
        self.keys[at]
    }

    /// The place of a key; `None` exactly where no place has it.
    pub fn find(&self, key: &K) -> Option<usize>
        ensures none { IfNone result (IsAbsent self.now key.now) }
        ensures place { IfSome result (IsPlaceOf self.now key.now) }
    {
        let mut next = self.chains.first(chain_of(key.code(), self.keys.len()));
        while let Some(at) = next {
            if holds(self.keys[at], key) {
                return Some(at);
            }
            next = self.chains.next(at);
        }
        None
    }

    /// Puts a key into an empty place. No place may have it.
    pub fn put(&mut self, at: usize, key: K)
        requires place { at < length self.old }
        requires empty { slice_index_or self.old at None ≡ None }
        requires absent { IsAbsent self.old key }
        ensures { self.new ≡ slice_set self.old at (Some key) }
    {
        self.chains.put(at, chain_of(key.code(), self.keys.len()));
        self.keys[at] = Some(key);
    }

    /// Empties a place that has a key, which is handed out.
    pub fn take(&mut self, at: usize) -> K
        requires { IsSome (slice_index_or self.old at None) }
        ensures key { slice_index_or self.old at None ≡ Some result }
        ensures rest { self.new ≡ slice_set self.old at None }
    {
        let key = self.keys[at].unwrap();
        self.chains.take(at);
        self.keys[at] = None;
        key
    }

    /// A table of more places, with the same keys in the same places, for what has to grow.
    pub fn wider(&self, alloc: Global, places: usize) -> Result<Table<K>, AllocError>
        requires more { length self.now ≤ places }
        requires few { places ≤ 2 ^ 32 }
        ensures { IfOk result (λ t. t ≡ self.now ++ replicate (places - length self.now) None) }
    {
        let keys = self.keys.as_slice();
        let mut wider = Table::new(alloc, places)?;
        for (at, held) in keys.iter().enumerate() {
            if let Some(key) = *held {
                wider.put(at, key);
            }
        }
        Ok(wider)
    }
}

/// The chain, of that many, to which a code belongs.
fn chain_of(code: u64, chains: usize) -> usize
    requires some { 0 < chains }
    requires few { chains ≤ 2 ^ 32 }
    ensures chain { result ≡ chain_of chains code }
    ensures within { result < chains }
{
    let spread = code.wrapping_mul(SPREAD) >> 32;
    ((spread * chains as u64) >> 32) as usize
}

/// Whether a place holds the key.
fn holds<K: Key>(place: Option<K>, key: &K) -> bool
    ensures { IsTrue result ↔ (place ≡ Some key.now) }
{
    match place {
        None => false,
        Some(held) => held.is_same(key),
    }
}
