//! Places in groups, by the key that a group shares.
ghost use Rattle.std.specs.Prelude.{◌≡◌, ◌^◌, ◌<◌, ◌≤◌, ◌-◌, ◌++◌, length, replicate, slice_set, slice_index_or, Some, None, IfOk, IfNone, IfSome};
ghost use Rattle.fixed_places.specs.Keys.{IsAbsent};
ghost use Rattle.fixed_places.specs.Groups.{HasKey, IsLifted};

use crate::key::Key;
use crate::table::Table;
use std::alloc::{AllocError, Global};
use std::marker::Model;

/// A key or none in each place, and any number of places for a key. A place is put under a key, and a
/// place of a key is found and taken, in a number of steps that is constant on average, however many
/// places the key has.
#[derive(Debug, Drop)]
pub struct Groups<K: Key> {
    // The places of a key lie on each other: the table has the highest, and each leads to the one below.
    tops: Table<K>,
    below: Vec<Option<u32>>,
    keys: Vec<Option<K>>,
}

impl<K: Key> Model for Groups<K> {
    ghost use Rattle.std.specs.Prelude.{List, Option};
    ghost use Rattle.fixed_places.specs.Groups.{ArePiles};

    ghost Value = { List (Option K) };

    ghost view = { λ g. g.keys.items };

    ghost invariant = { λ g. ArePiles g.keys.items g.tops g.below.items };
}

/// Takes a key out of its place, which is handed out, if it has one.
fn lift<K: Key>(tops: &mut Table<K>, key: &K) -> Option<usize>
    ensures { IsLifted tops.old tops.new key.now result }
{
    let at = tops.find(key)?;
    tops.take(at);
    Some(at)
}

/// What places hold, with empty ones behind them.
fn widened<X: Copy>(
    held: &[Option<X>],
    alloc: Global,
    places: usize,
) -> Result<Vec<Option<X>>, AllocError>
    requires { length held.now ≤ places }
    ensures { IfOk result (λ wider. wider.items ≡ held.now ++ replicate (places - length held.now) None) }
{
    let mut wider = Vec::with_capacity(alloc, places)?;
    wider.extend_from_slice(held)?;
    wider.resize(places, None)?;
    Ok(wider)
}

impl<K: Key> Groups<K> {
    /// Empty places. It takes all memory that it needs.
    pub fn new(alloc: Global, places: usize) -> Result<Groups<K>, AllocError>
        requires some { 0 < places }
        requires few { places ≤ 2 ^ 32 }
        ensures { IfOk result (λ g. g ≡ replicate places None) }
    {
        Ok(Groups {
            tops: Table::new(alloc, places)?,
            below: vec![in alloc; None; places]?,
            keys: vec![in alloc; None; places]?,
        })
    }

    /// How many places there are.
    pub fn places(&self) -> usize
        ensures { result ≡ length self.now }
    {
        self.keys.len()
    }

    /// The key in a place.
    pub fn key(&self, at: usize) -> Option<K>
        requires { at < length self.now }
        ensures { result ≡ slice_index_or self.now at None }
    {
        self.keys[at]
    }

    /// Puts a key into an empty place.
    pub fn put(&mut self, at: usize, key: K)
        requires place { at < length self.old }
        requires empty { slice_index_or self.old at None ≡ None }
        ensures { self.new ≡ slice_set self.old at (Some key) }
    {
        let top = lift(&mut self.tops, &key);
        self.tops.put(at, key);
        self.below[at] = top.map(|place| place as u32);
        self.keys[at] = Some(key);
    }

    /// Empties a place that has the key: the one that was put last. `None` exactly where no place has it.
    pub fn take(&mut self, key: &K) -> Option<usize>
        ensures none { IfNone result (IsAbsent self.old key.now) }
        ensures same { IfNone result (self.new ≡ self.old) }
        ensures place { IfSome result (HasKey self.old key.now) }
        ensures rest { IfSome result (λ at. self.new ≡ slice_set self.old at None) }
    {
        let at = lift(&mut self.tops, key)?;
        self.keys[at] = None;
        if let Some(next) = self.below[at] {
            self.tops.put(next as usize, *key);
        }
        Some(at)
    }

    /// Groups over more places, with the same keys in the same places, for what has to grow.
    pub fn wider(&self, alloc: Global, places: usize) -> Result<Groups<K>, AllocError>
        requires more { length self.now ≤ places }
        requires few { places ≤ 2 ^ 32 }
        ensures { IfOk result (λ g. g ≡ self.now ++ replicate (places - length self.now) None) }
    {
        Ok(Groups {
            tops: self.tops.wider(alloc, places)?,
            below: widened(&self.below, alloc, places)?,
            keys: widened(&self.keys, alloc, places)?,
        })
    }
}
