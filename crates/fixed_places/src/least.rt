//! The least key among those of a fixed number of places.
ghost use Rattle.std.specs.Prelude.{◌≡◌, ℕ, ◌*◌, ◌/◌, ◌^◌, ◌<◌, ◌≤◌, length, drop, replicate, slice_set, slice_index_or, None, IfOk, IfNone, IfSome, MatchBool, true, Option};
ghost use Rattle.fixed_places.specs.Tree.{Before, IsLesser, IsNode, IsSibling, AreNodesBut, IsTree, IsLeast, HasNone};

use std::alloc::{AllocError, Global};
use std::marker::Model;
use std::mem;

/// A key or none in each place. A change and the least key take a number of steps that grows with the
/// logarithm of the number of places.
#[derive(Debug, Drop)]
pub struct Least<K: Ord + Copy> {
    places: usize,
    // A tree: the root at 1, the children of `i` at `2 i` and `2 i + 1`, the places from `places` on.
    // Each node holds the lesser key of its children.
    nodes: Vec<Option<K>>,
}

impl<K: Ord + Copy> Model for Least<K> {
    ghost use Rattle.std.specs.Prelude.{List, Option, drop};
    ghost use Rattle.fixed_places.specs.Tree.{IsTree};

    ghost Value = { List (Option K) };

    ghost view = { λ t. drop t.places t.nodes.items };

    ghost invariant = { λ t. IsTree K.cmp t.places t.nodes.items };
}

impl<K: Ord + Copy> Least<K> {
    /// Empty places. It takes all memory that it needs.
    pub fn new(alloc: Global, places: usize) -> Result<Least<K>, AllocError>
        requires some { 0 < places }
        requires few { places ≤ 2 ^ 32 }
        ensures { IfOk result (λ t. t ≡ replicate places None) }
    {
        let nodes = vec![in alloc; None; 2 * places]?;
        Ok(Least { places, nodes })
    }

    /// How many places there are.
    pub fn places(&self) -> usize
        ensures { result ≡ length self.now }
    {
        self.places
    }

    /// The key in a place.
    pub fn key(&self, at: usize) -> Option<K>
        requires { at < length self.now }
        ensures { result ≡ slice_index_or self.now at None }
    {
        self.nodes[self.places + at]
    }

    /// Puts a key into a place, or empties it.
    pub fn set(&mut self, at: usize, key: Option<K>)
        requires { at < length self.old }
        ensures { self.new ≡ slice_set self.old at key }
    {
        let leaf = self.places + at;
        let was = mem::replace(&mut self.nodes[leaf], key);
        climb(&mut self.nodes, self.places, leaf, was);
    }

    /// A place of the least key; `None` exactly where every place is empty.
    pub fn least(&self) -> Option<usize>
        ensures none { IfNone result (HasNone self.now) }
        ensures least { IfSome result (λ at. IsLeast K.cmp self.now at) }
    {
        match self.nodes[1] {
            None => None,
            Some(_) => Some(descend(&self.nodes, self.places) - self.places),
        }
    }
}

/// Whether the one key is below the other; no key is above every key.
fn is_less<K: Ord + Copy>(a: Option<K>, b: Option<K>) -> bool
    ensures order { MatchBool result (Before K.cmp a b) (Before K.cmp b a) }
    ensures strict { result ≡ true → ¬ Before K.cmp b a }
{
    match (a, b) {
        (None, _) => false,
        (Some(_), None) => true,
        (Some(x), Some(y)) => x < y,
    }
}

/// The lesser of two keys.
fn lesser<K: Ord + Copy>(a: Option<K>, b: Option<K>) -> Option<K>
    ensures { IsLesser K.cmp result a b }
{
    if is_less(b, a) { b } else { a }
}

/// The other child of a node's parent.
fn sibling(at: usize) -> usize
    requires some { 1 < at }
    requires few { at < 2 ^ 33 }
    ensures { IsSibling at result }
{
    if at % 2 == 0 { at + 1 } else { at - 1 }
}

/// Whether the lesser of two keys is the other one, both before and after the one has changed.
fn is_settled<K: Ord + Copy>(was: Option<K>, now: Option<K>, other: Option<K>) -> bool
    ensures left { result ≡ true → (r : Option K) → IsLesser K.cmp r was other → IsLesser K.cmp r now other }
    ensures right { result ≡ true → (r : Option K) → IsLesser K.cmp r other was → IsLesser K.cmp r other now }
{
    is_less(other, was) && !is_less(now, other)
}

/// Makes a node the lesser of its children, and hands out the key that it had.
fn mend<K: Ord + Copy>(nodes: &mut Vec<Option<K>>, places: usize, at: usize) -> Option<K>
    requires some { 0 < at }
    requires within { at < places }
    requires few { places ≤ 2 ^ 32 }
    requires len { length nodes.old.items ≡ 2 * places }
    requires others { AreNodesBut K.cmp nodes.old.items places at }
    ensures len { length nodes.new.items ≡ 2 * places }
    ensures leaves { drop places nodes.new.items ≡ drop places nodes.old.items }
    ensures others { AreNodesBut K.cmp nodes.new.items places (at / 2) }
    ensures parent { 1 < at → IsNode K.cmp (slice_set nodes.new.items at result) (at / 2) }
{
    let made = lesser(nodes[2 * at], nodes[2 * at + 1]);
    mem::replace(&mut nodes[at], made)
}

/// Mends the nodes above a leaf that had another key, as far as they change.
fn climb<K: Ord + Copy>(nodes: &mut Vec<Option<K>>, places: usize, leaf: usize, was: Option<K>)
    requires some { 0 < places }
    requires few { places ≤ 2 ^ 32 }
    requires len { length nodes.old.items ≡ 2 * places }
    requires leaf { places ≤ leaf }
    requires within { leaf < 2 * places }
    requires others { AreNodesBut K.cmp nodes.old.items places (leaf / 2) }
    requires parent { 1 < leaf → IsNode K.cmp (slice_set nodes.old.items leaf was) (leaf / 2) }
    ensures leaves { drop places nodes.new.items ≡ drop places nodes.old.items }
    ensures tree { IsTree K.cmp places nodes.new.items }
{
    let mut at = leaf;
    let mut was = was;
    while at > 1 && !is_settled(was, nodes[at], nodes[sibling(at)]) {
        at /= 2;
        was = mend(nodes, places, at);
    }
}

/// The leaf that holds the root's key.
fn descend<K: Ord + Copy>(nodes: &[Option<K>], places: usize) -> usize
    requires { IsTree K.cmp places nodes.now }
    ensures leaf { places ≤ result }
    ensures within { result < 2 * places }
    ensures key { Before K.cmp (slice_index_or nodes.now result None) (slice_index_or nodes.now 1 None) }
{
    let mut at = 1;
    while at < places {
        at = if is_less(nodes[2 * at + 1], nodes[2 * at]) {
            2 * at + 1
        } else {
            2 * at
        };
    }
    at
}
