//! Places in chains, of which each goes through its places, rising.
ghost use Rattle.std.specs.Prelude.{◌≡◌, ℕ, ◌+◌, ◌^◌, ◌<◌, ◌≤◌, Bool, length, replicate, slice_set, slice_index_or, Some, None, IfOk, IfSome, IsSome};
ghost use Rattle.fixed_places.specs.Chains.{is_in, IsFirst, IsLast, IsChain, Rises, next_of, heads_linked, nexts_linked};

use std::alloc::{AllocError, Global};
use std::marker::Model;

/// A fixed number of chains, numbered from 0, and in each place one of them or none. The first place of a
/// chain and the next one behind a place are found at once; a place is put and taken in a number of steps
/// that grows with the places of its chain below it: chains are meant to be short.
#[derive(Debug, Drop)]
pub struct Chains {
    // The first place of each chain, and behind each place the next one of its chain.
    heads: Vec<Option<u32>>,
    nexts: Vec<Option<u32>>,
    chains: Vec<Option<u32>>,
}

impl Model for Chains {
    ghost use Rattle.std.specs.Prelude.{length};
    ghost use Rattle.fixed_places.specs.Chains.{Chained, AreChains};

    ghost Value = { Chained };

    ghost view = { λ c. record { count = length c.heads.items; places = c.chains.items } };

    ghost invariant = { λ c. AreChains c.heads.items c.nexts.items c.chains.items };
}

impl Chains {
    /// That many chains, and empty places. It takes all memory that it needs.
    pub fn new(alloc: Global, chains: usize, places: usize) -> Result<Chains, AllocError>
        requires few_chains { chains ≤ 2 ^ 32 }
        requires few { places ≤ 2 ^ 32 }
        ensures { IfOk result (λ c. c ≡ record { count = chains; places = replicate places None }) }
    {
        Ok(Chains {
            heads: vec![in alloc; None; chains]?,
            nexts: vec![in alloc; None; places]?,
            chains: vec![in alloc; None; places]?,
        })
    }

    /// How many chains there are.
    pub fn count(&self) -> usize
        ensures { result ≡ self.now.count }
    {
        self.heads.len()
    }

    /// How many places there are.
    pub fn places(&self) -> usize
        ensures { result ≡ length self.now.places }
    {
        self.chains.len()
    }

    /// The chain in a place.
    pub fn chain(&self, at: usize) -> Option<usize>
        requires { at < length self.now.places }
        ensures { result ≡ slice_index_or self.now.places at None }
    {
        as_index(self.chains[at])
    }

    /// The first place of a chain; `None` exactly where it has none.
    pub fn first(&self, chain: usize) -> Option<usize>
        requires { chain < self.now.count }
        ensures within { IfSome result (λ at. at < length self.now.places) }
        ensures first { IsFirst (is_in chain self.now.places) 0 result }
    {
        as_index(self.heads[chain])
    }

    /// The place behind a place in its chain; `None` exactly where it is the last.
    pub fn next(&self, at: usize) -> Option<usize>
        requires { IsSome (slice_index_or self.now.places at None) }
        ensures within { IfSome result (λ next. next < length self.now.places) }
        ensures next { (chain : ℕ) → slice_index_or self.now.places at None ≡ Some chain
            → IsFirst (is_in chain self.now.places) (at + 1) result }
    {
        as_index(self.nexts[at])
    }

    /// Puts a chain into an empty place.
    pub fn put(&mut self, at: usize, chain: usize)
        requires place { at < length self.old.places }
        requires empty { slice_index_or self.old.places at None ≡ None }
        requires chain { chain < self.old.count }
        ensures { self.new ≡ record self.old { places = slice_set self.old.places at (Some chain) } }
    {
        let last = last_below(self.heads[chain], &self.nexts, at);
        self.nexts[at] = next_of(&self.heads, &self.nexts, chain, last);
        link(
            &mut self.heads,
            &mut self.nexts,
            chain,
            last,
            Some(at as u32),
        );
        self.chains[at] = Some(chain as u32);
    }

    /// Empties a place that is in a chain.
    pub fn take(&mut self, at: usize)
        requires { IsSome (slice_index_or self.old.places at None) }
        ensures { self.new ≡ record self.old { places = slice_set self.old.places at None } }
    {
        let chain = self.chains[at].unwrap() as usize;
        let last = last_below(self.heads[chain], &self.nexts, at);
        let next = self.nexts[at];
        link(&mut self.heads, &mut self.nexts, chain, last, next);
        self.chains[at] = None;
    }
}

/// The last place of a chain below a place.
fn last_below(first: Option<u32>, nexts: &[Option<u32>], below: usize) -> Option<usize>
    requires start { IfSome first (λ place. place < length nexts.now) }
    requires rises { Rises nexts.now }
    ensures within { IfSome result (λ place. place < length nexts.now) }
    ensures last { (test : ℕ → Bool) → IsChain test first nexts.now → IsLast test below result }
{
    let mut last = None;
    let mut next = first;
    while let Some(place) = next {
        let at = place as usize;
        if at >= below {
            break;
        }
        last = Some(at);
        next = nexts[at];
    }
    last
}

/// What a chain has behind a place of its own; behind none, its first place.
fn next_of(
    heads: &[Option<u32>],
    nexts: &[Option<u32>],
    chain: usize,
    last: Option<usize>,
) -> Option<u32>
    requires chain { chain < length heads.now }
    requires last { IfSome last (λ at. at < length nexts.now) }
    ensures { result ≡ next_of last (slice_index_or heads.now chain None) nexts.now }
{
    match last {
        None => heads[chain],
        Some(at) => nexts[at],
    }
}

/// Lets a chain go on elsewhere behind a place of its own; behind none, it begins there.
fn link(
    heads: &mut Vec<Option<u32>>,
    nexts: &mut Vec<Option<u32>>,
    chain: usize,
    last: Option<usize>,
    to: Option<u32>,
)
    requires chain { chain < length heads.old.items }
    requires last { IfSome last (λ at. at < length nexts.old.items) }
    ensures heads { heads.new.items ≡ heads_linked last heads.old.items chain to }
    ensures nexts { nexts.new.items ≡ nexts_linked last nexts.old.items to }
{
    match last {
        None => heads[chain] = to,
        Some(at) => nexts[at] = to,
    }
}

/// A place as an index.
fn as_index(place: Option<u32>) -> Option<usize>
    ensures { result ≡ place }
{
    match place {
        None => None,
        Some(at) => Some(at as usize),
    }
}
