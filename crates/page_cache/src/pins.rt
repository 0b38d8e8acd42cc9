//! Which process pins which place.
ghost use Rattle.std.specs.Prelude.{◌≡◌, ◌≢◌, ℕ, ◌<◌, ◌≤◌, ◌^◌, ◌%◌, length, replicate, slice_set, slice_index_or, Some, None, IfOk, IfNone, IfSome, option_map};
ghost use Rattle.page_cache.specs.Pins.{chain_of};

use fixed_places::Chains;
use split_types::Pid;
use std::alloc::{AllocError, Global};
use std::marker::Model;

/// How many chains there are: more than there are processes.
const CHAINS: u32 = 257;

/// A process or none at each place. A place of a process is found in a few steps, as a process has few
/// places at a time.
#[derive(Debug, Drop)]
pub(crate) struct Pins {
    // The places of each process are in one chain.
    chains: Chains,
    pins: Vec<Option<Pid>>,
}

impl Model for Pins {
    ghost use Rattle.std.specs.Prelude.{List, Option};
    ghost use Rattle.split_types.specs.declared.ids.Pid.{Pid};
    ghost use Rattle.page_cache.specs.Pins.{ArePinned};

    ghost Value = { List (Option Pid) };

    ghost view = { λ p. p.pins.items };

    ghost invariant = { λ p. ArePinned p.chains p.pins.items };
}

/// The chain of a process.
fn chain_of(by: Pid) -> usize
    ensures chain { result ≡ chain_of by }
    ensures within { result < 257 }
{
    (by.0 % CHAINS) as usize
}

/// Takes a place out of its chain, if it is in one.
fn unlink(chains: &mut Chains, at: usize)
    requires { at < length chains.old.places }
    ensures { chains.new ≡ record chains.old { places = slice_set chains.old.places at None } }
{
    if chains.chain(at).is_some() {
        chains.take(at);
    }
}

/// Puts a place that is in no chain into that of its process, if it has one.
fn link(chains: &mut Chains, at: usize, pin: Option<Pid>)
    requires place { at < length chains.old.places }
    requires empty { slice_index_or chains.old.places at None ≡ None }
    requires count { chains.old.count ≡ 257 }
    ensures { chains.new ≡ record chains.old { places = slice_set chains.old.places at (option_map chain_of pin) } }
{
    if let Some(by) = pin {
        chains.put(at, chain_of(by));
    }
}

impl Pins {
    /// Places without a process. It takes all memory that it needs.
    pub(crate) fn new(alloc: Global, places: usize) -> Result<Pins, AllocError>
        requires { places ≤ 2 ^ 32 }
        ensures { IfOk result (λ p. p ≡ replicate places None) }
    {
        Ok(Pins {
            chains: Chains::new(alloc, CHAINS as usize, places)?,
            pins: vec![in alloc; None; places]?,
        })
    }

    /// Gives a place to a process, or to none.
    pub(crate) fn set(&mut self, at: usize, pin: Option<Pid>)
        requires { at < length self.old }
        ensures { self.new ≡ slice_set self.old at pin }
    {
        unlink(&mut self.chains, at);
        link(&mut self.chains, at, pin);
        self.pins[at] = pin;
    }

    /// A place of a process; `None` exactly where it has none.
    pub(crate) fn find(&self, by: Pid) -> Option<usize>
        ensures none { IfNone result ((i : ℕ) → slice_index_or self.now i None ≢ Some by) }
        ensures found { IfSome result (λ at. slice_index_or self.now at None ≡ Some by) }
    {
        let mut next = self.chains.first(chain_of(by));
        while let Some(at) = next {
            if self.pins[at] == Some(by) {
                return Some(at);
            }
            next = self.chains.next(at);
        }
        None
    }
}
