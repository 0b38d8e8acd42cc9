//! What a request costs on the disk's one arm, and what a put is expected to cost, in the clock's units.
//!
//! A request of n blocks costs the move of the head to its first block, by a table of distances,
//! and 2 for each block. The contract of `cost` says that it is the cost of the definitions.
//!
//! A [`Recent`] remembers the pages of the last four puts in a file. A page that comes right after one of
//! them is expected to be written out behind it, without a move of the head, so that its estimate is 2;
//! else it is 52. Contracts see a [`Recent`] as the list of these pages, the newest first. Only its `new`
//! asks for memory.
//!
//! The crates that send requests, that keep the clock and that open estimates stand on this one.
#![tactic(auto)]

mod recent;

ghost use Rattle.std.specs.Prelude.{◌≡◌, ◌≤◌};
ghost use Rattle.split_types.specs.CostAndClock.{seek, cost_at};

pub use recent::Recent;

/// What it costs to move the head over a distance.
fn seek(distance: u32) -> u64
    ensures { result ≡ seek distance }
{
    if distance == 0 {
        0
    } else if distance < 64 {
        20
    } else if distance < 1024 {
        50
    } else {
        100
    }
}

/// What a request of `n` blocks at `first` costs, with the head at `head`.
pub fn cost(head: u32, first: u32, n: u32) -> u64
    requires head { head ≤ 32768 }
    requires first { first ≤ 32768 }
    requires n { n ≤ 32768 }
    ensures { result ≡ cost_at head first n }
{
    seek(head.abs_diff(first)) + 2 * u64::from(n)
}
