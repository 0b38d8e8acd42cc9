//! How a cost is split over a set of processes.
ghost use Rattle.std.specs.Prelude.{◌≡◌, ◌<◌, ◌+◌, ℕ};
ghost use Rattle.split_types.specs.Share.{share, share_of, bill_of_parts};
ghost use Rattle.cause_set.specs.Shares.{BillsAddUp, SharesAddUp};

use crate::Causes;
use split_types::Pid;

/// The share of the cost for the one of this rank among so many, where the first ranks bear what is left over.
fn share_among(cost: u64, rank: u64, len: u64) -> u64
    requires { rank < len }
    ensures { result ≡ share cost rank len }
{
    let even = cost / len;
    let left_over = cost - even * len;
    if rank < left_over { even + 1 } else { even }
}

/// The share of the cost for the process of this rank among `len`, where the first ranks bear
/// what is left over.
pub fn share(cost: u64, rank: u32, len: u32) -> u64
    requires { rank < len }
    ensures { result ≡ share cost rank len }
{
    share_among(cost, u64::from(rank), u64::from(len))
}

/// The share of the cost for a process: 0 where it isn't in the tag.
pub fn share_of(cost: u64, tag: &Causes, p: Pid) -> u64
    ensures { result ≡ share_of cost tag.now p.0 }
{
    if tag.contains(p) {
        share(cost, tag.rank(p), tag.len())
    } else {
        0
    }
}

/// What a process bears of a cost that is split over some sets: each set has its share of the cost, and
/// the process has its share of that in each set that has it.
pub fn bill_of_parts(cost: u64, parts: &[Causes], p: Pid) -> u64
    ensures { result ≡ bill_of_parts cost parts.now p.0 }
{
    let mut bill = 0;
    for (at, part) in parts.iter().enumerate() {
        bill += share_of(share_among(cost, at as u64, parts.len() as u64), part, p);
    }
    bill
}

/// The law of shares: all shares of a cost add up to the cost. It does nothing.
pub fn shares_add_up()
    ensures { SharesAddUp }
{}

/// The law of bills: where there is a part and no part is empty, what all processes bear adds up to the
/// cost. It does nothing.
pub fn bills_add_up()
    ensures { BillsAddUp }
{}
