//! How a cost is billed to accounts.
ghost use Rattle.std.specs.Prelude.{◌≡◌, ℕ, ◌+◌, ◌≤◌, length, All, IsTrue};
ghost use Rattle.split_types.specs.Sets.{has, some_has};
ghost use Rattle.token_ledger.specs.Books.{BillsWithinCosts, owner_in, bill_of};
ghost use Rattle.token_ledger.specs.Standings.{IsNumber, AreBilled, HaveRoom, bears};

use crate::split::Split;
use crate::standing::Standing;
use cause_set::{Causes, bills_add_up};
use split_types::Pid;

/// Where the account of a process stands.
pub(crate) fn place_of(owners: &[u32], p: Pid) -> usize
    requires process { IsNumber (length owners.now) p.0 }
    requires owned { 1 ≤ owner_in owners.now p.0 }
    ensures { result + 1 ≡ owner_in owners.now p.0 }
{
    (owners[(p.0 - 1) as usize] - 1) as usize
}

/// Bills a cost that is split over one set.
fn bill_part(standings: &mut [Standing], owners: &[u32], cost: u64, part: &Causes)
    requires owners { All (IsNumber (length standings.old)) owners.now }
    requires payers { (p : ℕ) → IsTrue (has part.now p) → IsNumber (length owners.now) p }
    requires room { HaveRoom standings.old (bears owners.now cost part.now) }
    ensures { AreBilled standings.old standings.new (bears owners.now cost part.now) }
{
    part.rises();
    let split = Split::new(cost, u64::from(part.len()));
    for (rank, p) in part.iter().enumerate() {
        let at = place_of(owners, p);
        standings[at].billed += split.share(rank as u64);
    }
}

/// Bills a cost that is split over some sets.
pub(crate) fn bill_parts(standings: &mut [Standing], owners: &[u32], cost: u64, parts: &[Causes])
    requires owners { All (IsNumber (length standings.old)) owners.now }
    requires payers { (p : ℕ) → IsTrue (some_has parts.now p) → IsNumber (length owners.now) p }
    requires room { HaveRoom standings.old (bill_of owners.now cost parts.now) }
    ensures { AreBilled standings.old standings.new (bill_of owners.now cost parts.now) }
{
    let split = Split::new(cost, parts.len() as u64);
    for (at, part) in parts.iter().enumerate() {
        bill_part(standings, owners, split.share(at as u64), part);
    }
}

/// The law of bills: where there is a part and no part is empty, no account bears more than the cost. It does
/// nothing.
pub fn bills_within_costs()
    ensures { BillsWithinCosts }
{
    bills_add_up();
}
