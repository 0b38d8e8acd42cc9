//! The lines of accounts and of processes, behind their first words.
ghost use Rattle.std.specs.Prelude.{ℕ, ⊤, pos, neg_ℤ};
ghost use Rattle.split_types.specs.WorkloadText.{account_fields, process_fields};
ghost use Rattle.split_types.specs.IsWorkload.{IsAccount};
ghost use Rattle.workload_reader.specs.Fields.{Keeps, IsWithin, IsAmountWithin, Reads};
ghost use Rattle.workload_reader.specs.Table.{IsProcessInRange, IsOneOf};
ghost use Rattle.workload_reader.specs.Weighed.{Weighed};

use crate::cause::Cause;
use crate::number::{after, amount, ranged};
use split_types::{Account, Process};

/// The account of numbers that are in their ranges.
fn account_of(rate: Option<u32>, cap: Option<u32>, start: Option<i64>) -> Option<Account>
    ensures { (a : Account) → Keeps (IsWithin 1 1000000) a.rate rate → Keeps (IsWithin 0 1000000000) a.cap cap
        → Keeps (IsAmountWithin (neg_ℤ (pos 1000000000)) (pos 1000000000)) a.start start → Keeps IsAccount a result }
{
    Some(Account {
        rate: rate?,
        cap: cap?,
        start: start?,
    })
}

/// The account of a line, where its numbers are in their ranges, and the lines that follow.
pub(crate) fn account(text: &[u8]) -> Option<(Option<Account>, &[u8])>
    ensures { Reads (λ _. ⊤) account_fields (Keeps IsAccount) text.now result }
{
    let (rate, rest) = ranged(text, 1, 1_000_000)?;
    let (cap, rest) = ranged(rest, 0, 1_000_000_000)?;
    let (start, rest) = amount(rest, 1_000_000_000)?;
    let rest = after(rest, b"\n")?;
    Some((account_of(rate, cap, start), rest))
}

/// The process of numbers that are in their ranges, and of an account that exists.
fn process_of(
    account: Option<u32>,
    weight: Option<u32>,
    deadline: Option<u32>,
) -> Result<Process, Cause>
    ensures { (p : Process) (accounts : ℕ) → Keeps (IsWithin 1 accounts) p.account account
        → Keeps (IsWithin 1 1000) p.weight weight
        → Keeps (IsWithin 0 1000000000) p.deadline deadline
        → Weighed IsProcessInRange (λ q. IsOneOf accounts q.account) p result }
{
    let (Some(weight), Some(deadline)) = (weight, deadline) else {
        return Err(Cause::Range);
    };
    let account = account.ok_or(Cause::Ref)?;
    Ok(Process {
        account,
        weight,
        deadline,
    })
}

/// The process of a line, where its numbers are in their ranges and its account is one of so many, and the lines
/// that follow.
pub(crate) fn process(text: &[u8], accounts: u32) -> Option<(Result<Process, Cause>, &[u8])>
    ensures { Reads (λ _. ⊤) process_fields
        (Weighed IsProcessInRange (λ p. IsOneOf accounts p.account)) text.now result }
{
    let (account, rest) = ranged(text, 1, accounts)?;
    let (weight, rest) = ranged(rest, 1, 1000)?;
    let (deadline, rest) = ranged(rest, 0, 1_000_000_000)?;
    let rest = after(rest, b"\n")?;
    Some((process_of(account, weight, deadline), rest))
}
