//! Each call once.
ghost use Rattle.std.specs.Prelude.{◌≡◌, pos, [], ◌∷◌, IfOk};

use cause_set::Causes;
use split_types::{Account, Buf, List, Pid, Process, ReqId, Sched, Serial, Workload};
use std::alloc::{AllocError, Global};
use std::test::Fail;
use token_ledger::{Ledger, bills_within_costs};

/// An account of 990 units, and a process.
fn one_account(alloc: Global) -> Result<Ledger, AllocError>
    ensures { IfOk result (λ l. l ≡ record {
      accounts = record { rate = 10; cap = 1000; start = pos 990 } ∷ [];
      owners =
          1 ∷ [];
      granted = pos 990 ∷ [];
      billed = 0 ∷ [];
      pairs = [];
      spare = l.spare;
    }) }
{
    let mut accounts = List::new(alloc);
    accounts.push(Account {
        rate: 10,
        cap: 1000,
        start: 990,
    })?;
    let mut procs = List::new(alloc);
    procs.push(Process {
        account: 1,
        weight: 1,
        deadline: 0,
    })?;
    let w = Workload {
        version: 1,
        device: 1024,
        cache: 64,
        depth: 1,
        sched: Sched::Token,
        accounts,
        procs,
        files: List::new(alloc),
        calls: List::new(alloc),
        fails: List::new(alloc),
        go: List::new(alloc),
    };
    let ledger = Ledger::new(alloc, &w)?;
    Ok(ledger)
}

#[test]
fn a_pair_is_held_back(rt: HostRuntime) -> Result<(), Fail> {
    let mut ledger = one_account(rt.alloc())?;
    ledger.room(1)?;
    ledger.open_pair(Buf::Page(Serial(0), 7), Pid(1), 52)?;
    assert_eq!(rt; ledger.balance(1), 938);
    Ok(())
}

#[test]
fn a_pair_is_returned(rt: HostRuntime) -> Result<(), Fail> {
    let mut ledger = one_account(rt.alloc())?;
    ledger.open_pair(Buf::Bitmap, Pid(1), 60)?;
    ledger.taken(Buf::Bitmap, ReqId(4));
    ledger.return_pair(Buf::Bitmap, Some(ReqId(4)));
    assert_eq!(rt; ledger.balance(1), 990);
    Ok(())
}

#[test]
fn a_cost_is_billed(rt: HostRuntime) -> Result<(), Fail> {
    let mut ledger = one_account(rt.alloc())?;
    ledger.advance(52);
    bills_within_costs();
    let parts = [Causes::one(Pid(1))];
    ledger.bill(52, &parts);
    let shown = ledger.fact(1);
    let numbers = (shown.granted, shown.billed, shown.pending, shown.balance);
    assert_eq!(rt; numbers, (1000, 52, 0, 948));
    Ok(())
}
