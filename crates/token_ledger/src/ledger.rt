//! The ledger.
ghost use Rattle.std.specs.Prelude.{◌≡◌, ℕ, ◌+◌, ◌^◌, ◌<◌, ◌≤◌, IsTrue, None, not, All, filter, map, IfOk, IsOk, OnOk, OnErr};
ghost use Rattle.split_types.specs.Sets.{some_has};
ghost use Rattle.split_types.specs.IsWorkload.{IsWorkload};
ghost use Rattle.token_ledger.specs.Books.{HasAccount, HasProcess, GrantsFit, Advances, BillsFit, Bills, IsOneMore, opening, owner_in, pending_of, balance_of, fact_of, is_of, marked};
ghost use Rattle.token_ledger.specs.Standings.{IsStanding, AreKept, AdvancesFit, opened, advanced};

use crate::billing::{bill_parts, place_of};
use crate::pair::Pair;
use crate::pairs::OpenPairs;
use crate::standing::Standing;
use cause_set::Causes;
use split_types::{Account, AccountFact, Buf, Pid, Process, ReqId, Workload};
use std::alloc::{AllocError, Global};
use std::marker::Model;

/// What each account was granted and billed, and the open pairs.
#[derive(Debug, Drop)]
pub struct Ledger {
    standings: Vec<Standing>,
    // The account of each process.
    owners: Vec<u32>,
    pairs: OpenPairs,
}

impl Model for Ledger {
    ghost use Rattle.token_ledger.specs.Books.{Books};

    ghost Value = { Books };

    ghost use Rattle.token_ledger.specs.Standings.{books_of, AreKept};

    ghost view = { λ l. books_of l.standings.items l.owners.items l.pairs };

    ghost invariant = { λ l. AreKept l.standings.items l.owners.items l.pairs.pairs };
}

/// The accounts at the start.
fn opening_standings(alloc: Global, accounts: &[Account]) -> Result<Vec<Standing>, AllocError>
    ensures { IfOk result (λ standings. standings.items ≡ map opened accounts.now) }
{
    accounts
        .iter()
        .map(|account| Standing::new(*account))
        .collect(alloc)
}

/// The account of each process.
fn owners_of(alloc: Global, procs: &[Process]) -> Result<Vec<u32>, AllocError>
    ensures { IfOk result (λ owners. owners.items ≡ map (λ p. p.account) procs.now) }
{
    procs.iter().map(|process| process.account).collect(alloc)
}

/// The clock advances for each account.
fn advance_all(standings: &mut [Standing], d: u64)
    requires standings { All IsStanding standings.old }
    requires most { d ≤ 2 ^ 36 }
    requires room { AdvancesFit standings.old d }
    ensures { standings.new ≡ map (advanced d) standings.old }
{
    for standing in standings.iter_mut() {
        standing.advance(d);
    }
}

/// Closes the pairs of a buffer with this mark: what they hold back is held back no more.
fn close_all(
    standings: &mut [Standing],
    owners: &[u32],
    pairs: &mut OpenPairs,
    b: Buf,
    mark: Option<ReqId>,
)
    requires { AreKept standings.old owners.now pairs.old.pairs }
    ensures kept { AreKept standings.new owners.now pairs.new.pairs }
    ensures pairs { pairs.new.pairs ≡ filter (λ q. not (is_of b mark q)) pairs.old.pairs }
    ensures spare { pairs.old.spare ≤ pairs.new.spare }
    ensures accounts { map (λ s. s.account) standings.new ≡ map (λ s. s.account) standings.old }
    ensures granted { map (λ s. s.granted) standings.new ≡ map (λ s. s.granted) standings.old }
    ensures billed { map (λ s. s.billed) standings.new ≡ map (λ s. s.billed) standings.old }
{
    while let Some(pair) = pairs.close(b, mark) {
        let at = place_of(owners, pair.by);
        standings[at].pending -= pair.estimate;
    }
}

impl Ledger {
    /// Each account is granted its start amount; there are no bills and no pairs.
    pub fn new(alloc: Global, w: &Workload) -> Result<Ledger, AllocError>
        requires { IsWorkload w.now }
        ensures { IfOk result (λ l. l ≡ opening w.now l.spare) }
    {
        let accounts = w.accounts.as_slice();
        let procs = w.procs.as_slice();
        let standings = opening_standings(alloc, accounts)?;
        let owners = owners_of(alloc, procs)?;
        let pairs = OpenPairs::new(alloc)?;
        Ok(Ledger {
            standings,
            owners,
            pairs,
        })
    }

    /// Makes room for `n` more pairs.
    pub fn room(&mut self, n: u32) -> Result<(), AllocError>
        ensures ok { OnOk result (n ≤ self.new.spare) }
        ensures spare { self.old.spare ≤ self.new.spare }
        ensures rest { self.new ≡ record self.old { spare = self.new.spare } }
        ensures err { OnErr result (self.new ≡ self.old) }
        ensures succeeds { n ≤ self.old.spare → IsOk result }
    {
        self.pairs.room(n)
    }

    /// Opens a pair of a buffer and a process, without a mark. It succeeds where there is room.
    pub fn open_pair(&mut self, b: Buf, p: Pid, estimate: u64) -> Result<(), AllocError>
        requires process { HasProcess self.old p.0 }
        requires room { pending_of self.old (owner_in self.old.owners p.0) + estimate < 2 ^ 60 }
        ensures pair { OnOk result (IsOneMore self.old.pairs self.new.pairs
            (record { buf = b; by = p; estimate = estimate; mark = None })) }
        ensures spare { OnOk result (self.old.spare ≤ self.new.spare + 1) }
        ensures rest { OnOk result (self.new ≡ record self.old { pairs = self.new.pairs; spare = self.new.spare }) }
        ensures err { OnErr result (self.new ≡ self.old) }
        ensures succeeds { 0 < self.old.spare → IsOk result }
    {
        self.pairs.room(1)?;
        let at = place_of(&self.owners, p);
        self.standings[at].pending += estimate;
        self.pairs.open(Pair {
            buf: b,
            by: p,
            estimate,
            mark: None,
        });
        Ok(())
    }

    /// The buffer is taken to be written out under a number: its pairs that have no mark get this one.
    pub fn taken(&mut self, b: Buf, id: ReqId)
        ensures { self.new ≡ record self.old { pairs = map (marked b id) self.old.pairs } }
    {
        self.pairs.mark(b, id);
    }

    /// Closes the pairs of a buffer with this mark; with `None`, those without a mark.
    pub fn return_pair(&mut self, b: Buf, id: Option<ReqId>)
        ensures pairs { self.new.pairs ≡ filter (λ q. not (is_of b id q)) self.old.pairs }
        ensures spare { self.old.spare ≤ self.new.spare }
        ensures rest { self.new ≡ record self.old { pairs = self.new.pairs; spare = self.new.spare } }
    {
        close_all(&mut self.standings, &self.owners, &mut self.pairs, b, id);
    }

    /// Bills a cost that is split over some sets of processes, as [`cause_set::bill_of_parts`] says: each process's
    /// bill is its account's.
    pub fn bill(&mut self, cost: u64, parts: &[Causes])
        requires payers { (p : ℕ) → IsTrue (some_has parts.now p) → HasProcess self.old p }
        requires room { BillsFit self.old cost parts.now }
        ensures { Bills self.old self.new cost parts.now }
    {
        bill_parts(&mut self.standings, &self.owners, cost, parts);
    }

    /// The clock advances by `d`: each account is granted its rate for each unit, but no more than its balance
    /// lacks of its cap.
    pub fn advance(&mut self, d: u64)
        requires most { d ≤ 2 ^ 36 }
        requires room { GrantsFit self.old d }
        ensures { Advances self.old self.new d }
    {
        advance_all(&mut self.standings, d);
    }

    /// The balance of an account.
    pub fn balance(&self, account: u32) -> i64
        requires { HasAccount self.now account }
        ensures { result ≡ balance_of self.now account }
    {
        self.standings[(account - 1) as usize].balance()
    }

    /// What a report says of an account.
    pub fn fact(&self, account: u32) -> AccountFact
        requires { HasAccount self.now account }
        ensures { result ≡ fact_of self.now account }
    {
        self.standings[(account - 1) as usize].fact()
    }
}
