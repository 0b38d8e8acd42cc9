//! How an account stands.
ghost use Rattle.std.specs.Prelude.{◌≡◌, ◌^◌, ◌≤◌, pos, ◌<ℤ◌};
ghost use Rattle.token_ledger.specs.Books.{grant};
ghost use Rattle.token_ledger.specs.Standings.{IsStanding, opened, standing_balance, standing_fact, advanced};

use split_types::{Account, AccountFact};

/// An account, what it was granted and billed so far, and what is held back from it.
#[derive(Clone, Copy, Debug)]
pub(crate) struct Standing {
    pub(crate) account: Account,
    pub(crate) granted: i64,
    pub(crate) billed: u64,
    pub(crate) pending: u64,
}

impl Standing {
    /// An account that was granted its start amount.
    pub(crate) fn new(account: Account) -> Standing
        ensures { result ≡ opened account }
    {
        Standing {
            account,
            granted: account.start,
            billed: 0,
            pending: 0,
        }
    }

    /// The balance.
    pub(crate) fn balance(&self) -> i64
        requires { IsStanding self.now }
        ensures { result ≡ standing_balance self.now }
    {
        self.granted - self.billed as i64 - self.pending as i64
    }

    /// What a report says of it.
    pub(crate) fn fact(&self) -> AccountFact
        requires { IsStanding self.now }
        ensures { result ≡ standing_fact self.now }
    {
        AccountFact {
            granted: self.granted,
            billed: self.billed as i64,
            pending: self.pending as i64,
            balance: self.balance(),
        }
    }

    /// What is granted as the clock advances by `d`.
    fn grant(&self, d: u64) -> i64
        requires standing { IsStanding self.now }
        requires most { d ≤ 2 ^ 36 }
        ensures { result ≡ grant self.now.account.rate self.now.account.cap (standing_balance self.now) d }
    {
        let most = (u64::from(self.account.rate) * d) as i64;
        let lacking = i64::from(self.account.cap) - self.balance();
        most.min(lacking.max(0))
    }

    /// The clock advances by `d`.
    pub(crate) fn advance(&mut self, d: u64)
        requires standing { IsStanding self.old }
        requires most { d ≤ 2 ^ 36 }
        requires room { (advanced d self.old).granted <ℤ pos (2 ^ 60) }
        ensures { self.new ≡ advanced d self.old }
    {
        self.granted += self.grant(d);
    }
}
