//! How a cost is split evenly.
ghost use Rattle.std.specs.Prelude.{◌≡◌, ℕ, ◌+◌, ◌^◌, ◌<◌};
ghost use Rattle.split_types.specs.Share.{share};
ghost use Rattle.token_ledger.specs.Splits.{share_in};

/// A cost that is split: each bears the even part, and the first ranks one more.
#[derive(Debug, Drop)]
pub(crate) struct Split {
    even: u64,
    left_over: u64,
    ghost fits: { even + left_over < 2 ^ 64 },
}

impl Split {
    /// The cost is split among so many.
    pub(crate) fn new(cost: u64, among: u64) -> Split
        ensures { (rank : ℕ) → rank < among → share_in result.even result.left_over rank ≡ share cost rank among }
    {
        let among = among.max(1);
        Split {
            even: cost / among,
            left_over: cost % among,
        }
    }

    /// The share of the one of this rank.
    pub(crate) fn share(&self, rank: u64) -> u64
        ensures { result ≡ share_in self.now.even self.now.left_over rank }
    {
        if rank < self.left_over {
            self.even + 1
        } else {
            self.even
        }
    }
}
