//! What commit is doing.
ghost use Rattle.std.specs.Prelude.{◌≡◌, option_map};
ghost use Rattle.proxies.specs.Causes.{causes_of_commit};

use split_types::Txn;

/// What commit is doing, and the causes of the transaction that it works for. Homes and clears are
/// those of a whole round: there the causes are those of the round's last transaction.
#[derive(Debug, Drop)]
pub enum Commit<T> {
    /// It works for no transaction.
    Idle,
    /// The log of this transaction is to be written.
    Log { t: Txn, causes: T },
    /// The commit block of this transaction is to be written.
    Marking { t: Txn, causes: T },
    /// The buffers of a round go to their homes; so many have been added.
    Homes { t: Txn, causes: T, added: u32 },
    /// The transactions of a round are cleared from the journal; this one is next.
    Clear { t: Txn, causes: T },
}

impl<T> Commit<T> {
    /// The causes of the transaction that commit works for; none exactly in `Idle`.
    pub fn causes(&self) -> Option<&T>
        ensures { option_map (λ causes. causes.now) result ≡ causes_of_commit self.now }
    {
        match self {
            Commit::Idle => None,
            Commit::Log { t: _, causes }
            | Commit::Marking { t: _, causes }
            | Commit::Homes {
                t: _,
                causes,
                added: _,
            }
            | Commit::Clear { t: _, causes } => Some(causes),
        }
    }
}
