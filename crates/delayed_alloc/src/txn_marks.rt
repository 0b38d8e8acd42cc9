//! Marks of transactions.
ghost use Rattle.std.specs.Prelude.{◌≡◌, true, false};
ghost use Rattle.delayed_alloc.specs.Marks.{is_marked, KeepsMarks};
ghost use Rattle.split_types.specs.declared.ids.Txn.{Txn};

use split_types::Txn;

/// Marks of transactions: one bit for all whose numbers leave the same rest by 64. Those that are in use at a
/// time follow one another, so that each has a bit of its own.
#[derive(Debug, Drop)]
pub(crate) struct TxnMarks {
    bits: u64,
}

impl TxnMarks {
    /// No marks.
    pub(crate) fn new() -> TxnMarks
        ensures { (t : Txn) → is_marked result.bits t ≡ false }
    {
        TxnMarks { bits: 0 }
    }

    /// Whether a transaction has its mark.
    pub(crate) fn has(&self, t: Txn) -> bool
        ensures { result ≡ is_marked self.now.bits t }
    {
        (self.bits >> (t.0 % 64)) & 1 == 1
    }

    /// Marks a transaction.
    pub(crate) fn add(&mut self, t: Txn)
        ensures added { is_marked self.new.bits t ≡ true }
        ensures kept { KeepsMarks self.old.bits self.new.bits }
    {
        self.bits |= 1 << (t.0 % 64);
    }
}
