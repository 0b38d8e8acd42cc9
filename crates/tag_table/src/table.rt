//! The table.
ghost use Rattle.std.specs.Prelude.{◌≡◌, ◌+◌, ◌≤◌, ℕ, IfOk, IsOk, OnOk, OnErr};
ghost use Rattle.cause_set.specs.Tags.{Moved, no_use, one_use};
ghost use Rattle.tag_table.specs.Tags.{tags_of, AreShared, AreInUse};
ghost use Rattle.tag_table.specs.Rows.{HasNoSet};

use crate::rows::Rows;
use cause_set::{Causes, TagStore};
use split_types::Pid;
use std::alloc::{AllocError, Global};
use std::marker::Model;

/// So many uses a table gives in all. At one in each nanosecond they last for three centuries.
const USES: u64 = 1 << 63;

/// A store of tags that holds equal sets once, each with the number of its uses.
#[derive(Drop)]
pub struct Table {
    rows: Rows,
    // How many more uses are given. A use that is released isn't given again, so that no row's count can
    // pass its bound.
    left: u64,
}

impl Model for Table {
    ghost use Rattle.std.specs.Prelude.{min};
    ghost use Rattle.tag_table.specs.Rows.{Numbered};
    ghost use Rattle.tag_table.specs.Tags.{AreCounted};

    ghost Value = { Numbered };

    ghost view = { λ t. record { rows = t.rows.rows; spare = min t.rows.spare t.left } };

    ghost invariant = { λ t. AreCounted t.rows.rows t.left };
}

/// A tag of a table: one use of a set.
#[derive(Debug, Drop)]
pub struct TableTag {
    number: usize,
}

impl Table {
    /// A table without a set.
    pub fn new(alloc: Global) -> Result<Table, AllocError>
        ensures { IfOk result (λ table. (n : ℕ) → (tags_of table).uses n ≡ 0) }
    {
        Ok(Table {
            rows: Rows::new(alloc)?,
            left: USES,
        })
    }

    /// How many sets are in use. Equal sets have one number.
    pub fn sets(&self) -> usize
        ensures count { AreInUse (tags_of self.now) result }
        ensures shared { AreShared (tags_of self.now) }
    {
        self.rows.len()
    }

    /// Makes room for `n` more uses, of whatever sets.
    fn reserve(&mut self, n: u32) -> Result<(), AllocError>
        ensures rows { self.new.rows ≡ self.old.rows }
        ensures ok { OnOk result (n ≤ self.new.spare) }
        ensures spare { self.old.spare ≤ self.new.spare }
        ensures succeeds { n ≤ self.old.spare → IsOk result }
    {
        if self.left < u64::from(n) {
            return Err(AllocError);
        }
        self.rows.room(n as usize)
    }

    /// One more use of the row of this number.
    fn more(&mut self, number: usize) -> Result<TableTag, AllocError>
        requires { 1 ≤ (tags_of self.old).uses number }
        ensures number { IfOk result (λ t. t.number ≡ number) }
        ensures moved { OnOk result (Moved (tags_of self.old) (tags_of self.new) no_use (one_use number)) }
        ensures set { OnOk result ((tags_of self.new).members number ≡ (tags_of self.old).members number) }
        ensures err { OnErr result (self.new ≡ self.old) }
        ensures spare { self.old.spare ≤ self.new.spare + 1 }
        ensures succeeds { 1 ≤ self.old.spare → IsOk result }
    {
        self.left = self.left.checked_sub(1).ok_or(AllocError)?;
        let uses = self.rows.row(number).uses;
        self.rows.count(number, uses + 1);
        Ok(TableTag { number })
    }

    /// One use of a set that has no row.
    fn first(&mut self, set: Causes) -> Result<TableTag, AllocError>
        requires { HasNoSet self.old.rows set }
        ensures moved { IfOk result (λ t. Moved (tags_of self.old) (tags_of self.new) no_use (one_use t.number)) }
        ensures set { IfOk result (λ t. (tags_of self.new).members t.number ≡ set) }
        ensures err { OnErr result (Moved (tags_of self.old) (tags_of self.new) no_use no_use) }
        ensures spare { self.old.spare ≤ self.new.spare + 1 }
        ensures succeeds { 1 ≤ self.old.spare → IsOk result }
    {
        self.reserve(1)?;
        self.left -= 1;
        Ok(TableTag {
            number: self.rows.put(set),
        })
    }

    /// One use of a set.
    fn give(&mut self, set: Causes) -> Result<TableTag, AllocError>
        ensures moved { IfOk result (λ t. Moved (tags_of self.old) (tags_of self.new) no_use (one_use t.number)) }
        ensures set { IfOk result (λ t. (tags_of self.new).members t.number ≡ set) }
        ensures err { OnErr result (Moved (tags_of self.old) (tags_of self.new) no_use no_use) }
        ensures spare { self.old.spare ≤ self.new.spare + 1 }
        ensures succeeds { 1 ≤ self.old.spare → IsOk result }
    {
        match self.rows.find(&set) {
            Some(number) => self.more(number),
            None => self.first(set),
        }
    }
}

impl TagStore for Table {
    type Tag = TableTag;

    ghost number = { λ t. t.number };

    ghost now = { tags_of };

    fn single(&mut self, p: Pid) -> Result<TableTag, AllocError> {
        self.give(Causes::one(p))
    }

    fn join(&mut self, a: &TableTag, b: &TableTag) -> Result<TableTag, AllocError> {
        self.give(self.members(a).union(self.members(b)))
    }

    fn again(&mut self, t: &TableTag) -> Result<TableTag, AllocError> {
        self.rows.row(t.number).set.rises();
        self.more(t.number)
    }

    fn members(&self, t: &TableTag) -> &Causes {
        let set = &self.rows.row(t.number).set;
        set.rises();
        set
    }

    fn release(&mut self, t: TableTag) {
        let uses = self.rows.row(t.number).uses;
        if uses == 1 {
            self.rows.remove(t.number);
        } else {
            self.rows.count(t.number, uses - 1);
        }
    }

    fn room(&mut self, n: u32) -> Result<(), AllocError> {
        self.reserve(n)
    }
}
