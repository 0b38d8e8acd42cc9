//! The rows of a table.
ghost use Rattle.std.specs.Prelude.{◌≡◌, ◌+◌, ◌≤◌, ℕ, [], count_by, is_some, slice_set, Some, None, IfOk, IfNone, IfSome, IsOk, IsSome, OnOk, OnErr, ◌≢◌};
ghost use Rattle.slab.specs.Slab.{HasRoomFor};
ghost use Rattle.tag_table.specs.Rows.{row_at, HasSet, HasNoSet, AreDistinct};

use crate::row::Row;
use crate::set_key::SetKey;
use cause_set::Causes;
use fixed_places::Table as Index;
use slab::Slab;
use std::alloc::{AllocError, Global};
use std::marker::Model;

/// An index has at most so many places.
const PLACES: usize = 1 << 32;

/// Rows under numbers, each with a set that no other row has, and the number of the row that has a set:
/// it is found by the set's hash.
#[derive(Drop)]
pub(crate) struct Rows {
    alloc: Global,
    rows: Slab<Row>,
    index: Index<SetKey>,
}

impl Model for Rows {
    ghost use Rattle.std.specs.Prelude.{◌-◌};
    ghost use Rattle.slab.specs.Slab.{slab_len};
    ghost use Rattle.tag_table.specs.Rows.{Numbered, AreIndexed};

    ghost Value = { Numbered };

    ghost view = { λ r. record { rows = r.rows.slots; spare = r.rows.capacity - slab_len r.rows } };

    ghost invariant = { λ r. AreIndexed r.rows.slots r.index r.rows.capacity };
}

/// The same rows, with room for `more`.
fn widened(rows: &Slab<Row>, more: usize) -> Result<Slab<Row>, AllocError>
    ensures rows { IfOk result (λ wider. wider.slots ≡ rows.now.slots) }
    ensures room { IfOk result (λ wider. HasRoomFor wider more) }
{
    let mut wider = rows.clone()?;
    wider.reserve(more)?;
    Ok(wider)
}

impl Rows {
    /// No rows.
    pub(crate) fn new(alloc: Global) -> Result<Rows, AllocError>
        ensures { IfOk result (λ r. r.rows ≡ []) }
    {
        Ok(Rows {
            alloc,
            rows: Slab::new(alloc),
            index: Index::new(alloc, 1)?,
        })
    }

    /// How many rows there are.
    pub(crate) fn len(&self) -> usize
        ensures count { result ≡ count_by is_some self.now.rows }
        ensures distinct { AreDistinct self.now.rows }
    {
        let _index = &self.index;
        self.rows.len()
    }

    /// The row of a number.
    pub(crate) fn row(&self, number: usize) -> &Row
        requires { IsSome (row_at self.now.rows number) }
        ensures { row_at self.now.rows number ≡ Some result.now }
    {
        &self.rows[number]
    }

    /// The number of the row that has the set.
    pub(crate) fn find(&self, set: &Causes) -> Option<usize>
        ensures none { IfNone result (HasNoSet self.now.rows set.now) }
        ensures number { IfSome result (HasSet self.now.rows set.now) }
    {
        self.index.find(&SetKey(*set))
    }

    /// Makes room for `more` rows.
    pub(crate) fn room(&mut self, more: usize) -> Result<(), AllocError>
        ensures rows { self.new.rows ≡ self.old.rows }
        ensures ok { OnOk result (more ≤ self.new.spare) }
        ensures spare { self.old.spare ≤ self.new.spare }
        ensures succeeds { more ≤ self.old.spare → IsOk result }
    {
        if self.rows.capacity() - self.rows.len() < more {
            self.widen(more)?;
        }
        Ok(())
    }

    /// Makes room for `more` rows, and for as many as there are. The wider rows and their index are made beside
    /// the old ones, so that both stay where there is no memory.
    fn widen(&mut self, more: usize) -> Result<(), AllocError>
        ensures rows { self.new.rows ≡ self.old.rows }
        ensures ok { OnOk result (more ≤ self.new.spare) }
        ensures err { OnErr result (self.new ≡ self.old) }
    {
        let rows = widened(&self.rows, more.max(self.rows.len()))?;
        let places = rows.capacity().max(self.index.places());
        if places > PLACES {
            return Err(AllocError);
        }
        self.index = self.index.wider(self.alloc, places)?;
        self.rows = rows;
        Ok(())
    }

    /// A row with one use of a set that no row has. It needs room for a row.
    pub(crate) fn put(&mut self, set: Causes) -> usize
        requires room { 1 ≤ self.old.spare }
        requires absent { HasNoSet self.old.rows set }
        ensures empty { row_at self.old.rows result ≡ None }
        ensures row { row_at self.new.rows result ≡ Some (record { set = set; uses = 1 }) }
        ensures others { (n : ℕ) → n ≢ result → row_at self.new.rows n ≡ row_at self.old.rows n }
        ensures spare { self.old.spare ≤ self.new.spare + 1 }
    {
        let number = self.rows.insert_reserved(Row { set, uses: 1 });
        self.index.put(number, SetKey(set));
        number
    }

    /// Sets the number of uses of a row.
    pub(crate) fn count(&mut self, number: usize, uses: u64)
        requires { IsSome (row_at self.old.rows number) }
        ensures row { IfSome (row_at self.old.rows number) (λ row.
            self.new.rows ≡ slice_set self.old.rows number (Some (record row { uses = uses }))) }
        ensures spare { self.new.spare ≡ self.old.spare }
    {
        self.rows[number].uses = uses;
    }

    /// Takes a row away.
    pub(crate) fn remove(&mut self, number: usize)
        requires { IsSome (row_at self.old.rows number) }
        ensures rows { self.new.rows ≡ slice_set self.old.rows number None }
        ensures spare { self.old.spare ≤ self.new.spare }
    {
        self.rows.remove(number);
        self.index.take(number);
    }
}
