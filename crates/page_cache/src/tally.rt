//! How many of some places are marked.
ghost use Rattle.std.specs.Prelude.{◌≡◌, ◌<◌, ◌^◌, ◌≤◌, false, length, replicate, slice_set, IfOk, count_by};

use std::alloc::{AllocError, Global};
use std::marker::Model;
use std::mem;

/// A mark or none at each place, counted.
#[derive(Debug, Drop)]
pub(crate) struct Tally {
    marks: Vec<bool>,
    count: usize,
}

impl Model for Tally {
    ghost use Rattle.std.specs.Prelude.{◌≡◌, List, Bool, count_by};

    ghost Value = { List Bool };

    ghost view = { λ t. t.marks.items };

    ghost invariant = { λ t. t.count ≡ count_by (λ mark. mark) t.marks.items };
}

impl Tally {
    /// Places of which none is marked. It takes all memory that it needs.
    pub(crate) fn new(alloc: Global, places: usize) -> Result<Tally, AllocError>
        ensures { IfOk result (λ t. t ≡ replicate places false) }
    {
        Ok(Tally {
            marks: vec![in alloc; false; places]?,
            count: 0,
        })
    }

    /// How many places are marked.
    pub(crate) fn count(&self) -> usize
        ensures { result ≡ count_by (λ mark. mark) self.now }
    {
        self.count
    }

    /// Marks a place, or takes its mark away.
    pub(crate) fn set(&mut self, at: usize, mark: bool)
        requires { at < length self.old }
        ensures { self.new ≡ slice_set self.old at mark }
    {
        let was = mem::replace(&mut self.marks[at], mark);
        if mark && !was {
            self.count += 1;
        }
        if was && !mark {
            self.count -= 1;
        }
    }
}
