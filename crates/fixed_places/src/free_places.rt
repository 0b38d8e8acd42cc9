//! Which places are free.
ghost use Rattle.std.specs.Prelude.{◌≡◌, ◌^◌, ◌<◌, ◌≤◌, true, false, length, replicate, slice_set, slice_index_or, IfOk, count_by};

use std::alloc::{AllocError, Global};
use std::marker::Model;

/// Which places are taken. A free one is found, and one given back, in a few steps.
#[derive(Debug, Drop)]
pub struct FreePlaces {
    taken: Vec<bool>,
    // No place from here on was ever taken.
    used: usize,
    // The places that were given back and not taken again.
    returned: Vec<u32>,
    count: usize,
}

impl Model for FreePlaces {
    ghost use Rattle.std.specs.Prelude.{vec_capacity};
    ghost use Rattle.fixed_places.specs.Free.{Free, AreFree, next_of};

    ghost Value = { Free };

    ghost view = { λ f. record { taken = f.taken.items; next = next_of f.used f.returned.items } };

    ghost invariant = { λ f. AreFree f.taken.items f.used f.returned.items f.count (vec_capacity f.returned) };
}

impl FreePlaces {
    /// Places of which all are free. It takes all memory that it needs.
    pub fn new(alloc: Global, places: usize) -> Result<FreePlaces, AllocError>
        requires { places ≤ 2 ^ 32 }
        ensures { IfOk result (λ f. f.taken ≡ replicate places false) }
    {
        Ok(FreePlaces {
            taken: vec![in alloc; false; places]?,
            used: 0,
            returned: Vec::with_capacity(alloc, places)?,
            count: 0,
        })
    }

    /// How many places there are.
    pub fn places(&self) -> usize
        ensures { result ≡ length self.now.taken }
    {
        self.taken.len()
    }

    /// How many places are taken.
    pub fn taken(&self) -> usize
        ensures { result ≡ count_by (λ taken. taken) self.now.taken }
    {
        self.count
    }

    /// The free place that is taken next.
    pub fn next(&self) -> usize
        requires { count_by (λ taken. taken) self.now.taken < length self.now.taken }
        ensures place { result ≡ self.now.next }
        ensures within { result < length self.now.taken }
        ensures free { slice_index_or self.now.taken result false ≡ false }
    {
        match self.returned.last() {
            Some(at) => *at as usize,
            None => self.used,
        }
    }

    /// Takes that place.
    pub fn take(&mut self) -> usize
        requires { count_by (λ taken. taken) self.old.taken < length self.old.taken }
        ensures place { result ≡ self.old.next }
        ensures within { result < length self.old.taken }
        ensures free { slice_index_or self.old.taken result false ≡ false }
        ensures taken { self.new.taken ≡ slice_set self.old.taken result true }
    {
        if let Some(place) = self.returned.pop() {
            let at = place as usize;
            self.taken[at] = true;
            self.count += 1;
            return at;
        }
        let at = self.used;
        self.used += 1;
        self.taken[at] = true;
        self.count += 1;
        at
    }

    /// Gives a taken place back.
    pub fn give(&mut self, at: usize)
        requires { slice_index_or self.old.taken at false ≡ true }
        ensures { self.new.taken ≡ slice_set self.old.taken at false }
    {
        self.returned.push_reserved(at as u32);
        self.taken[at] = false;
        self.count -= 1;
    }
}
