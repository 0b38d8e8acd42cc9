//! The open pairs.
ghost use Rattle.std.specs.Prelude.{◌≡◌, ℕ, ◌+◌, ◌-◌, ◌<◌, ◌≤◌, [], ◌++◌, true, false, length, map, take, replicate, slice_index_or, Some, None, All, IfOk, IfNone, IfSome, IsOk, OnOk, OnErr};
ghost use Rattle.token_ledger.specs.Books.{IsOneMore, is_of, marked};

use crate::pair::Pair;
use crate::place::Place;
use fixed_places::Groups;
use split_types::{Buf, Pid, ReqId};
use std::alloc::{AllocError, Global};
use std::marker::Model;

/// How many places there are at first.
const FIRST_PLACES: usize = 16;

/// There can't be more places.
const MOST_PLACES: usize = 4_294_967_296;

/// What a process owes for a buffer.
#[derive(Clone, Copy, Debug)]
pub(crate) struct Owed {
    pub(crate) by: Pid,
    pub(crate) estimate: u64,
}

const NOTHING: Owed = Owed {
    by: Pid(0),
    estimate: 0,
};

/// The open pairs, found by their buffer and mark.
#[derive(Debug, Drop)]
pub(crate) struct OpenPairs {
    places: Groups<Place>,
    owed: Vec<Owed>,
    free: usize,
}

impl Model for OpenPairs {
    ghost use Rattle.token_ledger.specs.Places.{OpenOnes};

    ghost Value = { OpenOnes };

    ghost use Rattle.token_ledger.specs.Places.{pairs_in, ArePlaces};

    ghost view = { λ p. record { pairs = pairs_in p.places p.owed.items; spare = p.free } };

    ghost invariant = { λ p. ArePlaces p.places p.owed.items p.free };
}

/// Makes the empty places from one on free.
fn free_from(places: &mut Groups<Place>, from: usize)
    requires within { from ≤ length places.old }
    requires empty { (i : ℕ) → from ≤ i → slice_index_or places.old i None ≡ None }
    ensures { places.new ≡ take from places.old ++ replicate (length places.old - from) (Some Place.Free) }
{
    for at in from..places.places() {
        places.put(at, Place::Free);
    }
}

impl OpenPairs {
    /// No pair is open.
    pub(crate) fn new(alloc: Global) -> Result<OpenPairs, AllocError>
        ensures { IfOk result (λ p. p.pairs ≡ []) }
    {
        let mut places = Groups::new(alloc, FIRST_PLACES)?;
        let owed = vec![in alloc; NOTHING; FIRST_PLACES]?;
        free_from(&mut places, 0);
        Ok(OpenPairs {
            places,
            owed,
            free: FIRST_PLACES,
        })
    }

    /// Makes room for `n` more pairs.
    pub(crate) fn room(&mut self, n: u32) -> Result<(), AllocError>
        ensures pairs { self.new.pairs ≡ self.old.pairs }
        ensures ok { OnOk result (n ≤ self.new.spare) }
        ensures spare { self.old.spare ≤ self.new.spare }
        ensures err { OnErr result (self.new ≡ self.old) }
        ensures succeeds { n ≤ self.old.spare → IsOk result }
    {
        let wanted = n as usize;
        if wanted <= self.free {
            return Ok(());
        }
        let places = self.places.places();
        let more = wanted.max(places);
        if more > MOST_PLACES - places {
            return Err(AllocError);
        }
        let alloc = *self.owed.allocator();
        let mut wider = self.places.wider(alloc, places + more)?;
        self.owed.resize(places + more, NOTHING)?;
        free_from(&mut wider, places);
        self.places = wider;
        self.free += more;
        Ok(())
    }

    /// Opens a pair. There must be room.
    pub(crate) fn open(&mut self, pair: Pair)
        requires { 0 < self.old.spare }
        ensures pairs { IsOneMore self.old.pairs self.new.pairs pair }
        ensures spare { self.new.spare + 1 ≡ self.old.spare }
    {
        let at = self.places.take(&Place::Free).unwrap();
        self.places.put(at, Place::Open(pair.buf, pair.mark));
        self.owed[at] = Owed {
            by: pair.by,
            estimate: pair.estimate,
        };
        self.free -= 1;
    }

    /// Closes a pair of a buffer with this mark, and hands it out. `None` exactly where there is none.
    pub(crate) fn close(&mut self, buf: Buf, mark: Option<ReqId>) -> Option<Pair>
        ensures none { IfNone result (All (λ q. is_of buf mark q ≡ false) self.old.pairs) }
        ensures same { IfNone result (self.new ≡ self.old) }
        ensures pair { IfSome result (λ pair. is_of buf mark pair ≡ true) }
        ensures rest { IfSome result (IsOneMore self.new.pairs self.old.pairs) }
        ensures spare { IfSome result (λ pair. self.new.spare ≡ self.old.spare + 1) }
    {
        let at = self.places.take(&Place::Open(buf, mark))?;
        self.places.put(at, Place::Free);
        self.free += 1;
        let Owed { by, estimate } = self.owed[at];
        Some(Pair {
            buf,
            by,
            estimate,
            mark,
        })
    }

    /// Marks the pairs of a buffer that have no mark.
    pub(crate) fn mark(&mut self, buf: Buf, id: ReqId)
        ensures pairs { self.new.pairs ≡ map (marked buf id) self.old.pairs }
        ensures spare { self.new.spare ≡ self.old.spare }
    {
        while let Some(at) = self.places.take(&Place::Open(buf, None)) {
            self.places.put(at, Place::Open(buf, Some(id)));
        }
    }
}
