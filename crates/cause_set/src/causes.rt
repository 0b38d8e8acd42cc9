//! Sets of processes.
ghost use Rattle.std.specs.Prelude.{◌≡◌, ◌↔◌, ◌≤◌, ◌<◌, ◌%◌, ◌^◌, min, ◌∷◌, [], length, filter, IfOk, IsTrue, map, count_ones};
ghost use Rattle.split_types.specs.Sets.{has, union_of, IsSet};
ghost use Rattle.split_types.specs.Share.{rank};
ghost use Rattle.std.specs.List.{range_with_len};
ghost use Rattle.cause_set.specs.Marks.{is_marked, marked, words_of};
ghost use Rattle.cause_set.specs.Members.{pid_of};

use crate::Members;
use split_types::{List, Pid};
use std::alloc::{AllocError, Global};
use std::marker::Model;

/// The processes are numbered from 1 up to this.
pub(crate) const LAST: u32 = 256;

/// A set of processes, of some bytes that may be copied; it takes no other memory.
#[derive(Clone, Copy, Debug)]
pub struct Causes {
    marks: [u64; 4],
}

impl Model for Causes {
    ghost use Rattle.std.specs.Prelude.{ℕ, List};
    ghost use Rattle.cause_set.specs.Marks.{marked, words_of, AreMarks};

    ghost Value = { List ℕ };

    ghost use Rattle.cause_set.specs.Fields.{fields_back};

    ghost view = { λ causes. marked causes.marks };

    ghost invariant = { λ causes. AreMarks causes.marks };

    ghost inverse = { λ set. record { marks = words_of set } };

    ghost inverse_ok = { λ causes are. fields_back causes are };
}

/// Whether the process has its mark.
fn is_marked(marks: &[u64; 4], number: u32) -> bool
    requires first { 1 ≤ number }
    requires last { number ≤ 256 }
    ensures { result ≡ is_marked marks.now number }
{
    let place = number - 1;
    (marks[(place / 64) as usize] >> (place % 64)) & 1 == 1
}

/// Whether the set of these marks holds the process.
fn holds(marks: &[u64; 4], number: u32) -> bool
    ensures { result ≡ has (marked marks.now) number }
{
    1 <= number && number <= LAST && is_marked(marks, number)
}

/// How many of the word's lowest bits are set.
fn ones_below(word: u64, bits: u32) -> u32
    ensures value { result ≡ count_ones (word % 2 ^ min bits 64) }
    ensures bound { result ≤ 64 }
{
    let mask = (1u128 << bits.min(64)) - 1;
    (word & mask as u64).count_ones()
}

/// How many of the first processes have their marks.
fn marks_below(marks: &[u64; 4], processes: u32) -> u32
    requires { processes ≤ 256 }
    ensures { result ≡ length (filter (is_marked marks.now) (range_with_len 1 processes)) }
{
    let [a, b, c, d] = *marks;
    ones_below(a, processes)
        + ones_below(b, processes.saturating_sub(64))
        + ones_below(c, processes.saturating_sub(128))
        + ones_below(d, processes.saturating_sub(192))
}

impl Causes {
    /// The empty set.
    pub fn none() -> Causes
        ensures { result ≡ [] }
    {
        Causes { marks: [0; 4] }
    }

    /// The set of one process.
    pub fn one(p: Pid) -> Causes
        requires first { 1 ≤ p.0 }
        requires last { p.0 ≤ 256 }
        ensures { result ≡ p.0 ∷ [] }
    {
        let place = p.0 - 1;
        let mut marks = [0u64; 4];
        marks[(place / 64) as usize] = 1 << (place % 64);
        Causes { marks }
    }

    /// The processes of either set.
    pub fn union(&self, other: &Causes) -> Causes
        ensures { result ≡ union_of (self.now ∷ other.now ∷ []) }
    {
        let [a, b, c, d] = self.marks;
        let [e, f, g, h] = other.marks;
        Causes {
            marks: [a | e, b | f, c | g, d | h],
        }
    }

    /// Whether a process is in the set.
    pub fn contains(&self, p: Pid) -> bool
        ensures value { result ≡ has self.now p.0 }
        ensures rising { IsSet self.now }
    {
        holds(&self.marks, p.0)
    }

    /// Whether both sets have the same processes.
    pub fn is_same(&self, other: &Causes) -> bool
        ensures { IsTrue result ↔ (self.now ≡ other.now) }
    {
        self.marks == other.marks
    }

    /// Whether the set has no process.
    pub fn is_empty(&self) -> bool
        ensures { IsTrue result ↔ (self.now ≡ []) }
    {
        self.is_same(&Causes::none())
    }

    /// The law of sets: the list of a set rises, and holds processes alone. It does nothing.
    pub fn rises(&self)
        ensures { IsSet self.now }
    {
        let _marks = self.marks;
    }

    /// How many processes are in the set.
    pub fn len(&self) -> u32
        ensures value { result ≡ length self.now }
        ensures rising { IsSet self.now }
    {
        marks_below(&self.marks, LAST)
    }

    /// The rank of a process: how many of the set are below it.
    pub fn rank(&self, p: Pid) -> u32
        ensures value { result ≡ rank self.now p.0 }
        ensures below { IsTrue (has self.now p.0) → result < length self.now }
        ensures rising { IsSet self.now }
    {
        marks_below(&self.marks, p.0.saturating_sub(1).min(LAST))
    }

    /// The set as four words: the mark of process p is bit `(p - 1) % 64` of word `(p - 1) / 64`.
    pub fn words(&self) -> [u64; 4]
        ensures { result ≡ words_of self.now }
    {
        self.marks
    }

    /// The processes of the set, one by one, rising.
    pub fn iter(&self) -> Members
        ensures { result ≡ self.now }
    {
        Members::new(self.marks)
    }

    /// The processes of the set, rising.
    pub fn to_list(&self, alloc: Global) -> Result<List<Pid>, AllocError>
        ensures { IfOk result (λ members. members ≡ map pid_of self.now) }
    {
        let mut members = List::new(alloc);
        for p in self.iter() {
            members.push(p)?;
        }
        Ok(members)
    }
}
