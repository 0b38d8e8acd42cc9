//! The processes of a set, one by one.
ghost use Rattle.std.specs.Prelude.{◌≡◌, ◌+◌, ◌<◌, ◌≤◌, ◌/◌, ◌^◌, [], ◌∷◌, IfNone, IfSome};
ghost use Rattle.std.specs.Iterator.{YieldsFirstBy, item_count};
ghost use Rattle.cause_set.specs.Marks.{marked, marked_from, IsRest, IsWord};

use crate::causes::LAST;
use split_types::Pid;
use std::marker::Model;

/// The marks of a word from a bit on.
fn marks_from(word: u64, bit: u32) -> u64
    requires { bit < 64 }
    ensures value { result ≡ word / 2 ^ bit }
    ensures fits { word < 2 ^ 64 }
{
    word >> bit
}

/// The first word from a number on that has a mark, and the number that its lowest bit stands for. `rest` is what is
/// left of the number's word, where it is known.
fn word_from(marks: &[u64; 4], from: u32, rest: u64) -> Option<(u32, u64)>
    requires from { 1 ≤ from }
    requires rest { IsRest marks.now from rest }
    ensures none { IfNone result (marked_from marks.now from ≡ []) }
    ensures found { IfSome result (λ r. IsWord marks.now from r.0 r.1) }
{
    if rest != 0 {
        return Some((from, rest));
    }
    let mut number = from;
    while number <= LAST {
        let place = number - 1;
        let word = marks_from(marks[(place / 64) as usize], place % 64);
        if word != 0 {
            return Some((number, word));
        }
        number = (place / 64 + 1) * 64 + 1;
    }
    None
}

/// The first process from a number on that has its mark, and what is left of its word after it.
fn first_from(marks: &[u64; 4], from: u32, rest: u64) -> Option<(u32, u64)>
    requires from { 1 ≤ from }
    requires rest { IsRest marks.now from rest }
    ensures none { IfNone result (marked_from marks.now from ≡ []) }
    ensures found { IfSome result (λ r. marked_from marks.now from ≡ r.0 ∷ marked_from marks.now (r.0 + 1)) }
    ensures last { IfSome result (λ r. r.0 ≤ 256) }
    ensures rest { IfSome result (λ r. IsRest marks.now (r.0 + 1) r.1) }
{
    let (number, word) = word_from(marks, from, rest)?;
    let zeros = word.trailing_zeros();
    Some((number + zeros, marks_from(word / 2, zeros)))
}

/// The processes of a set, rising, seen as the numbers of those that are left.
#[derive(Debug, Drop)]
pub struct Members {
    marks: [u64; 4],
    from: u32,
    rest: u64,
}

impl Model for Members {
    ghost use Rattle.std.specs.Prelude.{ℕ, List, ◌≤◌};
    ghost use Rattle.cause_set.specs.Marks.{marked_from, IsRest};

    ghost Value = { List ℕ };

    ghost view = { λ members. marked_from members.marks members.from };

    ghost invariant = { λ members. (1 ≤ members.from) × (members.from ≤ 257) × IsRest members.marks members.from members.rest };
}

impl Members {
    /// The processes that have their marks.
    pub(crate) fn new(marks: [u64; 4]) -> Members
        ensures { result ≡ marked marks }
    {
        Members {
            marks,
            from: 1,
            rest: 0,
        }
    }
}

impl Iterator for Members {
    type Item = Pid;

    ghost next_gives = { YieldsFirstBy (λ p. p.0) (λ rest. rest) };

    ghost remaining = { item_count (λ rest. rest) };

    fn next(&mut self) -> Option<Pid> {
        let (number, rest) = first_from(&self.marks, self.from, self.rest)?;
        self.from = number + 1;
        self.rest = rest;
        Some(Pid(number))
    }
}
