//! The numbers that end a line, each behind a space.
ghost use Rattle.std.specs.Prelude.{◌≡◌, ◌≢◌, ℕ, ◌+◌, ◌≤◌, ◌++◌, ◌∷◌, [], List, length, MatchOption, true};
ghost use Rattle.workload_reader.specs.Fields.{FieldAt, ends_number, behind, Reads};
ghost use Rattle.split_types.specs.EventText.{numerals, flag};
ghost use Rattle.trace_text.specs.EventLines.{is_small, is_wide};
ghost use Rattle.trace_text.specs.Numbers.{small_or_none, wide_or_none, SmallsAt, Widens, HasCounts, Holds, number_words};

use workload_reader::{after, number_at, ranged};

/// The numbers of a line: some of 32 bits, and perhaps one of 64 behind them. One that has more bits counts as 0.
#[derive(Clone, Copy, Debug)]
pub(crate) struct Numbers {
    pub(crate) small: [u32; 7],
    pub(crate) wide: u64,
    /// Whether each has few enough bits.
    pub(crate) within: bool,
}

/// The number behind a space, whether it has at most 64 bits, and what follows it.
fn wide(text: &[u8]) -> Option<(u64, bool, &[u8])>
    ensures { MatchOption result ((n : ℕ) (rest : List ℕ) → FieldAt text.now n rest → ⊥)
        (λ r. (n : ℕ) × FieldAt text.now n r.2.now × (r.0 ≡ wide_or_none n) × (r.1 ≡ is_wide n)) }
{
    let (value, rest) = number_at(after(text, b" ")?)?;
    Some((value.unwrap_or(0), value.is_some(), rest))
}

/// The number behind a space, whether it has at most 32 bits, and what follows it.
fn small(text: &[u8]) -> Option<(u32, bool, &[u8])>
    ensures { MatchOption result ((n : ℕ) (rest : List ℕ) → FieldAt text.now n rest → ⊥)
        (λ r. (n : ℕ) × FieldAt text.now n r.2.now × (r.0 ≡ small_or_none n) × (r.1 ≡ is_small n)) }
{
    let (value, rest) = ranged(text, 0, u32::MAX)?;
    Some((value.unwrap_or(0), value.is_some(), rest))
}

/// So many numbers, each behind a space, and what follows them.
fn smalls(text: &[u8], count: usize) -> Option<(Numbers, &[u8])>
    requires { count ≤ 7 }
    ensures { MatchOption result ((ns : List ℕ) (rest : List ℕ) → length ns ≡ count → ends_number rest ≡ true
        → text.now ≢ behind (numerals ns) rest)
        (λ r. SmallsAt text.now count r.0.small r.0.within r.1.now) }
{
    let mut numbers = Numbers {
        small: [0; 7],
        wide: 0,
        within: true,
    };
    let mut rest = text;
    for i in 0..count {
        let (value, fits, more) = small(rest)?;
        let within = numbers.within && fits;
        numbers.small[i] = value;
        numbers.within = within;
        rest = more;
    }
    Some((numbers, rest))
}

/// The numbers with one of 64 bits more, where one is to follow, and what follows it.
fn widened(numbers: Numbers, text: &[u8], has_wide: bool) -> Option<(Numbers, &[u8])>
    ensures { Widens numbers text.now has_wide result }
{
    if has_wide {
        let (value, fits, rest) = wide(text)?;
        let within = numbers.within && fits;
        let small = numbers.small;
        Some((
            Numbers {
                small,
                wide: value,
                within,
            },
            rest,
        ))
    } else {
        Some((numbers, text))
    }
}

/// So many numbers of 32 bits, and one of 64 where it is to follow, that are all that is left of a line; and the lines
/// that follow.
pub(crate) fn last_numbers(text: &[u8], count: usize, has_wide: bool) -> Option<(Numbers, &[u8])>
    requires { count ≤ 7 }
    ensures { Reads (HasCounts count has_wide) number_words (Holds count has_wide) text.now result }
{
    let (small, rest) = smalls(text, count)?;
    let (numbers, rest) = widened(small, rest, has_wide)?;
    let rest = after(rest, b"\n")?;
    Some((numbers, rest))
}
