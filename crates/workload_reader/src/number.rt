//! Numbers at the front of a text.
ghost use Rattle.std.specs.Prelude.{◌≡◌, ◌≢◌, ℕ, ◌==◌, ◌<◌, ◌*◌, ◌+◌, ◌^◌, List, ◌++◌, MatchOption, Some, not, ℤ, pos};
ghost use Rattle.std.specs.Prelude.{negsuc, neg_ℤ};
ghost use Rattle.split_types.specs.Lines.{numeral};
ghost use Rattle.workload_reader.specs.Fields.{ends_number, DigitsAt, NumberAt, FieldAt, AmountAt, IsAmountWithin};
ghost use Rattle.workload_reader.specs.Fields.{narrowed, Keeps, IsWithin};

/// What follows a word that the text begins with.
pub fn after<'a>(text: &'a [u8], word: &[u8]) -> Option<&'a [u8]>
    ensures { MatchOption result ((rest : List ℕ) → text.now ≢ word.now ++ rest)
        (λ rest. text.now ≡ word.now ++ rest.now) }
{
    text.strip_prefix(word)
}

/// A number with one more digit, where 64 bits hold it.
fn with_digit(value: Option<u64>, digit: u8) -> Option<u64>
    requires { digit < 10 }
    ensures { (n : ℕ) → value ≡ narrowed n → result ≡ narrowed (n * 10 + digit) }
{
    value?.checked_mul(10)?.checked_add(u64::from(digit))
}

/// The number whose digits are those of `first` and those at the front, and what follows them.
fn more_digits(first: u64, text: &[u8]) -> (Option<u64>, &[u8])
    requires { 0 < first }
    ensures { (n : ℕ) × DigitsAt first text.now n result.1.now × (result.0 ≡ narrowed n) }
{
    let mut value = Some(first);
    for (i, digit) in text.iter().enumerate() {
        if !digit.is_ascii_digit() {
            return (value, &text[i..]);
        }
        value = with_digit(value, *digit - b'0');
    }
    (value, &text[text.len()..])
}

/// Whether a digit stands at the front.
fn starts_with_digit(text: &[u8]) -> bool
    ensures { ends_number text.now ≡ not result }
{
    match text.first() {
        Some(byte) => byte.is_ascii_digit(),
        None => false,
    }
}

/// The number at the front, where 64 bits hold it, and what follows it.
pub fn number(text: &[u8]) -> Option<(Option<u64>, &[u8])>
    ensures { MatchOption result ((n : ℕ) (rest : List ℕ) → NumberAt text.now n rest → ⊥)
        (λ r. (n : ℕ) × NumberAt text.now n r.1.now × (r.0 ≡ narrowed n)) }
{
    let (first, rest) = text.split_first()?;
    if *first == b'0' {
        if starts_with_digit(rest) {
            None
        } else {
            Some((Some(0), rest))
        }
    } else if first.is_ascii_digit() {
        Some(more_digits(u64::from(*first - b'0'), rest))
    } else {
        None
    }
}

/// The number, where it is in this range, whose ends count.
fn within(value: Option<u64>, low: u32, high: u32) -> Option<u32>
    ensures { (n : ℕ) → value ≡ narrowed n → Keeps (IsWithin low high) n result }
{
    let value = u32::try_from(value?).ok()?;
    if low <= value && value <= high {
        Some(value)
    } else {
        None
    }
}

/// The number at the front, where it is in this range, and what follows it.
pub fn counted(text: &[u8], low: u32, high: u32) -> Option<(Option<u32>, &[u8])>
    ensures { MatchOption result ((n : ℕ) (rest : List ℕ) → NumberAt text.now n rest → ⊥)
        (λ r. (n : ℕ) × NumberAt text.now n r.1.now × Keeps (IsWithin low high) n r.0) }
{
    let (value, rest) = number(text)?;
    Some((within(value, low, high), rest))
}

/// The number that is all of the word, where 32 bits hold it.
pub fn number_of(word: &[u8]) -> Option<u32>
    ensures { MatchOption result ((n : ℕ) → n < 2 ^ 32 → word.now ≢ numeral n) (λ n. word.now ≡ numeral n) }
{
    let (value, rest) = counted(word, 0, u32::MAX)?;
    if rest.is_empty() { value } else { None }
}

/// The number behind a space, where it is in this range, and what follows it.
pub fn ranged(text: &[u8], low: u32, high: u32) -> Option<(Option<u32>, &[u8])>
    ensures { MatchOption result ((n : ℕ) (rest : List ℕ) → FieldAt text.now n rest → ⊥)
        (λ r. (n : ℕ) × FieldAt text.now n r.1.now × Keeps (IsWithin low high) n r.0) }
{
    let (value, rest) = counted(after(text, b" ")?, low, high)?;
    Some((value, rest))
}

/// Whether the number is zero.
fn is_zero(value: Option<u64>) -> bool
    ensures { (n : ℕ) → value ≡ narrowed n → result ≡ (n == 0) }
{
    value == Some(0)
}

/// The amount as far below zero as the number is above, where it is at least `-most`.
fn negated(value: Option<u64>, most: u32) -> Option<i64>
    ensures { (n : ℕ) → value ≡ narrowed (n + 1)
        → Keeps (IsAmountWithin (neg_ℤ (pos most)) (pos most)) (negsuc n) result }
{
    let value = within(value, 1, most)?;
    Some(-i64::from(value))
}

/// The amount below zero whose digits stand at the front, where it is at least `-most`.
fn negative(text: &[u8], most: u32) -> Option<(Option<i64>, &[u8])>
    ensures { MatchOption result ((n : ℕ) (rest : List ℕ) → NumberAt text.now (n + 1) rest → ⊥)
        (λ r. (n : ℕ) × NumberAt text.now (n + 1) r.1.now
        × Keeps (IsAmountWithin (neg_ℤ (pos most)) (pos most)) (negsuc n) r.0) }
{
    let (value, rest) = number(text)?;
    if is_zero(value) {
        None
    } else {
        Some((negated(value, most), rest))
    }
}

/// The amount of zero or more behind a space, where it is at most `most`.
fn positive(text: &[u8], most: u32) -> Option<(Option<i64>, &[u8])>
    ensures { MatchOption result ((n : ℕ) (rest : List ℕ) → FieldAt text.now n rest → ⊥)
        (λ r. (n : ℕ) × FieldAt text.now n r.1.now × Keeps (IsAmountWithin (neg_ℤ (pos most)) (pos most)) (pos n) r.0) }
{
    let (value, rest) = ranged(text, 0, most)?;
    let amount = value.map(|value| i64::from(value));
    Some((amount, rest))
}

/// The amount behind a space, where it stands between `-most` and `most`, and what follows it.
pub(crate) fn amount(text: &[u8], most: u32) -> Option<(Option<i64>, &[u8])>
    ensures { MatchOption result ((z : ℤ) (rest : List ℕ) → AmountAt text.now z rest → ⊥)
        (λ r. (z : ℤ) × AmountAt text.now z r.1.now × Keeps (IsAmountWithin (neg_ℤ (pos most)) (pos most)) z r.0) }
{
    match after(text, b" -") {
        Some(digits) => negative(digits, most),
        None => positive(text, most),
    }
}
