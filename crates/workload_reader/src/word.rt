//! Words at the front of a text.
ghost use Rattle.std.specs.Prelude.{◌≡◌, List, ℕ, MatchOption, not};
ghost use Rattle.workload_reader.specs.Fields.{is_end, WordAt, SpacedAt};

use crate::number::after;

/// Whether a word ends in front of this byte.
fn is_end(byte: u8) -> bool
    ensures { result ≡ is_end byte }
{
    byte == b' ' || byte == b'\n'
}

/// The bytes up to the first space or newline, and what follows them from there on.
fn word(text: &[u8]) -> Option<(&[u8], &[u8])>
    ensures { MatchOption result ((word : List ℕ) (rest : List ℕ) → WordAt text.now word rest → ⊥)
        (λ r. WordAt text.now r.0.now r.1.now) }
{
    for (i, byte) in text.iter().enumerate() {
        if is_end(*byte) {
            return Some((&text[..i], &text[i..]));
        }
    }
    None
}

/// The word behind a space, and what follows it from the next space or newline on.
pub(crate) fn spaced(text: &[u8]) -> Option<(&[u8], &[u8])>
    ensures { MatchOption result ((word : List ℕ) (rest : List ℕ) → SpacedAt text.now word rest → ⊥)
        (λ r. SpacedAt text.now r.0.now r.1.now) }
{
    word(after(text, b" ")?)
}
