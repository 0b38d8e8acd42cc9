//! The lines of one number or one word.
ghost use Rattle.std.specs.Prelude.{◌≡◌, ⊤, [], ◌∷◌};
ghost use Rattle.split_types.specs.Lines.{numeral};
ghost use Rattle.split_types.specs.WorkloadText.{sched_word};
ghost use Rattle.workload_reader.specs.Fields.{Keeps, IsWithin, Reads};

use crate::number::{after, ranged};
use split_types::Sched;

/// The number that is all of a line behind its first word, where it is in this range, and the lines that follow.
pub(crate) fn setting(text: &[u8], low: u32, high: u32) -> Option<(Option<u32>, &[u8])>
    ensures { Reads (λ _. ⊤) (λ n. numeral n ∷ []) (Keeps (IsWithin low high)) text.now result }
{
    let (value, rest) = ranged(text, low, high)?;
    let rest = after(rest, b"\n")?;
    Some((value, rest))
}

/// The scheduler that is all of a line behind its first word, and the lines that follow.
pub(crate) fn sched(text: &[u8]) -> Option<(Sched, &[u8])>
    ensures { Reads (λ _. ⊤) (λ s. sched_word s ∷ []) (λ s r. r ≡ s) text.now result }
{
    if let Some(rest) = after(text, b" fifo\n") {
        Some((Sched::Fifo, rest))
    } else if let Some(rest) = after(text, b" afq\n") {
        Some((Sched::Afq, rest))
    } else if let Some(rest) = after(text, b" deadline\n") {
        Some((Sched::Deadline, rest))
    } else {
        let rest = after(text, b" token\n")?;
        Some((Sched::Token, rest))
    }
}
