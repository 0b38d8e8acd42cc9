//! The lines of a trace around those of its workload.
ghost use Rattle.std.specs.Prelude.{◌≡◌, ◌≤◌, ℕ, if◌then◌else◌};
ghost use Rattle.workload_reader.specs.declared.cause.Cause.TheVariants as Cause;
ghost use Rattle.workload_reader.specs.Refusal.{has_newline};
ghost use Rattle.trace_text.specs.TraceLines.{ReadsFirst, VersionAt, Mispairs, ReadsCount, CountAt};

use crate::trace::trace_version;
use workload_reader::{Cause, after, has_newline, ranged};

/// Why a text has no line of a form: it has another line, or none that is whole.
fn formless(text: &[u8]) -> Cause
    ensures { result ≡ (if has_newline text.now then Cause.Form else Cause.Cut) }
{
    if has_newline(text) {
        Cause::Form
    } else {
        Cause::Cut
    }
}

/// The version of the trace, which its first line says, and what follows that line.
pub(crate) fn first_line(text: &[u8]) -> Result<(u64, &[u8]), Cause>
    ensures { ReadsFirst text.now result }
{
    if let Some(rest) = after(text, b"splittrace 1\n") {
        Ok((1, rest))
    } else if let Some(rest) = after(text, b"splittrace 2\n") {
        Ok((2, rest))
    } else {
        Err(formless(text))
    }
}

/// The version of the workload that follows, as its first line says it.
fn version_at(text: &[u8]) -> Option<u32>
    ensures { VersionAt text.now result }
{
    if let Some(_) = after(text, b"splitload 1\n") {
        Some(1)
    } else if let Some(_) = after(text, b"splitload 2\n") {
        Some(2)
    } else if let Some(_) = after(text, b"splitload 3\n") {
        Some(3)
    } else {
        None
    }
}

/// Whether a workload follows of which no trace of this version is.
pub(crate) fn is_mispaired(version: u64, text: &[u8]) -> bool
    ensures { Mispairs version text.now result }
{
    match version_at(text) {
        Some(other) => trace_version(other) != version,
        None => false,
    }
}

/// The number of events, which the line at the front of the text says, where it has at most 32 bits; and what follows.
fn count_at(text: &[u8]) -> Option<(Option<u32>, &[u8])>
    ensures { CountAt text.now result }
{
    let (count, rest) = ranged(after(text, b"events")?, 0, u32::MAX)?;
    let rest = after(rest, b"\n")?;
    Some((count, rest))
}

/// The number of events, which the line at the front of the text says, and what follows that line.
pub(crate) fn count_line(text: &[u8]) -> Result<(u32, &[u8]), Cause>
    ensures { ReadsCount text.now result }
{
    match count_at(text) {
        None => Err(formless(text)),
        Some((None, _)) => Err(Cause::Range),
        Some((Some(count), rest)) => Ok((count, rest)),
    }
}
