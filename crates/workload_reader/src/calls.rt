//! The lines of calls, behind their first word.
ghost use Rattle.std.specs.Prelude.{◌≡◌, ◌≢◌, ℕ, ◌≤◌, [], ◌∷◌, ◌++◌, List, IsTrue, MatchOption, drop};
ghost use Rattle.split_types.specs.declared.ids.Pid.{Pid};
ghost use Rattle.split_types.specs.Names.{is_name};
ghost use Rattle.workload_reader.specs.Kinds.{IsNamed, IsRead, IsWrite, IsCreat, IsFsync, IsUnlink};
ghost use Rattle.split_types.specs.Lines.{numeral};
ghost use Rattle.split_types.specs.WorkloadText.{action_fields, call_fields};
ghost use Rattle.workload_reader.specs.Fields.{Keeps, IsWithin, ExtentAt, behind, Reads};
ghost use Rattle.workload_reader.specs.Extent.{IsExtent};
ghost use Rattle.workload_reader.specs.Table.{IsCallInRange, IsOneOf};
ghost use Rattle.workload_reader.specs.Weighed.{Weighed};

use crate::cause::Cause;
use crate::extent::Extent;
use crate::number::{after, ranged};
use crate::word::spaced;
use split_types::{Call, Name, Pid};

/// The bytes of a file that are read or written, behind a space, and what follows them.
fn extent(text: &[u8]) -> Option<(Extent, &[u8])>
    ensures { MatchOption result
        ((name : List ℕ) (off len : ℕ) (rest : List ℕ) → ExtentAt text.now name off len rest → ⊥)
        (λ r. (name : List ℕ) × (off : ℕ) × (len : ℕ) × ExtentAt text.now name off len r.1.now
        × IsExtent name off len r.0) }
{
    let (word, rest) = spaced(text)?;
    let name = Name::new(word)?;
    let (off, rest) = ranged(rest, 0, u32::MAX)?;
    let (len, rest) = ranged(rest, 1, 4_128_768)?;
    Some((Extent { name, off, len }, rest))
}

/// A read of bytes that are in their ranges.
fn read_of(extent: Extent) -> Option<Call>
    ensures { (name : List ℕ) (off len : ℕ) → IsExtent name off len extent
        → Keeps IsCallInRange (Call.Read name off len) result }
{
    let name = extent.name;
    let off = extent.off?;
    let len = extent.len?;
    Some(Call::Read { name, off, len })
}

/// A write of bytes that are in their ranges.
fn write_of(extent: Extent, fill: Option<u32>) -> Option<Call>
    ensures { (name : List ℕ) (off len value : ℕ) → IsExtent name off len extent → Keeps (IsWithin 0 255) value fill
        → Keeps IsCallInRange (Call.Write name off len value) result }
{
    let name = extent.name;
    let off = extent.off?;
    let len = extent.len?;
    let fill = u8::try_from(fill?).ok()?;
    Some(Call::Write {
        name,
        off,
        len,
        fill,
    })
}

/// What follows `read` in a call's line.
fn read(text: &[u8]) -> Option<(Option<Call>, &[u8])>
    ensures { Reads IsRead (λ c. drop 1 (action_fields c)) (Keeps IsCallInRange) text.now result }
{
    let Some((extent, rest)) = extent(text) else {
        return None;
    };
    let rest = after(rest, b"\n")?;
    Some((read_of(extent), rest))
}

/// What follows `write` in a call's line.
fn write(text: &[u8]) -> Option<(Option<Call>, &[u8])>
    ensures { Reads IsWrite (λ c. drop 1 (action_fields c)) (Keeps IsCallInRange) text.now result }
{
    let Some((extent, rest)) = extent(text) else {
        return None;
    };
    let (fill, rest) = ranged(rest, 0, 255)?;
    let rest = after(rest, b"\n")?;
    Some((write_of(extent, fill), rest))
}

/// The name that is all that is left of a line.
fn last_name(text: &[u8]) -> Option<(Name, &[u8])>
    ensures { MatchOption result
        ((name : List ℕ) (rest : List ℕ) → IsTrue (is_name name) → text.now ≢ behind (name ∷ []) (10 ∷ rest))
        (λ r. IsTrue (is_name r.0) × (text.now ≡ behind (r.0 ∷ []) (10 ∷ r.1.now))) }
{
    let (word, rest) = spaced(text)?;
    let name = Name::new(word)?;
    let rest = after(rest, b"\n")?;
    Some((name, rest))
}

/// What follows `creat` in a call's line.
fn creat(text: &[u8]) -> Option<(Option<Call>, &[u8])>
    ensures { Reads IsCreat (λ c. drop 1 (action_fields c)) (Keeps IsCallInRange) text.now result }
{
    match last_name(text) {
        Some((name, rest)) => Some((Some(Call::Creat { name }), rest)),
        None => None,
    }
}

/// What follows `fsync` in a call's line.
fn fsync(text: &[u8]) -> Option<(Option<Call>, &[u8])>
    ensures { Reads IsFsync (λ c. drop 1 (action_fields c)) (Keeps IsCallInRange) text.now result }
{
    match last_name(text) {
        Some((name, rest)) => Some((Some(Call::Fsync { name }), rest)),
        None => None,
    }
}

/// What follows `unlink` in a call's line.
fn unlink(text: &[u8]) -> Option<(Option<Call>, &[u8])>
    ensures { Reads IsUnlink (λ c. drop 1 (action_fields c)) (Keeps IsCallInRange) text.now result }
{
    match last_name(text) {
        Some((name, rest)) => Some((Some(Call::Unlink { name }), rest)),
        None => None,
    }
}

/// What a call's line asks for, behind the process, where its numbers are in their ranges; and the lines that follow.
fn action(text: &[u8]) -> Option<(Option<Call>, &[u8])>
    ensures { Reads IsNamed action_fields (Keeps IsCallInRange) text.now result }
{
    if let Some(rest) = after(text, b" write") {
        write(rest)
    } else if let Some(rest) = after(text, b" read") {
        read(rest)
    } else if let Some(rest) = after(text, b" creat") {
        creat(rest)
    } else if let Some(rest) = after(text, b" fsync") {
        fsync(rest)
    } else {
        unlink(after(text, b" unlink")?)
    }
}

/// The call of numbers that are in their ranges, by a process that exists.
fn call_of(by: Option<u32>, call: Option<Call>) -> Result<(Pid, Call), Cause>
    ensures { (procs : ℕ) (c : Pid × Call) → Keeps (IsWithin 1 procs) c.0.0 by → Keeps IsCallInRange c.1 call
        → Weighed (λ d. IsCallInRange d.1) (λ d. IsOneOf procs d.0.0) c result }
{
    let call = call.ok_or(Cause::Range)?;
    let by = by.ok_or(Cause::Ref)?;
    Ok((Pid(by), call))
}

/// The call of a line, where its numbers are in their ranges and its process is one of so many, and the lines that
/// follow.
pub(crate) fn call(text: &[u8], procs: u32) -> Option<(Result<(Pid, Call), Cause>, &[u8])>
    ensures { Reads (λ c. IsNamed c.1) call_fields
        (Weighed (λ c. IsCallInRange c.1) (λ c. IsOneOf procs c.0.0)) text.now result }
{
    let (by, rest) = ranged(text, 1, procs)?;
    match action(rest) {
        Some(found) => Some((call_of(by, found.0), found.1)),
        None => None,
    }
}
