//! The lines that may stand again, behind their first words.
ghost use Rattle.std.specs.Prelude.{◌≡◌, ℕ, length};
ghost use Rattle.split_types.specs.declared.workload.Workload.{Workload};
ghost use Rattle.split_types.specs.declared.ids.Pid.{Pid};
ghost use Rattle.split_types.specs.IsWorkload.{IsAccount};
ghost use Rattle.workload_reader.specs.Fields.{Keeps, IsWithin, Reads};
ghost use Rattle.workload_reader.specs.Rising.{IsLeastAbove};
ghost use Rattle.workload_reader.specs.Line.{IsAt, line_fields};
ghost use Rattle.workload_reader.specs.Table.{InRange, Refers, IsOneOf, IsActorOf, IsProcessInRange, IsPresetInRange};
ghost use Rattle.workload_reader.specs.Table.{IsCallInRange, IsGoInRange};
ghost use Rattle.workload_reader.specs.Weighed.{Weighed};

use crate::actors::{account, process};
use crate::calls::call;
use crate::cause::Cause;
use crate::files::preset;
use crate::line::Line;
use crate::settings::setting;
use crate::turns::turns;
use split_types::{Account, Call, Go, Pid, Preset, Process};

fn account_of(value: Option<Account>) -> Result<Line, Cause>
    ensures { (w : Workload) (a : Account) → Keeps IsAccount a value
        → Weighed (InRange w) (Refers w) (Line.Account a) result }
{
    let account = value.ok_or(Cause::Range)?;
    Ok(Line::Account(account))
}

/// An account's line.
pub(crate) fn account_line(text: &[u8]) -> Option<(Result<Line, Cause>, &[u8])>
    ensures { (w : Workload) → Reads (IsAt 5) line_fields (Weighed (InRange w) (Refers w)) text.now result }
{
    let (value, rest) = account(text)?;
    Some((account_of(value), rest))
}

fn process_of(value: Result<Process, Cause>) -> Result<Line, Cause>
    ensures { (w : Workload) (p : Process) (accounts : ℕ) → accounts ≡ length w.accounts
        → Weighed IsProcessInRange (λ q. IsOneOf accounts q.account) p value
        → Weighed (InRange w) (Refers w) (Line.Process p) result }
{
    let process = value?;
    Ok(Line::Process(process))
}

/// A process's line.
pub(crate) fn process_line(text: &[u8], accounts: u32) -> Option<(Result<Line, Cause>, &[u8])>
    ensures { (w : Workload) → accounts ≡ length w.accounts
        → Reads (IsAt 6) line_fields (Weighed (InRange w) (Refers w)) text.now result }
{
    let (value, rest) = process(text, accounts)?;
    Some((process_of(value), rest))
}

fn file_of(value: Option<Preset>) -> Result<Line, Cause>
    ensures { (w : Workload) (f : Preset) → Keeps IsPresetInRange f value
        → Weighed (InRange w) (Refers w) (Line.File f) result }
{
    let file = value.ok_or(Cause::Range)?;
    Ok(Line::File(file))
}

/// A file's line.
pub(crate) fn file_line(text: &[u8]) -> Option<(Result<Line, Cause>, &[u8])>
    ensures { (w : Workload) → Reads (IsAt 7) line_fields (Weighed (InRange w) (Refers w)) text.now result }
{
    match preset(text) {
        Some(found) => Some((file_of(found.0), found.1)),
        None => None,
    }
}

fn call_of(value: Result<(Pid, Call), Cause>) -> Result<Line, Cause>
    ensures { (w : Workload) (c : Pid × Call) (procs : ℕ) → procs ≡ length w.procs
        → Weighed (λ d. IsCallInRange d.1) (λ d. IsOneOf procs d.0.0) c value
        → Weighed (InRange w) (Refers w) (Line.Call c.0 c.1) result }
{
    match value {
        Ok(call) => Ok(Line::Call(call.0, call.1)),
        Err(cause) => Err(cause),
    }
}

/// A call's line.
pub(crate) fn call_line(text: &[u8], procs: u32) -> Option<(Result<Line, Cause>, &[u8])>
    ensures { (w : Workload) → procs ≡ length w.procs
        → Reads (IsAt 8) line_fields (Weighed (InRange w) (Refers w)) text.now result }
{
    match call(text, procs) {
        Some(found) => Some((call_of(found.0), found.1)),
        None => None,
    }
}

fn go_of(value: Result<Go, Cause>) -> Result<Line, Cause>
    ensures { (w : Workload) (g : Go) (procs : ℕ) → procs ≡ length w.procs
        → Weighed IsGoInRange (λ h. IsActorOf procs h.actor) g value
        → Weighed (InRange w) (Refers w) (Line.Go g) result }
{
    let go = value?;
    Ok(Line::Go(go))
}

fn fail_of(value: Option<u32>, least: u64) -> Result<Line, Cause>
    ensures { (w : Workload) (s : ℕ) → Keeps (IsWithin 0 4294967295) s value → IsLeastAbove least w.fails
        → Weighed (InRange w) (Refers w) (Line.Fail s) result }
{
    match value {
        Some(send) if least <= u64::from(send) => Ok(Line::Fail(send)),
        _ => Err(Cause::Range),
    }
}

/// The line of a send that is done badly, given the least number that is above those of the lines before.
pub(crate) fn fail_line(text: &[u8], least: u64) -> Option<(Result<Line, Cause>, &[u8])>
    ensures { (w : Workload) → IsLeastAbove least w.fails
        → Reads (IsAt 9) line_fields (Weighed (InRange w) (Refers w)) text.now result }
{
    let (value, rest) = setting(text, 0, u32::MAX)?;
    Some((fail_of(value, least), rest))
}

/// The line of an actor's turns.
pub(crate) fn go_line(text: &[u8], procs: u32) -> Option<(Result<Line, Cause>, &[u8])>
    ensures { (w : Workload) → procs ≡ length w.procs
        → Reads (IsAt 10) line_fields (Weighed (InRange w) (Refers w)) text.now result }
{
    let (value, rest) = turns(text, procs)?;
    Some((go_of(value), rest))
}
