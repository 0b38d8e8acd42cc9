//! A line at the front of a text.
ghost use Rattle.std.specs.Prelude.{◌≡◌, ◌<◌, ◌≤◌, length};
ghost use Rattle.split_types.specs.declared.workload.Workload.{Workload};
ghost use Rattle.workload_reader.specs.Fields.{Reads};
ghost use Rattle.workload_reader.specs.Line.{IsAt, line_fields};
ghost use Rattle.workload_reader.specs.Rising.{IsLeastAbove};
ghost use Rattle.workload_reader.specs.Table.{InRange, Refers};
ghost use Rattle.workload_reader.specs.Weighed.{Weighed};
ghost use Rattle.workload_reader.specs.ReadsLine.{ReadsLine};

use crate::cause::Cause;
use crate::heads::{cache_line, depth_line, device_line, sched_line, version_line};
use crate::items::{account_line, call_line, fail_line, file_line, go_line, process_line};
use crate::line::Line;
use crate::number::after;

/// The line of this place, which stands once, and what follows it.
pub(crate) fn head_at(text: &[u8], stage: u32, version: u32) -> Option<(Result<Line, Cause>, &[u8])>
    requires { stage < 5 }
    ensures { (w : Workload) → w.version ≡ version → ReadsLine w stage text.now result }
{
    match stage {
        0 => version_line(after(text, b"splitload")?),
        1 => device_line(after(text, b"device")?, version),
        2 => cache_line(after(text, b"cache")?),
        3 => depth_line(after(text, b"depth")?),
        _ => sched_line(after(text, b"sched")?),
    }
}

/// The last line, and what follows it.
fn end_line(text: &[u8]) -> Option<(Result<Line, Cause>, &[u8])>
    ensures { (w : Workload) → Reads (IsAt 11) line_fields (Weighed (InRange w) (Refers w)) text.now result }
{
    let rest = after(text, b"\n")?;
    Some((Ok(Line::End), rest))
}

/// How many accounts and processes the lines before say, and the least send that may be next to be done badly.
#[derive(Clone, Copy, Debug)]
pub(crate) struct Counts {
    pub(crate) accounts: u32,
    pub(crate) procs: u32,
    pub(crate) least_fail: u64,
}

/// The line of this place or a later one, and what follows it.
pub(crate) fn item_at(
    text: &[u8],
    stage: u32,
    counts: Counts,
) -> Option<(Result<Line, Cause>, &[u8])>
    requires first { 5 ≤ stage }
    requires open { stage < 12 }
    ensures { (w : Workload) → counts.accounts ≡ length w.accounts → counts.procs ≡ length w.procs
        → IsLeastAbove counts.least_fail w.fails
        → ReadsLine w stage text.now result }
{
    if let Some(rest) = after(text, b"go") {
        go_line(rest, counts.procs)
    } else if let Some(rest) = after(text, b"call") {
        if stage <= 9 {
            call_line(rest, counts.procs)
        } else {
            None
        }
    } else if let Some(rest) = after(text, b"file") {
        if stage <= 8 { file_line(rest) } else { None }
    } else if let Some(rest) = after(text, b"proc") {
        if stage <= 7 {
            process_line(rest, counts.accounts)
        } else {
            None
        }
    } else if let Some(rest) = after(text, b"account") {
        if stage <= 6 { account_line(rest) } else { None }
    } else if let Some(rest) = after(text, b"fail") {
        if stage <= 10 {
            fail_line(rest, counts.least_fail)
        } else {
            None
        }
    } else {
        end_line(after(text, b"end")?)
    }
}
