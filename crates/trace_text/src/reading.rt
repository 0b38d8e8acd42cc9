//! Reading a trace.
ghost use Rattle.std.specs.Prelude.{◌≡◌, ℕ, ◌+◌, ◌<◌, ◌≤◌, ◌^◌, ◌∷◌, List as Items, length};
ghost use Rattle.split_types.specs.History.{adds};
ghost use Rattle.split_types.specs.IsWorkload.{most_processes};
ghost use Rattle.trace_text.specs.Events.{ReadsEvents};
ghost use Rattle.trace_text.specs.ReadsTrace.{ReadsHead, ReadsBody};
ghost use Rattle.trace_text.specs.Reading.{ReadsTrace};

use crate::event_line::read_event;
use crate::first_line::{count_line, first_line, is_mispaired};
use split_types::{Event, List, Workload};
use std::alloc::Global;
use workload_reader::{Cause, LineFault, ReadWorkload, read_front};

/// A trace that was read from the front of a text.
#[derive(Debug, Drop)]
pub struct TraceParts {
    pub w: Workload,
    /// The events, from the oldest on.
    pub events: List<Event>,
    /// The place of the first byte after the trace.
    pub rest: usize,
}

/// The refusal of a line.
fn refused(line: u32, cause: Cause) -> ReadWorkload
    ensures { result ≡ ReadWorkload.Line (record { line = line; cause = cause }) }
{
    ReadWorkload::Line(LineFault { line, cause })
}

/// How many requests the event adds.
fn added(e: &Event) -> u32
    ensures adds { (h : Items Event) → adds (e.now ∷ h) ≡ adds h + result }
    ensures few { result ≤ 1 }
{
    match *e {
        Event::Add { .. } => 1,
        _ => 0,
    }
}

/// So many events, of which `first` is the number of the first one's line, and what follows them; there are at most so
/// many processes.
fn read_events(
    alloc: Global,
    text: &[u8],
    first: u32,
    most: u32,
    count: u32,
) -> Result<(List<Event>, &[u8]), ReadWorkload>
    requires { first + length text.now < 2 ^ 32 }
    ensures { ReadsEvents text.now first most count result }
{
    let mut events = List::new(alloc);
    let mut adds = 0;
    let mut rest = text;
    for i in 0..count {
        match read_event(rest, most, adds) {
            Ok((event, more)) => {
                adds += added(&event);
                events.push(event)?;
                rest = more;
            }
            Err(cause) => return Err(refused(first + i, cause)),
        }
    }
    Ok((events, rest))
}

/// What follows the first line of a trace, where it isn't a workload of which no trace of that version is.
fn read_head(text: &[u8]) -> Result<&[u8], ReadWorkload>
    ensures { ReadsHead text.now result }
{
    match first_line(text) {
        Err(cause) => Err(refused(1, cause)),
        Ok((version, body)) => {
            if is_mispaired(version, body) {
                Err(refused(2, Cause::Form))
            } else {
                Ok(body)
            }
        }
    }
}

/// The greatest number of processes of a workload.
fn most_processes(w: &Workload) -> u32
    ensures { result ≡ most_processes w.now }
{
    if w.version < 3 { 32 } else { 256 }
}

/// The events behind the line of their number, which is the line of number `line`, and what follows them.
fn read_body(
    alloc: Global,
    text: &[u8],
    line: u32,
    most: u32,
) -> Result<(List<Event>, &[u8]), ReadWorkload>
    requires { line + length text.now < 2 ^ 32 }
    ensures { ReadsBody text.now line most result }
{
    match count_line(text) {
        Err(cause) => Err(refused(line, cause)),
        Ok((count, rest)) => read_events(alloc, rest, line + 1, most, count),
    }
}

/// The trace that the text begins with, or the first line that is refused and why.
pub fn read_trace(alloc: Global, text: &[u8]) -> Result<TraceParts, ReadWorkload>
    ensures { ReadsTrace text.now result }
{
    if text.len() > 268_435_456 {
        return Err(refused(0, Cause::Long));
    }
    let body = read_head(text)?;
    let (w, last, line) = read_front(alloc, body, 2)?;
    let (events, rest) = read_body(alloc, last, line, most_processes(&w))?;
    if body.len() - last.len() > 16_777_216 {
        return Err(refused(0, Cause::Long));
    }
    Ok(TraceParts {
        w,
        events,
        rest: text.len() - rest.len(),
    })
}
