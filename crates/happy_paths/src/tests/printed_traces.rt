//! A trace that is printed as it was read.
ghost use Rattle.std.specs.Prelude.{◌≡◌, ◌<◌};

use super::found;
use super::texts::RUN;
use hook_events::{History, Steps};
use line_printer::Sheet;
use split_types::Event;
use std::alloc::{AllocError, Global};
use std::marker::Brand;
use std::sync::ledger::{Blank, Ledger};
use std::test::Fail;
use trace_text::{TraceParts, print_trace, put_event, put_trace, read_trace};
use workload_reader::put_workload;

/// A history of these events.
fn history_of(alloc: Global, events: &[Event]) -> Result<History, AllocError> {
    let mut history = History::new(alloc)?;
    for event in events {
        history.push(*event)?;
    }
    Ok(history)
}

/// The text of a trace, printed at once, and once more piece by piece.
fn printed<L: Ledger>(
    alloc: Global,
    trace: &TraceParts,
    blank: Blank,
) -> Result<(Vec<u8>, Vec<u8>), AllocError>
    requires name { blank.name ≡ L.name }
    requires parts { blank.parts ≡ L.parts }
    requires some { 0 < L.parts }
{
    let mut steps: Steps<L> = Steps::new(blank);
    let history = history_of(alloc, trace.events.as_slice())?;
    let text = print_trace(alloc, &trace.w, &history, &mut steps)?;
    let mut sheet = Sheet::new(alloc);
    put_trace(&mut sheet, &trace.w, &history, &mut steps);
    Ok((text, sheet.finish()?))
}

/// The text of a trace's workload, and of its last event.
fn pieces(alloc: Global, trace: &TraceParts) -> Result<Vec<u8>, AllocError> {
    let mut sheet = Sheet::new(alloc);
    put_workload(&mut sheet, &trace.w);
    if let Some(event) = trace.events.as_slice().last() {
        put_event(&mut sheet, event);
    }
    sheet.finish()
}

#[test]
fn a_trace_is_read_and_printed(rt: HostRuntime) -> Result<(), Fail> {
    let alloc = rt.alloc();
    let trace = found(read_trace(alloc, RUN.as_bytes()).ok())?;
    let whole = &RUN.as_bytes()[..trace.rest];
    let (text, on_sheet) = printed::<Brand>(alloc, &trace, Blank::new(1))?;
    assert_eq!(rt; text.as_slice(), whole);
    assert_eq!(rt; on_sheet.as_slice(), whole);
    let text = pieces(alloc, &trace)?;
    assert!(rt; text.ends_with(b"\nend\ndone dn0 1 ok\n"));
    Ok(())
}
