//! The text of a trace.
ghost use Rattle.std.specs.Prelude.{◌≡◌, IfOk, reverse};
ghost use Rattle.line_printer.specs.Puts.{Puts};
ghost use Rattle.split_types.specs.Lines.{lines_of};
ghost use Rattle.split_types.specs.EventText.{event_words};
ghost use Rattle.split_types.specs.TraceText.{trace_version, trace_text};

use crate::event::{LINE, put_event};
use hook_events::{History, Steps};
use line_printer::{Printer, Sheet, put_number_line};
use split_types::Workload;
use std::alloc::{AllocError, Global};
use std::sync::ledger::Ledger;
use workload_reader::put_workload;

/// The number on the first line of a workload's trace.
pub(crate) fn trace_version(version: u32) -> u64
    ensures { result ≡ trace_version version }
{
    if version == 3 { 2 } else { 1 }
}

/// Prints the lines of all events, from the oldest on.
fn put_events<P: Printer, L: Ledger>(out: &mut P, h: &History, steps: &mut Steps<L>)
    ensures { Puts P.due out.old out.new (lines_of event_words (reverse h.now.events)) }
{
    for i in 0..h.len() {
        put_event(out, &h.at(i, steps));
    }
}

/// Prints the text of a trace: the workload, the number of events, and the events from the oldest on. It
/// reads each event once.
pub fn put_trace<P: Printer, L: Ledger>(
    out: &mut P,
    w: &Workload,
    h: &History,
    steps: &mut Steps<L>,
)
    ensures { Puts P.due out.old out.new (trace_text w.now h.now.events) }
{
    put_number_line(out, b"splittrace", trace_version(w.version));
    put_workload(out, w);
    put_number_line(out, b"events", h.len() as u64);
    put_events(out, h, steps);
}

/// The text of a trace, as [`put_trace`] prints it.
#[tactic(auto, using(line_printer::proofs::Shared::on_sheet))]
pub fn print_trace<L: Ledger>(
    alloc: Global,
    w: &Workload,
    h: &History,
    steps: &mut Steps<L>,
) -> Result<Vec<u8>, AllocError>
    ensures { IfOk result (λ text. text.items ≡ trace_text w.now h.now.events) }
{
    let mut sheet = Sheet::with_room(alloc, h.len().saturating_mul(LINE))?;
    put_trace(&mut sheet, w, h, steps);
    sheet.finish()
}
