//! The text of a report.
//!
//! The contracts say that the bytes are the text that `report_text` of `split_types` gives for the
//! facts, unless there is no memory. The facts themselves are made elsewhere.
//!
//! The program prints reports by `put_report`; `report` gives one as bytes of its own.
#![tactic(auto)]

mod numbered;
mod requests;
mod stack;

ghost use Rattle.std.specs.Prelude.{◌≡◌, ◌+◌, [], ◌∷◌, ◌++◌, length, take, drop, codes, IfOk};
ghost use Rattle.std.specs.List.{enumerate_from};
ghost use Rattle.line_printer.specs.Puts.{Puts};
ghost use Rattle.split_types.specs.Lines.{numeral, line, lines_of};
ghost use Rattle.split_types.specs.ReportText.{report_text, request_words, made_words, made_lines};

use line_printer::{Printer, Sheet, put_number_line};
use numbered::{put_account_lines, put_billed, put_clients};
use requests::put_requests;
use split_types::{Facts, Sched};
use stack::put_stack;
use std::alloc::{AllocError, Global};

/// Prints how many events each client made, and each of the stack's own actors.
fn put_made<P: Printer>(out: &mut P, made: &[u64], clients: usize)
    requires { length made.now ≡ clients + 5 }
    ensures { Puts P.due out.old out.new
        (lines_of made_words (enumerate_from 1 (take clients made.now)) ++ made_lines (drop clients made.now)) }
{
    put_clients(out, &made[..clients]);
    put_stack(out, &made[clients..]);
}

/// Prints the lines of the requests, behind their number.
fn put_front<P: Printer>(out: &mut P, f: &Facts)
    ensures { Puts P.due out.old out.new
        (line (codes "report" ∷ numeral 1 ∷ [])
        ++ line (codes "requests" ∷ numeral (length f.now.reqs) ∷ [])
        ++ lines_of request_words f.now.reqs) }
{
    put_number_line(out, b"report", 1);
    put_number_line(out, b"requests", f.reqs.len() as u64);
    put_requests(out, f.reqs.as_slice());
}

/// Prints the clock, and the end of a report.
fn put_end<P: Printer>(out: &mut P, f: &Facts)
    ensures { Puts P.due out.old out.new
        (line (codes "clock" ∷ numeral f.now.clock ∷ []) ++ line (codes "end" ∷ [])) }
{
    put_number_line(out, b"clock", f.clock);
    out.put(b"end\n");
}

/// Prints the text of a report.
pub fn put_report<P: Printer>(out: &mut P, f: &Facts, sched: Sched)
    requires { length f.now.made ≡ length f.now.billed + 5 }
    ensures { Puts P.due out.old out.new (report_text f.now sched) }
{
    put_front(out, f);
    put_billed(out, f.billed.as_slice());
    put_account_lines(out, sched, f.accounts.as_slice());
    put_made(out, f.made.as_slice(), f.billed.len());
    put_end(out, f);
}

/// The text of a report.
#[tactic(auto, using(line_printer::proofs::Shared::on_sheet))]
pub fn report(alloc: Global, f: &Facts, sched: Sched) -> Result<Vec<u8>, AllocError>
    requires { length f.now.made ≡ length f.now.billed + 5 }
    ensures { IfOk result (λ text. text.items ≡ report_text f.now sched) }
{
    let mut sheet = Sheet::new(alloc);
    put_report(&mut sheet, f, sched);
    sheet.finish()
}
