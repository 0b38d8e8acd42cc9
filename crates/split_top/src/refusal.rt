//! The line that refuses an input.
ghost use Rattle.std.specs.Prelude.{◌≡◌, ◌∷◌, ◌++◌, IfOk, codes};
ghost use Rattle.line_printer.specs.Puts.{Puts};
ghost use Rattle.split_types.specs.Lines.{numeral};
ghost use Rattle.split_top.specs.Refusals.{cause_word, refusal_text};

use line_printer::{Printer, Sheet, end_line, put_number, put_word};
use std::alloc::{AllocError, Global};
use workload_reader::{Cause, LineFault};

/// About how many bytes the line has.
const LINE: usize = 32;

/// The word of a cause.
fn cause_word(cause: Cause) -> &'static [u8]
    ensures { result.now ≡ cause_word cause }
{
    match cause {
        Cause::Form => b"form",
        Cause::Range => b"range",
        Cause::Ref => b"ref",
        Cause::Name => b"name",
        Cause::Limit => b"limit",
        Cause::Space => b"space",
        Cause::NotBuilt => b"notbuilt",
        Cause::Cut => b"cut",
        Cause::After => b"after",
        Cause::Long => b"long",
    }
}

/// Prints a space, the number of a line, and a colon.
fn put_place<P: Printer>(out: &mut P, line: u32)
    ensures { Puts P.due out.old out.new (32 ∷ numeral line ++ codes ":") }
{
    put_number(out, u64::from(line));
    out.put(b":");
}

/// Prints the line that says which line of an input is refused first, and why.
#[tactic(auto, unfolding(crate::specs::Refusals::refusal_text))]
fn put_refusal<P: Printer>(out: &mut P, fault: LineFault)
    ensures { Puts P.due out.old out.new (refusal_text fault) }
{
    out.put(b"refused");
    put_word(out, b"line");
    put_place(out, fault.line);
    put_word(out, cause_word(fault.cause));
    end_line(out);
}

/// The line that says which line of an input is refused first, and why.
#[tactic(auto, using(line_printer::proofs::Shared::on_sheet))]
pub(crate) fn refusal(alloc: Global, fault: LineFault) -> Result<Vec<u8>, AllocError>
    ensures { IfOk result (λ text. text.items ≡ refusal_text fault) }
{
    let mut sheet = Sheet::with_room(alloc, LINE)?;
    put_refusal(&mut sheet, fault);
    sheet.finish()
}
