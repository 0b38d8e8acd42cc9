//! How many events the stack's own actors made.
ghost use Rattle.std.specs.Prelude.{◌≡◌, length};
ghost use Rattle.line_printer.specs.Puts.{Puts};
ghost use Rattle.split_types.specs.Lines.{line};
ghost use Rattle.split_types.specs.ReportText.{made_by, made_lines};

use line_printer::{Printer, end_line, put_number, put_word};

/// Prints how many events an actor made.
fn put_made_by<P: Printer>(out: &mut P, actor: &[u8], made: u64)
    ensures { Puts P.due out.old out.new (line (made_by actor.now made)) }
{
    out.put(b"made");
    put_word(out, actor);
    put_number(out, made);
    end_line(out);
}

/// Prints how many events each of the stack's own actors made.
pub(crate) fn put_stack<P: Printer>(out: &mut P, made: &[u64])
    requires { length made.now ≡ 5 }
    ensures { Puts P.due out.old out.new (made_lines made.now) }
{
    put_made_by(out, b"wb", made[0]);
    put_made_by(out, b"cm", made[1]);
    put_made_by(out, b"dq", made[2]);
    put_made_by(out, b"dn", made[3]);
    put_made_by(out, b"tk", made[4]);
}
