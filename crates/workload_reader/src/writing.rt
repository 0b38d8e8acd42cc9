//! The text of a workload.
ghost use Rattle.std.specs.Prelude.{◌≡◌, [], ◌∷◌, ◌++◌, IfOk, List, ℕ, codes};
ghost use Rattle.line_printer.specs.Puts.{Puts};
ghost use Rattle.split_types.specs.Lines.{numeral, fields, line, lines_of};
ghost use Rattle.split_types.specs.WorkloadText.{workload_text, sched_word, account_words, process_words, preset_words};
ghost use Rattle.split_types.specs.WorkloadText.{action_fields, call_words, fail_words, go_words};

use line_printer::{
    Printer, Sheet, end_line, put_actor, put_amount, put_number, put_number_line, put_word,
};
use split_types::{Account, Call, Go, Name, Pid, Preset, Process, Sched, Workload};
use std::alloc::{AllocError, Global};

/// About how many bytes a line has.
const LINE: usize = 32;

/// A value that is printed as one line.
trait OnLine {
    // The words of the line.
    ghost words: { Self → List (List ℕ) };

    /// Prints the line.
    fn put_line<P: Printer>(&self, out: &mut P)
        ensures { Puts P.due out.old out.new (line (words self.now)) };
}

/// Prints the lines of all items.
fn put_lines<X: OnLine, P: Printer>(out: &mut P, items: &[X])
    ensures { Puts P.due out.old out.new (lines_of X.words items.now) }
{
    for item in items {
        item.put_line(out);
    }
}

impl OnLine for Account {
    ghost words = { account_words };

    fn put_line<P: Printer>(&self, out: &mut P) {
        out.put(b"account");
        put_number(out, u64::from(self.rate));
        put_number(out, u64::from(self.cap));
        put_amount(out, self.start);
        end_line(out);
    }
}

impl OnLine for Process {
    ghost words = { process_words };

    fn put_line<P: Printer>(&self, out: &mut P) {
        out.put(b"proc");
        put_number(out, u64::from(self.account));
        put_number(out, u64::from(self.weight));
        put_number(out, u64::from(self.deadline));
        end_line(out);
    }
}

impl OnLine for Preset {
    ghost words = { preset_words };

    fn put_line<P: Printer>(&self, out: &mut P) {
        out.put(b"file");
        put_word(out, self.name.as_slice());
        put_number(out, u64::from(self.pages));
        put_number(out, u64::from(self.fill));
        end_line(out);
    }
}

/// Prints a word and a name.
fn put_named<P: Printer>(out: &mut P, word: &[u8], name: &Name)
    ensures { Puts P.due out.old out.new (fields (word.now ∷ name.now ∷ [])) }
{
    put_word(out, word);
    put_word(out, name.as_slice());
}

/// Prints a word, a name and some bytes of that file.
fn put_extent<P: Printer>(out: &mut P, word: &[u8], name: &Name, off: u32, len: u32)
    ensures { Puts P.due out.old out.new (fields (word.now ∷ name.now ∷ numeral off ∷ numeral len ∷ [])) }
{
    put_named(out, word, name);
    put_number(out, u64::from(off));
    put_number(out, u64::from(len));
}

/// Prints the words of what is asked for.
fn put_action<P: Printer>(out: &mut P, call: &Call)
    ensures { Puts P.due out.old out.new (fields (action_fields call.now)) }
{
    match *call {
        Call::Creat { name } => put_named(out, b"creat", &name),
        Call::Write {
            name,
            off,
            len,
            fill,
        } => {
            put_extent(out, b"write", &name, off, len);
            put_number(out, u64::from(fill))
        }
        Call::Read { name, off, len } => put_extent(out, b"read", &name, off, len),
        Call::Fsync { name } => put_named(out, b"fsync", &name),
        Call::Unlink { name } => put_named(out, b"unlink", &name),
    }
}

impl OnLine for (Pid, Call) {
    ghost words = { call_words };

    fn put_line<P: Printer>(&self, out: &mut P) {
        out.put(b"call");
        put_number(out, u64::from(self.0.0));
        put_action(out, &self.1);
        end_line(out);
    }
}

impl OnLine for Go {
    ghost words = { go_words };

    fn put_line<P: Printer>(&self, out: &mut P) {
        out.put(b"go");
        put_actor(out, self.actor);
        put_number(out, u64::from(self.times));
        end_line(out);
    }
}

/// The word of a scheduler.
fn sched_word(sched: Sched) -> &'static [u8]
    ensures { result.now ≡ sched_word sched }
{
    match sched {
        Sched::Fifo => b"fifo",
        Sched::Afq => b"afq",
        Sched::Deadline => b"deadline",
        Sched::Token => b"token",
    }
}

fn put_sched<P: Printer>(out: &mut P, sched: Sched)
    ensures { Puts P.due out.old out.new (line (codes "sched" ∷ sched_word sched ∷ [])) }
{
    out.put(b"sched");
    put_word(out, sched_word(sched));
    end_line(out);
}

/// Prints the line of a send that is done badly.
fn put_fail<P: Printer>(out: &mut P, send: u32)
    ensures { Puts P.due out.old out.new (line (fail_words send)) }
{
    put_number_line(out, b"fail", u64::from(send))
}

/// Prints the lines of the sends that are done badly.
fn put_fails<P: Printer>(out: &mut P, fails: &[u32])
    ensures { Puts P.due out.old out.new (lines_of fail_words fails.now) }
{
    for send in fails {
        put_fail(out, *send);
    }
}

/// Prints the lines before the lists of a workload.
fn put_settings<P: Printer>(out: &mut P, w: &Workload)
    ensures { Puts P.due out.old out.new (
        line (codes "splitload" ∷ numeral w.now.version ∷ [])
        ++ line (codes "device" ∷ numeral w.now.device ∷ [])
        ++ line (codes "cache" ∷ numeral w.now.cache ∷ [])
        ++ line (codes "depth" ∷ numeral w.now.depth ∷ [])
        ++ line (codes "sched" ∷ sched_word w.now.sched ∷ [])) }
{
    put_number_line(out, b"splitload", u64::from(w.version));
    put_number_line(out, b"device", u64::from(w.device));
    put_number_line(out, b"cache", u64::from(w.cache));
    put_number_line(out, b"depth", u64::from(w.depth));
    put_sched(out, w.sched);
}

/// Prints the text of a workload.
pub fn put_workload<P: Printer>(out: &mut P, w: &Workload)
    ensures { Puts P.due out.old out.new (workload_text w.now) }
{
    put_settings(out, w);
    put_lines(out, w.accounts.as_slice());
    put_lines(out, w.procs.as_slice());
    put_lines(out, w.files.as_slice());
    put_lines(out, w.calls.as_slice());
    put_fails(out, w.fails.as_slice());
    put_lines(out, w.go.as_slice());
    out.put(b"end\n");
}

/// The text of a workload.
#[tactic(auto, using(line_printer::proofs::Shared::on_sheet))]
pub fn write_workload(alloc: Global, w: &Workload) -> Result<Vec<u8>, AllocError>
    ensures { IfOk result (λ text. text.items ≡ workload_text w.now) }
{
    let lines = w.calls.len().saturating_add(w.go.len());
    let mut sheet = Sheet::with_room(alloc, lines.saturating_mul(LINE))?;
    put_workload(&mut sheet, w);
    sheet.finish()
}
