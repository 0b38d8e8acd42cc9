//! One line, read and judged.
ghost use Rattle.std.specs.Prelude.{◌≡◌, ◌<◌, ◌++◌, ℕ, true, length, IfOk, MatchOption, Err};
ghost use Rattle.std.specs.List.{list_any};
ghost use Rattle.workload_reader.specs.Line.{IsFormed, place, stands, text_line};
ghost use Rattle.workload_reader.specs.ReadsLine.{ReadsLine};
ghost use Rattle.workload_reader.specs.Refusal.{has_newline, Stops};
ghost use Rattle.workload_reader.specs.Table.{IsRight};
ghost use Rattle.workload_reader.specs.Rising.{IsLeastAbove};
ghost use Rattle.workload_reader.specs.Taking.{Judges, Takes};

use crate::cause::Cause;
use crate::fault::{LineFault, ReadWorkload};
use crate::line::Line;
use crate::line_at::{Counts, head_at, item_at};
use crate::seen::Seen;
use std::alloc::AllocError;

/// Whether the bytes have a newline.
pub fn has_newline(bytes: &[u8]) -> bool
    ensures { result ≡ has_newline bytes.now }
{
    bytes.iter().any(|byte| *byte == b'\n')
}

impl Seen {
    /// How many accounts and processes there are, and the least send that may be next to be done badly.
    fn counts(&self) -> Counts
        ensures accounts { result.accounts ≡ length self.now.workload.accounts }
        ensures procs { result.procs ≡ length self.now.workload.procs }
        ensures least_fail { IsLeastAbove result.least_fail self.now.workload.fails }
    {
        Counts {
            accounts: self.workload.accounts.len() as u32,
            procs: self.workload.procs.len() as u32,
            least_fail: self.least_fail,
        }
    }

    /// The line at the front of the text that may stand here.
    fn line_at<'a>(&self, text: &'a [u8]) -> Option<(Result<Line, Cause>, &'a [u8])>
        requires { self.now.stage < 12 }
        ensures { ReadsLine self.now.workload self.now.stage text.now result }
    {
        if self.stage < 5 {
            head_at(text, self.stage, self.workload.version)
        } else {
            item_at(text, self.stage, self.counts())
        }
    }

    /// The line at the front of the text and what follows it, or why it is refused.
    fn judge<'a>(&self, text: &'a [u8]) -> Result<(Line, &'a [u8]), Cause>
        requires { self.now.stage < 12 }
        ensures { Judges self.now.workload self.now.stage text.now result }
    {
        match self.line_at(text) {
            None => Err(if has_newline(text) {
                Cause::Form
            } else {
                Cause::Cut
            }),
            Some((Err(cause), _)) => Err(cause),
            Some((Ok(line), rest)) => match self.fault(&line) {
                Some(cause) => Err(cause),
                None => Ok((line, rest)),
            },
        }
    }
}

impl Seen {
    /// Adds the line at the front of the text, and gives what follows it, or why it is refused.
    pub(crate) fn take<'a>(&mut self, text: &'a [u8]) -> Result<Result<&'a [u8], Cause>, AllocError>
        requires { self.old.stage < 12 }
        ensures { IfOk result (λ r. Takes self.old self.new text.now r) }
    {
        match self.judge(text) {
            Err(cause) => Ok(Err(cause)),
            Ok((line, rest)) => {
                self.add(line)?;
                Ok(Ok(rest))
            }
        }
    }
}
