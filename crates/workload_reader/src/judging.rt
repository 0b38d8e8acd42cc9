//! Whether a line is right, given what the lines before it say.
ghost use Rattle.std.specs.Prelude.{◌≡◌, ◌↔◌, ◌+◌, ◌<◌, ◌≤◌, ℕ, length, IsTrue, IsFalse, All, Some, None, MatchOption};
ghost use Rattle.split_types.specs.Workloads.{first_block, preset_pages, span, spans};
ghost use Rattle.std.specs.Str.{bytes_eq};
ghost use Rattle.split_types.specs.IsWorkload.{most_processes};
ghost use Rattle.workload_reader.specs.Table.{InRange, Refers, IsNew, IsFew, Fits, IsBuiltLine, IsRight, Fails};

use crate::adding::span;
use crate::cause::Cause;
use crate::file_name::FileName;
use crate::line::Line;
use crate::seen::Seen;
use split_types::{Call, Name, Sched};

/// Whether what the line asks for is built.
fn is_built(line: &Line) -> bool
    ensures { IsTrue result ↔ IsBuiltLine line.now }
{
    match line {
        Line::Version(n) => *n <= 2,
        Line::Sched(sched) => matches!(sched, Sched::Fifo),
        Line::Fail(_) => false,
        _ => true,
    }
}

impl Seen {
    /// Whether no file has this name.
    fn is_free(&self, name: &Name) -> bool
        ensures { IsTrue result ↔ All (λ g. IsFalse (bytes_eq g.name name.now)) self.now.workload.files }
    {
        match self.names.find(&FileName(*name)) {
            Some(_) => false,
            None => true,
        }
    }

    /// Whether no file has the line's name.
    fn is_new(&self, line: &Line) -> bool
        ensures { IsTrue result ↔ IsNew self.now.workload line.now }
    {
        match line {
            Line::File(file) => self.is_free(&file.name),
            _ => true,
        }
    }

    /// The greatest number of processes.
    fn most_processes(&self) -> usize
        ensures { result ≡ most_processes self.now.workload }
    {
        if self.workload.version < 3 { 32 } else { 256 }
    }

    /// Whether there may be one process more.
    fn has_process_left(&self) -> bool
        ensures { IsTrue result ↔ ((length self.now.workload.procs + 1 ≤ most_processes self.now.workload)
            × (length self.now.workload.procs + 1 < self.now.workload.cache)) }
    {
        let procs = self.workload.procs.len() + 1;
        procs <= self.most_processes() && procs < self.workload.cache as usize
    }

    /// Whether there may be this call more.
    fn has_call_left(&self, call: &Call) -> bool
        ensures { IsTrue result
            ↔ ((length self.now.workload.calls + 1 ≤ 65536) × (spans self.now.workload + span call.now ≤ 131072)) }
    {
        self.workload.calls.len() < 65536 && self.spanned + span(call) <= 131_072
    }

    /// Whether with the line there are few enough.
    fn is_few(&self, line: &Line) -> bool
        ensures { IsTrue result ↔ IsFew self.now.workload line.now }
    {
        match line {
            Line::Account(_) => self.workload.accounts.len() < 32,
            Line::Process(_) => self.has_process_left(),
            Line::File(_) => self.workload.files.len() < 256,
            Line::Call(_, call) => self.has_call_left(call),
            Line::Go(go) => u64::from(self.turns) + u64::from(go.times) <= 16_777_216,
            _ => true,
        }
    }

    /// The first block of data.
    fn first_block(&self) -> u64
        ensures { result ≡ first_block self.now.workload }
    {
        if self.workload.version < 2 { 526 } else { 1318 }
    }

    /// Whether with the line the files fit into the disk.
    fn fits(&self, line: &Line) -> bool
        ensures { IsTrue result ↔ Fits self.now.workload line.now }
    {
        match line {
            Line::File(file) => {
                let pages = u64::from(self.pages) + u64::from(file.pages);
                self.first_block() + pages <= u64::from(self.workload.device)
            }
            _ => true,
        }
    }

    /// The first thing that is wrong with a line whose numbers are in their ranges and which names what exists.
    pub(crate) fn fault(&self, line: &Line) -> Option<Cause>
        requires in_range { InRange self.now.workload line.now }
        requires refers { Refers self.now.workload line.now }
        ensures { MatchOption result (IsRight self.now.workload line.now) (λ c. Fails self.now.workload line.now c) }
    {
        if !self.is_new(line) {
            Some(Cause::Name)
        } else if !self.is_few(line) {
            Some(Cause::Limit)
        } else if !self.fits(line) {
            Some(Cause::Space)
        } else if !is_built(line) {
            Some(Cause::NotBuilt)
        } else {
            None
        }
    }
}
