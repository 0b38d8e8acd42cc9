//! One line more.
ghost use Rattle.std.specs.Prelude.{◌≡◌, ◌+◌, ℕ, ◌^◌, ◌≤◌, OnOk};
ghost use Rattle.split_types.specs.Workloads.{pages_spanned, span};
ghost use Rattle.workload_reader.specs.declared.line.Line.TheVariants as line;
ghost use Rattle.workload_reader.specs.Adding.{Adds};
ghost use Rattle.workload_reader.specs.Table.{IsRight};

use crate::file_name::FileName;
use crate::line::Line;
use crate::seen::Seen;
use split_types::{Account, Call, Go, Pid, Preset, Process};
use std::alloc::AllocError;

/// The number of pages that a range of bytes spans.
fn pages_spanned(off: u32, len: u32) -> u64
    ensures exact { result ≡ pages_spanned off len }
    ensures few { result ≤ 2 ^ 32 }
{
    let from = u64::from(off);
    let end = from + u64::from(len);
    (end.saturating_sub(1) / 4096).saturating_sub(from / 4096) + 1
}

/// The number of pages that a call spans.
pub(crate) fn span(call: &Call) -> u64
    ensures exact { result ≡ span call.now }
    ensures few { result ≤ 2 ^ 32 }
{
    match *call {
        Call::Write { off, len, .. } => pages_spanned(off, len),
        Call::Read { off, len, .. } => pages_spanned(off, len),
        _ => 0,
    }
}

impl Seen {
    /// Adds an account that is right.
    fn add_account(&mut self, account: Account) -> Result<(), AllocError>
        requires { IsRight self.old.workload (line.Account account) }
        ensures { OnOk result (Adds self.old self.new (line.Account account)) }
    {
        self.workload.accounts.push(account)?;
        self.stage = 6;
        Ok(())
    }

    /// Adds a process that is right.
    fn add_process(&mut self, process: Process) -> Result<(), AllocError>
        requires { IsRight self.old.workload (line.Process process) }
        ensures { OnOk result (Adds self.old self.new (line.Process process)) }
    {
        self.workload.procs.push(process)?;
        self.stage = 7;
        Ok(())
    }

    /// Adds a file that is right.
    fn add_file(&mut self, file: Preset) -> Result<(), AllocError>
        requires { IsRight self.old.workload (line.File file) }
        ensures { OnOk result (Adds self.old self.new (line.File file)) }
    {
        let at = self.workload.files.len();
        let pages = file.pages;
        let name = FileName(file.name);
        self.workload.files.push(file)?;
        self.names.put(at, name);
        self.pages += pages;
        self.stage = 8;
        Ok(())
    }

    /// Adds a call that is right.
    fn add_call(&mut self, by: Pid, call: Call) -> Result<(), AllocError>
        requires { IsRight self.old.workload (line.Call by call) }
        ensures { OnOk result (Adds self.old self.new (line.Call by call)) }
    {
        let spanned = span(&call);
        self.workload.calls.push((by, call))?;
        self.spanned += spanned;
        self.stage = 9;
        Ok(())
    }

    /// Adds turns that are right.
    fn add_go(&mut self, go: Go) -> Result<(), AllocError>
        requires { IsRight self.old.workload (line.Go go) }
        ensures { OnOk result (Adds self.old self.new (line.Go go)) }
    {
        self.workload.go.push(go)?;
        self.turns += go.times;
        self.stage = 11;
        Ok(())
    }

    /// Adds a line that is right.
    pub(crate) fn add(&mut self, line: Line) -> Result<(), AllocError>
        requires { IsRight self.old.workload line }
        ensures { OnOk result (Adds self.old self.new line) }
    {
        match line {
            Line::Version(n) => {
                self.workload.version = n;
                self.stage = 1;
                Ok(())
            }
            Line::Device(n) => {
                self.workload.device = n;
                self.stage = 2;
                Ok(())
            }
            Line::Cache(n) => {
                self.workload.cache = n;
                self.stage = 3;
                Ok(())
            }
            Line::Depth(n) => {
                self.workload.depth = n;
                self.stage = 4;
                Ok(())
            }
            Line::Sched(sched) => {
                self.workload.sched = sched;
                self.stage = 5;
                Ok(())
            }
            Line::Account(account) => self.add_account(account),
            Line::Process(process) => self.add_process(process),
            Line::File(file) => self.add_file(file),
            Line::Call(by, call) => self.add_call(by, call),
            Line::Fail(send) => {
                self.workload.fails.push(send)?;
                self.least_fail = u64::from(send) + 1;
                self.stage = 10;
                Ok(())
            }
            Line::Go(go) => self.add_go(go),
            Line::End => {
                self.stage = 12;
                Ok(())
            }
        }
    }
}
