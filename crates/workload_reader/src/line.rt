use split_types::{Account, Call, Go, Pid, Preset, Process, Sched};

/// A line of a workload's text.
#[derive(Clone, Copy)]
pub(crate) enum Line {
    Version(u32),
    Device(u32),
    Cache(u32),
    Depth(u32),
    Sched(Sched),
    Account(Account),
    Process(Process),
    File(Preset),
    Call(Pid, Call),
    Fail(u32),
    Go(Go),
    End,
}
