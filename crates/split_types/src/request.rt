use crate::ids::{Pid, ReqId, Serial, Txn};

/// What a request to the disk is for.
#[derive(Clone, Copy, Debug, PartialEq, Eq)]
pub enum ReqKind {
    /// A read of a page for a process.
    Read(Pid, Serial, u32),
    /// Pages of a file, from this one on.
    Pages(Serial, u32),
    Log(Txn),
    Commit(Txn),
    Home(Txn),
    Clear(Txn),
}

/// A request for `n` blocks of the disk, from `first` on.
#[derive(Clone, Copy, Debug, PartialEq, Eq)]
pub struct Request {
    pub id: ReqId,
    pub kind: ReqKind,
    pub first: u32,
    pub n: u32,
}

/// Pages of a file that writeback serves together: `n` pages from `page` on.
#[derive(Clone, Copy, Debug, PartialEq, Eq)]
pub struct Run {
    pub serial: Serial,
    pub page: u32,
    pub n: u32,
}

/// What writeback is doing: nothing, or serving a run, whose pages may have got their blocks.
#[derive(Clone, Copy, Debug, PartialEq, Eq)]
pub enum Service {
    Idle,
    Serving(Run),
    Mapped(Run),
}
