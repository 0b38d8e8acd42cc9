//! Pairs of a buffer and a process.
use split_types::{Buf, Pid, ReqId};

/// An estimate that is held back from a process's account: what it will cost to write a buffer out.
#[derive(Clone, Copy, Debug)]
pub struct Pair {
    pub buf: Buf,
    pub by: Pid,
    /// Units of cost.
    pub estimate: u64,
    /// The number under which the buffer was taken to be written out, if it was.
    pub mark: Option<ReqId>,
}
