use crate::actor::Actor;
use crate::call::Reply;
use crate::ids::{Pid, ReqId, Serial, Slot, Txn};
use crate::request::Request;

/// One step of the stack, as its line in a trace shows it.
#[derive(Clone, Copy, Debug, PartialEq, Eq)]
pub enum Event {
    /// A process enters its call number `k`, counted from 0.
    Enter {
        by: Pid,
        k: u32,
    },
    /// The scheduler lets the call in.
    Admit {
        by: Pid,
    },
    Make {
        by: Pid,
        slot: Slot,
        serial: Serial,
    },
    /// The bytes `from` to `to - 1` of a page become `fill`.
    Put {
        by: Pid,
        serial: Serial,
        page: u32,
        from: u32,
        to: u32,
        fill: u32,
    },
    /// The bytes `from` to `to - 1` of a page are read; `sum` is the sum of their values.
    Get {
        by: Pid,
        serial: Serial,
        page: u32,
        from: u32,
        to: u32,
        sum: u64,
    },
    Drop {
        by: Pid,
        slot: Slot,
        serial: Serial,
    },
    Flushed {
        by: Pid,
    },
    Ret {
        by: Pid,
        reply: Reply,
    },
    /// Writeback begins to serve `n` pages.
    Serve {
        serial: Serial,
        page: u32,
        n: u32,
    },
    /// The pages get blocks (`new`), or the file's size on disk becomes `size`.
    Map {
        slot: Slot,
        serial: Serial,
        page: u32,
        n: u32,
        block: u32,
        new: bool,
        size: u32,
    },
    Skip,
    /// Transaction `t` takes the `k` metadata buffers that are dirty.
    Seal {
        t: Txn,
        k: u32,
    },
    Add {
        by: Actor,
        req: Request,
    },
    Send {
        id: ReqId,
        cost: u64,
    },
    /// The request at place `k` among those in flight is done.
    Done {
        k: u32,
        id: ReqId,
        ok: bool,
    },
    Evict {
        by: Pid,
        serial: Serial,
        page: u32,
    },
    Tick {
        d: u64,
    },
}
