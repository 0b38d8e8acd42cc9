//! The events that numbers make.
ghost use Rattle.std.specs.Prelude.{◌≡◌, ℕ, [], ◌∷◌, slice_index, false};
ghost use Rattle.workload_reader.specs.Fields.{Keeps, IsWithin};
ghost use Rattle.trace_text.specs.EventLines.{IsReplyInRange, Shown};
ghost use Rattle.trace_text.specs.Numbers.{LineNumbers, HasCounts, Holds};
ghost use Rattle.trace_text.specs.Rows.{client_count, client_is_wide, client_event, thread_count, thread_is_wide, thread_line, is_new, map_line, shown, request_count, request_kind, asker, request, request_event, read_event, reply_count, reply_is_wide, reply_of};
ghost use Rattle.trace_text.specs.Tails.{Says};

use crate::numbers::Numbers;
use crate::row::{ClientRow, ReplyRow, RequestRow, ThreadRow};
use split_types::{Actor, Event, Pid, Reply, ReqId, ReqKind, Request, Serial, Slot, Txn};

impl ClientRow {
    /// What the client does.
    fn event(self, by: Pid, n: &Numbers) -> Event
        ensures { result ≡ client_event self by n.now.small (n.now.wide ∷ []) }
    {
        match self {
            ClientRow::Enter => Event::Enter { by, k: n.small[0] },
            ClientRow::Admit => Event::Admit { by },
            ClientRow::Make => Event::Make {
                by,
                slot: Slot(n.small[0]),
                serial: Serial(n.small[1]),
            },
            ClientRow::Put => Event::Put {
                by,
                serial: Serial(n.small[0]),
                page: n.small[1],
                from: n.small[2],
                to: n.small[3],
                fill: n.small[4],
            },
            ClientRow::Get => Event::Get {
                by,
                serial: Serial(n.small[0]),
                page: n.small[1],
                from: n.small[2],
                to: n.small[3],
                sum: n.wide,
            },
            ClientRow::Drop => Event::Drop {
                by,
                slot: Slot(n.small[0]),
                serial: Serial(n.small[1]),
            },
            ClientRow::Flushed => Event::Flushed { by },
            ClientRow::Evict => Event::Evict {
                by,
                serial: Serial(n.small[0]),
                page: n.small[1],
            },
        }
    }

    /// What the client does, where its number and the others are in their ranges.
    pub(crate) fn made(self, by: Option<u32>, n: &Numbers) -> Option<Event>
        ensures { (p most : ℕ) (x : LineNumbers) → Keeps (IsWithin 1 most) p by
            → HasCounts (client_count self) (client_is_wide self) x
            → Holds (client_count self) (client_is_wide self) x n.now
            → Says most (Shown (client_event self (record { 0 = p }) x.0 x.1)) result }
    {
        let by = Pid(by?);
        if n.within {
            Some(self.event(by, n))
        } else {
            None
        }
    }
}

/// Whether a map's blocks are new, where the number says so or not.
fn is_new(number: u32) -> Option<bool>
    ensures { result ≡ is_new number }
{
    match number {
        0 => Some(false),
        1 => Some(true),
        _ => None,
    }
}

/// A map of blocks, where the one number says whether they are new.
fn map_event(n: &Numbers) -> Option<Event>
    ensures { result ≡ shown (map_line n.now.small (slice_index n.now.small 5)) }
{
    let new = is_new(n.small[5])?;
    Some(Event::Map {
        slot: Slot(n.small[0]),
        serial: Serial(n.small[1]),
        page: n.small[2],
        n: n.small[3],
        block: n.small[4],
        new,
        size: n.small[6],
    })
}

impl ThreadRow {
    /// What the thread does.
    fn event(self, n: &Numbers) -> Option<Event>
        ensures { result ≡ shown (thread_line self n.now.small (n.now.wide ∷ [])) }
    {
        match self {
            ThreadRow::Serve => Some(Event::Serve {
                serial: Serial(n.small[0]),
                page: n.small[1],
                n: n.small[2],
            }),
            ThreadRow::Map => map_event(n),
            ThreadRow::Skip => Some(Event::Skip),
            ThreadRow::Seal => Some(Event::Seal {
                t: Txn(n.small[0]),
                k: n.small[1],
            }),
            ThreadRow::Send => Some(Event::Send {
                id: ReqId(n.small[0]),
                cost: n.wide,
            }),
            ThreadRow::Tick => Some(Event::Tick { d: n.wide }),
        }
    }

    /// What the thread does, where the numbers are in their ranges.
    pub(crate) fn made(self, n: &Numbers) -> Option<Event>
        ensures { (most : ℕ) (x : LineNumbers) → HasCounts (thread_count self) (thread_is_wide self) x
            → Holds (thread_count self) (thread_is_wide self) x n.now → Says most (thread_line self x.0 x.1) result }
    {
        if n.within { self.event(n) } else { None }
    }
}

impl RequestRow {
    /// What the request is for.
    fn kind(self, n: &Numbers) -> ReqKind
        ensures { result ≡ request_kind self n.now.small }
    {
        match self {
            RequestRow::Pages => ReqKind::Pages(Serial(n.small[2]), n.small[3]),
            RequestRow::Log => ReqKind::Log(Txn(n.small[2])),
            RequestRow::Commit => ReqKind::Commit(Txn(n.small[2])),
            RequestRow::Home => ReqKind::Home(Txn(n.small[2])),
            RequestRow::Clear => ReqKind::Clear(Txn(n.small[2])),
        }
    }

    /// The thread that adds it.
    fn asker(self) -> Actor
        ensures { result ≡ asker self }
    {
        match self {
            RequestRow::Pages => Actor::Wb,
            _ => Actor::Cm,
        }
    }

    /// A request behind so many others, where the numbers are in their ranges.
    pub(crate) fn made(self, id: u32, n: &Numbers) -> Option<Event>
        ensures { (most : ℕ) (x : LineNumbers) → HasCounts (request_count self) false x
            → Holds (request_count self) false x n.now
            → Says most (Shown (request_event self id x.0)) result }
    {
        if n.within {
            Some(Event::Add {
                by: self.asker(),
                req: request(id, self.kind(n), n),
            })
        } else {
            None
        }
    }
}

/// A request of this kind for the blocks that the first two numbers say.
fn request(id: u32, kind: ReqKind, n: &Numbers) -> Request
    ensures { result ≡ request id kind n.now.small }
{
    Request {
        id: ReqId(id),
        kind,
        first: n.small[0],
        n: n.small[1],
    }
}

/// The request of a page's read behind so many others, where the numbers are in their ranges.
pub(crate) fn made_read(by: Option<u32>, id: u32, n: &Numbers) -> Option<Event>
    ensures { (p most : ℕ) (x : LineNumbers) → Keeps (IsWithin 1 most) p by → HasCounts 4 false x
        → Holds 4 false x n.now
        → Says most (Shown (read_event (record { 0 = p }) id x.0)) result }
{
    let by = Pid(by?);
    if n.within {
        let kind = ReqKind::Read(by, Serial(n.small[2]), n.small[3]);
        Some(Event::Add {
            by: Actor::Client(by),
            req: request(id, kind, n),
        })
    } else {
        None
    }
}

impl ReplyRow {
    /// The answer of these numbers.
    fn reply(self, n: &Numbers) -> Reply
        ensures { result ≡ reply_of self n.now.small (n.now.wide ∷ []) }
    {
        match self {
            ReplyRow::Done => Reply::Done,
            ReplyRow::Count => Reply::Count(n.small[0], n.wide),
            ReplyRow::NoFile => Reply::NoFile,
            ReplyRow::Exists => Reply::Exists,
            ReplyRow::NoSlot => Reply::NoSlot,
            ReplyRow::TooBig => Reply::TooBig,
            ReplyRow::NoSpace => Reply::NoSpace(n.small[0]),
            ReplyRow::Stopped => Reply::Stopped,
            ReplyRow::ReadFault => Reply::ReadFault,
        }
    }

    /// The answer of these numbers, where they are in their ranges.
    pub(crate) fn made(self, n: &Numbers) -> Option<Reply>
        ensures { (x : LineNumbers) → HasCounts (reply_count self) (reply_is_wide self) x
            → Holds (reply_count self) (reply_is_wide self) x n.now
            → Keeps IsReplyInRange (reply_of self x.0 x.1) result }
    {
        if n.within { Some(self.reply(n)) } else { None }
    }
}
