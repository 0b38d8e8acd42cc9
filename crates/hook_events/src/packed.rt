//! Events in few bytes.
ghost use Rattle.std.specs.Prelude.{◌≡◌, ℕ, ◌^◌, ◌<◌, List, length, IfSome};
ghost use Rattle.split_types.specs.declared.event.Event.{Event};
ghost use Rattle.split_types.specs.declared.event.Event.TheVariants as event;
ghost use Rattle.hook_events.specs.Packing.{event_of, IsPlaced};

use split_types::{Actor, Event, Pid, Reply, ReqId, ReqKind, Request, Serial};

/// An event in sixteen bytes: of the kinds that come often, where its numbers are small. Of each other event
/// the place among those that are kept whole.
#[derive(Clone, Copy, Debug)]
pub(crate) enum Packed {
    Enter {
        by: Pid,
        k: u32,
    },
    Admit {
        by: Pid,
    },
    Put {
        fill: u8,
        by: u16,
        serial: u16,
        from: u16,
        to: u16,
        page: u32,
    },
    /// The call of a process returns with the answer that it is done.
    Ret {
        by: Pid,
    },
    Serve {
        serial: Serial,
        page: u32,
        n: u32,
    },
    /// Writeback adds a request for pages.
    Add {
        n: u8,
        serial: u16,
        page: u32,
        first: u32,
        id: ReqId,
    },
    Send {
        id: ReqId,
        cost: u64,
    },
    Done {
        ok: bool,
        k: u32,
        id: ReqId,
    },
    Whole(usize),
}

/// A number in one byte, where it fits.
fn byte(number: u32) -> Option<u8>
    ensures { IfSome result (λ small. small ≡ number) }
{
    if number < 256 {
        Some(number as u8)
    } else {
        None
    }
}

/// A number in two bytes, where it fits.
fn short(number: u32) -> Option<u16>
    ensures { IfSome result (λ small. small ≡ number) }
{
    if number < 65_536 {
        Some(number as u16)
    } else {
        None
    }
}

/// A request that an actor adds, where it is one of writeback for pages.
fn added(by: Actor, req: Request) -> Option<Packed>
    ensures event { IfSome result (λ p. (whole : List Event) → event_of whole p ≡ event.Add by req) }
    ensures placed { IfSome result (λ p. (n : ℕ) → IsPlaced n p) }
{
    let Actor::Wb = by else {
        return None;
    };
    let ReqKind::Pages(serial, page) = req.kind else {
        return None;
    };
    Some(Packed::Add {
        n: byte(req.n)?,
        serial: short(serial.0)?,
        page,
        first: req.first,
        id: req.id,
    })
}

impl Packed {
    /// The event in few bytes, where it is of a kind that comes often and its numbers are small.
    pub(crate) fn new(e: &Event) -> Option<Packed>
        ensures event { IfSome result (λ p. (whole : List Event) → event_of whole p ≡ e.now) }
        ensures placed { IfSome result (λ p. (n : ℕ) → IsPlaced n p) }
    {
        match *e {
            Event::Enter { by, k } => Some(Packed::Enter { by, k }),
            Event::Admit { by } => Some(Packed::Admit { by }),
            Event::Put {
                by,
                serial,
                page,
                from,
                to,
                fill,
            } => Some(Packed::Put {
                fill: byte(fill)?,
                by: short(by.0)?,
                serial: short(serial.0)?,
                from: short(from)?,
                to: short(to)?,
                page,
            }),
            Event::Ret {
                by,
                reply: Reply::Done,
            } => Some(Packed::Ret { by }),
            Event::Serve { serial, page, n } => Some(Packed::Serve { serial, page, n }),
            Event::Add { by, req } => added(by, req),
            Event::Send { id, cost } => Some(Packed::Send { id, cost }),
            Event::Done { k, id, ok } => Some(Packed::Done { ok, k, id }),
            _ => None,
        }
    }

    /// The event, where these are the events that are kept whole.
    pub(crate) fn event(&self, whole: &[Event]) -> Event
        requires { IsPlaced (length whole.now) self.now }
        ensures { result ≡ event_of whole.now self.now }
    {
        match *self {
            Packed::Enter { by, k } => Event::Enter { by, k },
            Packed::Admit { by } => Event::Admit { by },
            Packed::Put {
                fill,
                by,
                serial,
                from,
                to,
                page,
            } => Event::Put {
                by: Pid(u32::from(by)),
                serial: Serial(u32::from(serial)),
                page,
                from: u32::from(from),
                to: u32::from(to),
                fill: u32::from(fill),
            },
            Packed::Ret { by } => Event::Ret {
                by,
                reply: Reply::Done,
            },
            Packed::Serve { serial, page, n } => Event::Serve { serial, page, n },
            Packed::Add {
                n,
                serial,
                page,
                first,
                id,
            } => Event::Add {
                by: Actor::Wb,
                req: Request {
                    id,
                    kind: ReqKind::Pages(Serial(u32::from(serial)), page),
                    first,
                    n: u32::from(n),
                },
            },
            Packed::Send { id, cost } => Event::Send { id, cost },
            Packed::Done { ok, k, id } => Event::Done { k, id, ok },
            Packed::Whole(place) => whole[place],
        }
    }
}
