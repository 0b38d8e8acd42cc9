//! Which buffers an event dirties and frees, and who makes it.
ghost use Rattle.std.specs.Prelude.{◌≡◌};
ghost use Rattle.split_types.specs.Hooks.{dirties, freed_file, maker};

use crate::actor::Actor;
use crate::buf::{Buf, BufList};
use crate::event::Event;
use crate::ids::Serial;

/// The buffers that an event dirties.
pub fn dirties(e: &Event) -> BufList
    ensures { result ≡ dirties e.now }
{
    match *e {
        Event::Make {
            by: _,
            slot,
            serial: _,
        } => { BufList::two(Buf::Dir(slot.0 / 64), Buf::Inode(slot)) }
        Event::Put {
            by: _,
            serial,
            page,
            from: _,
            to: _,
            fill: _,
        } => { BufList::one(Buf::Page(serial, page)) }
        Event::Drop {
            by: _,
            slot,
            serial: _,
        } => { BufList::three(Buf::Dir(slot.0 / 64), Buf::Inode(slot), Buf::Bitmap) }
        Event::Map {
            slot,
            serial: _,
            page: _,
            n: _,
            block: _,
            new,
            size: _,
        } => {
            if new {
                BufList::two(Buf::Inode(slot), Buf::Bitmap)
            } else {
                BufList::one(Buf::Inode(slot))
            }
        }
        _ => BufList::none(),
    }
}

/// The file of which an event frees all data pages; none where the event is no drop.
pub fn frees(e: &Event) -> Option<Serial>
    ensures { result ≡ freed_file e.now }
{
    match *e {
        Event::Drop {
            by: _,
            slot: _,
            serial,
        } => Some(serial),
        _ => None,
    }
}

/// The actor that makes an event: the one on its line in a trace.
pub fn actor_of(e: &Event) -> Actor
    ensures { result ≡ maker e.now }
{
    match *e {
        Event::Enter { by, .. }
        | Event::Admit { by }
        | Event::Make { by, .. }
        | Event::Put { by, .. }
        | Event::Get { by, .. }
        | Event::Drop { by, .. }
        | Event::Flushed { by }
        | Event::Ret { by, .. }
        | Event::Evict { by, .. } => Actor::Client(by),
        Event::Serve { .. } | Event::Map { .. } | Event::Skip => Actor::Wb,
        Event::Seal { .. } => Actor::Cm,
        Event::Add { by, .. } => by,
        Event::Send { .. } => Actor::Dq,
        Event::Done { k, .. } => Actor::Dn(k),
        Event::Tick { .. } => Actor::Tk,
    }
}
