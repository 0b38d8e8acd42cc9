//! The events by which a process moves a piece of its call.
ghost use Rattle.std.specs.Prelude.{◌≡◌};

use crate::piece::Piece;
use crate::working_file::WorkingFile;
use split_types::{Actor, Buf, Event, Pid, Reply, ReqId, ReqKind, Request};

/// A piece of a file, and the process that puts or gets it.
#[derive(Clone, Copy, Debug)]
pub(crate) struct Move {
    pub(crate) by: Pid,
    pub(crate) file: WorkingFile,
    pub(crate) piece: Piece,
}

impl Move {
    /// The page of the piece.
    pub(crate) fn buf(&self) -> Buf
        ensures { result ≡ Buf.Page self.now.file.serial self.now.piece.page }
    {
        Buf::Page(self.file.serial, self.piece.page)
    }

    /// The bytes of the piece become `fill`.
    pub(crate) fn put(&self, fill: u8) -> Event
        ensures { let m = self.now in
            result ≡ Event.Put m.by m.file.serial m.piece.page m.piece.from m.piece.to fill }
    {
        Event::Put {
            by: self.by,
            serial: self.file.serial,
            page: self.piece.page,
            from: self.piece.from,
            to: self.piece.to,
            fill: u32::from(fill),
        }
    }

    /// The bytes of the piece, which have this sum, are read.
    pub(crate) fn get(&self, sum: u64) -> Event
        ensures { let m = self.now in
            result ≡ Event.Get m.by m.file.serial m.piece.page m.piece.from m.piece.to sum }
    {
        Event::Get {
            by: self.by,
            serial: self.file.serial,
            page: self.piece.page,
            from: self.piece.from,
            to: self.piece.to,
            sum,
        }
    }

    /// A request of this number reads the page from its block.
    pub(crate) fn load(&self, id: ReqId, block: u32) -> Event
        ensures { let m = self.now in result ≡ Event.Add (Actor.Client m.by) (record {
          id = id;
          kind = ReqKind.Read m.by m.file.serial m.piece.page;
          first = block;
          n = 1;
        }) }
    {
        Event::Add {
            by: Actor::Client(self.by),
            req: Request {
                id,
                kind: ReqKind::Read(self.by, self.file.serial, self.piece.page),
                first: block,
                n: 1,
            },
        }
    }

    /// The call returns, since the page could not be read.
    pub(crate) fn fail(&self) -> Event
        ensures { result ≡ Event.Ret self.now.by Reply.ReadFault }
    {
        Event::Ret {
            by: self.by,
            reply: Reply::ReadFault,
        }
    }

    /// The call returns, since no block can be had for the page; it has put so many bytes.
    pub(crate) fn stop(&self, moved: u32) -> Event
        ensures { result ≡ Event.Ret self.now.by (Reply.NoSpace moved) }
    {
        Event::Ret {
            by: self.by,
            reply: Reply::NoSpace(moved),
        }
    }
}
