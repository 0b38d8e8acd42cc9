//! What a process does next.
use cause_set::PlainTags;
use client_calls::{
    ClientNext, ClientView, Piece, Progress, next_before_admit, next_event, next_of, piece_left,
};
use delayed_alloc::Alloc;
use page_cache::Cache;
use small_fs::Fs;
use split_types::{
    Actor, Call, Event, Name, Pid, Preset, Reply, ReqId, ReqKind, Request, Serial, Slot,
};
use std::alloc::{AllocError, Global};
use std::test::Fail;

/// A call that is admitted, on a file of three pages, before its first piece.
fn admitted(call: Call) -> Progress {
    Progress {
        call: Some(call),
        number: 0,
        entered: true,
        admitted: true,
        acted: false,
        bound: Some(Serial(0)),
        size_at_admit: 12288,
        moved: 0,
        sum: 0,
        bad_read: false,
    }
}

/// A read of 8,192 bytes from byte 100 on.
fn reading(name: Name) -> Call {
    Call::Read {
        name,
        off: 100,
        len: 8192,
    }
}

/// A file system with one file of three pages, from block 526 on.
fn three_pages(alloc: Global, name: Name) -> Result<Fs, AllocError> {
    let file = Preset {
        name,
        pages: 3,
        fill: 65,
    };
    Fs::new(alloc, &[file], 526)
}

/// What process 1 does next in an admitted call, and its next event, where `name` has three pages, none of them is held,
/// and no block is free.
fn next_in(
    alloc: Global,
    name: Name,
    call: Call,
) -> Result<(ClientNext, Option<Event>), AllocError> {
    let cache = Cache::<PlainTags>::new(alloc, 4)?;
    let fs = three_pages(alloc, name)?;
    let blocks = Alloc::new(alloc, 1024, 498)?;
    let view = ClientView {
        cache: &cache,
        places: 4,
        n: 1,
        fs: &fs,
        alloc: &blocks,
        mapped: None,
        progress: admitted(call),
        may_admit: true,
        flushable: false,
        committed: false,
        next_id: ReqId(7),
    };
    Ok((next_of(Pid(1), &view), next_event(Pid(1), &view)))
}

#[test]
fn the_first_piece_ends_with_its_page(rt: HostRuntime) -> Result<(), Fail> {
    let name = super::found(Name::new(b"a"))?;
    let piece = Piece {
        page: 0,
        from: 100,
        to: 4096,
    };
    assert_eq!(rt; piece_left(&admitted(reading(name))), Some(piece));
    Ok(())
}

#[test]
fn a_page_that_is_not_held_is_read(rt: HostRuntime) -> Result<(), Fail> {
    let name = super::found(Name::new(b"a"))?;
    let req = Request {
        id: ReqId(7),
        kind: ReqKind::Read(Pid(1), Serial(0), 0),
        first: 526,
        n: 1,
    };
    let due = Event::Add {
        by: Actor::Client(Pid(1)),
        req,
    };
    let (next, event) = next_in(rt.alloc(), name, reading(name))?;
    assert_eq!(rt; next, ClientNext::Act(due));
    assert_eq!(rt; event, Some(due));
    Ok(())
}

/// A write of 10 bytes.
fn writing(name: Name, off: u32) -> Call {
    Call::Write {
        name,
        off,
        len: 10,
        fill: 7,
    }
}

/// Process 1's call returns.
fn ret(reply: Reply) -> Event {
    Event::Ret { by: Pid(1), reply }
}

#[test]
fn files_are_made_dropped_and_full(rt: HostRuntime) -> Result<(), Fail> {
    let a = super::found(Name::new(b"a"))?;
    let b = super::found(Name::new(b"b"))?;
    let by = Pid(1);
    let (slot, serial) = (Slot(1), Serial(1));
    let made = Event::Make { by, slot, serial };
    let (slot, serial) = (Slot(0), Serial(0));
    let dropped = Event::Drop { by, slot, serial };
    let rows = [
        (Call::Creat { name: b }, made),
        (Call::Creat { name: a }, ret(Reply::Exists)),
        (Call::Unlink { name: a }, dropped),
        (writing(a, 12288), ret(Reply::NoSpace(0))),
        (writing(a, 4128768), ret(Reply::TooBig)),
    ];
    for (call, due) in rows {
        let (next, event) = next_in(rt.alloc(), a, call)?;
        assert_eq!(rt; next, ClientNext::Act(due), "{call:?}");
        assert_eq!(rt; event, Some(due), "{call:?}");
    }
    Ok(())
}

/// What process 1 does next in an admitted fsync of the file of three pages, which was flushed or not, where its data is on
/// the disk or not, and the file's last change is committed or not.
fn next_in_fsync(
    alloc: Global,
    name: Name,
    acted: bool,
    flushable: bool,
    committed: bool,
) -> Result<ClientNext, AllocError> {
    let cache = Cache::<PlainTags>::new(alloc, 4)?;
    let fs = three_pages(alloc, name)?;
    let blocks = Alloc::new(alloc, 1024, 498)?;
    let view = ClientView {
        cache: &cache,
        places: 4,
        n: 1,
        fs: &fs,
        alloc: &blocks,
        mapped: None,
        progress: Progress {
            acted,
            ..admitted(Call::Fsync { name })
        },
        may_admit: true,
        flushable,
        committed,
        next_id: ReqId(7),
    };
    Ok(next_of(Pid(1), &view))
}

#[test]
fn an_fsync_is_flushed_and_returns(rt: HostRuntime) -> Result<(), Fail> {
    let name = super::found(Name::new(b"a"))?;
    let flushed = Event::Flushed { by: Pid(1) };
    let rows = [
        (false, false, true, ClientNext::Wait),
        (false, true, false, ClientNext::Act(flushed)),
        (true, true, false, ClientNext::Wait),
        (true, true, true, ClientNext::Act(ret(Reply::Done))),
    ];
    for (acted, flushable, committed, due) in rows {
        let next = next_in_fsync(rt.alloc(), name, acted, flushable, committed)?;
        assert_eq!(rt; next, due, "{acted} {flushable} {committed}");
    }
    Ok(())
}

/// The next event of process 2 by its progress alone, whose scheduler lets calls in.
fn next_early(progress: &Progress) -> Option<Option<Event>> {
    next_before_admit(Pid(2), progress, true)
}

#[test]
fn a_call_is_entered_and_let_in_without_a_view(rt: HostRuntime) -> Result<(), Fail> {
    let name = super::found(Name::new(b"a"))?;
    let inside = admitted(reading(name));
    let outside = Progress {
        number: 3,
        entered: false,
        admitted: false,
        ..inside
    };
    let waiting = Progress {
        entered: true,
        ..outside
    };
    let enters = Event::Enter { by: Pid(2), k: 3 };
    assert_eq!(rt; next_early(&outside), Some(Some(enters)));
    assert_eq!(rt;
        next_early(&waiting),
        Some(Some(Event::Admit { by: Pid(2) }))
    );
    assert_eq!(rt; next_early(&inside), None);
    assert_eq!(rt; next_before_admit(Pid(2), &waiting, false), Some(None));
    let ended = Progress {
        call: None,
        ..outside
    };
    assert_eq!(rt; next_early(&ended), Some(None));
    Ok(())
}
