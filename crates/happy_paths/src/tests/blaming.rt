ghost use Rattle.std.specs.Prelude.{◌≡◌, ◌<◌, length, IfOk};

use hook_events::{History, Steps};
use provenance::{blame, parents};
use split_types::{
    Actor, Event, List, Pid, ReqId, ReqKind, Request, Sched, Serial, Slot, Txn, Workload,
};
use std::alloc::{AllocError, Global};
use std::marker::Brand;
use std::sync::ledger::{Blank, Ledger};

/// A put of a whole page by this process.
fn put(by: u32) -> Event {
    Event::Put {
        by: Pid(by),
        serial: Serial(0),
        page: 0,
        from: 0,
        to: 4096,
        fill: 66,
    }
}

/// An added request of one block.
fn add(by: Actor, kind: ReqKind, first: u32) -> Event {
    let req = Request {
        id: ReqId(0),
        kind,
        first,
        n: 1,
    };
    Event::Add { by, req }
}

/// A workload that asks for nothing.
fn idle(alloc: Global) -> Workload {
    Workload {
        version: 1,
        device: 1024,
        cache: 64,
        depth: 1,
        sched: Sched::Fifo,
        accounts: List::new(alloc),
        procs: List::new(alloc),
        files: List::new(alloc),
        calls: List::new(alloc),
        fails: List::new(alloc),
        go: List::new(alloc),
    }
}

/// A new file whose page is written before its serve, and once more before its map.
fn written_file(alloc: Global) -> Result<History, AllocError>
    ensures { IfOk result (λ h. length h.events ≡ 9) }
{
    let mut history = History::new(alloc)?;
    let (slot, serial) = (Slot(0), Serial(0));
    history.push(Event::Make {
        by: Pid(1),
        slot,
        serial,
    })?;
    history.push(put(1))?;
    history.push(put(2))?;
    history.push(Event::Serve {
        serial,
        page: 0,
        n: 1,
    })?;
    history.push(put(3))?;
    history.push(Event::Map {
        slot,
        serial,
        page: 0,
        n: 1,
        block: 526,
        new: true,
        size: 4096,
    })?;
    history.push(add(Actor::Wb, ReqKind::Pages(serial, 0), 526))?;
    history.push(Event::Seal { t: Txn(1), k: 3 })?;
    history.push(add(Actor::Cm, ReqKind::Log(Txn(1)), 262))?;
    Ok(history)
}

/// How many processes are to blame for each event.
fn all_blamed<L: Ledger>(
    alloc: Global,
    workload: &Workload,
    history: &History,
    steps: &mut Steps<L>,
) -> Result<List<u32>, AllocError>
    requires { length history.now.events ≡ 9 }
{
    let mut blamed = List::new(alloc);
    for place in 0..history.len() {
        blamed.push(blame(alloc, workload, history, place, steps)?.len())?;
    }
    Ok(blamed)
}

/// The parents of the file's next home request, and how many processes are to blame for each event.
fn look_back<L: Ledger>(alloc: Global, blank: Blank) -> Result<(List<u32>, List<u32>), AllocError>
    requires name { blank.name ≡ L.name }
    requires parts { blank.parts ≡ L.parts }
    requires some { 0 < L.parts }
{
    let mut steps: Steps<L> = Steps::new(blank);
    let history = written_file(alloc)?;
    let home = add(Actor::Cm, ReqKind::Home(Txn(1)), 6);
    let parents = parents(alloc, &history, &home, &mut steps)?;
    let blamed = all_blamed(alloc, &idle(alloc), &history, &mut steps)?;
    Ok((parents, blamed))
}

#[test]
fn goes_back_through_parents(rt: HostRuntime) {
    let seen = look_back::<Brand>(rt.alloc(), Blank::new(1));
    if let Ok((parents, blamed)) = seen {
        assert!(rt; parents.as_slice() == [5, 0].as_slice());
        assert!(rt; blamed.as_slice() == [1, 1, 1, 2, 1, 2, 3, 2, 2].as_slice());
    } else {
        assert!(rt; false);
    }
}
