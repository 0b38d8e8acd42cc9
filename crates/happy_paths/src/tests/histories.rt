ghost use Rattle.std.specs.Prelude.{◌≡◌, ◌<◌};

use hook_events::{History, Steps};
use split_types::{Event, Pid, Serial};
use std::alloc::{AllocError, Global};
use std::marker::Brand;
use std::sync::ledger::{Blank, Ledger};

const PUT: Event = Event::Put {
    by: Pid(3),
    serial: Serial(1),
    page: 900,
    from: 100,
    to: 4096,
    fill: 255,
};

/// What is read of a history of two events, of which one is packed and one kept whole: the newest, the
/// oldest, and how many there are.
fn two_events<L: Ledger>(alloc: Global, blank: Blank) -> Result<(Event, Event, usize), AllocError>
    requires name { blank.name ≡ L.name }
    requires parts { blank.parts ≡ L.parts }
    requires some { 0 < L.parts }
{
    let mut steps: Steps<L> = Steps::new(blank);
    let mut history = History::new(alloc)?;
    history.room(2)?;
    history.push(PUT)?;
    history.push(Event::Tick { d: 7 })?;
    steps.tick();
    let newest = history.at(1, &mut steps);
    Ok((newest, history.at(0, &mut steps), history.len()))
}

#[test]
fn keeps_events_in_order(rt: HostRuntime) {
    let read = two_events::<Brand>(rt.alloc(), Blank::new(1));
    assert!(rt; read == Ok((Event::Tick { d: 7 }, PUT, 2)));
}
