ghost use Rattle.std.specs.Prelude.{◌≡◌, ◌<◌, IsTrue, IfOk};
ghost use Rattle.split_types.specs.History.{adds};

use super::texts::{FILES, ONE};
use hook_events::Steps;
use split_core::{Core, Step};
use split_types::{Actor, Event, Pid, ReqId};
use std::alloc::{AllocError, Global};
use std::marker::Brand;
use std::sync::ledger::{Blank, Ledger};
use std::test::Fail;
use workload_reader::read_workload;

/// A workload, before any event.
fn before_any_event(alloc: Global, text: &str) -> Result<Core, AllocError> {
    match read_workload(alloc, text.as_bytes()) {
        Ok(workload) => Core::new(alloc, workload),
        Err(_fault) => Err(AllocError),
    }
}

/// How many of twenty turns make an event.
fn turns<L: Ledger>(core: &mut Core, steps: &mut Steps<L>) -> Result<u32, AllocError> {
    for made in 0..20 {
        if let Step::Idle = core.finish_turn(steps)? {
            return Ok(made);
        }
    }
    Ok(20)
}

/// Whether the event at a place adds a request.
fn adds_at<L: Ledger>(core: &Core, place: usize, steps: &mut Steps<L>) -> bool
    ensures { IsTrue result → 0 < adds core.now.history }
{
    if place >= core.history().len() {
        return false;
    }
    matches!(core.history().at(place, steps), Event::Add { .. })
}

/// How many processes pay for the request that the event at a place adds.
fn payers<L: Ledger>(core: &Core, place: usize, steps: &mut Steps<L>) -> u32 {
    if adds_at(core, place, steps) {
        core.tag(ReqId(0)).len()
    } else {
        0
    }
}

/// What a step of process 1 does at first, how many turns make an event then, whether the history is drained
/// after them, and how many processes pay for the request that its sixth event adds.
fn stepped<L: Ledger>(
    core: &mut Core,
    steps: &mut Steps<L>,
) -> Result<(Step, u32, bool, u32), AllocError> {
    let first = core.step(Actor::Client(Pid(1)), steps)?;
    let made = turns(core, steps)?;
    Ok((first, made, core.drained(), payers(core, 5, steps)))
}

/// The same, of a new core.
fn seen<L: Ledger>(alloc: Global, blank: Blank) -> Result<(Step, u32, bool, u32), AllocError>
    requires name { blank.name ≡ L.name }
    requires parts { blank.parts ≡ L.parts }
    requires some { 0 < L.parts }
{
    let mut steps: Steps<L> = Steps::new(blank);
    let mut core = before_any_event(alloc, ONE)?;
    stepped(&mut core, &mut steps)
}

/// The clock where the workload's turns are taken and the history is drained, the workload's version, and how many sets
/// are kept once the turns are taken.
fn finished<L: Ledger>(
    alloc: Global,
    core: &mut Core,
    steps: &mut Steps<L>,
) -> Result<(u64, u32, usize), AllocError> {
    core.play(steps)?;
    let sets = core.sets();
    core.drain(steps)?;
    let facts = core.facts(alloc)?;
    Ok((facts.clock, core.workload().version, sets))
}

/// Whether a block of a core's disk has these bytes from a place on.
fn has(core: &Core, block: u32, from: usize, bytes: &[u8]) -> bool {
    let disk = core.disk();
    if block >= disk.blocks() {
        return false;
    }
    match disk.read(block).get(from..) {
        Some(rest) => rest.starts_with(bytes),
        None => false,
    }
}

/// The superblock, the bitmap, the directory, the inode of the first slot and the first block of data, where the disk
/// has 1,024 blocks and a file `a` of one page is there: bytes from a place of a block on.
const AT_THE_START: [(u32, usize, &[u8]); 6] = [
    (0, 0, b"SPLITFS1\x01\0\0\0\0\x04\0\0\0\0"),
    (1, 64, b"\xff\x7f\0\0"),
    (2, 0, b"\x01\0\0\0\x01a\0\0"),
    (6, 0, b"\x01\0\0\0\0\x10\0\0\0\0"),
    (6, 64, b"\x0e\x02\0\0\0\0"),
    (526, 4092, b"AAAA"),
];

#[test]
fn a_disk_has_metadata_and_pages_at_the_start(rt: HostRuntime) -> Result<(), Fail> {
    let core = before_any_event(rt.alloc(), ONE)?;
    assert_eq!(rt; core.disk().blocks(), 1024);
    for (block, from, bytes) in AT_THE_START {
        assert!(rt;
            has(&core, block, from, bytes),
            "block {block} from {from} on"
        );
    }
    Ok(())
}

/// The same, of a new core.
fn played<L: Ledger>(alloc: Global, blank: Blank) -> Result<(u64, u32, usize), AllocError>
    requires name { blank.name ≡ L.name }
    requires parts { blank.parts ≡ L.parts }
    requires some { 0 < L.parts }
{
    let mut steps: Steps<L> = Steps::new(blank);
    let mut core = before_any_event(alloc, ONE)?;
    finished(alloc, &mut core, &mut steps)
}

#[test]
fn a_workload_is_played_and_drained(rt: HostRuntime) -> Result<(), Fail> {
    let shown = played::<Brand>(rt.alloc(), Blank::new(1))?;
    assert_eq!(rt; shown, (52, 1, 0));
    Ok(())
}

/// The same, of a new core that makes and drops files.
fn played_with_files<L: Ledger>(
    alloc: Global,
    blank: Blank,
) -> Result<(u64, u32, usize), AllocError>
    requires name { blank.name ≡ L.name }
    requires parts { blank.parts ≡ L.parts }
    requires some { 0 < L.parts }
{
    let mut steps: Steps<L> = Steps::new(blank);
    let mut core = before_any_event(alloc, FILES)?;
    finished(alloc, &mut core, &mut steps)
}

#[test]
fn files_are_made_and_dropped(rt: HostRuntime) -> Result<(), Fail> {
    let shown = played_with_files::<Brand>(rt.alloc(), Blank::new(1))?;
    assert_eq!(rt; shown, (390, 2, 1));
    Ok(())
}

#[test]
fn a_core_makes_all_events(rt: HostRuntime) -> Result<(), Fail> {
    let all = seen::<Brand>(rt.alloc(), Blank::new(1))?;
    assert_eq!(rt; all, (Step::Made(0), 7, true, 1));
    Ok(())
}
