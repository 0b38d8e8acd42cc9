//! What the scheduler that sends requests as they come picks.
ghost use Rattle.std.specs.Prelude.{◌≡◌, ◌+◌, ◌<◌, ◌≤◌, OnOk};
ghost use Rattle.sched_api.specs.View.{IsProcess};

use block_queue::Queue;
use sched_api::{
    FifoSched, SchedView, SplitSched, earlier, eligible_write, oldest_read, oldest_write,
};
use split_types::{Event, List, Pid, ReqId, ReqKind, Request, Sched, Serial, Txn, Workload};
use std::alloc::{AllocError, Global};
use std::test::Fail;

/// A moment at which writes may be sent, as far as nothing else is said.
fn view() -> SchedView<'static>
    ensures { IsProcess result 1 }
{
    SchedView {
        clock: 0,
        stopped: false,
        ordered_done: true,
        waiting: &[true],
        syncing: &[false],
        billed: &[0],
        billing: &[0],
        balances: &[],
    }
}

/// What a scheduler picks after an event, where the oldest write may be sent and where it may not.
fn picks<S: SplitSched>(sched: &mut S, q: &Queue) -> Result<(Option<ReqId>, Option<ReqId>), Fail> {
    let mut view = view();
    sched.on_event(&Event::Skip, &view)?;
    let going = if sched.may_admit(Pid(1), &view) {
        sched.pick(q, &view)
    } else {
        None
    };
    view.ordered_done = false;
    let blocked = sched.pick(q, &view);
    Ok((going, blocked))
}

/// A workload of no processes.
fn no_work(alloc: Global) -> Workload {
    Workload {
        version: 1,
        device: 1024,
        cache: 64,
        depth: 1,
        sched: Sched::Fifo,
        accounts: List::new(alloc),
        procs: List::new(alloc),
        files: List::new(alloc),
        calls: List::new(alloc),
        fails: List::new(alloc),
        go: List::new(alloc),
    }
}

/// Adds a request of one block.
fn add(queue: &mut Queue, id: u32, kind: ReqKind) -> Result<(), AllocError>
    requires above { queue.old.next_id ≤ id }
    requires few { id < 100 }
    ensures { OnOk result (queue.new.next_id ≡ id + 1) }
{
    queue.add(Request {
        id: ReqId(id),
        kind,
        first: 526,
        n: 1,
    })
}

/// A queue of a commit and of a read behind it.
fn two_requests(alloc: Global) -> Result<Queue, AllocError> {
    let mut queue = Queue::new(alloc)?;
    add(&mut queue, 2, ReqKind::Commit(Txn(1)))?;
    add(&mut queue, 3, ReqKind::Read(Pid(1), Serial(0), 0))?;
    Ok(queue)
}

#[test]
fn reads_pass_a_commit(rt: HostRuntime) -> Result<(), Fail> {
    let queue = two_requests(rt.alloc())?;
    let mut sched = FifoSched::new(&no_work(rt.alloc()))?;
    let picked = picks(&mut sched, &queue)?;
    assert_eq!(rt; picked, (Some(ReqId(2)), Some(ReqId(3))));
    Ok(())
}

/// The id of a request.
fn id(request: Option<Request>) -> Option<u32> {
    Some(request?.id.0)
}

/// The ids of the oldest write, of the oldest that may be sent, of the oldest read, and of the earlier of the two.
fn oldest(queue: &Queue) -> [Option<u32>; 4] {
    let (write, read) = (oldest_write(queue), oldest_read(queue));
    let eligible = eligible_write(queue, &view());
    [id(write), id(eligible), id(read), id(earlier(read, write))]
}

#[test]
fn the_oldest_write_and_read(rt: HostRuntime) -> Result<(), Fail> {
    let queue = two_requests(rt.alloc())?;
    assert_eq!(rt; oldest(&queue), [Some(2), Some(2), Some(3), Some(2)]);
    Ok(())
}
