//! Requests through a queue.
ghost use Rattle.std.specs.Prelude.{◌≡◌};

use block_queue::Queue;
use split_types::{Pid, ReqId, ReqKind, Request, Serial};
use std::test::Fail;

/// A request of this id for one block.
fn request(id: u32, kind: ReqKind) -> Request
    ensures { result ≡ record { id = record { 0 = id }; kind = kind; first = 526; n = 1 } }
{
    Request {
        id: ReqId(id),
        kind,
        first: 526,
        n: 1,
    }
}

#[test]
fn passes_requests_on(rt: HostRuntime) -> Result<(), Fail> {
    let write = request(3, ReqKind::Pages(Serial(0), 0));
    let read = request(4, ReqKind::Read(Pid(1), Serial(0), 7));
    let mut queue = Queue::new(rt.alloc())?;
    queue.room(1)?;
    queue.add(write)?;
    queue.add(read)?;
    let (both, reads) = ([write, read], [read]);
    assert_eq!(rt;
        (queue.queued(), queue.reads()),
        (both.as_slice(), reads.as_slice())
    );
    queue.send(ReqId(4), 52);
    let sent = (queue.in_flight(), queue.peek_done(0));
    let done = queue.done(0);
    assert_eq!(rt; queue.queued(), [write].as_slice());
    assert_eq!(rt; (sent, done), ((1, (read, 52)), (read, 52)));
    Ok(())
}
