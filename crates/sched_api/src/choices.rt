//! The requests among which schedulers choose.
ghost use Rattle.std.specs.Prelude.{◌≡◌, filter, find, slice_get};
ghost use Rattle.split_types.specs.Requests.{is_write};
ghost use Rattle.split_types.specs.Schedulers.{earlier};
ghost use Rattle.block_queue.specs.Backlog.{IsById, is_read};
ghost use Rattle.sched_api.specs.Picks.{oldest_write, eligible_write, oldest_read};

use crate::view::SchedView;
use block_queue::Queue;
use split_types::Request;

/// How many reads stand before the oldest write, where requests stand by rising id. A request stands at the same
/// place among the reads alone exactly where no write is at or before it.
fn reads_in_front(requests: &[Request], reads: &[Request]) -> usize
    requires by_id { IsById requests.now }
    requires reads { reads.now ≡ filter is_read requests.now }
    ensures { slice_get requests.now result ≡ find is_write requests.now }
{
    let mut front = 0;
    let mut end = reads.len();
    while front < end {
        let middle = front + (end - front) / 2;
        if reads[middle].id.0 == requests[middle].id.0 {
            front = middle + 1;
        } else {
            end = middle;
        }
    }
    front
}

/// The write that was added first.
pub fn oldest_write(q: &Queue) -> Option<Request>
    ensures { result ≡ oldest_write q.now.queued }
{
    let requests = q.queued();
    requests.get(reads_in_front(requests, q.reads())).copied()
}

/// The write that was added first, where it may be sent.
pub fn eligible_write(q: &Queue, f: &SchedView<'_>) -> Option<Request>
    ensures { result ≡ eligible_write f.now q.now.queued }
{
    if f.stopped || !f.ordered_done {
        None
    } else {
        oldest_write(q)
    }
}

/// The read that was added first.
pub fn oldest_read(q: &Queue) -> Option<Request>
    ensures { result ≡ oldest_read q.now.queued }
{
    q.reads().first().copied()
}

/// Of two requests, where both are there, the one of the lesser id.
pub fn earlier(a: Option<Request>, b: Option<Request>) -> Option<Request>
    ensures { result ≡ earlier a b }
{
    match (a, b) {
        (None, _) => b,
        (Some(_), None) => a,
        (Some(q), Some(r)) => if q.id.0 < r.id.0 { a } else { b },
    }
}
