//! The scheduler that sends requests as they come.
ghost use Rattle.std.specs.Prelude.{◌≡◌, true, IsOk};
ghost use Rattle.sched_api.specs.Picks.{fifo_pick};

use crate::choices::{earlier, eligible_write, oldest_read};
use crate::sched::SplitSched;
use crate::view::SchedView;
use block_queue::Queue;
use split_types::{Event, Pid, ReqId, Workload};
use std::alloc::AllocError;

/// Admits each call, and sends requests in the order in which they were added; reads pass a write that may not be
/// sent yet.
#[derive(Clone, Copy, Debug)]
pub struct FifoSched;

impl FifoSched {
    /// The scheduler for any workload; it takes no memory.
    pub fn new(_w: &Workload) -> Result<FifoSched, AllocError>
        ensures { IsOk result }
    {
        Ok(FifoSched)
    }
}

impl SplitSched for FifoSched {
    ghost admits = { λ s f p. true };

    ghost picks = { λ s f queued. fifo_pick f queued };

    ghost notes = { λ old e f new. new ≡ old };

    fn on_event(&mut self, _e: &Event, _f: &SchedView<'_>) -> Result<(), AllocError>
        ensures succeeds { IsOk result }
        ensures same { self.new ≡ self.old }
    {
        Ok(())
    }

    fn may_admit(&self, _p: Pid, _f: &SchedView<'_>) -> bool {
        true
    }

    fn pick(&self, q: &Queue, f: &SchedView<'_>) -> Option<ReqId> {
        earlier(eligible_write(q, f), oldest_read(q)).map(|r| r.id)
    }
}
