//! What a scheduler sees of the stack.
use std::marker::Model;

/// Facts of the stack. Each question to a scheduler comes with them; an event is told with those of the history
/// before it.
#[derive(Drop)]
pub struct SchedView<'a> {
    /// Now.
    pub clock: u64,
    /// Whether the stack has stopped.
    pub stopped: bool,
    /// Whether the ordered data of the oldest write is done ok; true where that is no commit request.
    pub ordered_done: bool,
    /// By process: its call is entered, not admitted and no read.
    pub waiting: &'a [bool],
    /// By process: its call is an admitted fsync.
    pub syncing: &'a [bool],
    /// By process: what it was billed so far.
    pub billed: &'a [u64],
    /// By process: what the event that is told bills it; zeros elsewhere.
    pub billing: &'a [u64],
    /// By account: its balance.
    pub balances: &'a [i64],
}

impl<'a> Model for SchedView<'a> {
    ghost use Rattle.sched_api.specs.View.{View};

    ghost Value = { View };

    ghost view = { λ v. record {
      clock = v.clock;
      stopped = v.stopped;
      ordered_done = v.ordered_done;
      waiting = v.waiting.now;
      syncing = v.syncing.now;
      billed = v.billed.now;
      billing = v.billing.now;
      balances = v.balances.now;
    } };
}
