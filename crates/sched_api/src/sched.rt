//! What every scheduler is.
ghost use Rattle.std.specs.Prelude.{◌≡◌, ℕ, List, Bool, Option, option_map, OnOk, OnErr};
ghost use Rattle.split_types.specs.declared.event.Event.{Event as SomeEvent};
ghost use Rattle.split_types.specs.declared.request.Request.{Request as SomeRequest};
ghost use Rattle.sched_api.specs.View.{View, IsProcess};

use crate::view::SchedView;
use block_queue::Queue;
use split_types::{Event, Pid, ReqId};
use std::alloc::AllocError;

/// A scheduler: it admits calls, and picks the next request to send.
pub trait SplitSched {
    // Whether it admits a process, by what it noted so far and by the view.
    ghost admits: { Self → View → ℕ → Bool };

    // Which of the requests that wait, by id, it sends next.
    ghost picks: { Self → View → List SomeRequest → Option SomeRequest };

    // What an event makes of it, with the view of the history before the event.
    ghost notes: { Self → SomeEvent → View → Self → Type 0 };

    /// Takes note of an event; the view is that of the history before it.
    fn on_event(&mut self, e: &Event, f: &SchedView<'_>) -> Result<(), AllocError>
        ensures ok { OnOk result (notes self.old e.now f.now self.new) }
        ensures err { OnErr result (self.new ≡ self.old) };

    /// Whether the call of a process may be admitted.
    fn may_admit(&self, p: Pid, f: &SchedView<'_>) -> bool
        requires { IsProcess f.now p.0 }
        ensures { result ≡ admits self.now f.now p.0 };

    /// The request to send next.
    fn pick(&self, q: &Queue, f: &SchedView<'_>) -> Option<ReqId>
        ensures { result ≡ option_map (λ r. r.id) (picks self.now f.now q.now.queued) };
}
