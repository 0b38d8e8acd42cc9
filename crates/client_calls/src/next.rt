//! What a process does next.
ghost use Rattle.std.specs.Prelude.{◌≡◌, Some, is_none, IfSome};
ghost use Rattle.split_types.specs.Clients.{ClientState, next_of_client};
ghost use Rattle.client_calls.specs.Shows.{Shows, ShowsCall, is_let_in, answer_of};

use crate::bound::next_of_bound;
use crate::files::next_of_creat;
use crate::progress::Progress;
use crate::view::ClientView;
use cause_set::TagStore;
use split_types::{Call, Event, Pid, Reply};

/// What a process does next.
#[derive(Clone, Copy, Debug, PartialEq, Eq)]
pub enum ClientNext {
    /// No call is under way, and none is left.
    Nothing,
    /// Its call is under way or left, and waits.
    Wait,
    /// It makes this event.
    Act(Event),
}

/// The next event of a process whose call isn't let in yet, or that has none left: it enters the call, or is let in
/// where the scheduler does that, or there is no event. `None` exactly where its call is let in; then [`next_event`] says
/// how it goes on.
pub fn next_before_admit(p: Pid, progress: &Progress, may_admit: bool) -> Option<Option<Event>>
    ensures none { is_none result ≡ is_let_in progress.now }
    ensures next { IfSome result (λ next. (s : ClientState) → ShowsCall p progress.now may_admit s
        → next ≡ next_of_client s) }
{
    match &progress.call {
        None => Some(None),
        Some(_) if !progress.entered => Some(Some(Event::Enter {
            by: p,
            k: progress.number,
        })),
        Some(_) if !progress.admitted => Some(may_admit.then_some(Event::Admit { by: p })),
        Some(_) => None,
    }
}

/// The next event of a process: the one that its table gives for what it sees. There is none where it waits, or has no
/// call left.
pub fn next_event<S: TagStore>(p: Pid, v: &ClientView<'_, S>) -> Option<Event>
    ensures { (s : ClientState) → Shows p v.now s → result ≡ next_of_client s }
{
    let progress = &v.progress;
    if let Some(next) = next_before_admit(p, progress, v.may_admit) {
        return next;
    }
    match &progress.call {
        None => None,
        Some(Call::Creat { name }) => next_of_creat(p, v, name),
        Some(Call::Unlink { .. }) if progress.acted => Some(Event::Ret {
            by: p,
            reply: Reply::Done,
        }),
        Some(call) => next_of_bound(p, v, call),
    }
}

/// What a process does next: its next event, if it has one. It waits where it has none, and a call is under way or left.
pub fn next_of<S: TagStore>(p: Pid, v: &ClientView<'_, S>) -> ClientNext
    ensures { (s : ClientState) → Shows p v.now s → result ≡ answer_of (next_of_client s) s.call }
{
    match next_event(p, v) {
        Some(e) => ClientNext::Act(e),
        None if v.progress.call.is_some() => ClientNext::Wait,
        None => ClientNext::Nothing,
    }
}
