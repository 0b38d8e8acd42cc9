//! What comes next in a call that makes a file.
ghost use Rattle.std.specs.Prelude.{◌≡◌, Some};
ghost use Rattle.split_types.specs.Clients.{ClientState, next_of_creat};
ghost use Rattle.client_calls.specs.Shows.{Shows};

use crate::view::ClientView;
use cause_set::TagStore;
use split_types::{Call, Event, Name, Pid, Reply};

/// In an admitted creat of this name: its file is made in the least free slot, with the least serial never used.
pub(crate) fn next_of_creat<S: TagStore>(
    p: Pid,
    v: &ClientView<'_, S>,
    name: &Name,
) -> Option<Event>
    requires { v.now.progress.call ≡ Some (Call.Creat name.now) }
    ensures { (s : ClientState) → Shows p v.now s → result ≡ next_of_creat s }
{
    if v.progress.acted {
        return Some(Event::Ret {
            by: p,
            reply: Reply::Done,
        });
    }
    if v.fs.find(name).is_some() {
        return Some(Event::Ret {
            by: p,
            reply: Reply::Exists,
        });
    }
    match v.fs.to_make() {
        Some((slot, serial)) => Some(Event::Make {
            by: p,
            slot,
            serial,
        }),
        None => Some(Event::Ret {
            by: p,
            reply: Reply::NoSlot,
        }),
    }
}
