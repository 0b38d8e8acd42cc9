//! What comes next in a call that works on a file.
ghost use Rattle.std.specs.Prelude.{◌≡◌, ℕ, List, Some};
ghost use Rattle.split_types.specs.declared.call.Call.TheVariants.{Fsync};
ghost use Rattle.split_types.specs.Clients.{ClientState, next_of_write, next_of_fitting, next_of_read, next_of_fsync, next_on_file, next_of_bound};
ghost use Rattle.client_calls.specs.CallFile.{IsBound};
ghost use Rattle.client_calls.specs.Shows.{Shows};

use crate::moves::Move;
use crate::piece::piece_left;
use crate::reads::next_of_get;
use crate::view::ClientView;
use crate::working_file::WorkingFile;
use crate::writes::next_of_put;
use cause_set::TagStore;
use split_types::{Call, Event, Pid, Reply};

/// No file reaches beyond this size.
const MOST_BYTES: u64 = 4_128_768;

/// In a write of `fill` whose file is there: its pieces by rising byte, then its return.
fn next_of_write<S: TagStore>(
    p: Pid,
    v: &ClientView<'_, S>,
    file: WorkingFile,
    fill: u8,
) -> Option<Event>
    requires { IsBound v.now.files.slots v.now.progress.bound file }
    ensures { (s : ClientState) → Shows p v.now s → result ≡ next_of_write s fill }
{
    match piece_left(&v.progress) {
        None => Some(Event::Ret {
            by: p,
            reply: Reply::Done,
        }),
        Some(piece) => {
            let m = Move { by: p, file, piece };
            next_of_put(&m, v, fill)
        }
    }
}

/// The same where it ends at byte `end`: one beyond the size of any file is refused.
fn next_of_fitting<S: TagStore>(
    p: Pid,
    v: &ClientView<'_, S>,
    file: WorkingFile,
    end: u64,
    fill: u8,
) -> Option<Event>
    requires { IsBound v.now.files.slots v.now.progress.bound file }
    ensures { (s : ClientState) → Shows p v.now s → result ≡ next_of_fitting s end fill }
{
    if MOST_BYTES < end {
        return Some(Event::Ret {
            by: p,
            reply: Reply::TooBig,
        });
    }
    next_of_write(p, v, file, fill)
}

/// In a read whose file is there: its pieces by rising byte, then its return.
fn next_of_read<S: TagStore>(p: Pid, v: &ClientView<'_, S>, file: WorkingFile) -> Option<Event>
    requires { IsBound v.now.files.slots v.now.progress.bound file }
    ensures { (s : ClientState) → Shows p v.now s → result ≡ next_of_read s }
{
    match piece_left(&v.progress) {
        None => Some(Event::Ret {
            by: p,
            reply: Reply::Count(v.progress.moved, v.progress.sum),
        }),
        Some(piece) => {
            let m = Move { by: p, file, piece };
            next_of_get(&m, v)
        }
    }
}

/// In an fsync whose file is there: it is flushed once all that was put in the file before it was admitted is on the
/// disk, and returns once the last change of the file before that is committed.
fn next_of_fsync<S: TagStore>(p: Pid, v: &ClientView<'_, S>) -> Option<Event>
    requires { (name : List ℕ) × v.now.progress.call ≡ Some (Fsync name) }
    ensures { (s : ClientState) → Shows p v.now s → result ≡ next_of_fsync s }
{
    if !v.progress.acted {
        return v.flushable.then_some(Event::Flushed { by: p });
    }
    v.committed.then_some(Event::Ret {
        by: p,
        reply: Reply::Done,
    })
}

/// In an admitted call whose file is there.
fn next_on_file<S: TagStore>(
    p: Pid,
    v: &ClientView<'_, S>,
    call: &Call,
    file: WorkingFile,
) -> Option<Event>
    requires call { v.now.progress.call ≡ Some call.now }
    requires file { IsBound v.now.files.slots v.now.progress.bound file }
    ensures { (s : ClientState) → Shows p v.now s → result ≡ next_on_file s call.now file.serial }
{
    match *call {
        Call::Write { off, len, fill, .. } => {
            next_of_fitting(p, v, file, u64::from(off) + u64::from(len), fill)
        }
        Call::Read { .. } => next_of_read(p, v, file),
        Call::Unlink { .. } => Some(Event::Drop {
            by: p,
            slot: file.slot,
            serial: file.serial,
        }),
        Call::Fsync { .. } => next_of_fsync(p, v),
        Call::Creat { .. } => None,
    }
}

/// In an admitted call that works on a file.
pub(crate) fn next_of_bound<S: TagStore>(
    p: Pid,
    v: &ClientView<'_, S>,
    call: &Call,
) -> Option<Event>
    requires { v.now.progress.call ≡ Some call.now }
    ensures { (s : ClientState) → Shows p v.now s → result ≡ next_of_bound s call.now }
{
    match v.working_file() {
        None => Some(Event::Ret {
            by: p,
            reply: Reply::NoFile,
        }),
        Some(file) => next_on_file(p, v, call, file),
    }
}
