//! What comes next with a piece of a read.
ghost use Rattle.std.specs.Prelude.{◌≡◌, ◌<◌, ◌≤◌};
ghost use Rattle.split_types.specs.Clients.{PieceState, next_of_load, next_of_get};
ghost use Rattle.client_calls.specs.CallFile.{IsThere};
ghost use Rattle.client_calls.specs.Shows.{ShowsPiece};

use crate::moves::Move;
use crate::view::ClientView;
use cause_set::TagStore;
use split_types::Event;

/// In a page that isn't held, and has this block.
fn next_of_load<S: TagStore>(m: &Move, v: &ClientView<'_, S>, block: u32) -> Option<Event>
    ensures { (s : PieceState) → ShowsPiece m.now.by m.now.file.serial m.now.piece v.now s
        → result ≡ next_of_load s block }
{
    if v.is_full() {
        return v.evict(m.by);
    }
    Some(m.load(v.next_id, block))
}

/// In any page.
pub(crate) fn next_of_get<S: TagStore>(m: &Move, v: &ClientView<'_, S>) -> Option<Event>
    requires there { IsThere v.now.files.slots m.now.file }
    requires order { m.now.piece.from < m.now.piece.to }
    requires within { m.now.piece.to ≤ 4096 }
    ensures { (s : PieceState) → ShowsPiece m.now.by m.now.file.serial m.now.piece v.now s
        → result ≡ next_of_get s }
{
    if v.progress.bad_read {
        return Some(m.fail());
    }
    let page = v.standing(m.buf());
    if page.loading {
        return None;
    }
    if page.held {
        return Some(m.get(v.sum(m)));
    }
    match v.block(m) {
        None => Some(m.get(0)),
        Some(block) => next_of_load(m, v, block),
    }
}
