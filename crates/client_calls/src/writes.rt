//! What comes next with a piece of a write.
ghost use Rattle.std.specs.Prelude.{◌≡◌};
ghost use Rattle.split_types.specs.Clients.{PieceState, next_of_absent, next_of_put};
ghost use Rattle.client_calls.specs.CallFile.{IsThere};
ghost use Rattle.client_calls.specs.Shows.{ShowsPiece};

use crate::moves::Move;
use crate::view::ClientView;
use cause_set::TagStore;
use split_types::Event;

/// In a page that isn't held, while a place is free.
fn next_of_absent<S: TagStore>(m: &Move, v: &ClientView<'_, S>, fill: u8) -> Option<Event>
    requires { IsThere v.now.files.slots m.now.file }
    ensures { (s : PieceState) → ShowsPiece m.now.by m.now.file.serial m.now.piece v.now s
        → result ≡ next_of_absent s fill }
{
    if m.piece.is_whole() {
        return Some(m.put(fill));
    }
    match v.block(m) {
        None => Some(m.put(fill)),
        Some(block) => Some(m.load(v.next_id, block)),
    }
}

/// In any page.
pub(crate) fn next_of_put<S: TagStore>(m: &Move, v: &ClientView<'_, S>, fill: u8) -> Option<Event>
    requires { IsThere v.now.files.slots m.now.file }
    ensures { (s : PieceState) → ShowsPiece m.now.by m.now.file.serial m.now.piece v.now s
        → result ≡ next_of_put s fill }
{
    if v.progress.bad_read {
        return Some(m.fail());
    }
    let page = v.standing(m.buf());
    if page.loading {
        return None;
    }
    if v.is_mapped(m) {
        return None;
    }
    if v.lacks_space(m, page) {
        return Some(m.stop(v.progress.moved));
    }
    if v.holds_up(page) {
        return None;
    }
    if page.held {
        return Some(m.put(fill));
    }
    if v.is_full() {
        return v.evict(m.by);
    }
    next_of_absent(m, v, fill)
}
