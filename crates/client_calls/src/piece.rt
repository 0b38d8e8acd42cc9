//! The pieces of a call: its bytes, parted at the ends of pages.
ghost use Rattle.std.specs.Prelude.{◌≡◌, ◌^◌, ◌<◌, ◌≤◌, IfSome};
ghost use Rattle.split_types.specs.Pieces.{bytes_to_move, first_byte, piece_at, is_whole};
ghost use Rattle.client_calls.specs.View.{piece_left};

use crate::progress::Progress;
use split_types::Call;
use std::marker::Model;

/// The bytes of a page.
const PAGE: u32 = 4096;

/// Some bytes of one page of a file: from one place up to another.
#[derive(Clone, Copy, Debug, PartialEq, Eq)]
pub struct Piece {
    pub page: u32,
    pub from: u32,
    pub to: u32,
}

impl Model for Piece {
    ghost use Rattle.split_types.specs.Pieces.{Piece};

    ghost Value = { Piece };

    ghost view = { λ p. record { page = p.page; from = p.from; to = p.to } };

    ghost inverse = { λ p. record { page = p.page; from = p.from; to = p.to } };
}

impl Piece {
    /// Whether it is a whole page.
    pub(crate) fn is_whole(&self) -> bool
        ensures { result ≡ is_whole self.now }
    {
        self.from == 0 && self.to == PAGE
    }
}

/// The first byte that a call moves, in its file.
fn first_byte(call: &Call) -> u32
    ensures { result ≡ first_byte call.now }
{
    match *call {
        Call::Write { off, .. } | Call::Read { off, .. } => off,
        _ => 0,
    }
}

/// How many bytes a call moves, where its file had this size when it was let in: a read those that lie within it.
fn bytes_to_move(call: &Call, size: u32) -> u32
    ensures { result ≡ bytes_to_move call.now size }
{
    match *call {
        Call::Write { len, .. } => len,
        Call::Read { off, len, .. } => off.saturating_add(len).min(size).saturating_sub(off),
        _ => 0,
    }
}

/// The piece that begins at byte `at` of its file, with `left` bytes left: it ends with its page or with the last
/// byte.
fn piece_at(at: u64, left: u32) -> Piece
    requires { at < 2 ^ 33 }
    ensures { result ≡ piece_at at left }
{
    let page = u64::from(PAGE);
    let from = at % page;
    let to = page.min(from + u64::from(left));
    Piece {
        page: (at / page) as u32,
        from: from as u32,
        to: to as u32,
    }
}

/// The first piece that is left of the call of a process; none where none is left, or there is no call.
pub fn piece_left(progress: &Progress) -> Option<Piece>
    ensures piece { result ≡ piece_left progress.now }
    ensures order { IfSome result (λ p. p.from < p.to) }
    ensures within { IfSome result (λ p. p.to ≤ 4096) }
{
    let call = progress.call?;
    let all = bytes_to_move(&call, progress.size_at_admit);
    if progress.moved >= all {
        return None;
    }
    let at = u64::from(first_byte(&call)) + u64::from(progress.moved);
    Some(piece_at(at, all - progress.moved))
}
