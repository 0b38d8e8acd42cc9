//! What a place for pairs holds.
ghost use Rattle.std.specs.Prelude.{◌≡◌, ◌^◌, ◌<◌};
ghost use Rattle.token_ledger.specs.Codes.{buf_code, mark_code, place_code};

use fixed_places::Key;
use split_types::{Buf, ReqId};

/// A place for a pair is free, or has one of this buffer with this mark.
#[derive(Clone, Copy, Debug, PartialEq, Eq)]
pub(crate) enum Place {
    Free,
    Open(Buf, Option<ReqId>),
}

/// A number that tells most buffers apart.
fn buf_code(buf: Buf) -> u64
    ensures value { result ≡ buf_code buf }
    ensures bound { result < 2 ^ 45 }
{
    match buf {
        Buf::Page(serial, page) => u64::from(serial.0) * 1024 + u64::from(page),
        Buf::Bitmap => 0,
        Buf::Dir(number) => 1 + u64::from(number),
        Buf::Inode(slot) => 5 + u64::from(slot.0),
    }
}

/// A number that tells most marks apart, each far from the next.
fn mark_code(mark: Option<ReqId>) -> u64
    ensures value { result ≡ mark_code mark }
    ensures bound { result < 2 ^ 63 }
{
    match mark {
        None => 0,
        Some(id) => (u64::from(id.0) + 1) * 2_147_483_647,
    }
}

impl Key for Place {
    ghost code_of = { λ place. place_code place };

    fn code(&self) -> u64 {
        match *self {
            Place::Free => 0,
            Place::Open(buf, mark) => buf_code(buf) + mark_code(mark),
        }
    }

    fn is_same(&self, other: &Place) -> bool {
        *self == *other
    }
}
