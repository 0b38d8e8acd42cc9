//! What names a page.
ghost use Rattle.std.specs.Prelude.{◌≡◌, ◌+◌, ◌*◌};
ghost use Rattle.page_cache.specs.Keys.{key_of, buf_of};

use fixed_places::Key;
use split_types::{Buf, Serial};

/// How many pages a file can have.
pub(crate) const PAGES: u32 = 1008;

/// A page of a file's data: keys are in the order of serial and page.
#[derive(Clone, Copy, Debug, PartialEq, Eq, PartialOrd, Ord)]
pub(crate) struct PageKey {
    pub(crate) serial: u32,
    pub(crate) page: u32,
}

impl Key for PageKey {
    ghost code_of = { λ key. key.serial * 1024 + key.page };

    fn code(&self) -> u64 {
        u64::from(self.serial) * 1024 + u64::from(self.page)
    }

    fn is_same(&self, other: &PageKey) -> bool {
        self.serial == other.serial && self.page == other.page
    }
}

impl PageKey {
    /// The key of a buffer; none where it is no page.
    pub(crate) fn of(b: Buf) -> Option<PageKey>
        ensures { result ≡ key_of b }
    {
        match b {
            Buf::Page(serial, page) => Some(PageKey {
                serial: serial.0,
                page,
            }),
            Buf::Bitmap | Buf::Dir(_) | Buf::Inode(_) => None,
        }
    }

    /// The buffer of a key.
    pub(crate) fn buf(self) -> Buf
        ensures { result ≡ buf_of self }
    {
        Buf::Page(Serial(self.serial), self.page)
    }
}
