//! The blocks of pages.
ghost use Rattle.std.specs.Prelude.{◌≡◌, ◌<◌, is_none, not, ◌&&◌};
ghost use Rattle.split_types.specs.declared.buf.Buf.TheVariants.{Page};
ghost use Rattle.split_types.specs.Hooks.{is_among};
ghost use Rattle.client_calls.specs.CallFile.{IsThere};
ghost use Rattle.client_calls.specs.Space.{block_at, is_in_run, is_used_up};

use crate::moves::Move;
use crate::standing::Standing;
use crate::view::ClientView;
use cause_set::TagStore;
use split_types::{Run, Serial};

/// How many pages a file can have.
const PAGES: u32 = 1008;

/// Whether a page of a file is one of a run.
fn is_among(run: Run, serial: Serial, page: u32) -> bool
    ensures { result ≡ is_among run.serial run.page run.n (Page serial page) }
{
    run.serial.0 == serial.0 && run.page <= page && page - run.page < run.n
}

impl<'a, S: TagStore> ClientView<'a, S> {
    /// Whether the page of a piece is in the run that writeback has mapped.
    pub(crate) fn is_mapped(&self, m: &Move) -> bool
        ensures { result ≡ is_in_run self.now.mapped (Page m.now.file.serial m.now.piece.page) }
    {
        match self.mapped {
            Some(run) => is_among(run, m.file.serial, m.piece.page),
            None => false,
        }
    }

    /// The block of the page of a piece; none where the page has none.
    pub(crate) fn block(&self, m: &Move) -> Option<u32>
        requires { IsThere self.now.files.slots m.now.file }
        ensures { result ≡ block_at self.now.files.slots m.now.file.slot.0 m.now.piece.page }
    {
        if m.piece.page < PAGES {
            self.fs.map_of(m.file.slot, m.piece.page)
        } else {
            None
        }
    }

    /// Whether all free blocks are promised.
    fn is_used_up(&self) -> bool
        ensures { result ≡ is_used_up self.now.blocks }
    {
        self.alloc.left() == 0
    }

    /// Whether no block can be had for the page of a piece, which stands so: it has none, and none is promised to it,
    /// as one is while it is dirty, and none is left.
    pub(crate) fn lacks_space(&self, m: &Move, page: Standing) -> bool
        requires { IsThere self.now.files.slots m.now.file }
        ensures { let block = block_at self.now.files.slots m.now.file.slot.0 m.now.piece.page in
            result ≡ (is_none block && not page.dirty && is_used_up self.now.blocks) }
    {
        !page.dirty && self.is_used_up() && self.block(m).is_none()
    }
}
