//! The file that a call works on.
ghost use Rattle.std.specs.Prelude.{◌≡◌, None, IfNone, IfSome};
ghost use Rattle.client_calls.specs.CallFile.{file_in, IsBound};

use crate::view::ClientView;
use cause_set::TagStore;
use split_types::{Serial, Slot};

/// A file that is there, and its slot.
#[derive(Clone, Copy, Debug)]
pub(crate) struct WorkingFile {
    pub(crate) serial: Serial,
    pub(crate) slot: Slot,
}

impl<'a, S: TagStore> ClientView<'a, S> {
    /// The file that the call works on; none exactly where it was bound to none, or that one was dropped.
    pub(crate) fn working_file(&self) -> Option<WorkingFile>
        ensures none { IfNone result (file_in self.now.files.slots self.now.progress.bound ≡ None) }
        ensures some { IfSome result (IsBound self.now.files.slots self.now.progress.bound) }
    {
        let serial = self.progress.bound?;
        let slot = self.fs.slot_of(serial)?;
        Some(WorkingFile { serial, slot })
    }
}
