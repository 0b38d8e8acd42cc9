ghost use Rattle.std.specs.Prelude.{◌≡◌};
ghost use Rattle.workload_reader.specs.declared.fault.ReadWorkload.TheVariants.{Memory};

use crate::cause::Cause;
use std::alloc::AllocError;

/// The line of a text that is refused first, counted from 1, and why it is; the line is 0 for a text that is too long.
#[derive(Clone, Copy, Debug, PartialEq, Eq)]
pub struct LineFault {
    pub line: u32,
    pub cause: Cause,
}

/// Why no workload was read.
#[derive(Clone, Copy, Debug, PartialEq, Eq)]
pub enum ReadWorkload {
    /// The text spells none.
    Line(LineFault),
    /// There was no memory for it.
    Memory,
}

impl From<AllocError> for ReadWorkload {
    ghost from_gives = { λ _ e. e ≡ Memory };

    fn from(_e: AllocError) -> ReadWorkload {
        ReadWorkload::Memory
    }
}
