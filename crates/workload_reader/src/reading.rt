//! Reading a workload's text.
ghost use Rattle.std.specs.Prelude.{◌≡◌};
ghost use Rattle.workload_reader.specs.Reading.{Reading};

use crate::cause::Cause;
use crate::fault::{LineFault, ReadWorkload};
use crate::front::read_front;
use split_types::Workload;
use std::alloc::Global;

/// The workload whose text this is, or the first line that is refused and why.
pub fn read_workload(alloc: Global, text: &[u8]) -> Result<Workload, ReadWorkload>
    ensures { Reading text.now result }
{
    if text.len() > 16_777_216 {
        let line = 0;
        let cause = Cause::Long;
        return Err(ReadWorkload::Line(LineFault { line, cause }));
    }
    let (workload, rest, line) = read_front(alloc, text, 1)?;
    if rest.is_empty() {
        Ok(workload)
    } else {
        let cause = Cause::After;
        Err(ReadWorkload::Line(LineFault { line, cause }))
    }
}
