//! The lines of a workload at the front of a text.
ghost use Rattle.std.specs.Prelude.{◌≡◌, ◌<◌, ◌+◌, ◌^◌, ℕ, length, IfOk, IfErr};
ghost use Rattle.workload_reader.specs.Refusal.{ReadsFront, RefusesFront};
ghost use Rattle.workload_reader.specs.Front.{Fronts};

use crate::fault::{LineFault, ReadWorkload};
use crate::seen::Seen;
use split_types::Workload;
use std::alloc::Global;

/// The workload of the lines at the front of the text up to `end`, with what follows them and the number of the line
/// that would be next. The number of the first line is `first`.
pub fn read_front(
    alloc: Global,
    text: &[u8],
    first: u32,
) -> Result<(Workload, &[u8], u32), ReadWorkload>
    requires { first + length text.now < 2 ^ 32 }
    ensures { Fronts text.now first result }
{
    let mut seen = Seen::new(alloc)?;
    let mut rest = text;
    let mut line = first;
    while seen.stage < 12 {
        match seen.take(rest)? {
            Ok(more) => {
                rest = more;
                line += 1;
            }
            Err(cause) => return Err(ReadWorkload::Line(LineFault { line, cause })),
        }
    }
    Ok((seen.workload, rest, line))
}
