ghost use Rattle.std.specs.Prelude.{◌≡◌, IfOk};
ghost use Rattle.workload_reader.specs.Line.{nothing};

use crate::seen::Seen;
use fixed_places::Table;
use split_types::{List, Sched, Workload};
use std::alloc::{AllocError, Global};

/// A workload of which no line says anything.
fn nothing(alloc: Global) -> Workload
    ensures { result ≡ nothing }
{
    Workload {
        version: 0,
        device: 0,
        cache: 0,
        depth: 0,
        sched: Sched::Fifo,
        accounts: List::new(alloc),
        procs: List::new(alloc),
        files: List::new(alloc),
        calls: List::new(alloc),
        fails: List::new(alloc),
        go: List::new(alloc),
    }
}

impl Seen {
    /// No line was read.
    pub(crate) fn new(alloc: Global) -> Result<Seen, AllocError>
        ensures workload { IfOk result (λ seen. seen.workload ≡ nothing) }
        ensures stage { IfOk result (λ seen. seen.stage ≡ 0) }
    {
        Ok(Seen {
            workload: nothing(alloc),
            stage: 0,
            pages: 0,
            spanned: 0,
            turns: 0,
            least_fail: 0,
            names: Table::new(alloc, 256)?,
        })
    }
}
