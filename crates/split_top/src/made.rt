//! The workload that is made from a number.
ghost use Rattle.std.specs.Prelude.{◌≡◌, ◌≢◌, IfOk};
ghost use Rattle.std.specs.Io.KnownBytes.{Appends};
ghost use Rattle.outside.specs.Faults.{Rose};
ghost use Rattle.outside.specs.Whole.{AppendsFront};
ghost use Rattle.split_types.specs.WorkloadText.{workload_text};
ghost use Rattle.workload_reader.specs.Generated.{generated};

use crate::call::Status;
use outside::{Sink, write_all};
use std::alloc::{AllocError, Global};
use workload_reader::{generate, write_workload};

/// The text of the workload that is made from a number.
fn made_text(alloc: Global, n: u32) -> Result<Vec<u8>, AllocError>
    ensures { IfOk result (λ text. text.items ≡ workload_text (generated n)) }
{
    let workload = generate(alloc, n)?;
    write_workload(alloc, &workload)
}

/// Writes the workload that is made from a number to the sink.
pub(crate) fn make<K: Sink>(alloc: Global, n: u32, sink: &mut K) -> Status
    ensures ok { result ≡ Status.Ok → Appends (K.held sink.old) (K.held sink.new) (workload_text (generated n)) }
    ensures bad_words { result ≢ Status.BadWords }
    ensures none_refused { result ≢ Status.Refused }
    ensures no_read_fault { result ≢ Status.ReadFault }
    ensures write_fault { result ≡ Status.WriteFault → Rose (K.faults sink.old) (K.faults sink.new)
        × AppendsFront (K.held sink.old) (K.held sink.new) (workload_text (generated n)) }
    ensures out_of_memory { result ≡ Status.OutOfMemory → sink.new ≡ sink.old }
    ensures audit_no { result ≢ Status.AuditNo }
    ensures same_room { K.room sink.new ≡ K.room sink.old }
{
    match made_text(alloc, n) {
        Err(_) => Status::OutOfMemory,
        Ok(text) => match write_all(sink, &text) {
            Ok(()) => Status::Ok,
            Err(_) => Status::WriteFault,
        },
    }
}
