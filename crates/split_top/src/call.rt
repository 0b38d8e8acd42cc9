//! The top call.
//!
//! The words choose what to do with the input. Nothing is written before all is made that may want memory.
ghost use Rattle.std.specs.Prelude.{◌≡◌, ◌≢◌, map};
ghost use Rattle.std.specs.Io.KnownBytes.{IsAtEnd};
ghost use Rattle.outside.specs.Faults.{Rose};
ghost use Rattle.split_top.specs.Answers.{Wrote, WroteFront};
ghost use Rattle.split_top.specs.Outcome.{Obeys, Outcome};

use crate::answer::{Stop, reply};
use crate::command::{Command, command_of};
use crate::made::make;
use outside::{Sink, Source};
use std::alloc::Global;

/// How the program ends.
#[derive(Clone, Copy, Debug, PartialEq, Eq)]
pub enum Status {
    /// The answer was written, and the whole input was read where the words ask for it.
    Ok,
    /// The input is the text of no accepted workload; one line was written that says so.
    Refused,
    /// The words ask for nothing that can be done; nothing was read or written.
    BadWords,
    /// The source failed; nothing was written.
    ReadFault,
    /// The sink failed; it took a front of the answer.
    WriteFault,
    /// There was no memory; nothing was written.
    OutOfMemory,
    /// A trace that was looked at isn't right. No words ask for such a look yet.
    AuditNo,
}

/// Answers what the source has left, and writes the answer to the sink.
fn run<S: Source, K: Sink>(alloc: Global, source: &mut S, sink: &mut K) -> Status
    ensures ok { result ≡ Status.Ok → Wrote (S.left source.old) (S.left source.new) (K.held sink.old) (K.held sink.new)
        Status.Ok }
    ensures all_read { result ≡ Status.Ok → IsAtEnd (S.left source.new) }
    ensures refused { result ≡ Status.Refused → Wrote (S.left source.old) (S.left source.new) (K.held sink.old)
        (K.held sink.new) Status.Refused }
    ensures bad_words { result ≢ Status.BadWords }
    ensures read_fault { result ≡ Status.ReadFault → Rose (S.faults source.old) (S.faults source.new)
        × (sink.new ≡ sink.old) }
    ensures write_fault { result ≡ Status.WriteFault → Rose (K.faults sink.old) (K.faults sink.new)
        × WroteFront (S.left source.old) (S.left source.new) (K.held sink.old) (K.held sink.new) }
    ensures out_of_memory { result ≡ Status.OutOfMemory → sink.new ≡ sink.old }
    ensures audit_no { result ≢ Status.AuditNo }
    ensures same_room { K.room sink.new ≡ K.room sink.old }
{
    match reply(alloc, source, sink) {
        Ok(status) => status,
        Err(Stop::Read) => Status::ReadFault,
        Err(Stop::Write) => Status::WriteFault,
        Err(Stop::Memory) => Status::OutOfMemory,
    }
}

/// Does what a command asks for.
fn obey<S: Source, K: Sink>(alloc: Global, command: Command, source: &mut S, sink: &mut K) -> Status
    ensures obeyed { Obeys
        (record { left = S.left; read_faults = S.faults; held = K.held; write_faults = K.faults; room = K.room })
        command source.old source.new sink.old sink.new result }
    ensures bad_words { result ≢ Status.BadWords }
    ensures read_fault { result ≡ Status.ReadFault
        → Rose (S.faults source.old) (S.faults source.new) × (sink.new ≡ sink.old) }
    ensures write_fault { result ≡ Status.WriteFault → Rose (K.faults sink.old) (K.faults sink.new) }
    ensures out_of_memory { result ≡ Status.OutOfMemory → sink.new ≡ sink.old }
    ensures audit_no { result ≢ Status.AuditNo }
    ensures same_room { K.room sink.new ≡ K.room sink.old }
{
    match command {
        Command::Replay => run(alloc, source, sink),
        Command::Gen(n) => make(alloc, n, sink),
    }
}

/// Does what the words ask for. With the word `replay` it reads the source to its end as the text of a workload, and
/// writes the trace and the report of its run to the sink; or the one line that refuses it. With the words `gen N` it
/// reads nothing, and writes the text of the workload that is made from the number N.
///
/// It writes nothing before it has all the memory that it needs, reads at most 16,777,217 bytes, and always returns.
pub fn plain<S: Source, K: Sink>(
    alloc: Global,
    words: &[&str],
    source: &mut S,
    sink: &mut K,
) -> Status
    ensures { Outcome
        (record { left = S.left; read_faults = S.faults; held = K.held; write_faults = K.faults; room = K.room })
        (map (λ word. word.now) words.now) source.old source.new sink.old sink.new result }
{
    match command_of(words) {
        None => Status::BadWords,
        Some(command) => obey(alloc, command, source, sink),
    }
}
