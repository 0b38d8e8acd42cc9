//! The whole program, over any words, source and sink.
ghost use Rattle.std.specs.Prelude.{◌≡◌, map, IfOk, Ok, Err};
ghost use Rattle.std.specs.Process.{exit_status};
ghost use Rattle.splitio.specs.Ends.{number_of, spelled, Ends};

use outside::{Sink, Source};
use split_top::{Status, plain};
use std::alloc::{AllocError, Allocator, Global};
use std::process::ExitCode;

/// The exit status of an answer.
fn code(status: Status) -> ExitCode
    ensures { exit_status result ≡ number_of status }
{
    match status {
        Status::Ok => ExitCode::from(0u8),
        Status::Refused => ExitCode::from(1u8),
        Status::BadWords => ExitCode::from(2u8),
        Status::ReadFault => ExitCode::from(3u8),
        Status::WriteFault => ExitCode::from(4u8),
        Status::OutOfMemory => ExitCode::from(5u8),
        Status::AuditNo => ExitCode::from(6u8),
    }
}

/// The words as they are passed on.
fn lent<A: Allocator>(alloc: Global, words: &[String<A>]) -> Result<Vec<&str>, AllocError>
    ensures { IfOk result (λ v. map (λ word. word.now) v.items ≡ map (λ word. word.bytes.items) words.now) }
{
    let mut lent = Vec::new(alloc);
    for word in words {
        lent.push(word.as_str())?;
    }
    Ok(lent)
}

/// Does what the words ask for, where there are words.
fn answer<A: Allocator, S: Source, K: Sink>(
    alloc: Global,
    words: &[String<A>],
    source: &mut S,
    sink: &mut K,
) -> Status
    ensures { Ends (record {
      left = S.left;
      read_faults = S.faults;
      held = K.held;
      write_faults = K.faults;
      room =
          K.room;
    })
        (Ok (map (λ word. word.bytes.items) words.now)) source.old source.new sink.old sink.new (number_of result) }
{
    match lent(alloc, words) {
        Ok(words) => plain(alloc, &words, source, sink),
        Err(AllocError) => Status::OutOfMemory,
    }
}

/// Does what the words ask for, and says with which exit status the program ends: that of the answer,
/// or where there are no words the one that says why.
pub(crate) fn program<A: Allocator, S: Source, K: Sink>(
    alloc: Global,
    words: Result<Vec<String<A>, A>, Status>,
    source: &mut S,
    sink: &mut K,
) -> ExitCode
    ensures { Ends (record {
      left = S.left;
      read_faults = S.faults;
      held = K.held;
      write_faults = K.faults;
      room =
          K.room;
    })
        (spelled words) source.old source.new sink.old sink.new (exit_status result) }
{
    match words {
        Ok(words) => code(answer(alloc, &words, source, sink)),
        Err(status) => code(status),
    }
}
