// A whole input and a whole output.
ghost use Rattle.std.specs.Prelude.{◌≡◌, ◌≢◌, ℕ, ◌+◌, ◌-◌, ◌^◌, ◌<◌, ◌≤◌, List, ◌++◌, length, vec_len, Err, IfOk, OnOk, OnErr};
ghost use Rattle.std.specs.Io.KnownBytes.{Consumes, Appends, IsAtEnd};
ghost use Rattle.outside.specs.Faults.{Rose, HasCause};
ghost use Rattle.outside.specs.Whole.{TakesMore, TakesOver, AppendsFront};

use crate::sink::Sink;
use crate::source::{Failed, Source};
use std::alloc::{AllocError, Global};

/// How many bytes one read asks for at most.
const PIECE: usize = 65_536;

/// Why an input isn't there as a whole.
#[derive(Clone, Copy, Debug, PartialEq, Eq)]
pub enum InputFault {
    /// The source failed.
    Read,
    /// The source has more bytes than the limit.
    Long,
    /// There was no memory for the bytes.
    Memory,
}

impl From<AllocError> for InputFault {
    ghost use Rattle.outside.specs.declared.whole.InputFault.TheVariants.{Memory};

    ghost from_gives = { λ _ e. e ≡ Memory };

    fn from(_e: AllocError) -> InputFault {
        InputFault::Memory
    }
}

/// The buffer of one read.
fn new_piece(alloc: Global) -> Result<Vec<u8>, AllocError>
    ensures { IfOk result (λ v. vec_len v ≡ 65536) }
{
    vec![in alloc; 0u8; PIECE]
}

/// Takes the next piece of a source, and says how many bytes came: none only at the end.
fn take_piece<S: Source>(
    source: &mut S,
    piece: &mut [u8],
    bytes: &mut Vec<u8>,
) -> Result<usize, InputFault>
    requires { 0 < length piece.old }
    ensures taken { IfOk result (λ n. TakesMore (S.left source.old) (S.left source.new)
        bytes.old.items bytes.new.items n) }
    ensures bound { IfOk result (λ n. n ≤ length piece.old) }
    ensures len { IfOk result (λ n. vec_len bytes.new ≡ vec_len bytes.old + n) }
    ensures end { IfOk result (λ n. n ≡ 0 → IsAtEnd (S.left source.new)) }
    ensures later { S.faults source.old ≤ S.faults source.new }
    ensures read { result ≡ Err InputFault.Read
        → Rose (S.faults source.old) (S.faults source.new) }
    ensures long { result ≢ Err InputFault.Long }
{
    match source.read(piece) {
        Err(Failed) => Err(InputFault::Read),
        Ok(count) => {
            bytes.extend_from_slice(&piece[..count])?;
            Ok(count)
        }
    }
}

/// Reads a source to its end, or until one byte more than `limit` is taken.
pub fn read_all<S: Source>(
    alloc: Global,
    source: &mut S,
    limit: usize,
) -> Result<Vec<u8>, InputFault>
    requires { limit < usize.MAX }
    ensures all { IfOk result (λ v. Consumes (S.left source.old) (S.left source.new) v.items) }
    ensures end { OnOk result (IsAtEnd (S.left source.new)) }
    ensures limited { IfOk result (λ v. vec_len v ≤ limit) }
    ensures later { S.faults source.old ≤ S.faults source.new }
    ensures read { result ≡ Err InputFault.Read
        → Rose (S.faults source.old) (S.faults source.new) }
    ensures long { result ≡ Err InputFault.Long
        → TakesOver (S.left source.old) (S.left source.new) limit }
{
    let mut bytes = Vec::new(alloc);
    let mut piece = new_piece(alloc)?;
    loop {
        let want = PIECE.min(limit + 1 - bytes.len());
        let count = take_piece(source, &mut piece[..want], &mut bytes)?;
        if count == 0 {
            return Ok(bytes);
        }
        if bytes.len() > limit {
            return Err(InputFault::Long);
        }
    }
}

/// Hands all bytes to a sink, unless it fails.
pub fn write_all<K: Sink>(sink: &mut K, bytes: &[u8]) -> Result<(), Failed>
    ensures all { OnOk result (Appends (K.held sink.old) (K.held sink.new) bytes.now) }
    ensures front { OnErr result (AppendsFront (K.held sink.old) (K.held sink.new) bytes.now) }
    ensures cause { HasCause (K.faults sink.old) (K.faults sink.new) result }
    ensures same_room { K.room sink.new ≡ K.room sink.old }
{
    let mut rest = bytes;
    while !rest.is_empty() {
        let count = sink.write(rest)?;
        rest = &rest[count..];
    }
    Ok(())
}
