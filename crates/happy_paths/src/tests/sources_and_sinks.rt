ghost use Rattle.std.specs.Prelude.{◌≡◌, ◌+◌, ◌<◌, length, IsOk, vec_len};

use super::found;
use outside::{
    Failed, FreeGate, Gate, InputFault, MemSink, MemSource, Sink, Source, StillSink, StillSource,
    StreamSink, StreamSource, read_all, write_all,
};
use std::alloc::Global;
use std::io;
use std::io::{ErrorKind, Read};
use std::test::Fail;

/// A source of `hello`, two bytes at a call, that fails at the second call.
fn hello(alloc: Global) -> Result<MemSource, Fail> {
    let fails = [1].to_vec(alloc)?;
    Ok(MemSource::new(b"hello".to_vec(alloc)?, 2, fails))
}

#[test]
fn source_fails_in_mid_stream(rt: HostRuntime) -> Result<(), Fail> {
    let alloc = rt.alloc();
    let mut source = hello(alloc)?;
    let fault = read_all(alloc, &mut source, 9).err();
    assert_eq!(rt; fault, Some(InputFault::Read));
    assert_eq!(rt; source.rest(), b"llo".as_slice());
    let all = found(read_all(alloc, &mut source, 3).ok())?;
    assert_eq!(rt; all.as_slice(), b"llo".as_slice());
    Ok(())
}

#[test]
fn input_is_too_long(rt: HostRuntime) -> Result<(), Fail> {
    let alloc = rt.alloc();
    let mut source = StillSource::new(b"hello".to_vec(alloc)?);
    let fault = read_all(alloc, &mut source, 3).err();
    assert_eq!(rt; fault, Some(InputFault::Long));
    assert_eq!(rt; source.rest(), b"o".as_slice());
    Ok(())
}

#[test]
fn sink_fails_in_mid_stream(rt: HostRuntime) -> Result<(), Fail> {
    let alloc = rt.alloc();
    let fails = [1].to_vec(alloc)?;
    let mut sink = MemSink::new(alloc, 8, 2, fails)?;
    assert_eq!(rt; write_all(&mut sink, b"hello"), Err(Failed));
    assert_eq!(rt; sink.held(), b"he".as_slice());
    assert_eq!(rt; write_all(&mut sink, b"llo"), Ok(()));
    assert_eq!(rt; write_all(&mut sink, b"more"), Err(Failed));
    assert_eq!(rt; sink.held(), b"hellomor".as_slice());
    Ok(())
}

#[test]
fn still_sink_has_too_little_room(rt: HostRuntime) -> Result<(), Fail> {
    let mut sink = StillSink::new(rt.alloc(), 10)?;
    assert_eq!(rt; write_all(&mut sink, b"splittrace 1"), Err(Failed));
    assert_eq!(rt; sink.held(), b"splittrace".as_slice());
    Ok(())
}

/// A still sink with more room than the bytes takes them all.
fn write_with_room(sink: &mut StillSink, bytes: &[u8]) -> Result<(), Failed>
    requires { vec_len sink.old.bytes + length bytes.now < sink.old.room }
    ensures { IsOk result }
{
    write_all(sink, bytes)
}

#[test]
fn still_sink_has_room(rt: HostRuntime) -> Result<(), Fail> {
    let mut sink = StillSink::new(rt.alloc(), 6)?;
    assert_eq!(rt; write_with_room(&mut sink, b"hello"), Ok(()));
    assert_eq!(rt; sink.held(), b"hello".as_slice());
    Ok(())
}

/// A stream that always fails.
#[derive(Drop)]
struct Broken;

impl Read for Broken {
    fn read(&mut self, _buf: &mut [u8]) -> io::Result<usize> {
        Err(ErrorKind::Other.into())
    }
}

#[test]
fn streams_are_read_and_written(rt: HostRuntime) -> Result<(), Fail> {
    let alloc = rt.alloc();
    let mut source = StreamSource::new(b"hello".as_slice());
    let all = found(read_all(alloc, &mut source, 9).ok())?;
    assert_eq!(rt; all.as_slice(), b"hello".as_slice());
    let mut broken = StreamSource::new(Broken);
    assert_eq!(rt; broken.read(&mut [0u8; 4]), Err(Failed));

    let mut place = [0u8; 4];
    let mut sink = StreamSink::new(place.as_mut_slice());
    assert_eq!(rt; sink.write(b"hello"), Ok(4));
    assert_eq!(rt; sink.write(b"o"), Err(Failed));
    Ok(())
}

/// A stream that a signal interrupts once, and that would then give bytes.
#[derive(Drop)]
struct Interrupted {
    before: bool,
}

impl Read for Interrupted {
    fn read(&mut self, buf: &mut [u8]) -> io::Result<usize> {
        if self.before {
            self.before = false;
            return Err(ErrorKind::Interrupted.into());
        }
        Ok(buf.len().min(5))
    }
}

#[test]
fn a_call_that_failed_is_not_tried_again(rt: HostRuntime) -> Result<(), Fail> {
    let mut source = StreamSource::new(Interrupted { before: true });
    let fault = read_all(rt.alloc(), &mut source, 9).err();
    assert_eq!(rt; fault, Some(InputFault::Read));
    assert_eq!(rt; source.read(&mut [0u8; 4]), Ok(4));
    Ok(())
}

#[test]
fn gate_lets_pass() {
    FreeGate.before(1, 2);
}
