//! The program over streams in memory, and over the words of a runtime of the tests.
use crate::program::program;
use outside::{StillSink, StillSource};
use std::alloc::Global;
use std::env::{Env, FillError};
use std::process::ExitCode;
use std::test::Fail;

/// A command line: the program's name, and the words behind it.
#[derive(Clone, Copy)]
struct CommandLine {
    words: &'static [&'static [u8]],
}

impl Env for CommandLine {
    fn arg(&self, i: usize, buf: &mut [u8]) -> Result<usize, FillError> {
        let Some(word) = self.words.get(i) else {
            return Err(FillError::NotPresent);
        };
        if word.len() > buf.len() {
            return Err(FillError::TooLong);
        }
        buf[..word.len()].copy_from_slice(word);
        Ok(word.len())
    }

    fn var(&self, _name: &str, _buf: &mut [u8]) -> Result<usize, FillError> {
        Err(FillError::NotPresent)
    }

    fn var_at(&self, _i: usize, _buf: &mut [u8]) -> Result<usize, FillError> {
        Err(FillError::NotPresent)
    }
}

/// A workload in which nobody calls.
const QUIET: &[u8] = b"splitload 1\ndevice 1024\ncache 2\ndepth 1\nsched fifo\nend\n";

/// What is answered to that.
const QUIET_RUN: &[u8] =
    b"splittrace 1\nsplitload 1\ndevice 1024\ncache 2\ndepth 1\nsched fifo\nend\nevents 0\n\
    report 1\nrequests 0\nmade wb 0\nmade cm 0\nmade dq 0\nmade dn 0\nmade tk 0\nclock 0\nend\n";

/// The exit status with these words and this input, and what was written.
fn ended(
    alloc: Global,
    words: &'static [&'static [u8]],
    input: &[u8],
) -> Result<(ExitCode, Vec<u8>), Fail> {
    let mut source = StillSource::new(input.to_vec(alloc)?);
    let mut sink = StillSink::new(alloc, 1024)?;
    let code = program(
        alloc,
        crate::words::words(&(CommandLine { words }, alloc)),
        &mut source,
        &mut sink,
    );
    Ok((code, sink.held().to_vec(alloc)?))
}

#[test]
fn exit_statuses(rt: HostRuntime) -> Result<(), Fail> {
    let alloc = rt.alloc();
    let (code, text) = ended(alloc, &[b"splitio", b"replay"], QUIET)?;
    assert_eq!(rt; code, ExitCode::from(0u8));
    assert_eq!(rt; text.as_slice(), QUIET_RUN);
    let (code, text) = ended(alloc, &[b"\xff", b"replay"], b"")?;
    assert_eq!(rt; code, ExitCode::from(1u8));
    assert_eq!(rt; text.as_slice(), b"refused line 1: cut\n".as_slice());
    let (code, text) = ended(alloc, &[b"splitio", b"replay", b"x"], QUIET)?;
    assert_eq!(rt; code, ExitCode::from(2u8));
    assert!(rt; text.is_empty());
    let (code, text) = ended(alloc, &[b"splitio", b"\xff"], QUIET)?;
    assert_eq!(rt; code, ExitCode::from(2u8));
    assert!(rt; text.is_empty());
    Ok(())
}
