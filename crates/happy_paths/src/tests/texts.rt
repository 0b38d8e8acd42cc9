use super::found;
use split_types::{Event, ReqId};
use std::alloc::Global;
use std::test::Fail;
use trace_text::{print_event, read_trace};
use workload_reader::{generate, read_front, read_workload, write_workload};

/// One process overwrites the one page of a file; writeback has a turn when it has nothing to do.
pub(super) const ONE: &str =
    "splitload 1\ndevice 1024\ncache 64\ndepth 1\nsched fifo\naccount 1 0 0\nproc 1 1 0\n\
    file a 1 65\ncall 1 write a 0 4096 66\ngo c1 1\ngo wb 1\nend\n";

/// A text of version 2. A file is made, and written behind a hole until no block is left; the hole is read as zeros; a
/// write is too big. Another file is dropped while writeback serves it.
pub(super) const FILES: &str =
    "splitload 2\ndevice 2048\ncache 64\ndepth 1\nsched fifo\naccount 1 0 0\nproc 1 1 0\nproc 1 1 0\n\
    file draft 0 0\nfile full 729 65\ncall 1 creat log\ncall 1 write log 8192 8192 67\n\
    call 1 read log 4096 8192\ncall 1 write log 4128768 1 67\ncall 2 write draft 0 4096 66\n\
    call 2 unlink draft\ngo c2 4\ngo wb 1\ngo c2 4\ngo wb 1\nend\n";

/// The text of the workload that is made from 0, up to its first call.
const MADE: &str =
    "splitload 1\ndevice 32768\ncache 1024\ndepth 4\nsched token\naccount 100 10000 10000\n\
    account 20 2000 2000\nproc 1 1 1000\nproc 1 1 1000\nproc 1 1 1000\nproc 1 1 1000\nproc 1 1 1000\n\
    proc 1 1 1000\nproc 1 1 1000\nproc 2 1 1000\nfile log 0 0\ncall 7 creat m12\n";

/// The trace of one event for a workload of no calls, and a line that follows it.
const TRACE: &str =
    "splittrace 1\nsplitload 1\ndevice 1024\ncache 2\ndepth 1\nsched fifo\nend\nevents 1\nskip wb\nreport 1\n";

/// Two processes overwrite one page, the second one when the page has just been taken to be written out.
const BETWEEN: &str =
    "splitload 1\ndevice 1024\ncache 64\ndepth 1\nsched fifo\naccount 1 0 0\nproc 1 1 0\nproc 1 1 0\n\
    file a 1 65\ncall 1 write a 0 4096 66\ncall 2 write a 0 4096 67\ngo c1 4\ngo wb 2\ngo c2 4\n\
    end\n";

/// The trace of its run, with the first line of the report.
pub(super) const RUN: &str =
    "splittrace 1\nsplitload 1\ndevice 1024\ncache 64\ndepth 1\nsched fifo\naccount 1 0 0\n\
    proc 1 1 0\nproc 1 1 0\nfile a 1 65\ncall 1 write a 0 4096 66\ncall 2 write a 0 4096 67\n\
    go c1 4\ngo wb 2\ngo c2 4\nend\nevents 16\nenter c1 0\nadmit c1\nput c1 0 0 0 4096 66\n\
    ret c1 done\nserve wb 0 0 1\nadd wb pages 526 1 0 0\nenter c2 0\nadmit c2\n\
    put c2 0 0 0 4096 67\nret c2 done\nsend dq 0 52\ndone dn0 0 ok\nserve wb 0 0 1\n\
    add wb pages 526 1 0 0\nsend dq 1 22\ndone dn0 1 ok\nreport 1\n";

/// A text, read and written again.
fn again(alloc: Global, text: &[u8]) -> Result<Vec<u8>, Fail> {
    let workload = found(read_workload(alloc, text).ok())?;
    Ok(write_workload(alloc, &workload)?)
}

#[test]
fn a_workload_is_read_and_written(rt: HostRuntime) -> Result<(), Fail> {
    let text = again(rt.alloc(), ONE.as_bytes())?;
    assert_eq!(rt; text.as_slice(), ONE.as_bytes());
    Ok(())
}

/// Where the lines of a workload at the front of a text end, and the number of the next line.
fn front(alloc: Global, text: &[u8]) -> Result<(usize, u32), Fail> {
    if text.len() > 1000 {
        return Err("too long".into());
    }
    let (_, rest, line) = found(read_front(alloc, text, 1).ok())?;
    Ok((text.len() - rest.len(), line))
}

#[test]
fn the_front_of_a_text_is_read(rt: HostRuntime) -> Result<(), Fail> {
    let (end, line) = front(
        rt.alloc(),
        b"splitload 1\ndevice 1024\ncache 2\ndepth 1\nsched fifo\nend\nmore",
    )?;
    assert_eq!(rt; end, 55);
    assert_eq!(rt; line, 7);
    Ok(())
}

#[test]
fn a_workload_is_made_from_a_number(rt: HostRuntime) -> Result<(), Fail> {
    let workload = generate(rt.alloc(), 0)?;
    let text = write_workload(rt.alloc(), &workload)?;
    assert!(rt; text.starts_with(MADE.as_bytes()));
    Ok(())
}

#[test]
fn an_event_is_printed(rt: HostRuntime) -> Result<(), Fail> {
    let done = Event::Done {
        k: 0,
        id: ReqId(0),
        ok: true,
    };
    let line = print_event(rt.alloc(), &done)?;
    assert_eq!(rt; line.as_slice(), b"done dn0 0 ok\n".as_slice());
    Ok(())
}

/// How many events a trace has, and where it ends.
fn extent(alloc: Global, text: &[u8]) -> Result<(usize, usize), Fail> {
    let trace = found(read_trace(alloc, text).ok())?;
    Ok((trace.events.len(), trace.rest))
}

#[test]
fn a_trace_is_read(rt: HostRuntime) -> Result<(), Fail> {
    let (events, rest) = extent(rt.alloc(), TRACE.as_bytes())?;
    assert_eq!(rt; events, 1);
    assert_eq!(rt; rest, 85);
    Ok(())
}

/// The workload of a trace, written, its last event, printed, and where the trace ends.
fn parts(alloc: Global, text: &[u8]) -> Result<(Vec<u8>, Vec<u8>, usize), Fail> {
    let trace = found(read_trace(alloc, text).ok())?;
    let last = found(trace.events.as_slice().last())?;
    let line = print_event(alloc, last)?;
    Ok((write_workload(alloc, &trace.w)?, line, trace.rest))
}

#[test]
fn the_trace_of_a_run_is_read(rt: HostRuntime) -> Result<(), Fail> {
    let (workload, last, rest) = parts(rt.alloc(), RUN.as_bytes())?;
    assert_eq!(rt; workload.as_slice(), BETWEEN.as_bytes());
    assert_eq!(rt; last.as_slice(), b"done dn0 1 ok\n".as_slice());
    assert_eq!(rt; rest, 437);
    Ok(())
}

#[test]
fn the_trace_of_a_run_has_its_events(rt: HostRuntime) -> Result<(), Fail> {
    let (events, rest) = extent(rt.alloc(), RUN.as_bytes())?;
    assert_eq!(rt; events, 16);
    assert_eq!(rt; rest, 437);
    Ok(())
}
