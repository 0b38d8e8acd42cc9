mod faults;
mod file_runs;
mod made;
mod runs;

use file_runs::FILE_RUNS;
use outside::{MemSink, MemSource};
use runs::RUNS;
use split_top::{Status, plain};
use std::alloc::Global;
use std::test::Fail;

/// What is answered to an input, in pieces of seven bytes, and with which status.
fn answered(alloc: Global, words: &[&str], input: &str) -> Result<(Vec<u8>, Status), Fail> {
    let mut source = MemSource::new(input.as_bytes().to_vec(alloc)?, 7, Vec::new(alloc));
    let mut sink = MemSink::new(alloc, 65_536, 7, Vec::new(alloc))?;
    let status = plain(alloc, words, &mut source, &mut sink);
    Ok((sink.held().to_vec(alloc)?, status))
}

/// The text and the status that are due to an input, of which the events and the report are said.
fn due(alloc: Global, input: &str, output: &str) -> Result<(Vec<u8>, Status), Fail> {
    let text = format!(in alloc; "splittrace 1\n{input}{output}")?;
    Ok((text.into_bytes(), Status::Ok))
}

#[test]
fn runs_are_shown(rt: HostRuntime) -> Result<(), Fail> {
    for run in &RUNS {
        let seen = answered(rt.alloc(), &["replay"], run.input)?;
        assert_eq!(rt;
            seen,
            due(rt.alloc(), run.input, run.output)?,
            "{}",
            run.shows
        );
    }
    Ok(())
}

#[test]
fn runs_with_files_are_shown(rt: HostRuntime) -> Result<(), Fail> {
    for run in &FILE_RUNS {
        let seen = answered(rt.alloc(), &["replay"], run.input)?;
        assert_eq!(rt;
            seen,
            due(rt.alloc(), run.input, run.output)?,
            "{}",
            run.shows
        );
    }
    Ok(())
}

/// The events and the report of a process that makes one file more than there may be.
const ONE_TOO_MANY: &str =
    "events 3\nenter c1 0\nadmit c1\nret c1 noslot\nreport 1\nrequests 0\nproc 1 billed 0\nmade c1 3\nmade wb 0\n\
    made cm 0\nmade dq 0\nmade dn 0\nmade tk 0\nclock 0\nend\n";

#[test]
fn a_file_too_many_is_not_made(rt: HostRuntime) -> Result<(), Fail> {
    let mut files = String::new(rt.alloc());
    for i in 0..256 {
        files.push_str(&format!(in rt.alloc(); "file f{i} 0 0\n")?)?;
    }
    let head =
        "splitload 1\ndevice 1024\ncache 64\ndepth 1\nsched fifo\naccount 1 0 0\nproc 1 1 0\n";
    let input = format!(in rt.alloc(); "{head}{files}call 1 creat new\nend\n")?;
    let seen = answered(rt.alloc(), &["replay"], &input)?;
    assert_eq!(rt; seen, due(rt.alloc(), &input, ONE_TOO_MANY)?);
    Ok(())
}

#[test]
fn an_input_is_refused_by_its_first_wrong_line(rt: HostRuntime) -> Result<(), Fail> {
    let rows = [
        ("", "refused line 1: cut\n"),
        (
            "splitload 1\ndevice 1024\ncache 64\n",
            "refused line 4: cut\n",
        ),
        (
            "splitload 1\ndevice 1023\ncache 1\n",
            "refused line 2: range\n",
        ),
        (
            "splitload 1\ndevice 1024\ncache 64\ndepth 1\nsched token\n",
            "refused line 5: notbuilt\n",
        ),
        (
            "splitload 1\ndevice 1024\ncache 2\ndepth 1\nsched fifo\nend\n\n",
            "refused line 7: after\n",
        ),
    ];
    for (input, due) in rows {
        let (text, status) = answered(rt.alloc(), &["replay"], input)?;
        assert_eq!(rt; status, Status::Refused, "{}", due);
        assert_eq!(rt; text.as_slice(), due.as_bytes());
    }
    Ok(())
}
