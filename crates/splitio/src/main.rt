//! splitio, the program: the words of the command line, standard input and standard output go to the
//! top call, and its answer becomes the exit status.
//!
//! `program` is all of that, over any words, source and sink, and its contract says which exit
//! status comes when and what was read and written then. The main function hands it the words of the
//! command line and two streams of the machine, of which no contract can say what they give or take.
#![tactic(auto)]

mod program;
#[cfg(test)]
mod tests;
mod words;

use crate::program::program;
use crate::words::words;
use outside::{StreamSink, StreamSource};
use std::io;
use std::process::ExitCode;

fn main(rt: HostRuntime) -> ExitCode {
    program(
        rt.alloc(),
        words(&rt),
        &mut StreamSource::new(rt.reader()),
        &mut StreamSink::new(io::writer(&rt)),
    )
}
