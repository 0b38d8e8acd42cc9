//! The words of the command line.
ghost use Rattle.std.specs.Prelude.{IfErr};
ghost use Rattle.splitio.specs.Ends.{IsNoWords};

use split_top::Status;
use std::alloc::AllocError;
use std::env;
use std::env::{Env, FillError};
use std::io::ErrorKind;

/// The environment behind the program's name: argument 0 is the first word.
#[derive(Clone, Copy)]
struct BehindName<'a, R> {
    rt: &'a R,
}

impl<'a, R: Alloc> Alloc for BehindName<'a, R> {
    type A = R::A;

    fn alloc(&self) -> R::A {
        self.rt.alloc()
    }
}

impl<'a, R: Env> Env for BehindName<'a, R> {
    fn arg(&self, i: usize, buf: &mut [u8]) -> Result<usize, FillError> {
        self.rt.arg(i.saturating_add(1), buf)
    }

    fn var(&self, name: &str, buf: &mut [u8]) -> Result<usize, FillError> {
        self.rt.var(name, buf)
    }

    fn var_at(&self, i: usize, buf: &mut [u8]) -> Result<usize, FillError> {
        self.rt.var_at(i, buf)
    }
}

/// The words of the command line behind the program's name, at which it doesn't look; or the status
/// that the program ends with where they can't be had: `BadWords` where one is no text (UTF-8), and
/// `OutOfMemory` where there is no memory for them.
pub(crate) fn words<R: Env + Alloc>(rt: &R) -> Result<Vec<String<R::A>, R::A>, Status>
    ensures { IfErr result IsNoWords }
{
    match env::args(&BehindName { rt }) {
        Ok(words) => match words.collect(rt.alloc()) {
            Ok(words) => Ok(words),
            Err(AllocError) => Err(Status::OutOfMemory),
        },
        Err(e) if e.kind() == ErrorKind::OutOfMemory => Err(Status::OutOfMemory),
        Err(_) => Err(Status::BadWords),
    }
}
