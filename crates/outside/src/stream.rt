// The real streams.
ghost use Rattle.std.specs.Prelude.{◌≡◌, ℕ, ◌<◌, ◌≤◌, length, None, IfOk};
ghost use Rattle.std.specs.Io.{ReadsAtMost};
ghost use Rattle.std.specs.Io.KnownBytes.{ReadConsumes, WriteAppends};
ghost use Rattle.outside.specs.Faults.{HasCause, Counts};
ghost use Rattle.outside.specs.Stream.{Stream};

use crate::sink::Sink;
use crate::source::{Failed, Source};
use std::io::{Read, Write};
use std::marker::Model;

/// Reads a stream. It counts each error and tells no bytes.
#[derive(Drop)]
pub struct StreamSource<R> {
    inner: R,
    faults: u64,
}

impl<R> Model for StreamSource<R> {
    ghost Value = { Stream R };

    ghost view = { λ s. record { inner = s.inner; faults = s.faults } };
}

impl<R: Read> StreamSource<R> {
    /// A source over this stream.
    pub fn new(inner: R) -> StreamSource<R>
        ensures { result ≡ record { inner = inner; faults = 0 } }
    {
        StreamSource { inner, faults: 0 }
    }
}

impl<R: Read> Source for StreamSource<R> {
    ghost left = { λ _. None };

    ghost faults = { λ s. s.faults };

    fn read(&mut self, into: &mut [u8]) -> Result<usize, Failed>
        requires { 0 < length into.old }
        ensures bound { ReadsAtMost result into.new }
        ensures bytes { ReadConsumes None None result into.new }
        ensures cause { HasCause self.old.faults self.new.faults result }

        // Where the stream tells its bytes, these are the ones given; and only an error is counted.
        ensures inner { ReadConsumes (R.remaining self.old.inner) (R.remaining self.new.inner)
            result into.new }
        ensures count { Counts self.old.faults self.new.faults result }
    {
        match self.inner.read(into) {
            Ok(count) => Ok(count),
            Err(_) => {
                self.faults = self.faults.saturating_add(1);
                Err(Failed)
            }
        }
    }
}

/// Writes a stream. It counts each error, and each write that took nothing, and tells no bytes.
#[derive(Drop)]
pub struct StreamSink<W> {
    inner: W,
    faults: u64,
}

impl<W> Model for StreamSink<W> {
    ghost Value = { Stream W };

    ghost view = { λ s. record { inner = s.inner; faults = s.faults } };
}

impl<W: Write> StreamSink<W> {
    /// A sink over this stream.
    pub fn new(inner: W) -> StreamSink<W>
        ensures { result ≡ record { inner = inner; faults = 0 } }
    {
        StreamSink { inner, faults: 0 }
    }
}

impl<W: Write> Sink for StreamSink<W> {
    ghost held = { λ _. None };

    ghost faults = { λ s. s.faults };

    fn write(&mut self, from: &[u8]) -> Result<usize, Failed>
        requires { 0 < length from.now }
        ensures some { IfOk result (λ k. 0 < k) }
        ensures bound { IfOk result (λ k. k ≤ length from.now) }
        ensures bytes { WriteAppends None None result from.now }
        ensures cause { HasCause self.old.faults self.new.faults result }

        // Where the stream tells its bytes, these are the ones taken; and only an error is counted.
        ensures inner { WriteAppends (W.contents self.old.inner) (W.contents self.new.inner)
            result from.now }
        ensures count { Counts self.old.faults self.new.faults result }
    {
        match self.inner.write(from) {
            Ok(count) if count > 0 => Ok(count),
            _ => {
                self.faults = self.faults.saturating_add(1);
                Err(Failed)
            }
        }
    }
}
