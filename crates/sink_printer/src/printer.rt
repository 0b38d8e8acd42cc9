//! The printer that hands its text to a sink.
ghost use Rattle.std.specs.Prelude.{◌≡◌, [], ℕ, List, true, false};
ghost use Rattle.line_printer.specs.Puts.{Puts};
ghost use Rattle.sink_printer.specs.Due.{Hands, Sent};
ghost use Rattle.sink_printer.specs.DueAt.{DueAt};

use crate::page::Page;
use line_printer::Printer;
use outside::{Failed, Sink, write_all};

/// Prints to a sink. What was printed and isn't handed over yet stands on a page; where the sink fails, all
/// that follows is dropped.
pub struct SinkPrinter<'a, K> {
    sink: &'a mut K,
    page: &'a mut Page,
    failed: bool,
}

impl<K> Drop for SinkPrinter<'_, K> {
    fn drop(self)
        ensures { self.exit.0.now ≡ self.entry.sink.now }
    {
        let SinkPrinter {
            sink: _,
            page: _,
            failed: _,
        } = self;
    }
}

/// Hands bytes to a sink, unless it failed before, and says whether it has failed.
fn hand<K: Sink>(sink: &mut K, failed: bool, bytes: &[u8]) -> bool
    ensures { Hands (record { held = K.held; faults = K.faults; room = K.room }) sink.old failed sink.new result
        bytes.now }
{
    failed || write_all(sink, bytes).is_err()
}

impl<'a, K: Sink> SinkPrinter<'a, K> {
    ghost use Rattle.sink_printer.specs.declared.printer.SinkPrinter.{SinkPrinter};

    /// A printer that has handed nothing to this sink.
    pub fn new(sink: &'a mut K, page: &'a mut Page) -> SinkPrinter<'a, K>
        ensures same_reference { result.sink.ghost_name ≡ sink.entry.ghost_name }
        ensures sink { result.sink.now ≡ sink.old }
        ensures due { page.old ≡ [] → (whole : List ℕ)
            → DueAt (record { held = K.held; faults = K.faults; room = K.room }) result whole result whole }
    {
        SinkPrinter {
            sink,
            page,
            failed: false,
        }
    }

    /// Hands all that is kept to the sink, unless it failed before, and keeps nothing.
    fn flush(&mut self)
        ensures puts { Puts (DueAt (record { held = K.held; faults = K.faults; room = K.room })) self.old self.new [] }
        ensures empty { self.new.page.now ≡ [] }
    {
        self.failed = hand(self.sink, self.failed, self.page.as_slice());
        self.page.clear();
    }

    /// Hands bytes to the sink, where nothing is kept.
    fn pass_on(&mut self, bytes: &[u8])
        requires { self.old.page.now ≡ [] }
        ensures { Puts (DueAt (record { held = K.held; faults = K.faults; room = K.room })) self.old self.new bytes.now }
    {
        self.failed = hand(self.sink, self.failed, bytes);
    }

    /// Takes bytes that don't fit on what is left of the page.
    #[cold]
    #[inline(never)]
    fn turn(&mut self, bytes: &[u8])
        ensures { Puts (DueAt (record { held = K.held; faults = K.faults; room = K.room })) self.old self.new bytes.now }
    {
        self.flush();
        if self.page.has_room(bytes.len()) {
            self.page.put(bytes);
        } else {
            self.pass_on(bytes);
        }
    }

    /// Hands over what is kept, and says whether the sink got all that was printed.
    pub fn finish(&mut self) -> Result<(), Failed>
        ensures { (start : SinkPrinter K) (whole : List ℕ)
            → DueAt (record { held = K.held; faults = K.faults; room = K.room }) start whole self.old []
            → (self.new.sink.ghost_name ≡ start.sink.ghost_name)
            × Sent (record { held = K.held; faults = K.faults; room = K.room }) start.sink.now self.new.sink.now whole
            result }
    {
        self.flush();
        if self.failed { Err(Failed) } else { Ok(()) }
    }
}

impl<'a, K: Sink> Printer for SinkPrinter<'a, K> {
    ghost due = { DueAt (record { held = K.held; faults = K.faults; room = K.room }) };

    #[inline(always)]
    fn put(&mut self, bytes: &[u8]) {
        if self.page.has_room(bytes.len()) {
            self.page.put(bytes);
        } else {
            self.turn(bytes);
        }
    }

    #[inline(always)]
    fn put_pair(&mut self, first: u8, second: u8) {
        if self.page.has_room(2) {
            self.page.put_pair(first, second);
        } else {
            self.turn([first, second].as_slice());
        }
    }

    #[inline(always)]
    fn put_triple(&mut self, first: u8, second: u8, third: u8) {
        if self.page.has_room(3) {
            self.page.put_triple(first, second, third);
        } else {
            self.turn([first, second, third].as_slice());
        }
    }
}
