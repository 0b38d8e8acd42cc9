//! Text that is kept in memory.
ghost use Rattle.std.specs.Prelude.{◌≡◌, [], IfOk, false};

use crate::printer::Printer;
use std::alloc::{AllocError, Global};

/// A printer that keeps its text in memory. Where there is none it keeps no more.
#[derive(Drop)]
pub struct Sheet {
    text: Vec<u8>,
    cut: bool,
}

impl Sheet {
    /// A sheet with nothing on it. It takes no memory.
    pub fn new(alloc: Global) -> Sheet
        ensures text { result.text.items ≡ [] }
        ensures whole { result.cut ≡ false }
    {
        Sheet {
            text: Vec::new(alloc),
            cut: false,
        }
    }

    /// A sheet with nothing on it, with memory for this many bytes.
    pub fn with_room(alloc: Global, bytes: usize) -> Result<Sheet, AllocError>
        ensures text { IfOk result (λ s. s.text.items ≡ []) }
        ensures whole { IfOk result (λ s. s.cut ≡ false) }
    {
        Ok(Sheet {
            text: Vec::with_capacity(alloc, bytes)?,
            cut: false,
        })
    }

    /// The text that was put on the sheet, unless memory was wanting.
    pub fn finish(self) -> Result<Vec<u8>, AllocError>
        ensures text { IfOk result (λ v. v.items ≡ self.text.items) }
        ensures whole { IfOk result (λ _. self.cut ≡ false) }
    {
        if self.cut {
            return Err(AllocError);
        }
        Ok(self.text)
    }
}

impl Printer for Sheet {
    ghost use Rattle.line_printer.specs.OnSheet.{DueOnSheet};

    ghost due = { DueOnSheet };

    fn put(&mut self, bytes: &[u8]) {
        if self.text.extend_from_slice(bytes).is_err() {
            self.cut = true;
        }
    }

    fn put_pair(&mut self, first: u8, second: u8) {
        self.put([first, second].as_slice());
    }

    fn put_triple(&mut self, first: u8, second: u8, third: u8) {
        self.put([first, second, third].as_slice());
    }
}
