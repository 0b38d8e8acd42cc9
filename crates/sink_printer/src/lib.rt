//! Text that goes to a sink as it is printed.
//!
//! A [`SinkPrinter`] is a printer that keeps at most one page of text and hands each full page to a sink.
//! It takes no memory but for that page, which is made before anything is written. Its contracts say that
//! the sink gets exactly the text that was printed, or, where it fails, a front of it.
//!
//! The top call writes its answers by this crate, which stands on the printers of `line_printer` and the
//! sinks of `outside`.
#![tactic(auto)]

mod page;
mod printer;

pub use page::Page;
pub use printer::SinkPrinter;
