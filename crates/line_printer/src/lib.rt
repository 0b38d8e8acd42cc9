//! Where text goes, and the words of its lines.
//!
//! A [`Printer`] takes text piece by piece. What it can't take it drops, and says so at its end; so what
//! prints has nothing to ask after each word. A [`Sheet`] keeps the text in memory. The other functions
//! print what the lines of all texts are made of: words, numbers, amounts, actors. Their contracts say
//! which bytes they print, by the definitions of lines in `split_types`.
//!
//! Whatever prints a workload, a trace, a report or a refusal stands on this crate.
#![tactic(auto)]

mod line;
mod printer;
mod sheet;

pub use line::{
    end_line, kind_word, put_actor, put_amount, put_digits, put_lettered, put_number,
    put_number_line, put_word,
};
pub use printer::Printer;
pub use sheet::Sheet;
