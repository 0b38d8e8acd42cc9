//! The text of a workload, both ways, and the workload that is made from a number.
//!
//! [`read_workload`] answers the workload that a text spells (`Spells` of `split_types`), or which of its lines is
//! refused first and why (`Refuses`). Both speak of the lines whose text this is: a line has one text, by which it is
//! read and printed, and nothing in the definitions reads. Want of memory may come in place of either. What makes
//! such reading exact are laws, on functions that do nothing: a text spells one workload at most
//! ([`texts_spell_one_workload`]), it has one refusal at most, and never both; so its answer is the one that is due
//! ([`reading_is_exact`]). [`read_front`] reads the workload at the front of a longer text. A line is read in place,
//! each number once, and names of files are found by key.
//!
//! [`write_workload`] and [`put_workload`] print a workload, one that is not accepted too. [`generate`] makes one
//! from a number.
//!
//! `trace_text` and `split_top` stand on this crate.
#![tactic(auto)]

pub use cause::Cause;
pub use fault::{LineFault, ReadWorkload};
pub use front::read_front;
pub use generator::generate;
pub use laws::{
    reading_is_exact, spelled_texts_are_not_refused, texts_have_one_refusal,
    texts_spell_one_workload, workloads_have_one_text,
};
pub use number::{after, counted, number as number_at, number_of, ranged};
pub use reading::read_workload;
pub use taking::has_newline;
pub use writing::{put_workload, write_workload};

mod actors;
mod adding;
mod calls;
mod cause;
mod draws;
mod extent;
mod fault;
mod file_name;
mod files;
mod front;
mod generator;
mod heads;
mod items;
mod judging;
mod laws;
mod line;
mod line_at;
mod number;
mod reading;
mod seen;
mod settings;
mod start;
mod taking;
mod turns;
mod word;
mod writing;
