//! Tests of whole runs through the top call: texts in, texts out.
//!
//! They show what no contract says: that memory suffices for an answer where it is ample, and that
//! the definitions mean what the worked runs, made by hand and by other programs, say. Nothing stands
//! on this crate. It is apart from `split_top` so that its tests don't make that crate be proved twice.
#![tactic(auto)]

#[cfg(test)]
mod tests;
