//! Tests of the calls of the crates that the program is made of, each once where all goes well; and a table of texts
//! that are read as traces or refused.
//!
//! They show what no contract says: that a call can succeed where memory is ample, and that the definitions of a
//! trace mean what texts made by hand say. Nothing stands on this crate. It is apart from those so that its tests
//! don't make them be proved twice.
#![tactic(auto)]

#[cfg(test)]
mod tests;
