//! Tests of the calls of the layers of the stack, each once where all goes well.
//!
//! They show what no contract says: that a call can succeed where memory is ample. Nothing stands on this crate. It
//! is apart from the layers so that its tests don't make them be proved twice.
#![tactic(auto)]

#[cfg(test)]
mod tests;
