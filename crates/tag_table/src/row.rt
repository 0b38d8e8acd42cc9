//! What a table keeps of a set.
use cause_set::Causes;

/// A set in use, and how often it is.
#[derive(Clone, Copy, Debug)]
pub(crate) struct Row {
    pub(crate) set: Causes,
    pub(crate) uses: u64,
}
