//! How far a process has come.
use split_types::{Call, Serial};

/// How far a process has come with its call that is under way or, where none is, which call is next.
#[derive(Clone, Copy, Debug)]
pub struct Progress {
    /// The call under way, or else the next one; none where no call is left.
    pub call: Option<Call>,
    /// The number of that call, counted from 0.
    pub number: u32,
    /// Whether the call is under way.
    pub entered: bool,
    /// Whether it was let in.
    pub admitted: bool,
    /// Whether it made its file, or dropped it.
    pub acted: bool,
    /// The file that it was bound to when it was let in; that may have been dropped since.
    pub bound: Option<Serial>,
    /// The size of that file when the call was let in.
    pub size_at_admit: u32,
    /// How many bytes it has put or got.
    pub moved: u32,
    /// The sum of the bytes that it has got.
    pub sum: u64,
    /// Whether its read of the page of its next piece was done badly.
    pub bad_read: bool,
}
