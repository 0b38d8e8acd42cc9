//! What the lines that were read so far say.
ghost use Rattle.workload_reader.specs.Standing.{StandsFor};

use crate::file_name::FileName;
use fixed_places::Table;
use split_types::Workload;

/// What the lines that were read so far say, with sums over them.
#[derive(Drop)]
pub(crate) struct Seen {
    pub(crate) workload: Workload,
    /// The place after that of the last line.
    pub(crate) stage: u32,
    /// The pages of all files, and those that all calls span.
    pub(crate) pages: u32,
    pub(crate) spanned: u64,
    /// The turns of all `go` lines.
    pub(crate) turns: u32,
    /// The least number that is above those of all sends that are done badly.
    pub(crate) least_fail: u64,
    /// The names of the files, by their places.
    pub(crate) names: Table<FileName>,
    ghost stands: { StandsFor workload pages spanned turns least_fail names },
}
