//! The lines that stand once each, behind their first words.
ghost use Rattle.std.specs.Prelude.{◌≡◌, ℕ};
ghost use Rattle.split_types.specs.declared.workload.Workload.{Workload};
ghost use Rattle.split_types.specs.IsWorkload.{least_device};
ghost use Rattle.workload_reader.specs.Fields.{Keeps, IsWithin, Reads};
ghost use Rattle.workload_reader.specs.Line.{IsAt, line_fields};
ghost use Rattle.workload_reader.specs.Table.{InRange, Refers};
ghost use Rattle.workload_reader.specs.Weighed.{Weighed};

use crate::cause::Cause;
use crate::line::Line;
use crate::settings::{sched, setting};

/// The version's line.
pub(crate) fn version_line(text: &[u8]) -> Option<(Result<Line, Cause>, &[u8])>
    ensures { (w : Workload) → Reads (IsAt 0) line_fields (Weighed (InRange w) (Refers w)) text.now result }
{
    let (value, rest) = setting(text, 1, 3)?;
    Some((Ok(Line::Version(value?)), rest))
}

/// The least number of blocks of a device.
fn least_device(version: u32) -> u32
    ensures { (w : Workload) → w.version ≡ version → result ≡ least_device w }
{
    if version < 2 { 1024 } else { 2048 }
}

fn device_of(value: Option<u32>) -> Result<Line, Cause>
    ensures { (w : Workload) (n least : ℕ) → least ≡ least_device w → Keeps (IsWithin least 32768) n value
        → Weighed (InRange w) (Refers w) (Line.Device n) result }
{
    let n = value.ok_or(Cause::Range)?;
    Ok(Line::Device(n))
}

/// The device's line.
pub(crate) fn device_line(text: &[u8], version: u32) -> Option<(Result<Line, Cause>, &[u8])>
    ensures { (w : Workload) → w.version ≡ version
        → Reads (IsAt 1) line_fields (Weighed (InRange w) (Refers w)) text.now result }
{
    let (value, rest) = setting(text, least_device(version), 32768)?;
    Some((device_of(value), rest))
}

fn cache_of(value: Option<u32>) -> Result<Line, Cause>
    ensures { (w : Workload) (n : ℕ) → Keeps (IsWithin 2 4096) n value
        → Weighed (InRange w) (Refers w) (Line.Cache n) result }
{
    let n = value.ok_or(Cause::Range)?;
    Ok(Line::Cache(n))
}

/// The cache's line.
pub(crate) fn cache_line(text: &[u8]) -> Option<(Result<Line, Cause>, &[u8])>
    ensures { (w : Workload) → Reads (IsAt 2) line_fields (Weighed (InRange w) (Refers w)) text.now result }
{
    let (value, rest) = setting(text, 2, 4096)?;
    Some((cache_of(value), rest))
}

fn depth_of(value: Option<u32>) -> Result<Line, Cause>
    ensures { (w : Workload) (n : ℕ) → Keeps (IsWithin 1 16) n value
        → Weighed (InRange w) (Refers w) (Line.Depth n) result }
{
    let n = value.ok_or(Cause::Range)?;
    Ok(Line::Depth(n))
}

/// The depth's line.
pub(crate) fn depth_line(text: &[u8]) -> Option<(Result<Line, Cause>, &[u8])>
    ensures { (w : Workload) → Reads (IsAt 3) line_fields (Weighed (InRange w) (Refers w)) text.now result }
{
    let (value, rest) = setting(text, 1, 16)?;
    Some((depth_of(value), rest))
}

/// The scheduler's line.
pub(crate) fn sched_line(text: &[u8]) -> Option<(Result<Line, Cause>, &[u8])>
    ensures { (w : Workload) → Reads (IsAt 4) line_fields (Weighed (InRange w) (Refers w)) text.now result }
{
    let (value, rest) = sched(text)?;
    Some((Ok(Line::Sched(value)), rest))
}
