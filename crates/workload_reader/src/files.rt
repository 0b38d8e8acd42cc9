//! The lines of files, behind their first word.
ghost use Rattle.std.specs.Prelude.{◌≡◌, IsTrue};
ghost use Rattle.split_types.specs.Names.{is_name};
ghost use Rattle.split_types.specs.WorkloadText.{preset_fields};
ghost use Rattle.workload_reader.specs.Fields.{Keeps, IsWithin, Reads};
ghost use Rattle.workload_reader.specs.Table.{IsPresetInRange};

use crate::number::{after, ranged};
use crate::word::spaced;
use split_types::{Name, Preset};

/// The preset file of numbers that are in their ranges.
fn preset_of(name: Name, pages: Option<u32>, fill: Option<u32>) -> Option<Preset>
    ensures { (f : Preset) → name ≡ f.name → Keeps (IsWithin 0 1008) f.pages pages → Keeps (IsWithin 0 255) f.fill fill
        → Keeps IsPresetInRange f result }
{
    let pages = pages?;
    let fill = u8::try_from(fill?).ok()?;
    Some(Preset { name, pages, fill })
}

/// The preset file of a line, where its numbers are in their ranges, and the lines that follow.
pub(crate) fn preset(text: &[u8]) -> Option<(Option<Preset>, &[u8])>
    ensures { Reads (λ f. IsTrue (is_name f.name)) preset_fields (Keeps IsPresetInRange) text.now result }
{
    let (word, rest) = spaced(text)?;
    let name = Name::new(word)?;
    let (pages, rest) = ranged(rest, 0, 1008)?;
    let (fill, rest) = ranged(rest, 0, 255)?;
    let rest = after(rest, b"\n")?;
    Some((preset_of(name, pages, fill), rest))
}
