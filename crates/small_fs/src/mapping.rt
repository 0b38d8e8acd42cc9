//! Pages get blocks.
ghost use Rattle.std.specs.Prelude.{◌≡◌, ℕ, ◌+◌, ◌<◌, ◌≤◌, length, slice_index, slice_set, Some};
ghost use Rattle.split_types.specs.LiveFiles.{with_run};
ghost use Rattle.small_fs.specs.Uses.{uses_in};

use crate::file::File;
use crate::uses::Uses;

/// Gives a page of a file a block. What is counted of the file's pages stays so.
fn map_page(uses: &mut Uses, file: &mut File, page: u32, block: u32)
    requires page { page < 1008 }
    requires some { 0 < block }
    requires within { block < 32768 }
    requires pages { length file.old.blocks ≡ 1008 }
    requires counted { (b : ℕ) → uses_in b file.old.blocks ≤ slice_index uses.old.pages b }
    requires few { (b : ℕ) → slice_index uses.old.pages b < 1000000 }
    ensures file { file.new ≡ record file.old { blocks = slice_set file.old.blocks page (Some block) } }
    ensures first { uses.new.first ≡ uses.old.first }
    ensures counted { (b : ℕ) → slice_index uses.new.pages b + uses_in b file.old.blocks
        ≡ slice_index uses.old.pages b + uses_in b file.new.blocks }
{
    let had = file.set_block(page, block);
    uses.remove(had);
    uses.add(block);
}

/// Gives the `n` pages of a file from `page` on the blocks from `first` on. What is counted of the file's pages stays
/// so.
pub(crate) fn map_pages(uses: &mut Uses, file: &mut File, page: u32, n: u32, first: u32)
    requires fit { page + n ≤ 1008 }
    requires some { 0 < first }
    requires within { first + n ≤ 32768 }
    requires pages { length file.old.blocks ≡ 1008 }
    requires counted { (b : ℕ) → uses_in b file.old.blocks ≤ slice_index uses.old.pages b }
    requires few { (b : ℕ) → slice_index uses.old.pages b ≤ 258048 }
    ensures file { file.new ≡ record file.old { blocks = with_run page n first file.old.blocks } }
    ensures first { uses.new.first ≡ uses.old.first }
    ensures counted { (b : ℕ) → slice_index uses.new.pages b + uses_in b file.old.blocks
        ≡ slice_index uses.old.pages b + uses_in b file.new.blocks }
{
    for i in 0..n {
        map_page(uses, file, page + i, first + i);
    }
}
