//! Which run comes next.
ghost use Rattle.writeback.specs.ServedRun.{CanServe, IsNextRun};

use crate::run::{Start, run_length};
use cause_set::TagStore;
use page_cache::Cache;
use small_fs::Fs;
use split_types::{Buf, Run};

/// The run that writeback serves next: it begins at the least page, by serial and page, that is dirty and not busy.
/// `None` exactly where there is no such page.
pub fn next_service<S: TagStore>(c: &Cache<S>, fs: &Fs) -> Option<Run>
    requires { CanServe c.now fs.now }
    ensures { IsNextRun c.now fs.now result }
{
    let Buf::Page(serial, page) = c.first_dirty()? else {
        unreachable!()
    };
    let start = Start::of(fs, serial, page);
    Some(Run {
        serial,
        page,
        n: run_length(c, fs, &start),
    })
}
