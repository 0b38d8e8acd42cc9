//! How far a run goes.
ghost use Rattle.std.specs.Prelude.{◌≡◌, ℕ, ◌<◌, ◌≤◌, true, false, IsSome};
ghost use Rattle.split_types.specs.LiveFiles.{slot_of_serial};
ghost use Rattle.split_types.specs.ServedRuns.{are_apart};
ghost use Rattle.split_types.specs.declared.buf.Buf.TheVariants.{Page};
ghost use Rattle.page_cache.specs.Cached.{page_of, is_ready};
ghost use Rattle.writeback.specs.ServedRun.{goes_on, CanServe};
ghost use Rattle.writeback.specs.Starts.{IsStart};

use cause_set::TagStore;
use page_cache::Cache;
use small_fs::Fs;
use split_types::{Buf, Serial, Slot};

/// How many pages are served together at most.
const LONGEST: u32 = 16;

/// The page with which a run begins, where its file is, and its block if it has one.
#[derive(Clone, Copy, Debug)]
pub(crate) struct Start {
    serial: Serial,
    page: u32,
    slot: Slot,
    block: Option<u32>,
}

impl Start {
    /// The run begins at this page of a live file.
    pub(crate) fn of(fs: &Fs, serial: Serial, page: u32) -> Start
        requires number { page < 1008 }
        requires file { IsSome (slot_of_serial fs.now.slots serial) }
        ensures serial { result.serial ≡ serial }
        ensures page { result.page ≡ page }
        ensures start { IsStart fs.now result }
    {
        let slot = fs.slot_of(serial).unwrap();
        Start {
            serial,
            page,
            slot,
            block: fs.map_of(slot, page),
        }
    }
}

/// Whether a page is dirty and not busy.
fn is_ready<S: TagStore>(c: &Cache<S>, serial: Serial, page: u32) -> bool
    ensures { result ≡ is_ready (page_of c.now (Page serial page)) }
{
    match c.find(Buf::Page(serial, page)) {
        Some(state) => state.dirty && !state.busy,
        None => false,
    }
}

/// Whether two pages, `k` pages apart, have no block, or have blocks that are `k` blocks apart.
fn are_apart(k: u32, first: Option<u32>, other: Option<u32>) -> bool
    ensures { result ≡ are_apart k first other }
{
    match (first, other) {
        (None, None) => true,
        (Some(first), Some(other)) => u64::from(other) == u64::from(first) + u64::from(k),
        _ => false,
    }
}

/// Whether the page `k` pages behind the start goes on with the run.
fn goes_on<S: TagStore>(c: &Cache<S>, fs: &Fs, start: &Start, k: u32) -> bool
    requires serve { CanServe c.now fs.now }
    requires start { IsStart fs.now start.now }
    requires few { k < 16 }
    ensures { result ≡ goes_on c.now fs.now start.now.serial start.now.page k }
{
    let page = start.page + k;
    is_ready(c, start.serial, page) && are_apart(k, start.block, fs.map_of(start.slot, page))
}

/// How many pages the run has that begins with a page that is dirty and not busy.
pub(crate) fn run_length<S: TagStore>(c: &Cache<S>, fs: &Fs, start: &Start) -> u32
    requires serve { CanServe c.now fs.now }
    requires start { IsStart fs.now start.now }
    requires ready { is_ready (page_of c.now (Page start.now.serial start.now.page)) ≡ true }
    ensures some { 1 ≤ result }
    ensures most { result ≤ 16 }
    ensures goes { (k : ℕ) → k < result → goes_on c.now fs.now start.now.serial start.now.page k ≡ true }
    ensures stops { result < 16 → goes_on c.now fs.now start.now.serial start.now.page result ≡ false }
{
    for k in 1..LONGEST {
        if !goes_on(c, fs, start, k) {
            return k;
        }
    }
    LONGEST
}
