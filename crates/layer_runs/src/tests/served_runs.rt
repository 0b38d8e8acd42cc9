//! Runs that writeback serves.
ghost use Rattle.std.specs.Prelude.{◌≡◌, ◌<◌, IfOk, IsSome};
ghost use Rattle.split_types.specs.declared.ids.Serial.{Serial};
ghost use Rattle.split_types.specs.declared.buf.Buf.TheVariants.{Page};
ghost use Rattle.split_types.specs.LiveFiles.{slot_of_serial};
ghost use Rattle.page_cache.specs.Changes.{IsReady};

use super::found;
use cause_set::{PlainTags, TagStore};
use page_cache::Cache;
use small_fs::Fs;
use split_types::{Buf, Name, Pid, Preset, Run, Serial};
use std::alloc::{AllocError, Global};
use std::test::Fail;
use writeback::next_service;

/// A file system with one file, of which the first two pages have blocks.
fn one_file(alloc: Global, name: Name) -> Result<Fs, AllocError>
    ensures { IfOk result (λ fs. IsSome (slot_of_serial fs.slots record { 0 = 0 })) }
{
    let file = Preset {
        name,
        pages: 2,
        fill: 65,
    };
    Fs::new(alloc, &[file], 526)
}

/// A cache whose dirty pages are the first three of a file.
fn three_pages<S: TagStore>(alloc: Global, tags: &mut S, s: Serial) -> Result<Cache<S>, AllocError>
    ensures { IfOk result (λ c. (t : Serial) (g : _) → IsReady c (Page t g) → (t ≡ s) × (g < 3)) }
{
    let mut cache = Cache::new(alloc, 3)?;
    for page in 0..3 {
        cache.write(alloc, tags, Buf::Page(s, page), 0, 4096, 7, Pid(1))?;
    }
    Ok(cache)
}

/// The run that is served first, where three pages are dirty of a file of which two have blocks.
fn first_run<S: TagStore>(
    alloc: Global,
    tags: &mut S,
    name: Name,
) -> Result<Option<Run>, AllocError> {
    let fs = one_file(alloc, name)?;
    let cache = three_pages(alloc, tags, Serial(0))?;
    Ok(next_service(&cache, &fs))
}

#[test]
fn pages_with_blocks_are_served_first(rt: HostRuntime) -> Result<(), Fail> {
    let mut tags = PlainTags::new(rt.alloc())?;
    let run = first_run(rt.alloc(), &mut tags, found(Name::new(b"a"))?)?;
    let expected = Run {
        serial: Serial(0),
        page: 0,
        n: 2,
    };
    assert_eq!(rt; run, Some(expected));
    Ok(())
}
