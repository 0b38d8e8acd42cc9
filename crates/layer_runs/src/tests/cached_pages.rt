//! Pages through a cache.
ghost use Rattle.std.specs.Prelude.{◌≡◌, ℕ, true, IfOk, IsSome};
ghost use Rattle.split_types.specs.declared.buf.Buf.TheVariants.{Page};
ghost use Rattle.cause_set.specs.Tags.{Covers, same};
ghost use Rattle.page_cache.specs.Cached.{IsDataPage, is_loading, page_of, tags_in};
ghost use Rattle.page_cache.specs.Changes.{IsLoaded, IsReady};

use cause_set::{PlainTags, TagStore};
use page_cache::Cache;
use split_types::{Buf, Pid, Serial};
use std::alloc::{AllocError, Global};
use std::test::Fail;

#[test]
fn a_new_cache_holds_nothing(rt: HostRuntime) -> Result<(), Fail> {
    let mut cache = Cache::<PlainTags>::new(rt.alloc(), 2)?;
    cache.room(rt.alloc(), 1)?;
    cache.unpin(Pid(1));
    assert!(rt; cache.tag(Buf::Page(Serial(0), 3)).is_none());
    assert_eq!(rt; (cache.held(), cache.dirty_or_busy()), (0, 0));
    Ok(())
}

/// A cache of two places that holds one page, of which process 2 wrote ten bytes.
fn one_page<S: TagStore>(alloc: Global, tags: &mut S, s: Serial) -> Result<Cache<S>, AllocError>
    ensures loaded { IfOk result (λ c. IsLoaded c (Page s 3)) }
    ensures ready { IfOk result (λ c. IsReady c (Page s 3)) }
    ensures covers { IfOk result (λ c. Covers same (tags_in c) (S.now tags.new)) }
    ensures alone { IfOk result (λ c. (g : ℕ) → IsSome (page_of c (Page s g)) → g ≡ 3) }
{
    let mut cache = Cache::new(alloc, 2)?;
    cache.write(alloc, tags, Buf::Page(s, 3), 0, 10, 7, Pid(2))?;
    Ok(cache)
}

/// The sum of some bytes of a page, by either call, whether it is the first that is dirty, and how many pages are held
/// when its file is freed.
fn summed_and_freed<S: TagStore>(
    alloc: Global,
    tags: &mut S,
) -> Result<(u64, u64, Option<Buf>, u32), AllocError> {
    let b = Buf::Page(Serial(0), 3);
    let mut cache = one_page(alloc, tags, Serial(0))?;
    let peeked = cache.peek_sum(b, 5, 12);
    let sum = cache.get(b, 5, 12);
    let dirty = cache.first_dirty();
    cache.free(tags, Serial(0), 4);
    Ok((peeked, sum, dirty, cache.held()))
}

#[test]
fn a_page_is_written(rt: HostRuntime) -> Result<(), Fail> {
    let mut tags = PlainTags::new(rt.alloc())?;
    let seen = summed_and_freed(rt.alloc(), &mut tags)?;
    assert_eq!(rt; seen, (35, 35, Some(Buf::Page(Serial(0), 3)), 0));
    Ok(())
}

/// How many bytes a page has that is taken out, and whether it is held still when it is written and evicted.
fn taken_and_evicted<S: TagStore>(
    alloc: Global,
    tags: &mut S,
) -> Result<(usize, bool), AllocError> {
    let b = Buf::Page(Serial(0), 3);
    let mut cache = one_page(alloc, tags, Serial(0))?;
    let (bytes, tag) = cache.take_out(alloc, tags, Serial(0), 3, 1)?;
    tags.release(tag);
    cache.written(b);
    if let Some(victim) = cache.victim() {
        cache.evict(victim);
    }
    Ok((bytes.len(), cache.find(b).is_some()))
}

#[test]
fn a_page_is_taken_out(rt: HostRuntime) -> Result<(), Fail> {
    let mut tags = PlainTags::new(rt.alloc())?;
    assert_eq!(rt; taken_and_evicted(rt.alloc(), &mut tags)?, (4096, false));
    Ok(())
}

/// The byte that a page is known to have at each place of which only some were written, and which page is dirty when a
/// tag of that one is taken out.
fn tag_taken<S: TagStore>(
    alloc: Global,
    tags: &mut S,
) -> Result<(Option<u8>, Option<Buf>), AllocError> {
    let mut cache = one_page(alloc, tags, Serial(0))?;
    let tag = cache.take_tag(tags, Serial(0), 3, 1)?;
    tags.release(tag);
    Ok((cache.fill_of(Buf::Page(Serial(0), 3)), cache.first_dirty()))
}

#[test]
fn a_tag_is_taken_out(rt: HostRuntime) -> Result<(), Fail> {
    let mut tags = PlainTags::new(rt.alloc())?;
    assert_eq!(rt; tag_taken(rt.alloc(), &mut tags)?, (None, None));
    Ok(())
}

/// A cache of two places in which a page is loading.
fn loading_page(alloc: Global, b: Buf) -> Result<Cache<PlainTags>, AllocError>
    requires { IsDataPage b }
    ensures { IfOk result (λ c. is_loading (page_of c b) ≡ true) }
{
    let mut cache = Cache::new(alloc, 2)?;
    cache.begin_load(alloc, b, Pid(1))?;
    Ok(cache)
}

#[test]
fn a_page_is_loaded(rt: HostRuntime) -> Result<(), Fail> {
    let b = Buf::Page(Serial(1), 0);
    let mut cache = loading_page(rt.alloc(), b)?;
    cache.load(b, &[9; 4096]);
    assert_eq!(rt; cache.peek_sum(b, 1, 4), 27);
    Ok(())
}

#[test]
fn a_page_of_one_byte_is_loaded(rt: HostRuntime) -> Result<(), Fail> {
    let b = Buf::Page(Serial(1), 0);
    let mut cache = loading_page(rt.alloc(), b)?;
    cache.load_filled(b, 9);
    assert_eq!(rt; (cache.fill_of(b), cache.peek_sum(b, 1, 4)), (Some(9), 27));
    Ok(())
}

#[test]
fn a_load_is_given_up(rt: HostRuntime) -> Result<(), Fail> {
    let b = Buf::Page(Serial(1), 0);
    let mut cache = loading_page(rt.alloc(), b)?;
    cache.give_up(b);
    assert_eq!(rt; cache.held(), 0);
    Ok(())
}
