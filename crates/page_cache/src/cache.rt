//! The cache.
ghost use Rattle.std.specs.Prelude.{◌≡◌, ℕ, ◌≤◌, length, replicate, Some, None, IfOk, IfNone, IfSome, IsOk, IsSome, OnOk, OnErr, option_map, slice_index_or};
ghost use Rattle.page_cache.specs.Cached.{page_of, IsDataPage, held_in, unsettled_in, state_of, tag_in, tags_in};
ghost use Rattle.page_cache.specs.Changes.{bytes_in};
ghost use Rattle.page_cache.specs.Held.{seen};
ghost use Rattle.cause_set.specs.Tags.{held, same};
ghost use Rattle.page_cache.specs.Steps.{IsPlaced};

mod changes;
mod evicts;
mod loads;
mod takes;
mod writes;

use crate::guide::Guide;
use crate::key::PageKey;
use crate::page::Page;
use crate::pool::Pool;
use crate::state::PageState;
use cause_set::TagStore;
use split_types::Buf;
use std::alloc::{AllocError, Global};
use std::marker::Model;

/// The pages that are held, each with its bytes and, where it is dirty, the tag of its causes.
#[derive(Drop)]
pub struct Cache<S: TagStore> {
    limit: u32,
    spare: u32,
    places: Vec<Option<Page<S::Tag>>>,
    guide: Guide,
    pool: Pool,
}

impl<S: TagStore> Model for Cache<S> {
    ghost use Rattle.page_cache.specs.Cached.{Cached};

    ghost Value = { Cached };

    ghost use Rattle.page_cache.specs.Fields.{all_seen, cached_of};
    ghost use Rattle.page_cache.specs.Kept.{IsKept};

    ghost view = { λ c. cached_of S.number c.limit c.spare c.places.items c.guide };

    ghost invariant = { λ c. IsKept c.limit c.spare (all_seen S.number c.places.items) c.guide c.pool };
}

/// So many places without a page.
fn empty_places<T>(alloc: Global, places: usize) -> Result<Vec<Option<Page<T>>>, AllocError>
    ensures { IfOk result (λ v. v.items ≡ replicate places None) }
{
    let mut all = Vec::with_capacity(alloc, places)?;
    while all.len() < places {
        all.push_reserved(None);
    }
    Ok(all)
}

impl<S: TagStore> Cache<S> {
    /// A cache that can hold so many pages, and holds none. Beside the bytes of pages it takes all memory that
    /// it needs.
    pub fn new(alloc: Global, places: u32) -> Result<Cache<S>, AllocError>
        ensures limit { IfOk result (λ c. c.limit ≡ places) }
        ensures empty { IfOk result (λ c. (b : _) → page_of c b ≡ None) }
        ensures none { IfOk result (λ c. held_in c ≡ 0) }
        ensures settled { IfOk result (λ c. unsettled_in c ≡ 0) }
        ensures tags { IfOk result (λ c. (n : ℕ) → held same (tags_in c) n ≡ 0) }
    {
        let count = (places as usize).max(1);
        Ok(Cache {
            limit: places,
            spare: 0,
            places: empty_places(alloc, count)?,
            guide: Guide::new(alloc, count)?,
            pool: Pool::new(alloc, count)?,
        })
    }

    /// Makes room for `n` more calls that take memory.
    pub fn room(&mut self, alloc: Global, n: u32) -> Result<(), AllocError>
        ensures ok { OnOk result (n ≤ self.new.spare) }
        ensures spare { self.old.spare ≤ self.new.spare }
        ensures rest { self.new ≡ record self.old { spare = self.new.spare } }
        ensures err { OnErr result (self.new ≡ self.old) }
        ensures succeeds { n ≤ self.old.spare → IsOk result }
    {
        if n <= self.spare {
            return Ok(());
        }
        self.pool.room(alloc, n as usize, n as usize)?;
        self.spare = n;
        Ok(())
    }

    /// How many pages are held.
    pub fn held(&self) -> u32
        ensures { result ≡ held_in self.now }
    {
        self.guide.held() as u32
    }

    /// How many pages are dirty or busy.
    pub fn dirty_or_busy(&self) -> u32
        ensures { result ≡ unsettled_in self.now }
    {
        self.guide.unsettled() as u32
    }

    /// How a page stands; `None` exactly where it isn't held.
    pub fn find(&self, b: Buf) -> Option<PageState>
        ensures { result ≡ option_map state_of (page_of self.now b) }
    {
        let page = self.page(self.place_of(b)?);
        Some(PageState {
            dirty: page.tag.is_some(),
            busy: page.state.busy,
            loading: page.state.loading,
            pinned: !page.state.loading && page.state.pin.is_some(),
        })
    }

    /// The tag of the causes of a page; `None` exactly where it isn't dirty.
    pub fn tag(&self, b: Buf) -> Option<&S::Tag>
        ensures { option_map (λ t. S.number t.now) result ≡ tag_in (page_of self.now b) }
    {
        self.page(self.place_of(b)?).tag.as_ref()
    }

    /// The byte that a page has at each place, where it is known that one is.
    pub fn fill_of(&self, b: Buf) -> Option<u8>
        ensures { IfSome result (λ byte. bytes_in (page_of self.now b) ≡ replicate 4096 byte) }
    {
        self.page(self.place_of(b)?).bytes.all()
    }

    /// The place of a page.
    fn place_of(&self, b: Buf) -> Option<usize>
        ensures none { IfNone result (page_of self.now b ≡ None) }
        ensures some { IfSome result (IsPlaced self.now.places b) }
        ensures numbers { (k : _) → IsSome (page_of self.now k) → IsDataPage k }
    {
        let guide = &self.guide;
        guide.find(PageKey::of(b)?)
    }

    /// The page in a place.
    fn page(&self, at: usize) -> &Page<S::Tag>
        requires { IsSome (slice_index_or self.now.places at None) }
        ensures page { slice_index_or self.now.places at None ≡ seen S.number (Some result.now) }
        ensures len { length result.now.bytes ≡ 4096 }
    {
        self.places[at].as_ref().unwrap()
    }
}
