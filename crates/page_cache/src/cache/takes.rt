//! Pages that are taken out.
ghost use Rattle.std.specs.Prelude.{◌≡◌, ◌+◌, ◌-◌, ◌*◌, ◌<◌, ◌≤◌, ℕ, [], map, slice_set, slice_index_or, Some, None, IfOk, IsOk, OnErr, OnOk, IfNone, IfSome, IsSome, option_map, false, true, vec_capacity};
ghost use Rattle.std.specs.List.{flat_map};
ghost use Rattle.split_types.specs.Sets.{union_of};
ghost use Rattle.split_types.specs.Parents.{pages_of};
ghost use Rattle.split_types.specs.declared.buf.Buf.TheVariants.{Page};
ghost use Rattle.split_types.specs.Hooks.{is_among};
ghost use Rattle.cause_set.specs.Tags.{Moved, Covers, no_use, one_use, use_in, same, held, plus};
ghost use Rattle.page_cache.specs.Cached.{page_of, IsDataPage, is_busy, tag_in, tags_in, causes_of};
ghost use Rattle.page_cache.specs.Changes.{ChangesOnly, ChangesEach, KeepsTouches, IsReady, IsFirstReady, written, taken, taken_among, bytes_in};

use super::Cache;
use crate::page::State;
use crate::tags::{let_go, merged};
use cause_set::TagStore;
use split_types::{Buf, Serial};
use std::alloc::{AllocError, Global};

impl<S: TagStore> Cache<S> {
    /// The least page, by serial and page, that is dirty and not busy; `None` exactly where there is none.
    pub fn first_dirty(&self) -> Option<Buf>
        ensures none { IfNone result ((b : _) → ¬ IsReady self.now b) }
        ensures first { IfSome result (IsFirstReady self.now) }
    {
        let at = self.guide.first_ready()?;
        Some(self.page(at).key.buf())
    }

    /// Takes the `n` pages of a file from `page` on out: their bytes, one page after another, and a tag whose
    /// members are those of all. They are clean and busy then, and their own tags are released.
    pub fn take_out(
        &mut self,
        alloc: Global,
        tags: &mut S,
        s: Serial,
        page: u32,
        n: u32,
    ) -> Result<(Vec<u8>, S::Tag), AllocError>
        requires some { 1 ≤ n }
        requires few { n ≤ 16 }
        requires ready { (k : ℕ) → k < n → IsReady self.old (Page s (page + k)) }
        requires covers { Covers same (tags_in self.old) (S.now tags.old) }
        ensures bytes { IfOk result (λ r. r.0.items ≡ flat_map (λ b. bytes_in (page_of self.old b)) (pages_of s page n)) }
        ensures set { IfOk result (λ r. (S.now tags.new).members (S.number r.1)
            ≡ union_of (map (causes_of (S.now tags.old) self.old) (pages_of s page n))) }
        ensures pages { OnOk result (ChangesEach self.old self.new (taken_among s page n)) }
        ensures causes { OnOk result ((k : _) → is_among s page n k ≡ false
            → causes_of (S.now tags.new) self.new k ≡ causes_of (S.now tags.old) self.old k) }
        ensures moved { IfOk result (λ r. Moved (S.now tags.old) (S.now tags.new) (held same (tags_in self.old))
            (plus (held same (tags_in self.new)) (one_use (S.number r.1)))) }

        // After want of memory there may be more room.
        ensures err { OnErr result (self.new ≡ record self.old { spare = self.new.spare }) }
        ensures err_tags { OnErr result (Moved (S.now tags.old) (S.now tags.new) no_use no_use) }
        ensures spare { self.old.spare ≤ self.new.spare + 1 }
        ensures tags_spare { (S.now tags.old).spare ≤ (S.now tags.new).spare + n }
        ensures succeeds { 0 < self.old.spare → n ≤ (S.now tags.old).spare → IsOk result }
    {
        self.room(alloc, 1)?;
        let bytes = self.run_bytes(alloc, s, page, n);
        let tag = self.take_tag(tags, s, page, n)?;
        Ok((bytes, tag))
    }

    /// Takes the `n` pages of a file from `page` on out as `take_out` does, but hands out no bytes of them: a tag
    /// whose members are those of all. They are clean and busy then, and their own tags are released.
    pub fn take_tag(
        &mut self,
        tags: &mut S,
        s: Serial,
        page: u32,
        n: u32,
    ) -> Result<S::Tag, AllocError>
        requires some { 1 ≤ n }
        requires few { n ≤ 16 }
        requires ready { (k : ℕ) → k < n → IsReady self.old (Page s (page + k)) }
        requires covers { Covers same (tags_in self.old) (S.now tags.old) }
        ensures set { IfOk result (λ t. (S.now tags.new).members (S.number t)
            ≡ union_of (map (causes_of (S.now tags.old) self.old) (pages_of s page n))) }
        ensures pages { OnOk result (ChangesEach self.old self.new (taken_among s page n)) }
        ensures causes { OnOk result ((k : _) → is_among s page n k ≡ false
            → causes_of (S.now tags.new) self.new k ≡ causes_of (S.now tags.old) self.old k) }
        ensures moved { IfOk result (λ t. Moved (S.now tags.old) (S.now tags.new) (held same (tags_in self.old))
            (plus (held same (tags_in self.new)) (one_use (S.number t)))) }
        ensures err { OnErr result (self.new ≡ self.old) }
        ensures err_tags { OnErr result (Moved (S.now tags.old) (S.now tags.new) no_use no_use) }
        ensures spare { self.new.spare ≡ self.old.spare }
        ensures tags_spare { (S.now tags.old).spare ≤ (S.now tags.new).spare + n }
        ensures succeeds { n ≤ (S.now tags.old).spare → IsOk result }
    {
        let tag = self.whole_tag(tags, s, page, n)?;
        for k in 0..n {
            let at = self.place_of(Buf::Page(s, page + k)).unwrap();
            self.take_page(tags, at);
        }
        Ok(tag)
    }

    /// The bytes of `n` pages, one page after another.
    fn run_bytes(&mut self, alloc: Global, s: Serial, page: u32, n: u32) -> Vec<u8>
        requires some { 1 ≤ n }
        requires few { n ≤ 16 }
        requires ready { (k : ℕ) → k < n → IsReady self.old (Page s (page + k)) }
        requires room { 0 < self.old.spare }
        ensures bytes { result.items ≡ flat_map (λ b. bytes_in (page_of self.old b)) (pages_of s page n) }
        ensures rest { self.new ≡ record self.old { spare = self.old.spare - 1 } }
    {
        let mut bytes = self.take_run(alloc, n);
        for k in 0..n {
            let at = self.place_of(Buf::Page(s, page + k)).unwrap();
            self.page(at).bytes.append_to(&mut bytes);
        }
        bytes
    }

    /// A tag with the members of the tags of `n` pages.
    fn whole_tag(&self, tags: &mut S, s: Serial, page: u32, n: u32) -> Result<S::Tag, AllocError>
        requires some { 1 ≤ n }
        requires ready { (k : ℕ) → k < n → IsReady self.now (Page s (page + k)) }
        requires covers { Covers same (tags_in self.now) (S.now tags.old) }
        ensures numbers { page + n ≤ 1008 }
        ensures moved { IfOk result (λ t. Moved (S.now tags.old) (S.now tags.new) no_use (one_use (S.number t))) }
        ensures set { IfOk result (λ t. (S.now tags.new).members (S.number t)
            ≡ union_of (map (causes_of (S.now tags.old) self.now) (pages_of s page n))) }
        ensures err { OnErr result (Moved (S.now tags.old) (S.now tags.new) no_use no_use) }
        ensures spare { (S.now tags.old).spare ≤ (S.now tags.new).spare + n }
        ensures succeeds { n ≤ (S.now tags.old).spare → IsOk result }
    {
        let first = self.ready_tag(Buf::Page(s, page));
        let mut whole = tags.again(first)?;
        for k in 1..n {
            let other = self.ready_tag(Buf::Page(s, page + k));
            whole = merged(tags, whole, other)?;
        }
        Ok(whole)
    }

    /// The tag of a page that is dirty and not busy.
    fn ready_tag(&self, b: Buf) -> &S::Tag
        requires { IsReady self.now b }
        ensures tag { tag_in (page_of self.now b) ≡ Some (S.number result.now) }
        ensures numbers { (k : _) → IsSome (page_of self.now k) → IsDataPage k }
    {
        let at = self.place_of(b).unwrap();
        self.tag_at(at)
    }

    /// The tag of the page in a place, which is dirty.
    fn tag_at(&self, at: usize) -> &S::Tag
        requires { IsSome (tag_in (slice_index_or self.now.places at None)) }
        ensures { Some (S.number result.now) ≡ tag_in (slice_index_or self.now.places at None) }
    {
        self.page(at).tag.as_ref().unwrap()
    }

    /// Memory for the bytes of `n` pages.
    fn take_run(&mut self, alloc: Global, n: u32) -> Vec<u8>
        requires few { n ≤ 16 }
        requires ready { 0 < self.old.spare }
        ensures empty { result.items ≡ [] }
        ensures room { n * 4096 ≤ vec_capacity result }
        ensures rest { self.new ≡ record self.old { spare = self.old.spare - 1 } }
        ensures numbers { (k : _) → IsSome (page_of self.old k) → IsDataPage k }
    {
        self.spare -= 1;
        self.pool.run(alloc, n as usize)
    }

    /// Lets a page be clean and busy, and releases its tag.
    fn take_page(&mut self, tags: &mut S, at: usize)
        requires page { IsSome (slice_index_or self.old.places at None) }
        requires live { (n : ℕ) → use_in same (tag_in (slice_index_or self.old.places at None)) n ≤
            (S.now tags.old).uses n }
        ensures page { self.new ≡ record self.old {
          places = slice_set self.old.places at (option_map taken (slice_index_or self.old.places at None));
        } }
        ensures moved { Moved (S.now tags.old) (S.now tags.new)
            (use_in same (tag_in (slice_index_or self.old.places at None))) no_use }
        ensures spare { (S.now tags.old).spare ≤ (S.now tags.new).spare }
    {
        let state = State {
            busy: true,
            ..self.page(at).state
        };
        let tag = self.change(at, None, state);
        let_go(tags, tag);
    }

    /// The bytes of a page that were taken out are written: it isn't busy.
    pub fn written(&mut self, b: Buf)
        requires { is_busy (page_of self.old b) ≡ true }
        ensures page { ChangesOnly self.old self.new b (option_map written (page_of self.old b)) }
        ensures touches { KeepsTouches self.old self.new }
        ensures spare { self.new.spare ≡ self.old.spare }
    {
        let at = self.place_of(b).unwrap();
        let state = State {
            busy: false,
            ..self.page(at).state
        };
        self.restate(at, state);
    }
}
