//! Pages that leave.
ghost use Rattle.std.specs.Prelude.{◌≡◌, ◌≢◌, ◌≤◌, ◌<◌, ℕ, None, IfNone, IfSome, IsSome, false};
ghost use Rattle.split_types.specs.declared.buf.Buf.TheVariants.{Page};
ghost use Rattle.cause_set.specs.Tags.{Moved, Covers, same, held};
ghost use Rattle.page_cache.specs.Cached.{page_of, is_idle, tags_in, causes_of, IsDataPage};
ghost use Rattle.page_cache.specs.Changes.{ChangesOnly, Frees, IsVictim, KeepsTouches};

use super::Cache;
use crate::key::PAGES;
use crate::tags::let_go;
use cause_set::TagStore;
use split_types::{Buf, Serial};

impl<S: TagStore> Cache<S> {
    /// The page of least last touch among those that are neither dirty, busy, loading nor pinned; `None` exactly
    /// where there is none.
    pub fn victim(&self) -> Option<Buf>
        ensures none { IfNone result ((b : _) → is_idle (page_of self.now b) ≡ false) }
        ensures victim { IfSome result (IsVictim self.now) }
    {
        let at = self.guide.oldest()?;
        Some(self.page(at).key.buf())
    }

    /// The victim isn't held any more.
    pub fn evict(&mut self, b: Buf)
        requires { IsVictim self.old b }
        ensures page { ChangesOnly self.old self.new b None }
        ensures touches { KeepsTouches self.old self.new }
        ensures spare { self.new.spare ≡ self.old.spare }
    {
        let at = self.place_of(b).unwrap();
        self.leave(at);
    }

    /// No page of a file is held any more, and their tags are released. Each of them has a number below `pages`.
    pub fn free(&mut self, tags: &mut S, s: Serial, pages: u32)
        requires tags { Covers same (tags_in self.old) (S.now tags.old) }
        requires below { (g : ℕ) → IsSome (page_of self.old (Page s g)) → g < pages }
        ensures pages { Frees (S.now tags.old) (S.now tags.new) self.old self.new s }
        ensures moved { Moved (S.now tags.old) (S.now tags.new) (held same (tags_in self.old))
            (held same (tags_in self.new)) }
        ensures spare { self.new.spare ≡ self.old.spare }
        ensures tags_spare { (S.now tags.old).spare ≤ (S.now tags.new).spare }
    {
        let end = pages.min(PAGES);
        for page in 0..end {
            self.free_page(tags, Buf::Page(s, page));
        }
    }

    /// A page isn't held any more, and its tag is released.
    fn free_page(&mut self, tags: &mut S, b: Buf)
        requires { Covers same (tags_in self.old) (S.now tags.old) }
        ensures page { ChangesOnly self.old self.new b None }
        ensures causes { (k : _) → k ≢ b → causes_of (S.now tags.new) self.new k
            ≡ causes_of (S.now tags.old) self.old k }
        ensures moved { Moved (S.now tags.old) (S.now tags.new) (held same (tags_in self.old))
            (held same (tags_in self.new)) }
        ensures touches { KeepsTouches self.old self.new }
        ensures spare { self.new.spare ≡ self.old.spare }
        ensures tags_spare { (S.now tags.old).spare ≤ (S.now tags.new).spare }
        ensures numbers { (k : _) → IsSome (page_of self.old k) → IsDataPage k }
    {
        let Some(at) = self.place_of(b) else {
            return;
        };
        let tag = self.leave(at);
        let_go(tags, tag);
    }
}
