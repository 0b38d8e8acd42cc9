//! Sets of pages of one file.
ghost use Rattle.std.specs.Prelude.{◌≡◌, ◌<◌, false, true, not, replicate, slice_get, slice_set, Some};
ghost use Rattle.std.specs.List.{list_any};
ghost use Rattle.split_core.specs.PageSets.{has_page, with_page, without_page};

use std::marker::Model;

/// The words that hold a bit for each page of a file, which has at most 1,008.
const WORDS: usize = 16;

/// Which of the pages of a file are in the set, and how many.
#[derive(Clone, Copy, Debug)]
pub(crate) struct PageSet {
    words: [u64; WORDS],
    count: u32,
}

impl Model for PageSet {
    ghost use Rattle.std.specs.Prelude.{Bool, List};
    ghost use Rattle.split_core.specs.PageSets.{pages_of, words_of, number_of, IsPageSet};

    ghost Value = { List Bool };

    ghost use Rattle.split_core.specs.PageSetFields.{fields_back};

    ghost view = { λ set. pages_of set.words };

    ghost invariant = { λ set. IsPageSet set.words set.count };

    ghost inverse = { λ pages. record { words = words_of pages; count = number_of pages } };

    ghost inverse_ok = { λ set is. fields_back set is };
}

/// Whether the page has its bit.
fn has_page(words: &[u64; WORDS], page: u32) -> bool
    requires { page < 1008 }
    ensures { result ≡ has_page words.now page }
{
    (words[(page / 64) as usize] >> (page % 64)) & 1 == 1
}

/// Sets the page's bit.
#[tactic(auto, unfolding(crate::specs::PageSets::with_page))]
fn set_page(words: &mut [u64; WORDS], page: u32)
    requires { page < 1008 }
    ensures { words.new ≡ with_page words.old page }
{
    words[(page / 64) as usize] |= 1 << (page % 64);
}

/// Clears the page's bit.
#[tactic(auto, unfolding(crate::specs::PageSets::without_page))]
fn clear_page(words: &mut [u64; WORDS], page: u32)
    requires { page < 1008 }
    ensures { words.new ≡ without_page words.old page }
{
    words[(page / 64) as usize] &= !(1 << (page % 64));
}

impl PageSet {
    /// No page.
    pub(crate) fn new() -> PageSet
        ensures { result ≡ replicate 1008 false }
    {
        PageSet {
            words: [0; WORDS],
            count: 0,
        }
    }

    /// Whether no page is in the set.
    pub(crate) fn is_empty(&self) -> bool
        ensures { result ≡ not (list_any (λ is_in. is_in) self.now) }
    {
        self.count == 0
    }

    /// Puts a page into the set.
    pub(crate) fn insert(&mut self, page: u32)
        requires { page < 1008 }
        ensures { self.new ≡ slice_set self.old page true }
    {
        if !has_page(&self.words, page) {
            set_page(&mut self.words, page);
            self.count += 1;
        }
    }

    /// Takes a page out of the set; whether it was there.
    pub(crate) fn remove(&mut self, page: u32) -> bool
        requires { page < 1008 }
        ensures result { slice_get self.old page ≡ Some result }
        ensures set { self.new ≡ slice_set self.old page false }
    {
        let was_in = has_page(&self.words, page);
        if was_in {
            clear_page(&mut self.words, page);
            self.count -= 1;
        }
        was_in
    }
}
