//! Memory that is ready for pages.
ghost use Rattle.std.specs.Prelude.{◌≡◌, ◌+◌, ◌-◌, ◌*◌, ◌<◌, ◌≤◌, ◌^◌, [], length, All, vec_len, vec_capacity, IfOk, OnOk, OnErr};
ghost use Rattle.page_cache.specs.Pool.{IsRun, KeepsAll};

use crate::bytes::PAGE;
use std::alloc::{AllocError, Global};
use std::marker::Model;

/// How many pages are taken out together at most.
pub(crate) const RUN: usize = 16;

/// Memory for pages that no page has, some of it reserved for pages that are awaited, and memory for pages
/// that are taken out.
#[derive(Debug, Drop)]
pub(crate) struct Pool {
    // Each with the bytes of one page, whatever they are.
    pages: Vec<Vec<u8>>,
    // How many of them are reserved.
    reserved: usize,
    // Each empty, with room for a whole run of pages.
    runs: Vec<Vec<u8>>,
}

impl Model for Pool {
    ghost use Rattle.std.specs.Prelude.{◌-◌, vec_len};
    ghost use Rattle.page_cache.specs.Pool.{Pooled, IsPool};

    ghost Value = { Pooled };

    ghost view = { λ p. record { pages = vec_len p.pages - p.reserved; runs = vec_len p.runs; reserved = p.reserved } };

    ghost invariant = { λ p. IsPool p.pages.items p.runs.items p.reserved };
}

/// Makes memory for so many pages, as far as it isn't there.
fn make_pages(alloc: Global, ready: &mut Vec<Vec<u8>>, pages: usize) -> Result<(), AllocError>
    requires sized { All (λ page. length page.items ≡ 4096) ready.old.items }
    ensures sized { All (λ page. length page.items ≡ 4096) ready.new.items }
    ensures more { vec_len ready.old ≤ vec_len ready.new }
    ensures ok { OnOk result (pages ≤ vec_len ready.new) }
{
    while ready.len() < pages {
        ready.reserve(1)?;
        ready.push_reserved(vec![in alloc; 0; PAGE]?);
    }
    Ok(())
}

/// Makes memory for so many runs, as far as it isn't there.
fn make_runs(alloc: Global, ready: &mut Vec<Vec<u8>>, runs: usize) -> Result<(), AllocError>
    requires empty { All IsRun ready.old.items }
    ensures empty { All IsRun ready.new.items }
    ensures more { vec_len ready.old ≤ vec_len ready.new }
    ensures ok { OnOk result (runs ≤ vec_len ready.new) }
{
    while ready.len() < runs {
        ready.reserve(1)?;
        ready.push_reserved(Vec::with_capacity(alloc, RUN * PAGE)?);
    }
    Ok(())
}

impl Pool {
    /// Nothing, with room to be given the memory of so many pages.
    pub(crate) fn new(alloc: Global, pages: usize) -> Result<Pool, AllocError>
        ensures { IfOk result (λ p. p ≡ record { pages = 0; runs = 0; reserved = 0 }) }
    {
        Ok(Pool {
            pages: Vec::with_capacity(alloc, pages)?,
            reserved: 0,
            runs: Vec::new(alloc),
        })
    }

    /// Makes memory ready for so many pages and for so many runs.
    pub(crate) fn room(
        &mut self,
        alloc: Global,
        pages: usize,
        runs: usize,
    ) -> Result<(), AllocError>
        requires { pages < 2 ^ 32 }
        ensures pages { self.old.pages ≤ self.new.pages }
        ensures runs { self.old.runs ≤ self.new.runs }
        ensures reserved { self.new.reserved ≡ self.old.reserved }
        ensures ok_pages { OnOk result (pages ≤ self.new.pages) }
        ensures ok_runs { OnOk result (runs ≤ self.new.runs) }
    {
        make_pages(alloc, &mut self.pages, self.reserved + pages)?;
        make_runs(alloc, &mut self.runs, runs)
    }

    /// Reserves the memory of so many pages.
    pub(crate) fn reserve(&mut self, pages: usize)
        requires { pages ≤ self.old.pages }
        ensures { self.new ≡ record self.old { pages = self.old.pages - pages; reserved = self.old.reserved + pages } }
    {
        self.reserved += pages;
    }

    /// Lets the memory of so many pages be reserved no more.
    pub(crate) fn release(&mut self, pages: usize)
        requires { pages ≤ self.old.reserved }
        ensures { self.new ≡ record self.old { pages = self.old.pages + pages; reserved = self.old.reserved - pages } }
    {
        self.reserved -= pages;
    }

    /// The memory of a page, with any bytes.
    pub(crate) fn take(&mut self) -> Vec<u8>
        requires { 0 < self.old.pages }
        ensures len { length result.items ≡ 4096 }
        ensures rest { self.new ≡ record self.old { pages = self.old.pages - 1 } }
    {
        self.pages.pop().unwrap()
    }

    /// Takes the memory of a page back, or lets it go where there is no room for it.
    pub(crate) fn give(&mut self, page: Vec<u8>)
        requires { length page.items ≡ 4096 }
        ensures { KeepsAll self.old self.new }
    {
        if self.pages.len() < self.pages.capacity() {
            self.pages.push_reserved(page);
        }
    }

    /// Room for the bytes of so many pages: its own, or, where memory is wanting, what stood ready.
    pub(crate) fn run(&mut self, alloc: Global, pages: usize) -> Vec<u8>
        requires few { pages ≤ 16 }
        requires ready { 0 < self.old.runs }
        ensures empty { result.items ≡ [] }
        ensures room { pages * 4096 ≤ vec_capacity result }
        ensures pages { self.new.pages ≡ self.old.pages }
        ensures reserved { self.new.reserved ≡ self.old.reserved }
        ensures runs { self.old.runs ≤ self.new.runs + 1 }
    {
        match Vec::with_capacity(alloc, pages * PAGE) {
            Ok(run) => run,
            Err(AllocError) => self.runs.pop().unwrap(),
        }
    }
}
