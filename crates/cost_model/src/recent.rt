//! What a put of a data page is expected to cost.
ghost use Rattle.std.specs.Prelude.{◌≡◌, [], ◌∷◌, take, IfOk};
ghost use Rattle.cost_model.specs.Estimates.{is_next, data_estimate};

use circular_buffer::HeapCircularBuffer;
use std::alloc::{AllocError, Global};
use std::marker::Model;

/// The most puts of a file that are remembered.
const MOST: usize = 4;

/// The pages of the last puts in one file, the newest first: four at most, a page as often as it was put.
#[derive(Drop)]
pub struct Recent {
    pages: HeapCircularBuffer<u32>,
}

impl Model for Recent {
    ghost use Rattle.std.specs.Prelude.{◌≡◌, List, ℕ};

    ghost Value = { List ℕ };

    ghost view = { λ recent. recent.pages.items };

    ghost invariant = { λ recent. recent.pages.capacity ≡ 4 };
}

/// Whether the page comes right after one of these.
fn is_next(pages: &[u32], page: u32) -> bool
    ensures { result ≡ is_next pages.now page }
{
    pages
        .iter()
        .any(|put| u64::from(*put) + 1 == u64::from(page))
}

impl Recent {
    /// No puts yet. It takes all memory that it needs.
    pub fn new(alloc: Global) -> Result<Recent, AllocError>
        ensures { IfOk result (λ recent. recent ≡ []) }
    {
        let pages = HeapCircularBuffer::with_capacity(alloc, MOST)?;
        Ok(Recent { pages })
    }

    /// The estimate for a put of this page; the put is then the newest of those remembered.
    pub fn seen(&mut self, page: u32) -> u64
        ensures estimate { result ≡ data_estimate self.old page }
        ensures remembered { self.new ≡ take 4 (page ∷ self.old) }
    {
        let (newer, older) = self.pages.as_slices();
        let is_next = is_next(newer, page) || is_next(older, page);
        self.pages.push_front(page);
        if is_next { 2 } else { 52 }
    }
}
