//! One file a crate.
ghost use Rattle.std.specs.Prelude.{◌≡◌, Some, IfOk};

use std::test::Fail;

mod accounts;
mod block_allocation;
mod cached_pages;
mod disk_images;
mod disk_writes;
mod fifo_choices;
mod files;
mod next_events;
mod places;
mod proxy_causes;
mod request_queue;
mod served_runs;
mod shared_tags;
mod transactions;

/// What is there; the test fails where nothing is.
fn found<T>(value: Option<T>) -> Result<T, Fail>
    ensures { IfOk result (λ x. value ≡ Some x) }
{
    match value {
        Some(x) => Ok(x),
        None => Err("nothing is there".into()),
    }
}
