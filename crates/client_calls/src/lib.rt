//! What a process does next with its call.
//!
//! A process sees a [`ClientView`]: the page cache, the live files, the blocks of the disk, the run of pages that
//! writeback has just mapped, a few numbers of the stack, and its own [`Progress`]. From these [`next_event`] gives its
//! next event, if it has one, and [`next_of`] says besides whether it waits or has nothing left to do. Where its call
//! isn't let in yet, [`next_before_admit`] gives the same event from its progress alone, and no view is wanted.
//!
//! A creat makes its file in the least free slot, an unlink drops its file, and each then returns. A read or write moves
//! its pieces one after another, by rising byte; [`piece_left`] says which is the next one. A write that ends beyond the
//! size of any file is refused before its first piece. It ends early, with the bytes that it has put, at a page that has
//! no block where all free blocks are promised; a dirty page without a block has one promised to it. It waits at a page
//! of the run that writeback has mapped, until the request for that run is added. What is read of a page without a block
//! is zeros. An fsync is flushed once all that was put in its file before it was admitted is on the disk, and returns once
//! the last change of the file before that is committed.
//!
//! Contracts are about the record by which `split_types` defines the next event of a client: where a view shows such a
//! record, field by field, the answer is the event of that definition. No history is seen here. Five fields are shown
//! only as far as the rows read them: the sum of the bytes where those of the page are there, the page that is evicted
//! next where the cache says which one that is, the slot of the file where the file is there, and what an fsync waits for
//! in an fsync.
//!
//! No more is asked than the row needs: bytes are summed only where they are got, the page to evict is looked for only
//! where the cache is full and the page isn't held, and the block of a page only where a block is wanting or the page is
//! to be loaded. Nothing here takes memory or can fail.
//!
//! The core asks it for the next event of each process.
#![tactic(auto)]

mod bound;
mod files;
mod moves;
mod next;
mod piece;
mod progress;
mod reads;
mod space;
mod standing;
mod view;
mod working_file;
mod writes;

pub use next::{ClientNext, next_before_admit, next_event, next_of};
pub use piece::{Piece, piece_left};
pub use progress::Progress;
pub use view::ClientView;
