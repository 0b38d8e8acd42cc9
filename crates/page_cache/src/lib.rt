//! The page cache: which pages of files are held, with their bytes and the tags of their causes.
//!
//! A `Cache` has a fixed number of places. A page takes a free place where it is written or where its bytes
//! are awaited, and keeps it until it is evicted, given up, or freed with its file. A page that was written is
//! dirty: it has a tag of a store, whose members are the processes that wrote it since it was last taken out.
//! Pages are taken out in runs, with one tag for all, and with their bytes where those are asked for; they are
//! busy then, until what was taken out is written. A page that was loaded for a process is pinned until that
//! process goes on.
//!
//! Contracts see a cache page by page: what a call says of one page it says by that page's buffer, and every
//! other page is as before. They say what bytes, causes and state each page has, how many are held and how many
//! are dirty or busy, which page is the first that is dirty and not busy, and which is the victim: the one
//! touched longest ago of those that are neither dirty, busy, loading nor pinned. A store of tags that is lent to
//! a call keeps its laws: all tags that the cache doesn't hold are as before. Want of memory changes nothing
//! but for how many calls there is room, and where there is room it doesn't come.
//!
//! A page is found by its key in a few steps, and the first dirty page and the victim in a number of steps that
//! grows with the logarithm of the number of places. The pages of a file that goes are looked for one by one, up to the
//! number below which the caller says that all of them are. The bytes of a page are copied where it is loaded from
//! bytes and where it is taken out with them, and never else. A page that was written all over with one byte, or
//! loaded as one byte, takes no memory for its bytes: that byte is kept, and `fill_of` hands it on. Nor does such
//! a page take memory where one part of it was written over, once or again with all of that part: the other byte
//! is kept, and where it stands. Nobody looks through bytes for being all the same.
//!
//! The core serves the clients' calls from these pages, and lets writeback take them out. `client_calls` looks into
//! them.
#![tactic(auto)]

mod bytes;
mod cache;
mod content;
mod guide;
mod key;
mod page;
mod patch;
mod pins;
mod pool;
mod state;
mod tags;
mod tally;

pub use cache::Cache;
pub use state::PageState;
