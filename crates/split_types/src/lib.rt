//! The plain data that every layer of splitio speaks of, and the definitions of what must hold.
//!
//! The types are those of a workload, of the events of its history, and of the facts that a report
//! shows. The definitions stand in `specs/`, one file each: they look backwards through a history,
//! which is a list with the newest event first. The contracts of the accessors say which buffers an
//! event dirties and frees, and which actor makes it. The functions of `laws`, `draining`, `caching`,
//! `filing` and `journaling` do nothing: their contracts say what the definitions give in worked histories, what they
//! are in terms of places, that draining ends, that the pages of a cache are counted, evicted and filled as they should
//! be, and that no two files have a name, a slot or a block in common.
//!
//! All crates but those for streams and for structures over places (`outside`, `fixed_places`) stand on this one.
#![tactic(auto)]

mod actor;
mod buf;
mod caching;
mod call;
mod draining;
mod event;
mod facts;
mod filing;
mod hooks;
mod ids;
mod journaling;
mod laws;
mod list;
mod name;
mod request;
mod workload;

pub use actor::Actor;
pub use buf::{Buf, BufList};
pub use caching::{
    bytes_by_byte, cached_histories, clean_pages_are_on_disk, pages_are_known, victims_are_oldest,
    worked_caches, worked_files, writes_stay_apart,
};
pub use call::{Call, Reply};
pub use draining::{drains_whole, never_stuck, plays_legal, stays_below};
pub use event::Event;
pub use facts::{AccountFact, Facts, ReqFact, ReqState};
pub use filing::{filed_histories, filed_states, files_are_in_order, maps_are_in_order};
pub use hooks::{actor_of, dirties, frees};
pub use ids::{Pid, ReqId, Serial, Slot, Txn};
pub use journaling::{journaled_histories, journaled_states};
pub use laws::{
    bills_conserve, blame_is_set, blamed_are_blamed, dirty_are_open, dirty_have_causes,
    open_are_open, parents_are_older, parents_are_parents, parts_are_tags, running_causes,
    sends_show_costs, tag_is_blame, worked_histories,
};
pub use list::{BlockList, BlockWrite, List, PlaceList, Text, WriteList};
pub use name::Name;
pub use request::{ReqKind, Request, Run, Service};
pub use workload::{Account, Go, Preset, Process, Sched, Workload};
