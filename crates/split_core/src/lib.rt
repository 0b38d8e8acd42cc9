//! The core of splitio: one state machine that makes the events of a history, one at a step.
//!
//! Contracts see a [`Core`] as its workload and its history, which is legal. A step of an actor makes exactly
//! the event that comes next for it by the definitions, at the place after the last, and is idle exactly where
//! there is none; turns drain the history, and are idle exactly where it is drained. `facts` shows the tags,
//! costs, shares and bills that the definitions give.
//!
//! What the core knows beside the events stands in parts: how far each process has come, the files and which blocks
//! are free or wait for a commit, the pages of the cache, the journal, what the disk holds, the requests, which of
//! them are in flight and what a commit waits for, the run that is served and for whom, head and clock, the bills,
//! and the counts of events. Each part takes note of every event, in `note`, and only there does what is kept meet
//! the history that it stands for. What the workload alone fixes is a plan beside them. Pages, the journal and the
//! run that is served hold tags of one store.
//!
//! Whatever makes the events of a workload stands on this crate.
#![tactic(auto)]

mod committing;
mod facts;
mod machine;
mod next;
mod note;
mod parts;
mod plan;
mod serving;
mod step;

pub use machine::Core;
pub use step::Step;
