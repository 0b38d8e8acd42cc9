use crate::actor::Actor;
use crate::call::Call;
use crate::ids::Pid;
use crate::list::List;
use crate::name::Name;

/// How the requests and calls are ordered.
#[derive(Clone, Copy, Debug, PartialEq, Eq)]
pub enum Sched {
    Fifo,
    Afq,
    Deadline,
    Token,
}

/// An account: what it is granted for each unit of time, up to which balance, and what it begins with.
#[derive(Clone, Copy, Debug, PartialEq, Eq)]
pub struct Account {
    pub rate: u32,
    pub cap: u32,
    pub start: i64,
}

/// A process: its account (counted from 1), its weight and its deadline (units of the clock).
#[derive(Clone, Copy, Debug, PartialEq, Eq)]
pub struct Process {
    pub account: u32,
    pub weight: u32,
    pub deadline: u32,
}

/// A file that is there at the start: `pages` pages, each byte of which is `fill`.
#[derive(Clone, Copy, Debug)]
pub struct Preset {
    pub name: Name,
    pub pages: u32,
    pub fill: u8,
}

/// `times` turns of an actor.
#[derive(Clone, Copy, Debug, PartialEq, Eq)]
pub struct Go {
    pub actor: Actor,
    pub times: u32,
}

/// What is to be simulated. The lists have the order of the workload's text.
#[derive(Debug, Drop)]
pub struct Workload {
    /// The number on the `splitload` line.
    pub version: u32,
    /// The number of blocks of the disk.
    pub device: u32,
    /// The number of pages that the cache holds.
    pub cache: u32,
    /// How many requests may be in flight.
    pub depth: u32,
    pub sched: Sched,
    pub accounts: List<Account>,
    pub procs: List<Process>,
    pub files: List<Preset>,
    pub calls: List<(Pid, Call)>,
    /// The numbers of the sends that are done badly, counted from 0.
    pub fails: List<u32>,
    pub go: List<Go>,
}
