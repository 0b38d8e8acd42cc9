//! The numbers that name things.

/// A process, numbered from 1 in the order of the workload's `proc` lines.
#[derive(Clone, Copy, Debug, PartialEq, Eq)]
pub struct Pid(pub u32);

/// A file, by how many files were made before it; no two files of a history share one.
#[derive(Clone, Copy, Debug, PartialEq, Eq)]
pub struct Serial(pub u32);

/// The place of a live file, which a later file may take again.
#[derive(Clone, Copy, Debug, PartialEq, Eq)]
pub struct Slot(pub u32);

/// A request, by how many requests were added before it.
#[derive(Clone, Copy, Debug, PartialEq, Eq)]
pub struct ReqId(pub u32);

/// A transaction of the journal, numbered from 1 in the order of the seals.
#[derive(Clone, Copy, Debug, PartialEq, Eq)]
pub struct Txn(pub u32);
