//! What the workload alone fixes.
ghost use Rattle.std.specs.Prelude.{◌≡◌, ℕ, ◌≤◌, length, slice_get, replicate, [], IfOk};
ghost use Rattle.std.specs.Option.{option_copied};
ghost use Rattle.split_types.specs.Workloads.{calls_of};
ghost use Rattle.split_types.specs.Accepted.{IsAccepted};
ghost use Rattle.split_core.specs.Plans.{AreCalls, PlanStands};

use split_types::{Call, List, Pid, Workload};
use std::alloc::{AllocError, Global};

/// The calls of each process. They stand one behind another, since a process goes through its own.
#[derive(Debug, Drop)]
pub(crate) struct Plan {
    pub(crate) calls: Vec<List<Call>>,
}

/// So many processes without a call.
fn no_calls(alloc: Global, n: usize) -> Result<Vec<List<Call>>, AllocError>
    ensures { IfOk result (λ v. v.items ≡ replicate n []) }
{
    let mut calls = Vec::new(alloc);
    for _i in 0..n {
        calls.push(List::new(alloc))?;
    }
    Ok(calls)
}

/// The calls of each process.
fn calls_by_process(alloc: Global, w: &Workload) -> Result<Vec<List<Call>>, AllocError>
    requires { IsAccepted w.now }
    ensures { IfOk result (λ v. AreCalls w.now v.items) }
{
    let mut calls = no_calls(alloc, w.procs.len())?;
    for call in w.calls.as_slice() {
        calls[(call.0.0 - 1) as usize].push(call.1)?;
    }
    Ok(calls)
}

impl Plan {
    /// The plan of a workload.
    pub(crate) fn new(alloc: Global, w: &Workload) -> Result<Plan, AllocError>
        requires { IsAccepted w.now }
        ensures { IfOk result (λ p. PlanStands w.now p) }
    {
        let calls = calls_by_process(alloc, w)?;
        Ok(Plan { calls })
    }

    /// How many calls a process has.
    pub(crate) fn call_count(&self, w: &Workload, p: Pid) -> usize
        requires stands { PlanStands w.now self.now }
        requires first { 1 ≤ p.0 }
        requires last { p.0 ≤ length w.now.procs }
        ensures { result ≡ length (calls_of w.now p.0) }
    {
        self.calls[(p.0 - 1) as usize].len()
    }

    /// The call of this number of a process, if it has so many.
    pub(crate) fn call(&self, w: &Workload, p: Pid, number: u32) -> Option<&Call>
        requires stands { PlanStands w.now self.now }
        requires first { 1 ≤ p.0 }
        requires last { p.0 ≤ length w.now.procs }
        ensures { option_copied result ≡ slice_get (calls_of w.now p.0) number }
    {
        self.calls[(p.0 - 1) as usize]
            .as_slice()
            .get(number as usize)
    }
}
