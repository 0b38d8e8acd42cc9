//! The answer to an input.
ghost use Rattle.std.specs.Prelude.{◌≡◌, ◌<◌, [], Err, IfOk, OnOk};
ghost use Rattle.std.specs.Io.KnownBytes.{IsAtEnd};
ghost use Rattle.outside.specs.Faults.{Rose};
ghost use Rattle.sink_printer.specs.Due.{Sent};
ghost use Rattle.split_types.specs.Accepted.{IsAccepted};
ghost use Rattle.split_types.specs.FactsOf.{facts_of};
ghost use Rattle.split_types.specs.Legal.{drain, play, go_actors};
ghost use Rattle.workload_reader.specs.Reading.{Reading};
ghost use Rattle.split_top.specs.Answers.{Writes, WritesAnswer, Replies};
ghost use Rattle.split_top.specs.Refusals.{refusal_text};
ghost use Rattle.split_top.specs.Replay.{text_of, run_of};

use crate::call::Status;
use crate::refusal::refusal;
use billing_report::put_report;
use hook_events::Steps;
use outside::{Failed, InputFault, Sink, Source, read_all, write_all};
use sink_printer::{Page, SinkPrinter};
use split_core::Core;
use split_types::{Facts, Workload};
use std::alloc::{AllocError, Global};
use std::marker::Brand;
use std::sync::ledger::{Blank, Ledger};
use trace_text::put_trace;
use workload_reader::{Cause, LineFault, ReadWorkload, read_workload};

/// The most bytes that an input may have.
const LONGEST: usize = 16_777_216;

/// Why an answer wasn't written as a whole.
#[derive(Clone, Copy, Debug, PartialEq, Eq)]
pub(crate) enum Stop {
    /// The source failed.
    Read,
    /// The sink failed.
    Write,
    /// There was no memory.
    Memory,
}

impl From<AllocError> for Stop {
    ghost use Rattle.split_top.specs.declared.answer.Stop.TheVariants.{Memory};

    ghost from_gives = { λ _ e. e ≡ Memory };

    fn from(_e: AllocError) -> Stop {
        Stop::Memory
    }
}

impl From<Failed> for Stop {
    ghost use Rattle.split_top.specs.declared.answer.Stop.TheVariants.{Write};

    ghost from_gives = { λ _ e. e ≡ Write };

    fn from(_e: Failed) -> Stop {
        Stop::Write
    }
}

/// Lets a core take the turns that its workload's `go` lines ask for, and then those that drain it.
fn finish<L: Ledger>(core: &mut Core, steps: &mut Steps<L>) -> Result<(), AllocError>
    ensures { OnOk result (core.new ≡ record {
      workload = core.old.workload;
      history = drain core.old.workload (play core.old.workload core.old.history (go_actors core.old.workload));
    }) }
{
    core.play(steps)?;
    core.drain(steps)?;
    Ok(())
}

/// Writes all that a core has done: its trace, and the report behind it. It takes no memory.
fn send<K: Sink, L: Ledger>(
    core: &Core,
    facts: &Facts,
    page: &mut Page,
    sink: &mut K,
    steps: &mut Steps<L>,
) -> Result<(), Failed>
    requires facts { facts.now ≡ facts_of core.now.workload core.now.history }
    requires page { page.old ≡ [] }
    ensures { Sent (record { held = K.held; faults = K.faults; room = K.room }) sink.old sink.new
        (text_of core.now.workload core.now.history) result }
{
    let mut out = SinkPrinter::new(sink, page);
    put_trace(&mut out, core.workload(), core.history(), steps);
    put_report(&mut out, facts, core.workload().sched);
    out.finish()
}

/// The core that has made the run of a workload: first the turns that its `go` lines ask for, and then those that
/// drain it.
fn run<L: Ledger>(
    alloc: Global,
    workload: Workload,
    steps: &mut Steps<L>,
) -> Result<Core, AllocError>
    requires accepted { IsAccepted workload }
    ensures { IfOk result (λ core. core ≡ record { workload = workload; history = run_of workload }) }
{
    let mut core = Core::new(alloc, workload)?;
    finish(&mut core, steps)?;
    Ok(core)
}

/// Writes all that a core has done. All memory is taken before anything is written.
fn write<K: Sink, L: Ledger>(
    alloc: Global,
    core: &Core,
    sink: &mut K,
    steps: &mut Steps<L>,
) -> Result<(), Stop>
    ensures { Writes (record { held = K.held; faults = K.faults; room = K.room }) sink.old sink.new
        (text_of core.now.workload core.now.history) result }
{
    let facts = core.facts(alloc)?;
    let mut page = Page::new(alloc)?;
    send(core, &facts, &mut page, sink, steps)?;
    Ok(())
}

/// Runs a workload, and writes what was done.
fn replay<K: Sink, L: Ledger>(
    alloc: Global,
    workload: Workload,
    sink: &mut K,
    blank: Blank,
) -> Result<(), Stop>
    requires accepted { IsAccepted workload }
    requires name { blank.name ≡ L.name }
    requires parts { blank.parts ≡ L.parts }
    requires some { 0 < L.parts }
    ensures { Writes (record { held = K.held; faults = K.faults; room = K.room }) sink.old sink.new
        (text_of workload (run_of workload)) result }
{
    let mut steps: Steps<L> = Steps::new(blank);
    let core = run(alloc, workload, &mut steps)?;
    write(alloc, &core, sink, &mut steps)
}

/// Writes the line that refuses an input.
fn refuse<K: Sink>(alloc: Global, fault: LineFault, sink: &mut K) -> Result<(), Stop>
    ensures { Writes (record { held = K.held; faults = K.faults; room = K.room }) sink.old sink.new (refusal_text fault)
        result }
{
    let text = refusal(alloc, fault)?;
    write_all(sink, &text)?;
    Ok(())
}

/// The workload that an input spells. The input isn't kept.
fn read(alloc: Global, input: Vec<u8>) -> Result<Workload, ReadWorkload>
    ensures { Reading input.items result }
{
    read_workload(alloc, &input)
}

/// Answers a whole input.
fn answer<K: Sink>(alloc: Global, input: Vec<u8>, sink: &mut K) -> Result<Status, Stop>
    ensures { WritesAnswer (record { held = K.held; faults = K.faults; room = K.room }) sink.old sink.new input.items
        result }
{
    match read(alloc, input) {
        Err(ReadWorkload::Memory) => Err(Stop::Memory),
        Err(ReadWorkload::Line(fault)) => {
            refuse(alloc, fault, sink)?;
            Ok(Status::Refused)
        }
        Ok(workload) => {
            replay::<K, Brand>(alloc, workload, sink, Blank::new(1))?;
            Ok(Status::Ok)
        }
    }
}

/// Answers all that the source has left.
pub(crate) fn reply<S: Source, K: Sink>(
    alloc: Global,
    source: &mut S,
    sink: &mut K,
) -> Result<Status, Stop>
    ensures sink { Replies (record { held = K.held; faults = K.faults; room = K.room })
        (S.left source.old) (S.left source.new) sink.old sink.new result }
    ensures end { IfOk result (λ s. s ≡ Status.Ok → IsAtEnd (S.left source.new)) }
    ensures read { result ≡ Err Stop.Read → Rose (S.faults source.old) (S.faults source.new) }
{
    match read_all(alloc, source, LONGEST) {
        Ok(input) => answer(alloc, input, sink),
        Err(InputFault::Long) => {
            let fault = LineFault {
                line: 0,
                cause: Cause::Long,
            };
            refuse(alloc, fault, sink)?;
            Ok(Status::Refused)
        }
        Err(InputFault::Read) => Err(Stop::Read),
        Err(InputFault::Memory) => Err(Stop::Memory),
    }
}
