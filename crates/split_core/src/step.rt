//! The steps of the core, the turns that a workload's `go` lines ask for, and the draining of its history.
ghost use Rattle.std.specs.Prelude.{◌≡◌, ◌+◌, ◌*◌, ◌≤◌, length, false, replicate, Some, IfOk, OnOk, OnErr};
ghost use Rattle.split_types.specs.History.{◌▹◌};
ghost use Rattle.split_types.specs.Hooks.{maker};
ghost use Rattle.split_types.specs.Next.{next};
ghost use Rattle.split_types.specs.Legal.{is_drained, first_next, go_actors, play, drain};
ghost use Rattle.split_core.specs.Steps.{clients_from, others, Appends, StepsTo, FirstStepsTo, TurnsTo};

use crate::machine::Core;
use crate::parts::Given;
use hook_events::Steps;
use split_types::{Actor, Event, Pid};
use std::alloc::AllocError;
use std::sync::ledger::Ledger;

/// What a step did.
#[derive(Clone, Copy, Debug, PartialEq, Eq)]
pub enum Step {
    /// It made the event at this place.
    Made(u32),
    /// There was no event to make.
    Idle,
}

impl Core {
    /// Makes an event that comes next, and says its place.
    fn make(&mut self, e: &Event) -> Result<u32, AllocError>
        requires { next self.old.workload self.old.history (maker e.now) ≡ Some e.now }
        ensures ok { IfOk result (λ i. Appends self.old self.new e.now i) }
        ensures err { OnErr result (self.new ≡ self.old) }
    {
        let place = self.history.len() as u32;
        self.history.room(1)?;
        self.parts.room(self.alloc, e)?;
        let content = self
            .parts
            .content(self.alloc, &self.workload, &self.history, e)?;
        let mut given = Given::none();
        self.parts
            .give(&self.workload, &self.plan, &self.history, e, &mut given);
        self.parts.note(
            self.alloc,
            &self.workload,
            &self.plan,
            &self.history,
            e,
            &given,
            content,
        );
        let _ = self.history.push(*e);
        Ok(place)
    }

    /// Makes the next event of an actor, if it has one. After `Idle`, and where memory ran out, nothing has changed.
    fn act_once(&mut self, a: Actor) -> Result<Step, AllocError>
        ensures ok { IfOk result (λ step. StepsTo a self.old self.new step) }
        ensures err { OnErr result (self.new ≡ self.old) }
    {
        match &self.next(a) {
            None => Ok(Step::Idle),
            Some(e) => Ok(Step::Made(self.make(e)?)),
        }
    }

    /// One step of an actor: its next event, if it has one. After `Idle`, and where memory ran out, nothing
    /// has changed. It reads at most 64 events.
    pub fn step<L: Ledger>(&mut self, a: Actor, steps: &mut Steps<L>) -> Result<Step, AllocError>
        ensures ok { IfOk result (λ step. StepsTo a self.old self.new step) }
        ensures err { OnErr result (self.new ≡ self.old) }
        ensures cost { steps.new ≤ steps.old + 64 }
    {
        self.act_once(a)
    }

    /// Makes the next event of the first process, behind so many, that has one.
    fn act_of_clients(&mut self, behind: u32) -> Result<Step, AllocError>
        requires { behind ≤ length self.old.workload.procs }
        ensures ok { IfOk result (λ step. FirstStepsTo (clients_from self.old.workload behind) self.old self.new step) }
        ensures err { OnErr result (self.new ≡ self.old) }
    {
        let n = self.workload.procs.len() as u32;
        for i in behind..n {
            if let Some(e) = &self.next_of_client(Pid(i + 1)) {
                return Ok(Step::Made(self.make(e)?));
            }
        }
        Ok(Step::Idle)
    }

    /// The next event of the first actor, but for the processes, that has one, in the order of turns.
    fn first_of_others(&self) -> Option<Event>
        ensures { result ≡ first_next self.now.workload self.now.history others }
    {
        if let Some(e) = self.next(Actor::Wb) {
            return Some(e);
        }
        if let Some(e) = self.next(Actor::Cm) {
            return Some(e);
        }
        if let Some(e) = self.next(Actor::Dq) {
            return Some(e);
        }
        self.next(Actor::Dn(0))
    }

    /// Makes the next event of the first actor, in the order of turns, that has one.
    fn act_first(&mut self) -> Result<Step, AllocError>
        requires { is_drained self.old.workload self.old.history ≡ false }
        ensures ok { IfOk result (λ step. TurnsTo self.old self.new step) }
        ensures err { OnErr result (self.new ≡ self.old) }
    {
        let finished = self.parts.clients.finished;
        if let Step::Made(place) = self.act_of_clients(finished)? {
            return Ok(Step::Made(place));
        }
        match &self.first_of_others() {
            None => Ok(Step::Idle),
            Some(e) => Ok(Step::Made(self.make(e)?)),
        }
    }

    /// The step that drains the history by one event. After `Idle`, which comes where the history is
    /// drained, and where memory ran out, nothing has changed. It reads at most 64 events for each process
    /// and each other actor.
    pub fn finish_turn<L: Ledger>(&mut self, steps: &mut Steps<L>) -> Result<Step, AllocError>
        ensures ok { IfOk result (λ step. TurnsTo self.old self.new step) }
        ensures err { OnErr result (self.new ≡ self.old) }
        ensures cost { steps.new ≤ steps.old + 64 * (length self.old.workload.procs + 5) }
    {
        if self.drained() {
            return Ok(Step::Idle);
        }
        self.act_first()
    }

    /// Lets an actor act so often. Where it has no next event it has none in the turns that are left.
    fn act<L: Ledger>(
        &mut self,
        actor: Actor,
        times: u32,
        steps: &mut Steps<L>,
    ) -> Result<(), AllocError>
        ensures ok { OnOk result (self.new ≡ record {
          workload = self.old.workload;
          history = play self.old.workload self.old.history (replicate times actor);
        }) }
        ensures workload { self.new.workload ≡ self.old.workload }
    {
        for _turn in 0..times {
            if let Step::Idle = self.step(actor, steps)? {
                return Ok(());
            }
        }
        Ok(())
    }

    /// Lets the actors of the workload's `go` lines act in turn, each as often as its line says. Where memory
    /// runs out some turns have been taken.
    pub fn play<L: Ledger>(&mut self, steps: &mut Steps<L>) -> Result<(), AllocError>
        ensures ok { OnOk result (self.new ≡ record {
          workload = self.old.workload;
          history = play self.old.workload self.old.history (go_actors self.old.workload);
        }) }
        ensures workload { self.new.workload ≡ self.old.workload }
    {
        for i in 0..self.workload.go.len() {
            let go = *self.workload.go.at(i);
            self.act(go.actor, go.times, steps)?;
        }
        Ok(())
    }

    /// Drains the history: turn after turn, as long as it isn't drained. Where memory runs out some turns
    /// have been taken.
    pub fn drain<L: Ledger>(&mut self, steps: &mut Steps<L>) -> Result<(), AllocError>
        ensures ok { OnOk result (self.new ≡ record {
          workload = self.old.workload;
          history = drain self.old.workload self.old.history;
        }) }
        ensures workload { self.new.workload ≡ self.old.workload }
    {
        'turns: loop {
            match self.finish_turn(steps)? {
                Step::Made(_place) => {}
                Step::Idle => return Ok(()),
            }
        }
    }
}
