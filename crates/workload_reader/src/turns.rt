//! The lines of turns, behind their first word.
ghost use Rattle.std.specs.Prelude.{◌≡◌, ℕ, ◌≤◌, ◌++◌, List, MatchOption, ⊤};
ghost use Rattle.split_types.specs.WorkloadText.{go_fields};
ghost use Rattle.workload_reader.specs.Fields.{NumberAt, Keeps, IsWithin, Reads};
ghost use Rattle.workload_reader.specs.Actors.{ActorAt};
ghost use Rattle.workload_reader.specs.Table.{IsPlaceInRange, IsActorOf, IsGoInRange};
ghost use Rattle.workload_reader.specs.Weighed.{Weighed};

use crate::cause::Cause;
use crate::number::{after, counted, ranged};
use split_types::{Actor, Go, Pid};

/// The client of the process whose number this is, where it is one of so many.
fn client_of(by: Option<u32>) -> Result<Actor, Cause>
    ensures { (p procs : ℕ) → Keeps (IsWithin 1 procs) p by
        → Weighed IsPlaceInRange (IsActorOf procs) (Actor.Client (record { 0 = p })) result }
{
    let by = by.ok_or(Cause::Ref)?;
    Ok(Actor::Client(Pid(by)))
}

/// The completion at this place in flight, where it is one of the first 16.
fn completion_of(place: Option<u32>) -> Result<Actor, Cause>
    ensures { (k procs : ℕ) → Keeps (IsWithin 0 15) k place
        → Weighed IsPlaceInRange (IsActorOf procs) (Actor.Dn k) result }
{
    let place = place.ok_or(Cause::Range)?;
    Ok(Actor::Dn(place))
}

/// The actor behind a space, where its turns can be given, and what follows it.
fn actor(text: &[u8], procs: u32) -> Option<(Result<Actor, Cause>, &[u8])>
    ensures { MatchOption result ((a : Actor) (rest : List ℕ) → ActorAt text.now a rest → ⊥)
        (λ r. (a : Actor) × ActorAt text.now a r.1.now × Weighed IsPlaceInRange (IsActorOf procs) a r.0) }
{
    if let Some(rest) = after(text, b" wb") {
        Some((Ok(Actor::Wb), rest))
    } else if let Some(rest) = after(text, b" cm") {
        Some((Ok(Actor::Cm), rest))
    } else if let Some(rest) = after(text, b" dq") {
        Some((Ok(Actor::Dq), rest))
    } else if let Some(rest) = after(text, b" tk") {
        Some((Ok(Actor::Tk), rest))
    } else if let Some(rest) = after(text, b" c") {
        let (by, rest) = counted(rest, 1, procs)?;
        Some((client_of(by), rest))
    } else {
        let (place, rest) = counted(after(text, b" dn")?, 0, 15)?;
        Some((completion_of(place), rest))
    }
}

/// So many turns of an actor whose turns can be given.
fn go_of(actor: Result<Actor, Cause>, times: Option<u32>) -> Result<Go, Cause>
    ensures { (g : Go) (procs : ℕ) → Weighed IsPlaceInRange (IsActorOf procs) g.actor actor
        → Keeps (IsWithin 1 65536) g.times times
        → Weighed IsGoInRange (λ g. IsActorOf procs g.actor) g result }
{
    let times = times.ok_or(Cause::Range)?;
    let actor = actor?;
    Ok(Go { actor, times })
}

/// The turns of a line, where they can be given, and the lines that follow.
pub(crate) fn turns(text: &[u8], procs: u32) -> Option<(Result<Go, Cause>, &[u8])>
    ensures { Reads (λ _. ⊤) go_fields (Weighed IsGoInRange (λ g. IsActorOf procs g.actor)) text.now result }
{
    let (actor, rest) = actor(text, procs)?;
    let (times, rest) = ranged(rest, 1, 65536)?;
    let rest = after(rest, b"\n")?;
    Some((go_of(actor, times), rest))
}
