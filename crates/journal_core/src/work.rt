//! What commit is doing, and how far the transactions have come.
ghost use Rattle.std.specs.Prelude.{◌≡◌, ℕ, ◌+◌, ◌-◌, ◌<◌, ◌≤◌, ◌||◌, nat_lt, if◌then◌else◌};
ghost use Rattle.std.specs.Option.{option_map};
ghost use Rattle.split_types.specs.declared.request.ReqKind.TheVariants.{Home};
ghost use Rattle.proxies.specs.declared.commit.Commit.TheVariants.{Idle, Clear};
ghost use Rattle.journal_core.specs.Work.{txn, no_work, is_idle, sealed_work, begun, added_work, done_work, alone, due_in, slot_in, cleared_slot, IsWork};

use proxies::Commit;
use split_types::{ReqKind, Txn};

/// How many blocks a slot of the journal has: its descriptor, room for 262 images, and its commit block.
const SLOT_BLOCKS: u32 = 264;

/// The descriptor of the first slot.
const FIRST_DESCRIPTOR: u32 = 262;

/// The commit block of the first slot.
const FIRST_COMMIT: u32 = 525;

/// A request that commit is to add: what it is for, its first block, and how many blocks it has.
#[derive(Clone, Copy, Debug, PartialEq, Eq)]
pub struct Due {
    pub kind: ReqKind,
    pub first: u32,
    pub n: u32,
}

/// A home request of a transaction, if there is a home block.
fn home_due(t: Txn, home: Option<u32>) -> Option<Due>
    ensures { result ≡ option_map (λ block. record { kind = Home t; first = block; n = 1 }) home }
{
    home.map(|first| Due {
        kind: ReqKind::Home(t),
        first,
        n: 1,
    })
}

/// What commit is doing, and how far the transactions have come.
#[derive(Debug, Drop)]
pub(crate) struct Work {
    /// What commit is doing. The causes of its transaction are those of this slot.
    pub(crate) stage: Commit<u32>,
    /// How many requests of the stage were added and aren't done.
    pub(crate) unfinished: u32,
    /// How many transactions were sealed; the last one has this number.
    pub(crate) sealed: u32,
    /// How many transactions were committed: those up to this number.
    pub(crate) committed: u32,
    /// How many transactions the round has. Each has the slot of its place in the round, until it is cleared.
    pub(crate) used: u32,
}

impl Work {
    /// Nothing was sealed.
    pub(crate) fn new() -> Work
        ensures { result ≡ no_work }
    {
        Work {
            stage: Commit::Idle,
            unfinished: 0,
            sealed: 0,
            committed: 0,
            used: 0,
        }
    }

    /// Whether commit works for no transaction.
    pub(crate) fn is_idle(&self) -> bool
        ensures { result ≡ is_idle self.now.stage }
    {
        matches!(self.stage, Commit::Idle)
    }

    /// One more transaction is sealed, into the next slot; its log comes first.
    pub(crate) fn seal(&mut self)
        requires few { self.old.sealed < 4294967295 }
        requires slots { self.old.used < 4 }
        ensures { self.new ≡ sealed_work self.old }
    {
        self.sealed += 1;
        self.stage = Commit::Log {
            t: Txn(self.sealed),
            causes: self.used,
        };
        self.unfinished = 0;
        self.used += 1;
    }

    /// A request that is added alone, where none is under way.
    fn alone(&self, kind: ReqKind, first: u32, n: u32) -> Option<Due>
        ensures { result ≡ alone self.now.unfinished kind first n }
    {
        (self.unfinished == 0).then_some(Due { kind, first, n })
    }

    /// The request that is added next, from `Idle` the first of the round's homes; `None` where the stage waits for a
    /// done, or there is no further home. A log has `logged` buffers.
    pub(crate) fn due(&self, logged: u32, home: Option<u32>) -> Option<Due>
        requires work { (more : ℕ) × IsWork more self.now }
        requires logged { logged ≤ 261 }
        ensures { result ≡ due_in (begun self.now) self.now.unfinished logged home }
    {
        match self.stage {
            Commit::Log { t, causes } => self.alone(
                ReqKind::Log(t),
                FIRST_DESCRIPTOR + SLOT_BLOCKS * causes,
                logged + 1,
            ),
            Commit::Marking { t, causes } => self.alone(
                ReqKind::Commit(t),
                FIRST_COMMIT + SLOT_BLOCKS * causes,
                1,
            ),
            Commit::Clear { t, causes } => self.alone(
                ReqKind::Clear(t),
                FIRST_COMMIT + SLOT_BLOCKS * causes,
                1,
            ),
            Commit::Homes {
                t,
                causes: _,
                added: _,
            } => home_due(t, home),
            Commit::Idle => home_due(Txn(self.sealed), home),
        }
    }

    /// The slot of the transaction that the next request is about; `None` for a home, which is the round's.
    pub(crate) fn slot(&self) -> Option<u32>
        ensures { result ≡ slot_in (begun self.now) }
    {
        match self.stage {
            Commit::Log { t: _, causes }
            | Commit::Marking { t: _, causes }
            | Commit::Clear { t: _, causes } => Some(causes),
            Commit::Idle
            | Commit::Homes {
                t: _,
                causes: _,
                added: _,
            } => None,
        }
    }

    /// The slot whose transaction is being cleared.
    pub(crate) fn clearing(&self) -> Option<u32>
        ensures { result ≡ cleared_slot self.now.stage }
    {
        match self.stage {
            Commit::Clear { t: _, causes } => Some(causes),
            _ => None,
        }
    }

    /// From `Idle` commit begins with the homes of the round.
    fn begin(&mut self)
        requires { 1 ≤ self.old.used }
        ensures { self.new ≡ record self.old { stage = begun self.old } }
    {
        if self.is_idle() {
            self.stage = Commit::Homes {
                t: Txn(self.sealed),
                causes: self.used - 1,
                added: 0,
            };
        }
    }

    /// The next request was added.
    pub(crate) fn added(&mut self)
        requires some { 1 ≤ self.old.used }
        requires work { (more : ℕ) × IsWork more self.old }
        ensures { self.new ≡ added_work self.old }
    {
        self.begin();
        if let Commit::Homes {
            t: _,
            causes: _,
            added,
        } = &mut self.stage
        {
            *added += 1;
        }
        self.unfinished += 1;
    }

    /// The stage comes next.
    fn enter(&mut self, stage: Commit<u32>)
        ensures { self.new ≡ record self.old { stage = stage; unfinished = 0 } }
    {
        self.stage = stage;
        self.unfinished = 0;
    }

    /// A home is done; after the last one the round's first transaction is cleared.
    fn home_done(&mut self, more: bool)
        requires unfinished { 1 ≤ self.old.unfinished }
        requires used { self.old.used ≤ self.old.sealed }
        requires some { 1 ≤ self.old.used }
        ensures { self.new ≡ (if more || nat_lt 1 self.old.unfinished
            then record self.old { unfinished = self.old.unfinished - 1 }
            else record self.old { stage = Clear (txn (self.old.sealed + 1 - self.old.used)) 0; unfinished = 0 }) }
    {
        if more || self.unfinished > 1 {
            self.unfinished -= 1;
        } else {
            self.enter(Commit::Clear {
                t: Txn(self.sealed - (self.used - 1)),
                causes: 0,
            });
        }
    }

    /// A transaction is cleared; the next one of its round is cleared after it.
    fn cleared(&mut self, t: Txn, slot: u32)
        requires slot { slot < self.old.used }
        requires next { slot + 1 < self.old.used → t.0 < 4294967295 }
        ensures { self.new ≡ (if nat_lt (slot + 1) self.old.used
            then record self.old { stage = Clear (txn (t.0 + 1)) (slot + 1); unfinished = 0 }
            else record self.old { stage = Idle; unfinished = 0; used = 0 }) }
    {
        let used = self.used;
        if slot + 1 < used {
            self.enter(Commit::Clear {
                t: Txn(t.0 + 1),
                causes: slot + 1,
            });
        } else {
            self.used = 0;
            self.enter(Commit::Idle);
        }
    }

    /// One of the stage's requests is done. `more` says whether homes are left to be added.
    pub(crate) fn done(&mut self, more: bool)
        requires unfinished { 1 ≤ self.old.unfinished }
        requires work { (left : ℕ) × IsWork left self.old }
        ensures { self.new ≡ done_work more self.old }
    {
        match self.stage {
            Commit::Idle => {}
            Commit::Log { t, causes } => self.enter(Commit::Marking { t, causes }),
            Commit::Marking { t, causes: _ } => {
                self.committed = t.0;
                self.enter(Commit::Idle);
            }
            Commit::Homes {
                t: _,
                causes: _,
                added: _,
            } => self.home_done(more),
            Commit::Clear { t, causes } => self.cleared(t, causes),
        }
    }
}
