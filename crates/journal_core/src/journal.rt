//! The journal.
ghost use Rattle.std.specs.Prelude.{◌≡◌, ◌⊎◌, ℕ, ◌+◌, ◌<◌, ◌≤◌, length, true, Some, None, slice_index_or, IfOk, IfSome, IsOk, IsSome, IsTrue, OnOk, OnErr};
ghost use Rattle.std.specs.Option.{option_map};
ghost use Rattle.split_types.specs.DiskLayout.{IsDescriptor};
ghost use Rattle.small_fs.specs.Metadata.{IsMetadata};
ghost use Rattle.cause_set.specs.Tags.{Tags, Moved, no_use};
ghost use Rattle.journal_core.specs.Causes.{Covered};
ghost use Rattle.journal_core.specs.Places.{place_of, place_in};
ghost use Rattle.journal_core.specs.Work.{txn};
ghost use Rattle.journal_core.specs.Journaled.{seen, held_by, new_journal, marked_count, can_seal, goes_home, next_home, next_due, carried, due_for, with_mark, after_seal, after_added, after_done, is_committed, IsUnderWay};

use crate::content;
use crate::images::{BLOCK, BLOCKS, place_of, take_images};
use crate::places::Places;
use crate::round::Round;
use crate::tagging::list_blocks;
use crate::work::{Due, Work};
use cause_set::TagStore;
use proxies::Commit;
use small_fs::Fs;
use split_types::{Buf, ReqKind, Txn};
use std::alloc::{AllocError, Global};
use std::marker::Model;

/// Which buffers are marked, and the transactions that are in the journal.
///
/// Each call that is lent a store wants the uses of all tags that the journal holds to be in that store (`held_by`),
/// and changes the uses by what it takes and gives up (`Moved`). `seen` shows a journal with the members of its tags.
#[derive(Drop)]
pub struct Journal<S: TagStore> {
    marks: Places<S>,
    round: Round<S>,
    slots: Places<S>,
    images: Vec<[u8; BLOCK]>,
    logged: Vec<u32>,
    work: Work,
}

impl<S: TagStore> Model for Journal<S> {
    ghost use Rattle.std.specs.Prelude.{ℕ, vec_capacity};
    ghost use Rattle.journal_core.specs.Journaled.{Journaled, IsJournal};

    ghost Value = { Journaled ℕ };

    ghost view = { λ j. record {
      marks = j.marks;
      round = j.round;
      slots = j.slots;
      images = j.images.items;
      logged = j.logged.items;
      work = j.work;
    } };

    ghost invariant = { λ j. IsJournal (vec_capacity j.logged) record {
      marks = j.marks;
      round = j.round;
      slots = j.slots;
      images = j.images.items;
      logged = j.logged.items;
      work = j.work;
    } };
}

impl<S: TagStore> Journal<S> {
    /// A journal of one slot or of four: commit is idle, and nothing is marked. It takes all memory that it needs.
    pub fn new(alloc: Global, slots: u32) -> Result<Journal<S>, AllocError>
        requires { (slots ≡ 1) ⊎ (slots ≡ 4) }
        ensures empty { IfOk result (λ j. j ≡ new_journal slots j.images) }
        ensures images { IfOk result (λ j. length j.images ≡ 261) }
        ensures held { IfOk result (λ j. (n : ℕ) → held_by j n ≡ 0) }
    {
        Ok(Journal {
            marks: Places::new(alloc, BLOCKS)?,
            round: Round::new(alloc, BLOCKS)?,
            slots: Places::new(alloc, slots as usize)?,
            images: vec![in alloc; [0; BLOCK]; BLOCKS]?,
            logged: Vec::with_capacity(alloc, BLOCKS)?,
            work: Work::new(),
        })
    }

    /// Marks a buffer of metadata for the members of `by` besides; nothing changes after want of memory.
    pub fn mark(&mut self, tags: &mut S, b: Buf, by: &S::Tag) -> Result<(), AllocError>
        requires buffer { IsMetadata b }
        requires uses { Covered (held_by self.old) (S.now tags.old) }
        requires by { 1 ≤ (S.now tags.old).uses (S.number by.now) }
        ensures moved { Moved (S.now tags.old) (S.now tags.new) (held_by self.old) (held_by self.new) }
        ensures marked { OnOk result (seen (S.now tags.new) self.new
            ≡ with_mark (place_of b) ((S.now tags.old).members (S.number by.now)) (seen (S.now tags.old) self.old)) }
        ensures err { OnErr result (self.new ≡ self.old) }
        ensures err_store { OnErr result (Moved (S.now tags.old) (S.now tags.new) no_use no_use) }
        ensures spare { (S.now tags.old).spare ≤ (S.now tags.new).spare + 1 }
        ensures succeeds { 1 ≤ (S.now tags.old).spare → IsOk result }
    {
        self.marks.mark(tags, place_of(b), by)
    }

    /// The tag of a buffer that was marked since the last seal; `None` exactly where it wasn't.
    pub fn marked(&self, b: Buf) -> Option<&S::Tag>
        requires { IsMetadata b }
        ensures tag { option_map (λ t. S.number t.now) result ≡ slice_index_or self.now.marks (place_of b) None }
        ensures held { IfSome result (λ t. 1 ≤ held_by self.now (S.number t.now)) }
    {
        self.marks.get(place_of(b))
    }

    /// Whether a seal is due: commit is idle, some buffer is marked, and a slot is left.
    pub fn can_seal(&self) -> bool
        ensures { result ≡ can_seal self.now }
    {
        self.work.is_idle()
            && self.marks.taken() > 0
            && (self.work.used as usize) < self.slots.places()
    }

    /// What `seal` would answer: the next transaction, and how many buffers it takes.
    pub fn to_seal(&self) -> (Txn, u32)
        requires { self.now.work.sealed < 4294967295 }
        ensures { result ≡ (txn (self.now.work.sealed + 1), marked_count self.now) }
    {
        (Txn(self.work.sealed + 1), self.marks.taken())
    }

    /// Seals the next transaction: it takes all marked buffers, with the images of their blocks as they are now, and
    /// all for whom they were marked. Nothing changes after want of memory.
    pub fn seal(&mut self, tags: &mut S, fs: &Fs) -> Result<(Txn, u32), AllocError>
        requires due { IsTrue (can_seal self.old) }
        requires few { self.old.work.sealed < 4294967295 }
        requires uses { Covered (held_by self.old) (S.now tags.old) }
        ensures moved { Moved (S.now tags.old) (S.now tags.new) (held_by self.old) (held_by self.new) }
        ensures sealed { OnOk result (seen (S.now tags.new) self.new
            ≡ after_seal fs.now.first fs.now.slots (seen (S.now tags.old) self.old)) }
        ensures taken { IfOk result (λ r. r ≡ (txn (self.old.work.sealed + 1), marked_count self.old)) }
        ensures err { OnErr result (self.new ≡ self.old) }
        ensures err_store { OnErr result (Moved (S.now tags.old) (S.now tags.new) no_use no_use) }
        ensures spare { (S.now tags.old).spare ≤ (S.now tags.new).spare + 522 }
        ensures succeeds { 522 ≤ (S.now tags.old).spare → IsOk result }
    {
        let causes = self.marks.union(tags)?;
        if let Err(error) = self.round.take(tags, self.marks.as_slice()) {
            tags.release(causes);
            return Err(error);
        }
        let sealed = self.to_seal();
        take_images(fs, self.marks.as_slice(), &mut self.images);
        list_blocks(self.marks.as_slice(), &mut self.logged);
        self.marks.free_all(tags);
        self.slots.put(tags, self.work.used as usize, causes);
        self.work.seal();
        Ok(sealed)
    }

    /// Whether the round's buffers go home, where commit is idle: some slot is used, and either all are, or all calls
    /// have returned and nothing is marked.
    fn goes_home(&self, all_returned: bool) -> bool
        ensures { result ≡ goes_home self.now all_returned }
    {
        let used = self.work.used as usize;
        used > 0 && (used == self.slots.places() || (all_returned && self.marks.taken() == 0))
    }

    /// The request that commit adds next; `None` exactly where its stage waits for a done, or it is idle and the round
    /// doesn't go home.
    pub fn next_request(&self, all_returned: bool) -> Option<Due>
        ensures { result ≡ next_due self.now all_returned }
    {
        if self.work.is_idle() && !self.goes_home(all_returned) {
            return None;
        }
        self.work.due(self.logged.len() as u32, self.round.next())
    }

    /// What the next request carries, in whole blocks.
    pub fn content(&self, alloc: Global) -> Result<Vec<u8>, AllocError>
        requires { IsSome (next_due self.now true) }
        ensures { IfOk result (λ bytes. bytes.items ≡ carried self.now) }
    {
        match self.work.stage {
            Commit::Log { t, causes: _ } => content::log(alloc, t, &self.logged, &self.images),
            Commit::Marking { t, causes: _ } => content::commit(alloc, t),
            Commit::Clear { t: _, causes: _ } => content::cleared(alloc),
            Commit::Idle
            | Commit::Homes {
                t: _,
                causes: _,
                added: _,
            } => Vec::from_slice(alloc, &self.images[self.next_place()]),
        }
    }

    /// The place of the home block that goes next.
    fn next_place(&self) -> usize
        requires { IsSome (next_home self.now) }
        ensures place { result ≡ place_in (next_home self.now) }
        ensures within { result < 261 }
    {
        self.round.next().unwrap() as usize - 1
    }

    /// For whom the next request is added.
    pub fn tag(&self) -> &S::Tag
        requires { IsSome (next_due self.now true) }
        ensures tag { Some (S.number result.now) ≡ due_for self.now }
        ensures held { 1 ≤ held_by self.now (S.number result.now) }
    {
        match self.work.slot() {
            Some(slot) => self.slots.get(slot as usize).unwrap(),
            None => self.round.get(self.next_place()).unwrap(),
        }
    }

    /// The next request was added, and is under way; a home's tag is released.
    pub fn added(&mut self, tags: &mut S)
        requires due { IsSome (next_due self.old true) }
        requires uses { Covered (held_by self.old) (S.now tags.old) }
        ensures moved { Moved (S.now tags.old) (S.now tags.new) (held_by self.old) (held_by self.new) }
        ensures added { seen (S.now tags.new) self.new ≡ after_added (seen (S.now tags.old) self.old) }
        ensures under_way { IfSome (next_due self.old true) (λ due. IsUnderWay self.new due.kind due.first) }
        ensures spare { (S.now tags.old).spare ≤ (S.now tags.new).spare }
    {
        let slot = self.work.slot();
        self.work.added();
        match slot {
            Some(_) => {}
            None => self.round.carry(tags),
        }
    }

    /// A request of commit is done well; the tag of a transaction that was cleared is released. What kind it is, and
    /// where it went, is what the stage waits for.
    pub fn on_done(&mut self, tags: &mut S, kind: ReqKind, first: u32)
        requires under_way { IsUnderWay self.old kind first }
        requires uses { Covered (held_by self.old) (S.now tags.old) }
        ensures moved { Moved (S.now tags.old) (S.now tags.new) (held_by self.old) (held_by self.new) }
        ensures done { seen (S.now tags.new) self.new ≡ after_done (seen (S.now tags.old) self.old) }
        ensures spare { (S.now tags.old).spare ≤ (S.now tags.new).spare }
    {
        let cleared = self.work.clearing();
        self.work.done(self.round.is_left());
        match cleared {
            Some(slot) => self.slots.free(tags, slot as usize),
            None => {}
        }
    }

    /// Whether a transaction is committed: its commit request is done.
    pub fn committed(&self, t: Txn) -> bool
        ensures { result ≡ is_committed self.now t }
    {
        1 <= t.0 && t.0 <= self.work.committed
    }
}
