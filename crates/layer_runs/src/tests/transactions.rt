//! Transactions through a journal, from the marks to the clears.
ghost use Rattle.std.specs.Prelude.{◌≡◌, ◌⊎◌, ◌+◌, ◌<◌, ◌≤◌, IfOk};
ghost use Rattle.cause_set.specs.PlainTags.{plain_tags};
ghost use Rattle.small_fs.specs.Metadata.{IsMetadata};
ghost use Rattle.journal_core.specs.Causes.{Covered};
ghost use Rattle.journal_core.specs.Journaled.{held_by};

use cause_set::{PlainTags, TagStore};
use journal_core::{Due, Journal};
use small_fs::Fs;
use split_types::{Buf, Pid, ReqKind, Slot, Txn};
use std::alloc::{AllocError, Global};
use std::test::Fail;

/// A journal of so many slots, and a store.
fn begin(alloc: Global, slots: u32) -> Result<(Journal<PlainTags>, PlainTags), AllocError>
    requires { (slots ≡ 1) ⊎ (slots ≡ 4) }
    ensures uses { IfOk result (λ made. Covered (held_by made.0) (plain_tags made.1)) }
    ensures sealed { IfOk result (λ made. made.0.work.sealed ≡ 0) }
{
    let tags = PlainTags::new(alloc)?;
    let journal = Journal::new(alloc, slots)?;
    Ok((journal, tags))
}

/// Marks a buffer for a process.
fn mark_for<S: TagStore>(
    journal: &mut Journal<S>,
    tags: &mut S,
    b: Buf,
    p: Pid,
) -> Result<(), AllocError>
    requires buffer { IsMetadata b }
    requires first { 1 ≤ p.0 }
    requires last { p.0 ≤ 256 }
    requires uses { Covered (held_by journal.old) (S.now tags.old) }
    ensures uses { IfOk result (λ _. Covered (held_by journal.new) (S.now tags.new)) }
    ensures sealed { IfOk result (λ _. journal.new.work.sealed ≡ journal.old.work.sealed) }
{
    let by = tags.single(p)?;
    journal.mark(tags, b, &by)?;
    tags.release(by);
    Ok(())
}

/// The first of the words of those for whom a buffer is marked; 0 where it isn't.
fn marked_for<S: TagStore>(journal: &Journal<S>, tags: &S, b: Buf) -> u64
    requires buffer { IsMetadata b }
    requires uses { Covered (held_by journal.now) (S.now tags.now) }
{
    match journal.marked(b) {
        Some(tag) => tags.members(tag).words()[0],
        None => 0,
    }
}

/// Marks a block of the directory and an inode for a process, and seals them where a seal is due then.
fn seal_for<S: TagStore>(
    journal: &mut Journal<S>,
    tags: &mut S,
    fs: &Fs,
    slot: Slot,
    p: Pid,
) -> Result<Option<(Txn, u32)>, AllocError>
    requires slot { slot.0 < 256 }
    requires first { 1 ≤ p.0 }
    requires last { p.0 ≤ 256 }
    requires few { journal.old.work.sealed < 9 }
    requires uses { Covered (held_by journal.old) (S.now tags.old) }
    ensures uses { IfOk result (λ _. Covered (held_by journal.new) (S.now tags.new)) }
    ensures sealed { IfOk result (λ _. journal.new.work.sealed ≤ journal.old.work.sealed + 1) }
{
    mark_for(journal, tags, Buf::Dir(0), p)?;
    mark_for(journal, tags, Buf::Inode(slot), p)?;
    if !journal.can_seal() {
        return Ok(None);
    }
    let sealed = journal.seal(tags, fs)?;
    Ok(Some(sealed))
}

/// A request that was carried out: what it was, how many bytes it carried, and the first of the words of those it was
/// for.
#[derive(Clone, Copy, Debug, PartialEq, Eq)]
struct Carried {
    due: Due,
    bytes: usize,
    causes: u64,
}

/// What such a request carries out.
fn request(kind: ReqKind, first: u32, n: u32, causes: u64) -> Carried {
    Carried {
        due: Due { kind, first, n },
        bytes: 4096 * n as usize,
        causes,
    }
}

/// Carries out the request that comes next, if there is one.
fn carry<S: TagStore>(
    alloc: Global,
    journal: &mut Journal<S>,
    tags: &mut S,
) -> Result<Option<Carried>, AllocError>
    requires uses { Covered (held_by journal.old) (S.now tags.old) }
    ensures uses { IfOk result (λ _. Covered (held_by journal.new) (S.now tags.new)) }
    ensures sealed { IfOk result (λ _. journal.new.work.sealed ≡ journal.old.work.sealed) }
{
    let Some(due) = journal.next_request(true) else {
        return Ok(None);
    };
    let bytes = journal.content(alloc)?.len();
    let causes = tags.members(journal.tag()).words()[0];
    journal.added(tags);
    journal.on_done(tags, due.kind, due.first);
    Ok(Some(Carried { due, bytes, causes }))
}

/// Carries out requests, and tells whether they are these.
fn carry_all<S: TagStore>(
    alloc: Global,
    journal: &mut Journal<S>,
    tags: &mut S,
    wanted: &[Carried],
) -> Result<bool, AllocError>
    requires uses { Covered (held_by journal.old) (S.now tags.old) }
    ensures uses { IfOk result (λ _. Covered (held_by journal.new) (S.now tags.new)) }
    ensures sealed { IfOk result (λ _. journal.new.work.sealed ≡ journal.old.work.sealed) }
{
    let mut are_these = true;
    for one in wanted {
        let done = carry(alloc, journal, tags)?;
        are_these = are_these && done == Some(*one);
    }
    Ok(are_these)
}

#[test]
fn a_new_journal_is_idle(rt: HostRuntime) -> Result<(), Fail> {
    let journal = Journal::<PlainTags>::new(rt.alloc(), 4)?;
    assert!(rt; !journal.can_seal());
    assert!(rt; journal.next_request(true).is_none());
    assert!(rt; journal.marked(Buf::Bitmap).is_none());
    assert!(rt; !journal.committed(Txn(1)));
    Ok(())
}

#[test]
fn a_buffer_is_marked(rt: HostRuntime) -> Result<(), Fail> {
    let (mut journal, mut tags) = begin(rt.alloc(), 1)?;
    mark_for(&mut journal, &mut tags, Buf::Dir(3), Pid(2))?;
    mark_for(&mut journal, &mut tags, Buf::Dir(3), Pid(1))?;
    let marked = marked_for(&journal, &tags, Buf::Dir(3));
    assert_eq!(rt; (journal.to_seal(), marked), ((Txn(1), 1), 3));
    Ok(())
}

/// Seals a transaction for a process, and tells whether these requests come after it.
fn seal_and_carry<S: TagStore>(
    alloc: Global,
    journal: &mut Journal<S>,
    tags: &mut S,
    slot: Slot,
    wanted: &[Carried],
) -> Result<bool, AllocError>
    requires slot { slot.0 < 256 }
    requires few { journal.old.work.sealed < 9 }
    requires uses { Covered (held_by journal.old) (S.now tags.old) }
    ensures uses { IfOk result (λ _. Covered (held_by journal.new) (S.now tags.new)) }
    ensures sealed { IfOk result (λ _. journal.new.work.sealed ≤ journal.old.work.sealed + 1) }
{
    let fs = Fs::new(alloc, &[], 1318)?;
    seal_for(journal, tags, &fs, slot, Pid(slot.0 + 1))?;
    carry_all(alloc, journal, tags, wanted)
}

#[test]
fn one_slot_is_a_round(rt: HostRuntime) -> Result<(), Fail> {
    let (mut journal, mut tags) = begin(rt.alloc(), 1)?;
    let wanted = [
        request(ReqKind::Log(Txn(1)), 262, 3, 1),
        request(ReqKind::Commit(Txn(1)), 525, 1, 1),
        request(ReqKind::Home(Txn(1)), 2, 1, 1),
        request(ReqKind::Home(Txn(1)), 6, 1, 1),
        request(ReqKind::Clear(Txn(1)), 525, 1, 1),
    ];
    let are_these = seal_and_carry(rt.alloc(), &mut journal, &mut tags, Slot(0), &wanted)?;
    assert!(rt; are_these && journal.committed(Txn(1)));
    Ok(())
}

/// Commits two transactions in two slots, and tells whether these requests come after them.
fn commit_two<S: TagStore>(
    alloc: Global,
    journal: &mut Journal<S>,
    tags: &mut S,
    wanted: &[Carried],
) -> Result<bool, AllocError>
    requires none { journal.old.work.sealed ≡ 0 }
    requires uses { Covered (held_by journal.old) (S.now tags.old) }
{
    let first = [
        request(ReqKind::Log(Txn(1)), 262, 3, 1),
        request(ReqKind::Commit(Txn(1)), 525, 1, 1),
    ];
    let second = [
        request(ReqKind::Log(Txn(2)), 526, 3, 2),
        request(ReqKind::Commit(Txn(2)), 789, 1, 2),
    ];
    let is_first = seal_and_carry(alloc, journal, tags, Slot(0), &first)?;
    let is_second = seal_and_carry(alloc, journal, tags, Slot(1), &second)?;
    let waits = journal.next_request(false).is_none();
    let are_these = carry_all(alloc, journal, tags, wanted)?;
    Ok(is_first && is_second && waits && are_these)
}

#[test]
fn two_transactions_of_a_round(rt: HostRuntime) -> Result<(), Fail> {
    let (mut journal, mut tags) = begin(rt.alloc(), 4)?;
    let homes = [
        request(ReqKind::Home(Txn(2)), 2, 1, 3),
        request(ReqKind::Home(Txn(2)), 6, 1, 1),
        request(ReqKind::Home(Txn(2)), 7, 1, 2),
        request(ReqKind::Clear(Txn(1)), 525, 1, 1),
        request(ReqKind::Clear(Txn(2)), 789, 1, 2),
    ];
    assert!(rt; commit_two(rt.alloc(), &mut journal, &mut tags, &homes)?);
    Ok(())
}
