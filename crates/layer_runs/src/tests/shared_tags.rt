//! Each call once, and the number of sets on the way.
ghost use Rattle.std.specs.Prelude.{◌≡◌, ◌≤◌, IfOk};
ghost use Rattle.cause_set.specs.Tags.{Moved, no_use};

use cause_set::TagStore;
use split_types::Pid;
use std::alloc::AllocError;
use std::test::Fail;
use tag_table::Table;

#[test]
fn equal_sets_are_held_once(rt: HostRuntime) -> Result<(), Fail> {
    let mut table = Table::new(rt.alloc())?;
    let tag = table.single(Pid(3))?;
    let also = table.single(Pid(3))?;
    let held_twice = table.sets();
    table.release(also);
    let members = table.members(&tag).to_list(rt.alloc())?;
    let seen = (held_twice, table.sets(), members.as_slice());
    assert_eq!(rt; seen, (1, 1, [Pid(3)].as_slice()));
    Ok(())
}

/// A tag of two processes, whose own tags stay in use.
fn joined<S: TagStore>(tags: &mut S, p: Pid, q: Pid) -> Result<S::Tag, AllocError>
    requires first { 1 ≤ p.0 }
    requires last { p.0 ≤ 256 }
    requires other_first { 1 ≤ q.0 }
    requires other_last { q.0 ≤ 256 }
    ensures in_use { IfOk result (λ t. 1 ≤ (S.now tags.new).uses (S.number t)) }
{
    let a = tags.single(p)?;
    let b = tags.single(q)?;
    let both = tags.join(&a, &b)?;
    Ok(both)
}

#[test]
fn a_join_of_two(rt: HostRuntime) -> Result<(), Fail> {
    let mut table = Table::new(rt.alloc())?;
    let both = joined(&mut table, Pid(7), Pid(3))?;
    let members = table.members(&both).to_list(rt.alloc())?;
    assert_eq!(rt;
        (table.sets(), members.as_slice()),
        (3, [Pid(3), Pid(7)].as_slice())
    );
    Ok(())
}

/// Takes a tag and one more of it, and releases both.
fn come_and_go<S: TagStore>(tags: &mut S, p: Pid) -> Result<(), AllocError>
    requires first { 1 ≤ p.0 }
    requires last { p.0 ≤ 256 }
    ensures moved { IfOk result (λ _. Moved (S.now tags.old) (S.now tags.new) no_use no_use) }
{
    tags.room(2)?;
    let tag = tags.single(p)?;
    let more = tags.again(&tag)?;
    tags.release(tag);
    tags.release(more);
    Ok(())
}

#[test]
fn every_tag_is_released(rt: HostRuntime) -> Result<(), Fail> {
    let mut table = Table::new(rt.alloc())?;
    come_and_go(&mut table, Pid(1))?;
    come_and_go(&mut table, Pid(256))?;
    assert_eq!(rt; table.sets(), 0);
    Ok(())
}
