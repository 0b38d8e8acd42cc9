//! Each call once.
ghost use Rattle.std.specs.Prelude.{◌≡◌, ◌≤◌, [], ◌∷◌, IfOk};
ghost use Rattle.split_types.specs.Sets.{union_of};
ghost use Rattle.cause_set.specs.Tags.{Moved, no_use, one_use};

use cause_set::{
    Causes, PlainTags, TagStore, bill_of_parts, bills_add_up, share, share_of, shares_add_up,
};
use split_types::Pid;
use std::alloc::AllocError;
use std::test::Fail;

#[test]
fn a_set_of_two(rt: HostRuntime) -> Result<(), Fail> {
    let set = Causes::one(Pid(256)).union(&Causes::one(Pid(65)));
    assert_eq!(rt; set.len(), 2);
    assert!(rt; set.contains(Pid(65)));
    assert!(rt; !set.contains(Pid(64)));
    assert!(rt; !Causes::none().contains(Pid(65)));
    assert!(rt; Causes::none().is_empty());
    assert_eq!(rt; set.rank(Pid(256)), 1);
    set.rises();
    let copy = set;
    assert!(rt; copy.is_same(&set));
    assert!(rt; !copy.is_same(&Causes::one(Pid(65))));
    assert_eq!(rt; set.words(), [0, 1, 0, 1 << 63]);
    let members = copy.to_list(rt.alloc())?;
    assert_eq!(rt; members.as_slice(), [Pid(65), Pid(256)].as_slice());
    assert_eq!(rt; copy.iter().next(), Some(Pid(65)));
    Ok(())
}

#[test]
fn a_cost_over_three(rt: HostRuntime) {
    assert_eq!(rt; share(52, 0, 3), 18);
    assert_eq!(rt; share(52, 1, 3), 17);
    assert_eq!(rt; share(52, 2, 3), 17);
    shares_add_up();
    bills_add_up();
    let tag = Causes::one(Pid(2)).union(&Causes::one(Pid(200)));
    assert_eq!(rt; share_of(53, &tag, Pid(2)), 27);
    assert_eq!(rt; share_of(53, &tag, Pid(200)), 26);
    assert_eq!(rt; share_of(53, &tag, Pid(3)), 0);
    let parts = [tag, Causes::one(Pid(2)), tag];
    assert_eq!(rt; bill_of_parts(106, &parts, Pid(2)), 71);
    assert_eq!(rt; bill_of_parts(106, &parts, Pid(200)), 35);
}

/// Joins two processes in a store, and releases all tags but one more of the joined.
fn joined<S: TagStore>(tags: &mut S, p: Pid, q: Pid) -> Result<S::Tag, AllocError>
    requires first { 1 ≤ p.0 }
    requires last { p.0 ≤ 256 }
    requires other_first { 1 ≤ q.0 }
    requires other_last { q.0 ≤ 256 }
    ensures moved { IfOk result (λ t. Moved (S.now tags.old) (S.now tags.new) no_use (one_use (S.number t))) }
    ensures set { IfOk result (λ t. (S.now tags.new).members (S.number t) ≡ union_of ((p.0 ∷ []) ∷ (q.0 ∷ []) ∷ [])) }
{
    tags.room(4)?;
    let a = tags.single(p)?;
    let b = tags.single(q)?;
    let both = tags.join(&a, &b)?;
    let more = tags.again(&both)?;
    tags.release(a);
    tags.release(b);
    tags.release(both);
    Ok(more)
}

#[test]
fn tags_of_a_plain_store(rt: HostRuntime) -> Result<(), Fail> {
    let mut tags = PlainTags::new(rt.alloc())?;
    let both = joined(&mut tags, Pid(7), Pid(3))?;
    let members = tags.members(&both).to_list(rt.alloc())?;
    assert_eq!(rt; members.as_slice(), [Pid(3), Pid(7)].as_slice());
    tags.release(both);
    Ok(())
}
