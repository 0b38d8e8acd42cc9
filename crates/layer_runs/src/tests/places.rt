//! Each call once, at concrete keys.
ghost use Rattle.std.specs.Prelude.{◌≡◌, ◌↔◌, IsTrue};

use fixed_places::{Chains, FreePlaces, Groups, Key, Least, Recency, Table};
use std::test::Fail;

#[derive(Clone, Copy, Debug, PartialEq)]
struct Room(u32);

impl Key for Room {
    ghost code_of = { λ room. room.0 };

    fn code(&self) -> u64 {
        u64::from(self.0)
    }

    fn is_same(&self, other: &Room) -> bool {
        self.0 == other.0
    }
}

#[test]
fn the_least_of_three(rt: HostRuntime) -> Result<(), Fail> {
    let mut keys = Least::<(u32, u32)>::new(rt.alloc(), 3)?;
    let at_first = (keys.places(), keys.least());
    keys.set(0, Some((2, 0)));
    keys.set(1, Some((1, 7)));
    keys.set(2, Some((1, 6)));
    let full = keys.least();
    keys.set(2, None);
    let left = (keys.least(), keys.key(1), keys.key(2));
    assert_eq!(rt; at_first, (3, None));
    assert_eq!(rt; full, Some(2));
    assert_eq!(rt; left, (Some(1), Some((1, 7)), None));
    Ok(())
}

#[test]
fn a_table_of_three(rt: HostRuntime) -> Result<(), Fail> {
    let mut table = Table::<Room>::new(rt.alloc(), 3)?;
    let at_first = (table.places(), table.find(&Room(70)));
    table.put(1, Room(70));
    let found = (table.find(&Room(70)), table.key(1), table.key(2));
    let taken = (table.take(1), table.find(&Room(70)));
    assert_eq!(rt;
        (at_first, found),
        ((3, None), (Some(1), Some(Room(70)), None))
    );
    assert_eq!(rt; taken, (Room(70), None));
    Ok(())
}

#[test]
fn a_wider_table(rt: HostRuntime) -> Result<(), Fail> {
    let mut table = Table::<Room>::new(rt.alloc(), 3)?;
    table.put(1, Room(70));
    let wider = table.wider(rt.alloc(), 5)?;
    assert_eq!(rt; (wider.places(), wider.find(&Room(70))), (5, Some(1)));
    Ok(())
}

#[test]
fn two_chains(rt: HostRuntime) -> Result<(), Fail> {
    let mut chains = Chains::new(rt.alloc(), 2, 4)?;
    let made = (chains.count(), chains.places());
    chains.put(3, 1);
    chains.put(0, 0);
    chains.put(1, 1);
    let firsts = (chains.chain(0), chains.first(1));
    let nexts = (chains.next(1), chains.next(3));
    chains.take(1);
    assert_eq!(rt; (made, firsts), ((2, 4), (Some(0), Some(1))));
    assert_eq!(rt; (nexts, chains.first(1)), ((Some(3), None), Some(3)));
    Ok(())
}

#[test]
fn groups_in_three_places(rt: HostRuntime) -> Result<(), Fail> {
    let mut groups = Groups::<Room>::new(rt.alloc(), 3)?;
    groups.put(2, Room(70));
    groups.put(0, Room(70));
    let seen = (groups.places(), groups.key(0), groups.key(1));
    let mut wider = groups.wider(rt.alloc(), 5)?;
    let places = wider.places();
    let taken = [
        wider.take(&Room(70)),
        wider.take(&Room(70)),
        wider.take(&Room(70)),
    ];
    assert_eq!(rt; seen, (3, Some(Room(70)), None));
    assert_eq!(rt; (places, taken), (5, [Some(0), Some(2), None]));
    Ok(())
}

#[test]
fn three_places_and_their_touches(rt: HostRuntime) -> Result<(), Fail> {
    let mut recency = Recency::new(rt.alloc(), 3)?;
    let at_first = (recency.places(), recency.oldest());
    recency.set(0, true);
    recency.set(2, true);
    recency.touch(2);
    recency.touch(0);
    let first = recency.oldest();
    recency.touch(2);
    let second = recency.oldest();
    recency.set(0, false);
    let third = (recency.oldest(), recency.is_candidate(0));
    assert_eq!(rt; (at_first, first), ((3, None), Some(2)));
    assert_eq!(rt; (second, third), (Some(0), (Some(2), false)));
    Ok(())
}

#[test]
fn free_places(rt: HostRuntime) -> Result<(), Fail> {
    let mut free = FreePlaces::new(rt.alloc(), 3)?;
    let at_first = (free.places(), free.taken(), free.next());
    let at = free.take();
    let taken = free.taken();
    free.give(at);
    let given_back = (free.taken(), free.take());
    assert_eq!(rt;
        (at_first, at, taken, given_back),
        ((3, 0, 0), 0, 1, (0, 0))
    );
    Ok(())
}
