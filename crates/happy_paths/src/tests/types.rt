use super::found;
use split_types::{Actor, Buf, Event, List, Name, Pid, Serial, Slot, actor_of, dirties, frees};
use std::test::Fail;

/// A drop of the file of serial 7, in slot 65.
fn drop_of_a_file() -> Event {
    Event::Drop {
        by: Pid(2),
        slot: Slot(65),
        serial: Serial(7),
    }
}

#[test]
fn name_keeps_its_bytes(rt: HostRuntime) -> Result<(), Fail> {
    let name = found(Name::new(b"a.b_c-9"))?;
    assert_eq!(rt; name.as_slice(), b"a.b_c-9".as_slice());
    assert_eq!(rt; name.len(), 7);
    assert_eq!(rt; Name::new(b"A").is_none(), true);
    Ok(())
}

#[test]
fn list_keeps_its_items(rt: HostRuntime) -> Result<(), Fail> {
    let mut list: List<u32> = List::new(rt.alloc());
    list.push(3)?;
    list.push(5)?;
    assert_eq!(rt; list.len(), 2);
    assert_eq!(rt; *list.at(1), 5);
    let same = List::from_vec([3u32, 5].to_vec(rt.alloc())?);
    assert_eq!(rt; list.as_slice(), same.as_slice());
    Ok(())
}

#[test]
fn drop_dirties_three_buffers(rt: HostRuntime) -> Result<(), Fail> {
    let e = drop_of_a_file();
    let three = [Buf::Dir(1), Buf::Inode(Slot(65)), Buf::Bitmap];
    assert_eq!(rt; dirties(&e).as_slice(), three.as_slice());
    assert_eq!(rt; frees(&e), Some(Serial(7)));
    assert_eq!(rt; actor_of(&e), Actor::Client(Pid(2)));
    Ok(())
}
