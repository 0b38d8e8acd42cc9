//! Writes through a disk, and a crash.
ghost use Rattle.std.specs.Prelude.{◌≡◌, [], ◌∷◌, IfOk, vec_len};
ghost use Rattle.sim_disk.specs.declared.disk.crash.Fate.TheVariants.{Old, New};

use sim_disk::{Disk, Fate, Fills};
use split_types::ReqId;
use std::alloc::{AllocError, Global};
use std::test::Fail;

/// Two blocks of bytes, which differ.
fn two_blocks(alloc: Global) -> Result<Vec<u8>, AllocError>
    ensures { IfOk result (λ v. vec_len v ≡ 8192) }
{
    let mut bytes = vec![in alloc; 7; 8192]?;
    bytes[4096] = 9;
    Ok(bytes)
}

/// The first block in flight is lost, and the second one is written.
fn two_fates(alloc: Global) -> Result<Vec<Fate>, AllocError>
    ensures { IfOk result (λ v. v.items ≡ Old ∷ New ∷ []) }
{
    let mut fates = Vec::new(alloc);
    fates.push(Fate::Old)?;
    fates.push(Fate::New)?;
    Ok(fates)
}

#[test]
fn writes_and_crashes(rt: HostRuntime) -> Result<(), Fail> {
    let mut disk = Disk::new(rt.alloc(), 8)?;
    disk.fill(rt.alloc(), 5, 2, 65)?;
    disk.room(1)?;
    disk.start(ReqId(3), 4, two_blocks(rt.alloc())?)?;
    let started = (disk.blocks(), disk.blocks_in_flight());
    let unwritten = (disk.read(4)[0], disk.read(5)[4095]);
    let after = disk.crash(rt.alloc(), two_fates(rt.alloc())?)?;
    let left = (after.blocks_in_flight(), after.read(4)[0]);
    let crashed = (after.read(5)[0], after.read(6)[0]);
    disk.finish(ReqId(3), true);
    let finished = (disk.read(4)[1], disk.read(5)[0]);
    assert_eq!(rt; (started, unwritten), ((8, 2), (0, 65)));
    assert_eq!(rt; (left, crashed, finished), ((0, 0), (9, 65), (7, 9)));
    Ok(())
}

#[test]
fn fills_blocks(rt: HostRuntime) -> Result<(), Fail> {
    let mut disk = Disk::new(rt.alloc(), 8)?;
    let mut fills = Fills::none();
    fills.push(65);
    fills.push(66);
    disk.start_filled(ReqId(3), 4, fills)?;
    let before = disk.fill_of(5);
    disk.finish(ReqId(3), true);
    let after = (disk.fill_of(4), disk.fill_of(5), disk.read(5)[4095]);
    assert_eq!(rt; (before, after), (Some(0), (Some(65), Some(66), 66)));
    Ok(())
}
