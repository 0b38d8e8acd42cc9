use delayed_alloc::Alloc;
use split_types::Txn;
use std::test::Fail;

#[test]
fn a_run_is_taken_and_waits(rt: HostRuntime) -> Result<(), Fail> {
    let mut blocks = Alloc::new(rt.alloc(), 1024, 495)?;
    let at_first = blocks.left();
    assert!(rt; blocks.reserve() && blocks.reserve());
    let next = blocks.peek_run(1);
    let (first, m) = blocks.take_run(2);
    blocks.free_later(first, Txn(3));
    blocks.settle(Txn(2));
    let waiting = blocks.left();
    blocks.settle(Txn(3));
    let settled = blocks.left();
    assert!(rt; blocks.reserve() && blocks.reserve() && !blocks.reserve());
    blocks.unreserve();
    assert_eq!(rt; (next, (first, m)), ((1021, 1), (1021, 2)));
    assert_eq!(rt; [at_first, waiting, settled, blocks.left()], [3, 1, 2, 1]);
    Ok(())
}
