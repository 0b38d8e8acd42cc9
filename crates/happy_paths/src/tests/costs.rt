use cost_model::{Recent, cost};
use std::test::Fail;

#[test]
fn estimates_of_puts(rt: HostRuntime) -> Result<(), Fail> {
    let mut recent = Recent::new(rt.alloc())?;
    assert_eq!(rt; recent.seen(0), 52);
    assert_eq!(rt; recent.seen(1), 2);
    assert_eq!(rt; recent.seen(5), 52);
    assert_eq!(rt; recent.seen(5), 52);
    assert_eq!(rt; recent.seen(5), 52);
    assert_eq!(rt; recent.seen(2), 2, "1 is the oldest of the last four");
    assert_eq!(rt; recent.seen(2), 52, "1 is forgotten");
    Ok(())
}

#[test]
fn costs_of_distances(rt: HostRuntime) {
    assert_eq!(rt; cost(0, 526, 1), 52);
    assert_eq!(rt; cost(527, 526, 1), 22);
    assert_eq!(rt; cost(700, 700, 8), 16);
    assert_eq!(rt; cost(0, 63, 0), 20);
    assert_eq!(rt; cost(0, 64, 0), 50);
    assert_eq!(rt; cost(1024, 1, 0), 50);
    assert_eq!(rt; cost(1024, 0, 0), 100);
    assert_eq!(rt; cost(32768, 0, 32768), 65636);
}
