use proxies::{Commit, Writeback};
use split_types::{Run, Serial, Txn};

#[test]
fn causes_are_there_until_idle(rt: HostRuntime) {
    let run = Run {
        serial: Serial(0),
        page: 1,
        n: 2,
    };
    let serving = Writeback::Serving { run, causes: 7u32 }.causes().copied();
    let mapped = Writeback::Mapped { run, causes: 8u32 }.causes().copied();
    let idle = Writeback::<u32>::Idle.causes().copied();
    assert_eq!(rt; [serving, mapped, idle], [Some(7), Some(8), None]);
    let t = Txn(1);
    let log = Commit::Log { t, causes: 1u32 }.causes().copied();
    let marking = Commit::Marking { t, causes: 2u32 }.causes().copied();
    let homes = Commit::Homes {
        t,
        causes: 3u32,
        added: 0,
    };
    let clear = Commit::Clear { t, causes: 4u32 }.causes().copied();
    let idle = Commit::<u32>::Idle.causes().copied();
    let causes = [log, marking, homes.causes().copied(), clear, idle];
    assert_eq!(rt; causes, [Some(1), Some(2), Some(3), Some(4), None]);
}
