//! A workload that is made from a number.
use outside::{StillSink, StillSource};
use split_top::{Status, plain};
use std::test::Fail;

/// How many bytes the workload that is made from 7 has.
const MADE: usize = 96_961;

#[test]
fn a_workload_is_made_and_nothing_is_read(rt: HostRuntime) -> Result<(), Fail> {
    let mut source = StillSource::new(b"text".to_vec(rt.alloc())?);
    let mut sink = StillSink::new(rt.alloc(), 262_144)?;
    assert_eq!(rt;
        plain(rt.alloc(), &["gen", "7"], &mut source, &mut sink),
        Status::Ok
    );
    assert_eq!(rt; source.rest(), b"text".as_slice());
    assert_eq!(rt; sink.held().len(), MADE);
    Ok(())
}
