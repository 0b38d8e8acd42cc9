//! Streams that fail, words that ask for nothing, and an input that is too long.
use outside::{MemSink, MemSource, StillSink, StillSource};
use split_top::{Status, plain};
use std::alloc::Global;
use std::test::Fail;

/// A workload in which nobody calls.
const QUIET: &str = "splitload 1\ndevice 1024\ncache 2\ndepth 1\nsched fifo\nend\n";

/// That workload, seven bytes at a call, from a source that fails at these calls.
fn quiet(alloc: Global, fails: &[u32]) -> Result<MemSource, Fail> {
    let bytes = QUIET.as_bytes().to_vec(alloc)?;
    Ok(MemSource::new(bytes, 7, fails.to_vec(alloc)?))
}

#[test]
fn a_source_fails_at_each_of_its_first_calls(rt: HostRuntime) -> Result<(), Fail> {
    for call in 0u32..4 {
        let mut source = quiet(rt.alloc(), &[call])?;
        let mut sink = StillSink::new(rt.alloc(), 4096)?;
        assert_eq!(rt;
            plain(rt.alloc(), &["replay"], &mut source, &mut sink),
            Status::ReadFault
        );
        assert!(rt; sink.held().is_empty());
        assert_eq!(rt; source.rest().len(), QUIET.len() - 7 * call as usize);
    }
    Ok(())
}

#[test]
fn a_sink_fails_at_each_of_its_first_calls(rt: HostRuntime) -> Result<(), Fail> {
    for call in 0u32..4 {
        let mut source = quiet(rt.alloc(), &[])?;
        let mut sink = MemSink::new(rt.alloc(), 4096, 7, [call].to_vec(rt.alloc())?)?;
        assert_eq!(rt;
            plain(rt.alloc(), &["replay"], &mut source, &mut sink),
            Status::WriteFault
        );
        let due = &b"splittrace 1\nsplitload"[..7 * call as usize];
        assert_eq!(rt; sink.held(), due);
    }
    Ok(())
}

#[test]
fn a_full_sink_has_a_front_of_the_answer(rt: HostRuntime) -> Result<(), Fail> {
    let mut source = quiet(rt.alloc(), &[])?;
    let mut sink = StillSink::new(rt.alloc(), 10)?;
    assert_eq!(rt;
        plain(rt.alloc(), &["replay"], &mut source, &mut sink),
        Status::WriteFault
    );
    assert_eq!(rt; sink.held(), b"splittrace".as_slice());
    Ok(())
}

#[test]
fn other_words_touch_nothing(rt: HostRuntime) -> Result<(), Fail> {
    let mut source = StillSource::new(b"text".to_vec(rt.alloc())?);
    let mut sink = StillSink::new(rt.alloc(), 4096)?;
    let none: [&str; 0] = [];
    let lists: [&[&str]; 8] = [
        &none,
        &["replay", "x"],
        &["Replay"],
        &["gen"],
        &["gen", "01"],
        &["gen", "4294967296"],
        &["gen", "-1"],
        &["--help"],
    ];
    for words in lists {
        assert_eq!(rt;
            plain(rt.alloc(), words, &mut source, &mut sink),
            Status::BadWords
        );
    }
    assert_eq!(rt; source.rest(), b"text".as_slice());
    assert!(rt; sink.held().is_empty());
    Ok(())
}

#[test]
fn an_input_that_is_too_long_is_refused(rt: HostRuntime) -> Result<(), Fail> {
    let bytes = vec![in rt.alloc(); b'x'; 16_777_219]?;
    let mut source = StillSource::new(bytes);
    let mut sink = StillSink::new(rt.alloc(), 4096)?;
    assert_eq!(rt;
        plain(rt.alloc(), &["replay"], &mut source, &mut sink),
        Status::Refused
    );
    assert_eq!(rt; sink.held(), b"refused line 0: long\n".as_slice());
    assert_eq!(rt; source.rest().len(), 2);
    Ok(())
}
