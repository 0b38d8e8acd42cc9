//! Words and numbers at the front of a text.
use std::test::Fail;
use workload_reader::{after, counted, has_newline, number_at, number_of, ranged};

#[test]
fn numbers_are_read(rt: HostRuntime) -> Result<(), Fail> {
    let rest = b" x".as_slice();
    assert_eq!(rt; after(b"tick x", b"tick"), Some(rest));
    assert_eq!(rt; number_at(b"12 x"), Some((Some(12), rest)));
    assert_eq!(rt; counted(b"12 x", 1, 9), Some((None, rest)));
    assert_eq!(rt; ranged(b" 5 x", 1, 9), Some((Some(5), rest)));
    assert_eq!(rt; number_of(b"4096"), Some(4096));
    assert!(rt; has_newline(b"x\n"));
    assert!(rt; !has_newline(rest));
    Ok(())
}
