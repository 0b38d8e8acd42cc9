//! Texts that are read as traces, or refused: for each kind of line rows for each cause that it can have, and texts
//! that no friend would write.
use std::alloc::{AllocError, Global};
use std::test::Fail;
use trace_text::read_trace;
use workload_reader::{Cause, ReadWorkload};

/// The first lines of a trace, which are six.
const FRONT: &str = "splittrace 1\nsplitload 1\ndevice 1024\ncache 2\ndepth 1\nsched fifo\n";

/// The lines before the one event of a trace, which are eight.
const EVENT: &str =
    "splittrace 1\nsplitload 1\ndevice 1024\ncache 2\ndepth 1\nsched fifo\nend\nevents 1\n";

/// Lines of events, of each kind and each answer.
const EVENTS: &str = "enter c32 4294967295
admit c1
make c1 0 0
put c1 0 0 0 4096 66
get c1 0 0 0 4096 18446744073709551615
drop c1 0 0
flushed c1
ret c1 done
ret c1 count 4294967295 18446744073709551615
ret c1 nofile
ret c1 exists
ret c1 noslot
ret c1 toobig
ret c1 nospace 4294967295
ret c1 stopped
ret c1 readfault
serve wb 0 0 1
map wb 0 0 0 1 526 0 4096
map wb 0 0 0 1 526 1 4096
skip wb
seal cm 1 2
add c1 read 526 1 0 0
add wb pages 526 2 0 0
add cm log 262 4 1
add cm commit 525 1 1
add cm home 6 1 1
add cm clear 525 1 1
send dq 0 18446744073709551615
done dn16 0 ok
done dn4294967295 4294967295 bad
evict c1 0 0
tick tk 18446744073709551615";

/// Lines that are none of an event.
const FORMLESS: &str = "enter

enter c1
enter c1 0 0
enter c1  0
enter c1 0 
 enter c1 0
enter\tc1 0
Enter c1 0
enter wb 0
enter c 0
enter c01 0
enter c-1 0
enter c1 00
enter c1 +1
enter c1 -1
enter c1 x
enters c1 0
admit c1 0
admit
make c1 0
make c1 0 0 0
make wb 0 0
put c1 0 0 0 4096
put c1 0 0 0 4096 66 0
put dq 0 0 0 4096 66
get c1 0 0 0 4096
get c1 0 0 0 4096 0 0
drop c1 0
drop c1 0 0 0
flushed c1 0
flushed cm
ret c1
ret c1 ok
ret c1 Done
ret c1 done 0
ret c1 count
ret c1 count 1
ret c1 count 1 2 3
ret c1 nospace
ret c1 nospace 1 2
ret c1 readfault 0
ret wb done
serve wb 0 0
serve wb 0 0 1 1
serve c1 0 0 1
map wb 0 0 0 1 526 1
map wb 0 0 0 1 526 1 4096 0
map c1 0 0 0 1 526 1 4096
map wb 0 0 0 1 526 true 4096
skip
skip wb 0
skip cm
seal cm 1
seal cm 1 2 3
seal wb 1 2
add
add c1
add c1 read 526 1 0
add c1 read 526 1 0 0 0
add c1 read 526 2 0 0
add wb read 526 1 0 0
add c1 pages 526 1 0 0
add cm pages 526 1 0 0
add wb pages 526 1 0
add wb pages 526 1 0 0 0
add cm log 262 4
add wb log 262 4 1
add cm commit 525 2 1
add cm commit 525 1
add cm home 6 0 1
add cm home 6 1 1 1
add cm clear 525 4294967297 1
add c1 clear 525 1 1
add cm write 525 1 1
send dq 0
send dq 0 1 2
send wb 0 1
done dn0 0
done dn0 0 OK
done dn0 0 ok bad
done dn 0 ok
done dq 0 ok
done dn0 ok
evict c1 0
evict c1 0 0 0
evict wb 0 0
tick tk
tick tk 1 2
tick wb 1
report 1
events 1
end
\0
skip wb\0
skip wb\r
\0\0\0";

/// Lines of events with a number that is out of its range.
const OUT_OF_RANGE: &str = "enter c0 0
enter c33 0
enter c4294967297 0
enter c1 4294967296
admit c0
admit c33
make c33 0 0
make c1 4294967296 0
make c1 0 4294967296
put c1 4294967296 0 0 4096 66
put c1 0 4294967296 0 4096 66
put c1 0 0 4294967296 4096 66
put c1 0 0 0 4294967296 66
put c1 0 0 0 4096 4294967296
put c0 0 0 0 4096 66
get c1 4294967296 0 0 4096 0
get c1 0 4294967296 0 4096 0
get c1 0 0 4294967296 4096 0
get c1 0 0 0 4294967296 0
get c1 0 0 0 4096 18446744073709551616
get c33 0 0 0 4096 0
drop c33 0 0
drop c1 4294967296 0
drop c1 0 4294967296
flushed c0
ret c33 done
ret c0 count 1 2
ret c1 count 4294967296 0
ret c1 count 0 18446744073709551616
ret c1 nospace 4294967296
serve wb 4294967296 0 1
serve wb 0 4294967296 1
serve wb 0 0 4294967296
map wb 4294967296 0 0 1 526 1 4096
map wb 0 4294967296 0 1 526 1 4096
map wb 0 0 4294967296 1 526 1 4096
map wb 0 0 0 4294967296 526 1 4096
map wb 0 0 0 1 4294967296 1 4096
map wb 0 0 0 1 526 4294967296 4096
map wb 0 0 0 1 526 1 4294967296
map wb 0 0 0 1 526 2 4096
seal cm 4294967296 1
seal cm 1 4294967296
add c33 read 526 1 0 0
add c0 read 526 1 0 0
add c1 read 4294967296 1 0 0
add c1 read 526 1 4294967296 0
add c1 read 526 1 0 4294967296
add wb pages 4294967296 1 0 0
add wb pages 526 4294967296 0 0
add wb pages 526 1 4294967296 0
add wb pages 526 1 0 4294967296
add cm log 4294967296 4 1
add cm log 262 4294967296 1
add cm log 262 4 4294967296
add cm commit 4294967296 1 1
add cm commit 525 1 4294967296
add cm home 4294967296 1 1
add cm home 6 1 4294967296
add cm clear 4294967296 1 1
add cm clear 525 1 4294967296
send dq 4294967296 1
send dq 0 18446744073709551616
done dn4294967296 0 ok
done dn0 4294967296 bad
evict c33 0 0
evict c1 4294967296 0
evict c1 0 4294967296
tick tk 18446744073709551616";

/// Texts of which a line is refused: the line, the cause, and the texts, between which a bar stands.
const FRONTS: [(u32, Cause, &str); 11] = [
    (1, Cause::Cut, "|splittrace 1|\0"),
    (
        1,
        Cause::Form,
        "\n|splittrace\n|splittrace 0\n|splittrace 3\n|splittrace 01\n|splittrace 1 \n|splittrace  1\n|\
        Splittrace 1\n|splitload 1\n",
    ),
    (2, Cause::Cut, "splittrace 1\n|splittrace 1\nsplitload 1"),
    (
        2,
        Cause::Form,
        "splittrace 2\nsplitload 1\n|splittrace 2\nsplitload 2\n|splittrace 1\nsplitload 3\n|\
        splittrace 1\nsplitload 4\n|splittrace 1\nsplittrace 1\n",
    ),
    (
        3,
        Cause::Range,
        "splittrace 1\nsplitload 1\ndevice 1023\n|splittrace 1\nsplitload 2\ndevice 2047\n",
    ),
    (
        4,
        Cause::Form,
        "splittrace 1\nsplitload 1\ndevice 1024\ncache 2 \n",
    ),
    (2, Cause::NotBuilt, "splittrace 2\nsplitload 3\n"),
    (3, Cause::Cut, "splittrace 1\nsplitload 2\n"),
    (
        7,
        Cause::Space,
        "splittrace 1\nsplitload 2\ndevice 2048\ncache 2\ndepth 1\nsched fifo\nfile a 731 0\n",
    ),
    (
        8,
        Cause::Cut,
        "splittrace 1\nsplitload 2\ndevice 2048\ncache 2\ndepth 1\nsched fifo\nfile a 730 0\n",
    ),
    (
        5,
        Cause::Range,
        "splittrace 1\nsplitload 1\ndevice 1024\ncache 2\ndepth 17\n",
    ),
];

/// What may not stand behind the front of a workload.
const BEHIND: [(u32, Cause, &str); 16] = [
    (7, Cause::Ref, "proc 1 1 0\n|go c1 1\n"),
    (9, Cause::Limit, "account 1 0 0\nproc 1 1 0\nproc 1 1 0\n"),
    (8, Cause::Name, "file a 0 0\nfile a 0 0\n"),
    (7, Cause::Space, "file a 499 0\n"),
    (7, Cause::Range, "go dn16 1\n"),
    (7, Cause::Form, "events 0\n"),
    (7, Cause::Cut, "end"),
    (7, Cause::NotBuilt, "fail 0\n"),
    (
        10,
        Cause::Cut,
        "account 1 0 0\nproc 1 1 0\ncall 1 fsync a\n",
    ),
    (
        8,
        Cause::Cut,
        "end\n|end\nevents 0|end\nevents 4294967296|end\nnothing",
    ),
    (
        8,
        Cause::Form,
        "end\nevents\n|end\nevents 0 0\n|end\nevents -1\n|end\nevents 00\n|end\nevents 01\n|\
        end\nevent 1\n|end\nEvents 1\n|end\nevents  1\n|end\nevents 1 \n|end\n events 1\n|end\nend\n|\
        end\nskip wb\n|end\n\n",
    ),
    (
        8,
        Cause::Range,
        "end\nevents 4294967296\n|end\nevents 18446744073709551616\n",
    ),
    (
        9,
        Cause::Cut,
        "end\nevents 1\n|end\nevents 1\nskip wb|end\nevents 1\nnothing|end\nevents 1\nenter c0 0",
    ),
    (
        10,
        Cause::Cut,
        "end\nevents 4294967295\nskip wb\n|end\nevents 2\nskip wb\nenter c0 0",
    ),
    (
        10,
        Cause::Form,
        "end\nevents 2\nskip wb\nreport 1\n|end\nevents 3\nskip wb\nreport 1\nenter c0 0\n",
    ),
    (
        10,
        Cause::Range,
        "end\nevents 3\nskip wb\nenter c0 0\nreport 1\n",
    ),
];

/// What may stand behind it.
const WHOLE: &str = "end\nevents 0\n|\
    account 1 0 0\nproc 1 1 0\ncall 1 creat a\ncall 1 write a 4095 2 7\ncall 1 read a 0 9\n\
    call 1 fsync a\ncall 1 unlink a\nend\nevents 0\n|\
    end\nevents 0\n\0|\
    end\nevents 0\nevents 0\n|\
    end\nevents 1\nskip wb\nskip wb\n|\
    end\nevents 2\nadd wb pages 526 1 0 0\nadd cm log 262 4 1\nreport 1\n";

/// Which line of a text is refused, and why; none where it begins with a trace. The text comes in three parts.
fn fault(
    alloc: Global,
    front: &str,
    middle: &[u8],
    end: &str,
) -> Result<Option<(u32, Cause)>, AllocError> {
    let mut text = Vec::from_slice(alloc, front.as_bytes())?;
    text.extend_from_slice(middle)?;
    text.extend_from_slice(end.as_bytes())?;
    match read_trace(alloc, &text) {
        Ok(_) => Ok(None),
        Err(ReadWorkload::Line(fault)) => Ok(Some((fault.line, fault.cause))),
        Err(ReadWorkload::Memory) => Err(AllocError),
    }
}

/// The first of the texts between these marks of which, behind the front and before the end, something else is said.
fn odd_text<'a>(
    alloc: Global,
    front: &str,
    texts: &'a str,
    mark: char,
    end: &str,
    due: Option<(u32, Cause)>,
) -> Result<Option<&'a str>, AllocError> {
    for text in texts.split(mark) {
        if fault(alloc, front, text.as_bytes(), end)? != due {
            return Ok(Some(text));
        }
    }
    Ok(None)
}

/// The first of these lines, as that of a trace's one event, of which something else is said.
fn odd_line<'a>(
    alloc: Global,
    lines: &'a str,
    due: Option<(u32, Cause)>,
) -> Result<Option<&'a str>, AllocError> {
    odd_text(alloc, EVENT, lines, '\n', "\n", due)
}

/// The first of the texts of these rows that behind the front isn't refused as is due.
fn odd_row<'a>(
    alloc: Global,
    front: &str,
    rows: &[(u32, Cause, &'a str)],
) -> Result<Option<&'a str>, AllocError> {
    for row in rows {
        let odd = odd_text(alloc, front, row.2, '|', "", Some((row.0, row.1)))?;
        if odd.is_some() {
            return Ok(odd);
        }
    }
    Ok(None)
}

#[test]
fn each_kind_of_event_is_read(rt: HostRuntime) -> Result<(), Fail> {
    assert_eq!(rt; odd_line(rt.alloc(), EVENTS, None)?, None);
    Ok(())
}

#[test]
fn lines_of_no_event_are_refused(rt: HostRuntime) -> Result<(), Fail> {
    let odd = odd_line(rt.alloc(), FORMLESS, Some((9, Cause::Form)))?;
    assert_eq!(rt; odd, None);
    Ok(())
}

#[test]
fn numbers_out_of_range_are_refused(rt: HostRuntime) -> Result<(), Fail> {
    let odd = odd_line(rt.alloc(), OUT_OF_RANGE, Some((9, Cause::Range)))?;
    assert_eq!(rt; odd, None);
    Ok(())
}

#[test]
fn other_lines_are_refused(rt: HostRuntime) -> Result<(), Fail> {
    assert_eq!(rt; odd_row(rt.alloc(), "", &FRONTS)?, None);
    assert_eq!(rt; odd_row(rt.alloc(), FRONT, &BEHIND)?, None);
    Ok(())
}

#[test]
fn what_follows_a_trace_is_not_read(rt: HostRuntime) -> Result<(), Fail> {
    let odd = odd_text(rt.alloc(), FRONT, WHOLE, '|', "", None)?;
    assert_eq!(rt; odd, None);
    Ok(())
}

/// The first of these texts that isn't refused as is due before a hundred thousand digits and an end.
fn odd_number<'a>(
    alloc: Global,
    fronts: &[(u32, &'a str)],
    end: &str,
    cause: Cause,
) -> Result<Option<&'a str>, AllocError> {
    let digits = vec![in alloc; b'7'; 100_000]?;
    for row in fronts {
        let front = format!(in alloc; "{FRONT}{}", row.1)?;
        if fault(alloc, &front, &digits, end)? != Some((row.0, cause)) {
            return Ok(Some(row.1));
        }
    }
    Ok(None)
}

#[test]
fn a_hundred_thousand_digits_are_a_number(rt: HostRuntime) -> Result<(), Fail> {
    let fronts = [
        (8, "end\nevents "),
        (9, "end\nevents 1\nenter c1 "),
        (9, "end\nevents 1\nadmit c"),
        (9, "end\nevents 1\nret c1 count 0 "),
        (9, "end\nevents 1\nsend dq 0 "),
        (7, "go wb "),
    ];
    let odd = odd_number(rt.alloc(), &fronts, "\n", Cause::Range)?;
    assert_eq!(rt; odd, None);
    let odd = odd_number(rt.alloc(), &fronts, "", Cause::Cut)?;
    assert_eq!(rt; odd, None);
    Ok(())
}

#[test]
fn bytes_that_are_no_text_are_refused(rt: HostRuntime) -> Result<(), Fail> {
    let lines: [&[u8]; 4] = [
        b"skip wb\xff\n",
        b"\xffskip wb\n",
        b"enter c1 \xff\n",
        b"enter c\xff 0\n",
    ];
    for line in lines {
        assert_eq!(rt; fault(rt.alloc(), EVENT, line, "")?, Some((9, Cause::Form)));
    }
    assert_eq!(rt; fault(rt.alloc(), EVENT, b"skip wb\n\xff", "")?, None);
    Ok(())
}
