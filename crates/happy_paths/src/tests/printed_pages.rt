use line_printer::Printer;
use outside::StillSink;
use sink_printer::{Page, SinkPrinter};

#[test]
fn prints_to_a_sink(rt: HostRuntime) {
    let mut sink = StillSink::new(rt.alloc(), 100).expect(&rt, "memory");
    let mut page = Page::new(rt.alloc()).expect(&rt, "memory");
    let mut out = SinkPrinter::new(&mut sink, &mut page);
    out.put(b"on");
    out.put_pair(b'e', b' ');
    out.put_triple(b't', b'w', b'o');
    assert!(rt; out.finish().is_ok());
    drop(out);
    assert!(rt; sink.held() == b"one two".as_slice());
}

#[test]
fn drops_what_a_full_sink_cannot_take(rt: HostRuntime) {
    let mut sink = StillSink::new(rt.alloc(), 5).expect(&rt, "memory");
    let mut page = Page::new(rt.alloc()).expect(&rt, "memory");
    let mut out = SinkPrinter::new(&mut sink, &mut page);
    out.put(b"one ");
    out.put(b"two");
    assert!(rt; out.finish().is_err());
    drop(out);
    assert!(rt; sink.held() == b"one t".as_slice());
}
