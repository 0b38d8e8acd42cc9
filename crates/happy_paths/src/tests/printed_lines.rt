use line_printer::{
    Printer, Sheet, end_line, kind_word, put_actor, put_amount, put_digits, put_number,
    put_number_line, put_word,
};
use split_types::{Actor, Pid, ReqKind, Txn};

#[test]
fn prints_words(rt: HostRuntime) {
    let mut sheet = Sheet::new(rt.alloc());
    sheet.put(b"made");
    put_actor(&mut sheet, Actor::Client(Pid(12)));
    put_number(&mut sheet, 4096);
    put_amount(&mut sheet, -7);
    end_line(&mut sheet);
    let text = sheet.finish().expect(&rt, "memory");
    assert!(rt; text.as_slice() == b"made c12 4096 -7\n".as_slice());
}

#[test]
fn prints_letters_and_digits(rt: HostRuntime) {
    let mut sheet = Sheet::new(rt.alloc());
    sheet.put_pair(b'a', b'd');
    sheet.put_triple(b'd', b' ', b'c');
    put_digits(&mut sheet, 100);
    put_word(&mut sheet, kind_word(ReqKind::Clear(Txn(1))));
    let text = sheet.finish().expect(&rt, "memory");
    assert!(rt; text.as_slice() == b"add c100 clear".as_slice());
}

#[test]
fn prints_a_line(rt: HostRuntime) {
    let mut sheet = Sheet::with_room(rt.alloc(), 16).expect(&rt, "memory");
    put_number_line(&mut sheet, b"events", 0);
    let text = sheet.finish().expect(&rt, "memory");
    assert!(rt; text.as_slice() == b"events 0\n".as_slice());
}
