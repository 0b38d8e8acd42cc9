//! The line of an event: what it is, its actor, and its numbers.
ghost use Rattle.std.specs.Prelude.{◌≡◌, [], ◌∷◌, ◌++◌, IfOk, codes, if◌then◌else◌};
ghost use Rattle.line_printer.specs.Puts.{Puts};
ghost use Rattle.split_types.specs.Hooks.{maker};
ghost use Rattle.split_types.specs.Lines.{numeral, fields, line, actor_word};
ghost use Rattle.split_types.specs.EventText.{numerals, reply_words, kind_word, request_words, event_word, event_fields, event_words};

use line_printer::{Printer, Sheet, end_line, put_actor, put_lettered, put_number, put_word};
use split_types::{Event, Reply, ReqKind, Request};
use std::alloc::{AllocError, Global};

/// About how many bytes the line of an event has.
pub(crate) const LINE: usize = 24;

/// Prints numbers, each behind a space.
fn put_numbers<P: Printer>(out: &mut P, numbers: &[u64])
    ensures { Puts P.due out.old out.new (fields (numerals numbers.now)) }
{
    for n in numbers {
        put_number(out, *n);
    }
}

/// Prints one number behind a space.
#[tactic(auto, using(crate::proofs::Prints::one_field))]
#[inline(always)]
fn put_one<P: Printer>(out: &mut P, a: u64)
    ensures { Puts P.due out.old out.new (fields (numerals (a ∷ []))) }
{
    put_number(out, a);
}

/// Prints two numbers, each behind a space.
#[inline(always)]
fn put_two<P: Printer>(out: &mut P, a: u64, b: u64)
    ensures { Puts P.due out.old out.new (fields (numerals (a ∷ b ∷ []))) }
{
    put_number(out, a);
    put_one(out, b);
}

/// Prints three numbers, each behind a space.
#[inline(always)]
fn put_three<P: Printer>(out: &mut P, a: u64, b: u64, c: u64)
    ensures { Puts P.due out.old out.new (fields (numerals (a ∷ b ∷ c ∷ []))) }
{
    put_number(out, a);
    put_two(out, b, c);
}

/// Prints four numbers, each behind a space.
#[inline(always)]
fn put_four<P: Printer>(out: &mut P, a: u64, b: u64, c: u64, d: u64)
    ensures { Puts P.due out.old out.new (fields (numerals (a ∷ b ∷ c ∷ d ∷ []))) }
{
    put_number(out, a);
    put_three(out, b, c, d);
}

/// Prints the words of an answer.
fn put_reply<P: Printer>(out: &mut P, reply: Reply)
    ensures { Puts P.due out.old out.new (fields (reply_words reply)) }
{
    match reply {
        Reply::Done => put_word(out, b"done"),
        Reply::Count(n, sum) => {
            put_word(out, b"count");
            put_two(out, u64::from(n), sum);
        }
        Reply::NoFile => put_word(out, b"nofile"),
        Reply::Exists => put_word(out, b"exists"),
        Reply::NoSlot => put_word(out, b"noslot"),
        Reply::TooBig => put_word(out, b"toobig"),
        Reply::NoSpace(n) => {
            put_word(out, b"nospace");
            put_one(out, u64::from(n));
        }
        Reply::Stopped => put_word(out, b"stopped"),
        Reply::ReadFault => put_word(out, b"readfault"),
    }
}

/// Prints a space and the word of a kind of request.
#[inline(always)]
fn put_kind<P: Printer>(out: &mut P, kind: ReqKind)
    ensures { Puts P.due out.old out.new (32 ∷ kind_word kind) }
{
    match kind {
        ReqKind::Read(_, _, _) => out.put(b" read"),
        ReqKind::Pages(_, _) => out.put(b" pages"),
        ReqKind::Log(_) => out.put(b" log"),
        ReqKind::Commit(_) => out.put(b" commit"),
        ReqKind::Home(_) => out.put(b" home"),
        ReqKind::Clear(_) => out.put(b" clear"),
    }
}

/// Prints the words of a request: its kind, its blocks, and what it is for.
fn put_request<P: Printer>(out: &mut P, r: &Request)
    ensures { Puts P.due out.old out.new (fields (request_words r.now)) }
{
    let first = u64::from(r.first);
    let n = u64::from(r.n);
    put_kind(out, r.kind);
    match r.kind {
        ReqKind::Read(_, serial, page) | ReqKind::Pages(serial, page) => {
            put_four(out, first, n, u64::from(serial.0), u64::from(page))
        }
        ReqKind::Log(t) | ReqKind::Commit(t) | ReqKind::Home(t) | ReqKind::Clear(t) => {
            put_three(out, first, n, u64::from(t.0))
        }
    }
}

/// Prints the number of a request, and whether it was done well.
fn put_outcome<P: Printer>(out: &mut P, id: u32, ok: bool)
    ensures { Puts P.due out.old out.new (fields (numeral id ∷ (if ok then codes "ok" else codes "bad") ∷ [])) }
{
    put_number(out, u64::from(id));
    put_word(out, if ok { b"ok" } else { b"bad" })
}

/// Prints the first word of an event's line and its actor.
#[inline(always)]
fn put_head<P: Printer>(out: &mut P, e: &Event)
    ensures { Puts P.due out.old out.new (event_word e.now ++ 32 ∷ actor_word (maker e.now)) }
{
    match *e {
        Event::Enter { by, .. } => put_lettered(out, b"enter c", by.0),
        Event::Admit { by } => put_lettered(out, b"admit c", by.0),
        Event::Make { by, .. } => put_lettered(out, b"make c", by.0),
        Event::Put { by, .. } => put_lettered(out, b"put c", by.0),
        Event::Get { by, .. } => put_lettered(out, b"get c", by.0),
        Event::Drop { by, .. } => put_lettered(out, b"drop c", by.0),
        Event::Flushed { by } => put_lettered(out, b"flushed c", by.0),
        Event::Ret { by, .. } => put_lettered(out, b"ret c", by.0),
        Event::Serve { .. } => out.put(b"serve wb"),
        Event::Map { .. } => out.put(b"map wb"),
        Event::Skip => out.put(b"skip wb"),
        Event::Seal { .. } => out.put(b"seal cm"),
        Event::Add { by, .. } => {
            out.put(b"add");
            put_actor(out, by);
        }
        Event::Send { .. } => out.put(b"send dq"),
        Event::Done { k, .. } => put_lettered(out, b"done dn", k),
        Event::Evict { by, .. } => put_lettered(out, b"evict c", by.0),
        Event::Tick { .. } => out.put(b"tick tk"),
    }
}

/// Prints the words that follow an event's actor.
#[inline(always)]
fn put_fields<P: Printer>(out: &mut P, e: &Event)
    ensures { Puts P.due out.old out.new (fields (event_fields e.now)) }
{
    match *e {
        Event::Admit { .. } | Event::Flushed { .. } | Event::Skip => {}
        Event::Enter { k, .. } => put_one(out, u64::from(k)),
        Event::Make { slot, serial, .. } | Event::Drop { slot, serial, .. } => {
            put_two(out, u64::from(slot.0), u64::from(serial.0))
        }
        Event::Put {
            serial,
            page,
            from,
            to,
            fill,
            ..
        } => put_bytes(out, serial.0, page, from, to, u64::from(fill)),
        Event::Get {
            serial,
            page,
            from,
            to,
            sum,
            ..
        } => put_bytes(out, serial.0, page, from, to, sum),
        Event::Ret { reply, .. } => put_reply(out, reply),
        Event::Serve { serial, page, n } => put_three(
            out,
            u64::from(serial.0),
            u64::from(page),
            u64::from(n),
        ),
        Event::Map {
            slot,
            serial,
            page,
            n,
            block,
            new,
            size,
        } => put_numbers(
            out,
            [
                u64::from(slot.0),
                u64::from(serial.0),
                u64::from(page),
                u64::from(n),
                u64::from(block),
                if new { 1 } else { 0 },
                u64::from(size),
            ]
            .as_slice(),
        ),
        Event::Seal { t, k } => put_two(out, u64::from(t.0), u64::from(k)),
        Event::Add { req, .. } => put_request(out, &req),
        Event::Send { id, cost } => put_two(out, u64::from(id.0), cost),
        Event::Done { id, ok, .. } => put_outcome(out, id.0, ok),
        Event::Evict { serial, page, .. } => { put_two(out, u64::from(serial.0), u64::from(page)) }
        Event::Tick { d } => put_one(out, d),
    }
}

/// Prints the file, the page, the bytes `from` to `to - 1` of it, and one number more.
fn put_bytes<P: Printer>(out: &mut P, serial: u32, page: u32, from: u32, to: u32, last: u64)
    ensures { Puts P.due out.old out.new (fields (numerals (serial ∷ page ∷ from ∷ to ∷ last ∷ []))) }
{
    put_number(out, u64::from(serial));
    put_four(out, u64::from(page), u64::from(from), u64::from(to), last);
}

/// Prints the line of an event.
#[tactic(auto, using(crate::proofs::Prints::whole_event))]
pub fn put_event<P: Printer>(out: &mut P, e: &Event)
    ensures { Puts P.due out.old out.new (line (event_words e.now)) }
{
    put_head(out, e);
    put_fields(out, e);
    end_line(out);
}

/// The line of an event, with its newline.
#[tactic(auto, using(line_printer::proofs::Shared::on_sheet))]
pub fn print_event(alloc: Global, e: &Event) -> Result<Vec<u8>, AllocError>
    ensures { IfOk result (λ text. text.items ≡ line (event_words e.now)) }
{
    let mut sheet = Sheet::with_room(alloc, LINE)?;
    put_event(&mut sheet, e);
    sheet.finish()
}
