//! The words of a line.
ghost use Rattle.std.specs.Prelude.{◌≡◌, ◌<◌, ◌≤◌, ◌+◌, [], ◌∷◌, ◌++◌};
ghost use Rattle.line_printer.specs.Puts.{Puts};
ghost use Rattle.split_types.specs.EventText.{kind_word};
ghost use Rattle.split_types.specs.Lines.{numeral, signed_numeral, line, actor_word};

use crate::printer::Printer;
use itoa::Buffer;
use split_types::{Actor, ReqKind};

/// Prints a space and a word.
#[inline(always)]
pub fn put_word<P: Printer>(out: &mut P, word: &[u8])
    ensures { Puts P.due out.old out.new (32 ∷ word.now) }
{
    out.put(b" ");
    out.put(word);
}

/// The byte of a digit.
#[inline(always)]
fn digit(n: u64) -> u8
    requires { n < 10 }
    ensures { result ≡ 48 + n }
{
    b'0' + n as u8
}

/// Prints a number, with no space.
#[tactic(auto, using(split_types::proofs::Shared::numeral_digit, crate::proofs::Digits::two_digits))]
#[inline(always)]
pub fn put_digits<P: Printer>(out: &mut P, n: u64)
    ensures { Puts P.due out.old out.new (numeral n) }
{
    if n < 10 {
        out.put([digit(n)].as_slice());
    } else if n < 100 {
        out.put_pair(digit(n / 10), digit(n % 10));
    } else {
        put_many_digits(out, n);
    }
}

/// Prints a number, whatever its length, with no space.
#[tactic(auto, using(split_types::proofs::Shared::numeral_is_decimal))]
fn put_many_digits<P: Printer>(out: &mut P, n: u64)
    ensures { Puts P.due out.old out.new (numeral n) }
{
    let mut buffer = Buffer::new();
    out.put(buffer.format(n).as_bytes());
}

/// Prints a space and a number.
#[tactic(auto, using(split_types::proofs::Shared::numeral_digit))]
#[inline(always)]
pub fn put_number<P: Printer>(out: &mut P, n: u64)
    ensures { Puts P.due out.old out.new (32 ∷ numeral n) }
{
    if n < 10 {
        out.put_pair(b' ', digit(n));
    } else {
        put_long(out, n);
    }
}

/// Prints a space and a number of at least two digits.
#[tactic(auto, using(crate::proofs::Digits::two_digits, crate::proofs::Digits::three_digits, crate::proofs::Digits::four_digits, crate::proofs::Digits::five_digits))]
fn put_long<P: Printer>(out: &mut P, n: u64)
    requires { 10 ≤ n }
    ensures { Puts P.due out.old out.new (32 ∷ numeral n) }
{
    let last = digit(n % 10);
    if n < 100 {
        return out.put_triple(b' ', digit(n / 10), last);
    }
    let tens = digit(n / 10 % 10);
    if n < 1000 {
        out.put_pair(b' ', digit(n / 100));
        return out.put_pair(tens, last);
    }
    let hundreds = digit(n / 100 % 10);
    if n < 10_000 {
        out.put_triple(b' ', digit(n / 1000), hundreds);
        return out.put_pair(tens, last);
    }
    let thousands = digit(n / 1000 % 10);
    if n < 100_000 {
        out.put_triple(b' ', digit(n / 10_000), thousands);
        return out.put_triple(hundreds, tens, last);
    }
    out.put(b" ");
    put_many_digits(out, n);
}

/// Prints a space and a number, which has a sign where it is negative.
#[tactic(auto, using(split_types::proofs::Shared::signed_is_decimal))]
pub fn put_amount<P: Printer>(out: &mut P, n: i64)
    ensures { Puts P.due out.old out.new (32 ∷ signed_numeral n) }
{
    let mut buffer = Buffer::new();
    put_word(out, buffer.format(n).as_bytes());
}

/// Prints letters and a number, with nothing between them.
#[inline(always)]
pub fn put_lettered<P: Printer>(out: &mut P, letters: &[u8], n: u32)
    ensures { Puts P.due out.old out.new (letters.now ++ numeral n) }
{
    out.put(letters);
    put_digits(out, u64::from(n));
}

/// Prints a space and the word of an actor.
pub fn put_actor<P: Printer>(out: &mut P, actor: Actor)
    ensures { Puts P.due out.old out.new (32 ∷ actor_word actor) }
{
    match actor {
        Actor::Client(by) => put_lettered(out, b" c", by.0),
        Actor::Wb => out.put(b" wb"),
        Actor::Cm => out.put(b" cm"),
        Actor::Dq => out.put(b" dq"),
        Actor::Dn(place) => put_lettered(out, b" dn", place),
        Actor::Tk => out.put(b" tk"),
    }
}

/// The word of a kind of request.
pub fn kind_word(kind: ReqKind) -> &'static [u8]
    ensures { result.now ≡ kind_word kind }
{
    match kind {
        ReqKind::Read(_, _, _) => b"read",
        ReqKind::Pages(_, _) => b"pages",
        ReqKind::Log(_) => b"log",
        ReqKind::Commit(_) => b"commit",
        ReqKind::Home(_) => b"home",
        ReqKind::Clear(_) => b"clear",
    }
}

/// Ends a line.
#[inline(always)]
pub fn end_line<P: Printer>(out: &mut P)
    ensures { Puts P.due out.old out.new (10 ∷ []) }
{
    out.put(b"\n");
}

/// Prints a line of a word and a number.
pub fn put_number_line<P: Printer>(out: &mut P, word: &[u8], n: u64)
    ensures { Puts P.due out.old out.new (line (word.now ∷ numeral n ∷ [])) }
{
    out.put(word);
    put_number(out, n);
    end_line(out);
}
