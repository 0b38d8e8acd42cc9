//! The line of an event at the front of a text.
ghost use Rattle.std.specs.Prelude.{◌≡◌, ◌≢◌, ⊤, ℕ, [], ◌∷◌, ◌++◌, List, MatchOption, codes};
ghost use Rattle.workload_reader.specs.Fields.{Keeps, IsWithin, Reads as ReadsFields};
ghost use Rattle.split_types.specs.EventText.{reply_words};
ghost use Rattle.trace_text.specs.EventLines.{Shown, IsReplyInRange};
ghost use Rattle.trace_text.specs.Rows.{Client, Thread, Asks, Returns, Reads, Completes};
ghost use Rattle.trace_text.specs.Tails.{Says, ReadsTail, ReadsLine, outcome_words};
ghost use Rattle.trace_text.specs.ReadsEvent.{ReadsEvent};

use crate::made::made_read;
use crate::numbers::last_numbers;
use crate::row::{
    ClientRow, RequestRow, ThreadRow, client_row, reply_row, request_row, thread_row,
};
use split_types::{Event, Pid, Reply, ReqId};
use workload_reader::{Cause, after, counted, has_newline, ranged};

/// A client's line, behind what it begins with; there are at most so many clients.
fn client(row: ClientRow, text: &[u8], most: u32) -> Option<(Option<Event>, &[u8])>
    ensures { (adds : ℕ) → ReadsTail most adds (Client row) text.now result }
{
    let (by, rest) = counted(text, 1, most)?;
    let (n, rest) = last_numbers(rest, row.count(), row.is_wide())?;
    Some((row.made(by, &n), rest))
}

/// A thread's line, behind what it begins with.
fn thread(row: ThreadRow, text: &[u8]) -> Option<(Option<Event>, &[u8])>
    ensures { (most adds : ℕ) → ReadsTail most adds (Thread row) text.now result }
{
    let (n, rest) = last_numbers(text, row.count(), row.is_wide())?;
    Some((row.made(&n), rest))
}

/// The line of a thread's request, behind what it begins with; so many requests stand before it.
fn asked(row: RequestRow, text: &[u8], adds: u32) -> Option<(Option<Event>, &[u8])>
    ensures { (most : ℕ) → ReadsTail most adds (Asks row) text.now result }
{
    let (n, rest) = last_numbers(text, row.count(), false)?;
    if !row.allows(n.small[1]) {
        return None;
    }
    Some((row.made(adds, &n), rest))
}

/// The answer that is all that is left of a line, and the lines that follow.
fn reply(text: &[u8]) -> Option<(Option<Reply>, &[u8])>
    ensures { ReadsFields (λ _. ⊤) reply_words (Keeps IsReplyInRange) text.now result }
{
    let (row, rest) = reply_row(text)?;
    let (n, rest) = last_numbers(rest, row.count(), row.is_wide())?;
    Some((row.made(&n), rest))
}

/// The return of a call, where its client and its answer are in their ranges.
fn return_of(by: Option<u32>, reply: Option<Reply>) -> Option<Event>
    ensures { (p most : ℕ) (r : Reply) → Keeps (IsWithin 1 most) p by → Keeps IsReplyInRange r reply
        → Says most (Shown (Event.Ret (record { 0 = p }) r)) result }
{
    let by = Pid(by?);
    let reply = reply?;
    Some(Event::Ret { by, reply })
}

/// The line of a call's return, behind what it begins with.
fn returned(text: &[u8], most: u32) -> Option<(Option<Event>, &[u8])>
    ensures { (adds : ℕ) → ReadsTail most adds Returns text.now result }
{
    let (by, rest) = counted(text, 1, most)?;
    let (reply, rest) = reply(rest)?;
    Some((return_of(by, reply), rest))
}

/// The line of a read's request, behind what it begins with; so many requests stand before it.
fn read(text: &[u8], most: u32, adds: u32) -> Option<(Option<Event>, &[u8])>
    ensures { ReadsTail most adds Reads text.now result }
{
    let (by, rest) = counted(text, 1, most)?;
    let (n, rest) = last_numbers(after(rest, b" read")?, 4, false)?;
    if n.small[1] != 1 {
        return None;
    }
    Some((made_read(by, adds, &n), rest))
}

/// Whether a request was done well, as the last word of a line says; and the lines that follow.
fn outcome(text: &[u8]) -> Option<(bool, &[u8])>
    ensures { ReadsFields (λ _. ⊤) outcome_words (λ ok r. r ≡ ok) text.now result }
{
    if let Some(rest) = after(text, b" ok\n") {
        Some((true, rest))
    } else {
        let rest = after(text, b" bad\n")?;
        Some((false, rest))
    }
}

/// The completion of a request, where the numbers are in their ranges.
fn done_of(k: Option<u32>, id: Option<u32>, ok: bool) -> Option<Event>
    ensures { (i j most : ℕ) → Keeps (IsWithin 0 4294967295) i k → Keeps (IsWithin 0 4294967295) j id
        → Says most (Shown (Event.Done i (record { 0 = j }) ok)) result }
{
    let k = k?;
    let id = ReqId(id?);
    Some(Event::Done { k, id, ok })
}

/// The line of a request's completion, behind what it begins with.
fn completed(text: &[u8]) -> Option<(Option<Event>, &[u8])>
    ensures { (most adds : ℕ) → ReadsTail most adds Completes text.now result }
{
    let (k, rest) = counted(text, 0, u32::MAX)?;
    let (id, rest) = ranged(rest, 0, u32::MAX)?;
    let (ok, rest) = outcome(rest)?;
    Some((done_of(k, id, ok), rest))
}

/// The event whose line is at the front of the text, where its numbers are in their ranges; and what follows it.
fn line_at(text: &[u8], most: u32, adds: u32) -> Option<(Option<Event>, &[u8])>
    ensures { ReadsLine most adds text.now result }
{
    if let Some((row, rest)) = client_row(text) {
        client(row, rest, most)
    } else if let Some(rest) = after(text, b"ret c") {
        returned(rest, most)
    } else if let Some((row, rest)) = thread_row(text) {
        thread(row, rest)
    } else if let Some((row, rest)) = request_row(text) {
        asked(row, rest, adds)
    } else if let Some(rest) = after(text, b"done dn") {
        completed(rest)
    } else {
        read(after(text, b"add c")?, most, adds)
    }
}

/// The event whose line is at the front of the text, behind so many requests and where there are at most so many
/// processes; and what follows it.
pub(crate) fn read_event(text: &[u8], most: u32, adds: u32) -> Result<(Event, &[u8]), Cause>
    ensures { ReadsEvent most adds text.now result }
{
    match line_at(text, most, adds) {
        None => Err(if has_newline(text) {
            Cause::Form
        } else {
            Cause::Cut
        }),
        Some((None, _)) => Err(Cause::Range),
        Some((Some(event), rest)) => Ok((event, rest)),
    }
}
