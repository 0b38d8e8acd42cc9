//! The lines of processes, accounts and clients, which are numbered from 1.
ghost use Rattle.std.specs.Prelude.{[], ◌∷◌, ◌++◌, ◌+◌, codes};
ghost use Rattle.std.specs.List.{enumerate_from};
ghost use Rattle.line_printer.specs.Puts.{Puts};
ghost use Rattle.split_types.specs.Lines.{signed_numeral, fields, line, lines_of};
ghost use Rattle.split_types.specs.ReportText.{billed_words, account_words, account_lines, made_words};

use line_printer::{Printer, end_line, put_amount, put_digits, put_number, put_word};
use split_types::{AccountFact, Sched};

/// Prints what is billed to a process.
fn put_billed_line<P: Printer>(out: &mut P, number: u64, billed: u64)
    ensures { Puts P.due out.old out.new (line (billed_words (number, billed))) }
{
    out.put(b"proc");
    put_number(out, number);
    put_word(out, b"billed");
    put_number(out, billed);
    end_line(out);
}

/// Prints what is billed to each process.
pub(crate) fn put_billed<P: Printer>(out: &mut P, billed: &[u64])
    ensures { Puts P.due out.old out.new (lines_of billed_words (enumerate_from 1 billed.now)) }
{
    for i in 0..billed.len() {
        put_billed_line(out, i as u64 + 1, billed[i]);
    }
}

/// Prints a space, a name, a space and an amount.
fn put_named<P: Printer>(out: &mut P, name: &[u8], amount: i64)
    ensures { Puts P.due out.old out.new (fields (name.now ∷ signed_numeral amount ∷ [])) }
{
    put_word(out, name);
    put_amount(out, amount);
}

/// Prints what an account was granted and what is billed to it.
fn put_moved<P: Printer>(out: &mut P, account: &AccountFact)
    ensures { Puts P.due out.old out.new (fields (
        codes "granted" ∷ signed_numeral account.now.granted ∷ codes "billed" ∷ signed_numeral account.now.billed ∷ [])) }
{
    put_named(out, b"granted", account.granted);
    put_named(out, b"billed", account.billed);
}

/// Prints what is pending in an account, and its balance.
fn put_standing<P: Printer>(out: &mut P, account: &AccountFact)
    ensures { Puts P.due out.old out.new (fields (
        codes "pending" ∷ signed_numeral account.now.pending ∷ codes "balance" ∷ signed_numeral account.now.balance ∷
        [])) }
{
    put_named(out, b"pending", account.pending);
    put_named(out, b"balance", account.balance);
}

/// Prints the line of an account.
fn put_account<P: Printer>(out: &mut P, number: u64, account: AccountFact)
    ensures { Puts P.due out.old out.new (line (account_words (number, account))) }
{
    out.put(b"account");
    put_number(out, number);
    put_moved(out, &account);
    put_standing(out, &account);
    end_line(out);
}

/// Prints the lines of all accounts.
fn put_accounts<P: Printer>(out: &mut P, accounts: &[AccountFact])
    ensures { Puts P.due out.old out.new (lines_of account_words (enumerate_from 1 accounts.now)) }
{
    for i in 0..accounts.len() {
        put_account(out, i as u64 + 1, accounts[i]);
    }
}

/// Prints the lines of all accounts, under the scheduler `token` alone.
pub(crate) fn put_account_lines<P: Printer>(out: &mut P, sched: Sched, accounts: &[AccountFact])
    ensures { Puts P.due out.old out.new (account_lines sched accounts.now) }
{
    match sched {
        Sched::Token => put_accounts(out, accounts),
        Sched::Fifo | Sched::Afq | Sched::Deadline => {}
    }
}

/// Prints how many events a client made.
fn put_client<P: Printer>(out: &mut P, number: u64, made: u64)
    ensures { Puts P.due out.old out.new (line (made_words (number, made))) }
{
    out.put(b"made c");
    put_digits(out, number);
    put_number(out, made);
    end_line(out);
}

/// Prints how many events each client made.
pub(crate) fn put_clients<P: Printer>(out: &mut P, made: &[u64])
    ensures { Puts P.due out.old out.new (lines_of made_words (enumerate_from 1 made.now)) }
{
    for i in 0..made.len() {
        put_client(out, i as u64 + 1, made[i]);
    }
}
