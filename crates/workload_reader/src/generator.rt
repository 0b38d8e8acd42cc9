//! The workload that is made from a number.
ghost use Rattle.std.specs.Prelude.{◌≡◌, ◌+◌, ◌*◌, ◌<◌, ◌≤◌, ℕ, [], ◌∷◌, ◌++◌, replicate, IfOk, IsTrue};
ghost use Rattle.split_types.specs.Names.{is_name};
ghost use Rattle.split_types.specs.IsWorkload.{IsWorkload};
ghost use Rattle.workload_reader.specs.Generated.{state, numbered, mail_call, log_call, log_file, process};
ghost use Rattle.workload_reader.specs.Generated.{large_account, small_account, call, calls, generated};
ghost use Rattle.workload_reader.specs.Making.{AreDrawn, HasMade};

use crate::draws::Draws;
use split_types::{Account, Call, List, Name, Pid, Preset, Process, Sched, Workload};
use std::alloc::{AllocError, Global};

/// How many calls are made.
const CALLS: u32 = 4096;

/// The process that writes the log.
const LOGGER: u32 = 8;

/// The name of bytes that are one.
fn name_of(bytes: &[u8]) -> Name
    requires { IsTrue (is_name bytes.now) }
    ensures { result ≡ bytes.now }
{
    match Name::new(bytes) {
        Some(name) => name,
        None => unreachable!(),
    }
}

/// The name of one of 32 files.
#[tactic(auto, using(crate::proofs::GeneratedLaws::numbered_names))]
fn numbered(number: u32) -> Name
    requires { number < 32 }
    ensures { result ≡ numbered number }
{
    let ones = b'0' + (number % 10) as u8;
    if number < 10 {
        name_of(&[b'm', ones])
    } else {
        name_of(&[b'm', b'0' + (number / 10) as u8, ones])
    }
}

/// What a process other than that of the log does.
fn mail_call(action: u32, number: u32, step: u32) -> Call
    requires numbered { number < 32 }
    requires few { step < 8 }
    ensures { result ≡ mail_call action number step }
{
    let name = numbered(number);
    match action {
        0 | 1 => Call::Creat { name },
        2..=4 => Call::Write {
            name,
            off: 1000 * step,
            len: 3000,
            fill: number as u8,
        },
        5 => Call::Read {
            name,
            off: 0,
            len: 8192,
        },
        6 => Call::Fsync { name },
        _ => Call::Unlink { name },
    }
}

/// The write of the log's next page after so many.
fn log_call(pages: u32) -> Call
    ensures { result ≡ log_call pages }
{
    Call::Write {
        name: name_of(b"log"),
        off: 4096 * (pages % 1000),
        len: 4096,
        fill: (pages % 256) as u8,
    }
}

/// What is drawn for a call.
#[derive(Clone, Copy, Debug)]
struct Drawn {
    by: u32,
    action: u32,
    number: u32,
    step: u32,
}

/// What calls are made from.
#[derive(Clone, Copy, Debug)]
struct Maker {
    draws: Draws,
    /// How many calls of the log's process were made.
    logged: u32,
}

impl Maker {
    /// Draws what the next call is made of.
    fn draw(&mut self) -> Drawn
        ensures drawn { (n i : ℕ) → self.old.draws.state ≡ state n (4 * i)
            → AreDrawn n i result.by result.action result.number result.step }
        ensures state { (n i : ℕ) → self.old.draws.state ≡ state n (4 * i)
            → self.new.draws.state ≡ state n (4 * (i + 1)) }
        ensures number { result.number < 32 }
        ensures step { result.step < 8 }
        ensures logged { self.new.logged ≡ self.old.logged }
    {
        Drawn {
            by: 1 + self.draws.below(8),
            action: self.draws.below(8),
            number: self.draws.below(32),
            step: self.draws.below(8),
        }
    }

    /// Makes the next call.
    fn next_call(&mut self) -> (Pid, Call)
        requires { self.old.logged < 4096 }
        ensures call { (n i : ℕ) → HasMade n i self.old.draws.state self.old.logged → result ≡ call n i }
        ensures made { (n i : ℕ) → HasMade n i self.old.draws.state self.old.logged
            → HasMade n (i + 1) self.new.draws.state self.new.logged }
        ensures few { self.new.logged ≤ self.old.logged + 1 }
    {
        let drawn = self.draw();
        let by = drawn.by;
        if by == LOGGER {
            let call = log_call(self.logged);
            self.logged += 1;
            (Pid(by), call)
        } else {
            (Pid(by), mail_call(drawn.action, drawn.number, drawn.step))
        }
    }
}

fn accounts(alloc: Global) -> Result<List<Account>, AllocError>
    ensures { IfOk result (λ l. l ≡ large_account ∷ small_account ∷ []) }
{
    let mut accounts = List::new(alloc);
    accounts.push(Account {
        rate: 100,
        cap: 10000,
        start: 10000,
    })?;
    accounts.push(Account {
        rate: 20,
        cap: 2000,
        start: 2000,
    })?;
    Ok(accounts)
}

/// A process of an account.
fn process(account: u32) -> Process
    ensures { result ≡ process account }
{
    Process {
        account,
        weight: 1,
        deadline: 1000,
    }
}

fn processes(alloc: Global) -> Result<List<Process>, AllocError>
    ensures { IfOk result (λ l. l ≡ replicate 7 (process 1) ++ process 2 ∷ []) }
{
    let mut processes = List::new(alloc);
    for _made in 1..LOGGER {
        processes.push(process(1))?;
    }
    processes.push(process(2))?;
    Ok(processes)
}

fn files(alloc: Global) -> Result<List<Preset>, AllocError>
    ensures { IfOk result (λ l. l ≡ log_file ∷ []) }
{
    let mut files = List::new(alloc);
    files.push(Preset {
        name: name_of(b"log"),
        pages: 0,
        fill: 0,
    })?;
    Ok(files)
}

fn calls(alloc: Global, n: u32) -> Result<List<(Pid, Call)>, AllocError>
    ensures { IfOk result (λ l. l ≡ calls n 4096) }
{
    let mut calls = List::new(alloc);
    let mut maker = Maker {
        draws: Draws { state: n },
        logged: 0,
    };
    for _made in 0..CALLS {
        calls.push(maker.next_call())?;
    }
    Ok(calls)
}

/// The workload that is made from a number: 4,096 calls of eight processes of two accounts. One process writes a
/// log; the others make, write, read, sync and remove 32 files, in an order that looks like chance.
///
/// It is a workload whatever the number is: all its numbers are in their ranges, and its lists within their limits.
pub fn generate(alloc: Global, n: u32) -> Result<Workload, AllocError>
    ensures made { IfOk result (λ w. w ≡ generated n) }
    ensures within { IfOk result (λ w. IsWorkload w) }
{
    Ok(Workload {
        version: 1,
        device: 32768,
        cache: 1024,
        depth: 4,
        sched: Sched::Token,
        accounts: accounts(alloc)?,
        procs: processes(alloc)?,
        files: files(alloc)?,
        calls: calls(alloc, n)?,
        fails: List::new(alloc),
        go: List::new(alloc),
    })
}
