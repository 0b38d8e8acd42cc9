//! Which blocks are taken, free or waiting, and how many free ones are promised.
ghost use Rattle.std.specs.Prelude.{◌≡◌, true, ◌+◌, ◌-◌, ◌*◌, ◌^◌, ◌<◌, ◌≤◌, ◌↔◌, length, map, slice_set, Some, IfOk, IsTrue};
ghost use Rattle.std.specs.Bool.{OnTrue, OnFalse};
ghost use Rattle.delayed_alloc.specs.Blocks.{Taken, Waiting, state_at, free_count, new_blocks, IsLeastRun, TakesRun, settled};
ghost use Rattle.delayed_alloc.specs.Settling.{SettlesRun, waits_at};
ghost use Rattle.delayed_alloc.specs.Held.{states_of};
ghost use Rattle.delayed_alloc.specs.Marks.{AreMarked, AllMarked, KeepsMarks};

use crate::block_set::{BlockSet, bits_from, lowest_bit};
use crate::txn_marks::TxnMarks;
use split_types::Txn;
use std::alloc::{AllocError, Global};
use std::marker::Model;

/// The first block that holds data.
const FIRST: u32 = 526;

/// The blocks of a disk: each is taken, free, or waits for a transaction; some free ones are promised.
/// Where a block waits, `txns` has its transaction, and `marks` that transaction's mark: a settling of one without
/// its mark passes no block.
#[derive(Debug, Drop)]
pub struct Alloc {
    free: BlockSet,
    waiting: BlockSet,
    txns: Vec<Txn>,
    marks: TxnMarks,
    unused: u32,
    reserved: u32,
    ghost marked: { AllMarked (states_of free.words.items waiting.words.items txns.items) marks.bits },
}

impl Model for Alloc {
    ghost use Rattle.delayed_alloc.specs.Blocks.{Blocks};

    ghost Value = { Blocks };

    ghost use Rattle.delayed_alloc.specs.Held.{states_of, AreHeld};

    ghost view = { λ a. record {
      states = states_of a.free.words.items a.waiting.words.items a.txns.items;
      reserved = a.reserved;
    } };

    ghost invariant = { λ a. AreHeld a.free.words.items a.waiting.words.items a.txns.items a.unused a.reserved };
}

impl Alloc {
    /// The blocks of a disk of which those up to the first `used` that hold data are taken, and the others
    /// free. It takes all memory that it needs.
    pub fn new(alloc: Global, device: u32, used: u32) -> Result<Alloc, AllocError>
        requires { 526 + used ≤ device }
        ensures { IfOk result (λ a. a ≡ new_blocks device (526 + used)) }
    {
        let mut free = BlockSet::new(alloc, device as usize)?;
        for block in FIRST + used..device {
            free.insert(block as usize);
        }
        Ok(Alloc {
            free,
            waiting: BlockSet::new(alloc, device as usize)?,
            txns: vec![in alloc; Txn(0); device as usize]?,
            marks: TxnMarks::new(),
            unused: device - FIRST - used,
            reserved: 0,
        })
    }

    /// Promises a free block; `false`, and nothing changes, exactly where all free blocks are promised.
    pub fn reserve(&mut self) -> bool
        ensures some { IsTrue result ↔ (self.old.reserved < free_count self.old) }
        ensures promised { OnTrue result (self.new ≡ record self.old { reserved = self.old.reserved + 1 }) }
        ensures none { OnFalse result (self.new ≡ self.old) }
    {
        if self.reserved == self.unused {
            return false;
        }
        self.reserved += 1;
        true
    }

    /// Takes a promise back.
    pub fn unreserve(&mut self)
        requires { 0 < self.old.reserved }
        ensures { self.new ≡ record self.old { reserved = self.old.reserved - 1 } }
    {
        self.reserved -= 1;
    }

    /// How many free blocks aren't promised.
    pub fn left(&self) -> u32
        ensures { result + self.now.reserved ≡ free_count self.now }
    {
        self.unused - self.reserved
    }

    /// The run that `take_run` would take: its first block, and its length.
    pub fn peek_run(&self, n: u32) -> (u32, u32)
        requires some { 1 ≤ n }
        requires promised { n ≤ self.now.reserved }
        ensures { IsLeastRun self.now n result.0 result.1 }
    {
        let first = self.free.first().unwrap();
        let m = self.free.run(first, n as usize);
        (first as u32, m as u32)
    }

    /// Takes the longest run of at most `n` free blocks that begins at the least free block, and as many
    /// promises: its first block, and its length.
    pub fn take_run(&mut self, n: u32) -> (u32, u32)
        requires some { 1 ≤ n }
        requires promised { n ≤ self.old.reserved }
        ensures run { IsLeastRun self.old n result.0 result.1 }
        ensures taken { TakesRun self.old self.new result.0 result.1 }
    {
        let (first, m) = self.peek_run(n);
        self.free.remove_run(first as usize, m as usize);
        self.unused -= m;
        self.reserved -= m;
        (first, m)
    }

    /// A taken block waits for a transaction to be committed.
    pub fn free_later(&mut self, block: u32, t: Txn)
        requires { state_at self.old block ≡ Some Taken }
        ensures { self.new ≡ record self.old { states = slice_set self.old.states block (Waiting t) } }
    {
        self.waiting.insert(block as usize);
        self.txns[block as usize] = t;
        self.marks.add(t);
    }

    /// The blocks that wait for a transaction are free.
    pub fn settle(&mut self, t: Txn)
        ensures { self.new ≡ record self.old { states = map (settled t) self.old.states } }
    {
        if !self.marks.has(t) {
            return;
        }
        let mut marks = TxnMarks::new();
        let mut from = 0;
        while let Some(at) = self.waiting.next_word(from) {
            self.settle_word(at, t, &mut marks);
            from = at + 1;
        }
        self.marks = marks;
    }

    /// Frees the blocks of one word that wait for a transaction, and marks those that the others wait for.
    fn settle_word(&mut self, at: usize, t: Txn, marks: &mut TxnMarks)
        requires { at < 2 ^ 32 }
        ensures settled { SettlesRun t self.old self.new (64 * at) (64 * at + 64) }
        ensures marked { AreMarked self.new.states marks.new.bits (64 * at) (64 * at + 64) }
        ensures kept { KeepsMarks marks.old.bits marks.new.bits }
    {
        let mut block = 64 * at;
        let mut rest = self.waiting.word(at);
        while rest != 0 {
            let zeros = lowest_bit(rest);
            self.settle_block(block + zeros, t, marks);
            block += zeros + 1;
            rest = bits_from(rest, zeros) / 2;
        }
    }

    /// Frees a block that waits if it waits for a transaction, and else marks the one that it waits for.
    fn settle_block(&mut self, block: usize, t: Txn, marks: &mut TxnMarks)
        requires { waits_at self.old block ≡ true }
        ensures settled { SettlesRun t self.old self.new block (block + 1) }
        ensures marked { AreMarked self.new.states marks.new.bits block (block + 1) }
        ensures kept { KeepsMarks marks.old.bits marks.new.bits }
    {
        let waits_for = self.txns[block];
        if waits_for.0 != t.0 {
            marks.add(waits_for);
            return;
        }
        self.waiting.remove(block);
        self.free.insert(block);
        self.unused += 1;
    }
}
