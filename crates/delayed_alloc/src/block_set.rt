//! Sets of blocks.
ghost use Rattle.std.specs.Prelude.{◌≡◌, ◌⊎◌, ℕ, ◌+◌, ◌*◌, ◌/◌, ◌<◌, ◌≤◌, ◌^◌, ◌==◌, Bool, true, false, if◌then◌else◌, length, replicate, vec_len, IfOk, IfNone, IfSome};
ghost use Rattle.std.specs.Int.{bit_at, trailing_zeros, w64};
ghost use Rattle.delayed_alloc.specs.Bits.{is_set, with_bit, without_bit, AreTops, IsFirstSet, IsNextSet, IsEmptySet};

use std::alloc::{AllocError, Global};

/// A set of blocks, as bits of words. The least block is found in a few steps: a bit on top says of each
/// word whether it has any.
#[derive(Debug, Drop)]
pub(crate) struct BlockSet {
    words: Vec<u64>,
    tops: Vec<u64>,
    ghost tops_are: { AreTops words.items tops.items },
    ghost enough: { vec_len words ≤ 64 * vec_len tops },
    ghost few: { vec_len words < 2 ^ 32 },
    ghost few_tops: { vec_len tops < 2 ^ 32 },
}

/// Adds a number to the set of these words.
#[tactic(auto, unfolding(crate::specs::Bits::with_bit))]
fn set_bit(words: &mut Vec<u64>, at: usize)
    requires { at < 64 * length words.old.items }
    ensures bits { words.new.items ≡ with_bit words.old.items at }
    ensures len { vec_len words.new ≡ vec_len words.old }
{
    words[at / 64] |= 1 << (at % 64);
}

/// Takes a number from the set of these words.
#[tactic(auto, unfolding(crate::specs::Bits::without_bit))]
fn clear_bit(words: &mut Vec<u64>, at: usize)
    requires { at < 64 * length words.old.items }
    ensures bits { words.new.items ≡ without_bit words.old.items at }
    ensures len { vec_len words.new ≡ vec_len words.old }
{
    words[at / 64] &= !(1 << (at % 64));
}

/// The place of the lowest bit of a word that isn't 0.
pub(crate) fn lowest_bit(word: u64) -> usize
    ensures place { result ≡ trailing_zeros w64 word }
    ensures within { result ≤ 64 }
    ensures fits { word < 2 ^ 64 }
{
    word.trailing_zeros() as usize
}

/// The bits of a word from a place on.
pub(crate) fn bits_from(word: u64, place: usize) -> u64
    requires { place < 64 }
    ensures value { result ≡ word / 2 ^ place }
    ensures fits { word < 2 ^ 64 }
{
    word >> place
}

/// The least number from one on in the set of these words, if it is in the same word.
fn next_in_word(words: &[u64], from: usize) -> Option<usize>
    requires { length words.now < 2 ^ 32 }
    ensures none { IfNone result ((k : ℕ) → from ≤ k → k < 64 * (from / 64) + 64 → is_set words.now k ≡ false) }
    ensures next { IfSome result (IsNextSet words.now from) }
{
    if from / 64 >= words.len() {
        return None;
    }
    let rest = bits_from(words[from / 64], from % 64);
    if rest == 0 {
        return None;
    }
    Some(from + lowest_bit(rest))
}

/// The least number from one on in the set of these words; `None` exactly where there is none.
fn next_bit(words: &[u64], from: usize) -> Option<usize>
    requires { length words.now < 2 ^ 32 }
    ensures none { IfNone result ((k : ℕ) → from ≤ k → is_set words.now k ≡ false) }
    ensures next { IfSome result (IsNextSet words.now from) }
{
    if let Some(bit) = next_in_word(words, from) {
        return Some(bit);
    }
    for at in from / 64 + 1..words.len() {
        let word = words[at];
        if word != 0 {
            return Some(64 * at + lowest_bit(word));
        }
    }
    None
}

impl BlockSet {
    /// The empty set, for blocks below a number.
    pub(crate) fn new(alloc: Global, blocks: usize) -> Result<BlockSet, AllocError>
        requires { blocks < 2 ^ 32 }
        ensures empty { IfOk result (λ set. IsEmptySet set.words.items) }
        ensures room { IfOk result (λ set. blocks ≤ 64 * vec_len set.words) }
    {
        let words = blocks / 64 + 1;
        Ok(BlockSet {
            words: vec![in alloc; 0; words]?,
            tops: vec![in alloc; 0; words / 64 + 1]?,
        })
    }

    /// Whether a block is in the set.
    pub(crate) fn contains(&self, block: usize) -> bool
        ensures { result ≡ is_set self.now.words.items block }
    {
        block / 64 < self.words.len() && (self.words[block / 64] >> (block % 64)) & 1 == 1
    }

    /// Adds a block.
    pub(crate) fn insert(&mut self, block: usize)
        requires { block < 64 * vec_len self.old.words }
        ensures set { (b : ℕ) → is_set self.new.words.items b
            ≡ (if b == block then true else is_set self.old.words.items b) }
        ensures len { vec_len self.new.words ≡ vec_len self.old.words }
    {
        set_bit(&mut self.words, block);
        set_bit(&mut self.tops, block / 64);
    }

    /// Takes a block out.
    pub(crate) fn remove(&mut self, block: usize)
        requires { block < 64 * vec_len self.old.words }
        ensures set { (b : ℕ) → is_set self.new.words.items b
            ≡ (if b == block then false else is_set self.old.words.items b) }
        ensures len { vec_len self.new.words ≡ vec_len self.old.words }
    {
        clear_bit(&mut self.words, block);
        if self.words[block / 64] == 0 {
            clear_bit(&mut self.tops, block / 64);
        }
    }

    /// A word of 64 blocks; 0 past the last.
    pub(crate) fn word(&self, at: usize) -> u64
        ensures bits { (k : ℕ) → k < 64 → is_set self.now.words.items (64 * at + k) ≡ (bit_at result k == 1) }
        ensures fits { result < 2 ^ 64 }
    {
        if at < self.words.len() {
            self.words[at]
        } else {
            0
        }
    }

    /// The first word from one on that has a block of the set; `None` exactly where there is none.
    pub(crate) fn next_word(&self, from: usize) -> Option<usize>
        ensures none { IfNone result ((b : ℕ) → 64 * from ≤ b → is_set self.now.words.items b ≡ false) }
        ensures from { IfSome result (λ at. from ≤ at) }
        ensures few { IfSome result (λ at. at < 2 ^ 32) }
        ensures passed { IfSome result (λ at. (b : ℕ) → 64 * from ≤ b → b < 64 * at
            → is_set self.now.words.items b ≡ false) }
    {
        next_bit(&self.tops, from)
    }

    /// Takes a run of blocks out.
    pub(crate) fn remove_run(&mut self, first: usize, len: usize)
        requires within { first + len ≤ 64 * vec_len self.old.words }
        requires fits { first + len < 2 ^ 64 }
        ensures run { (b : ℕ) → first ≤ b → b < first + len → is_set self.new.words.items b ≡ false }
        ensures others { (b : ℕ) → (b < first) ⊎ (first + len ≤ b)
            → is_set self.new.words.items b ≡ is_set self.old.words.items b }
        ensures len { vec_len self.new.words ≡ vec_len self.old.words }
    {
        for block in first..first + len {
            self.remove(block);
        }
    }

    /// The least block; `None` exactly where the set is empty.
    pub(crate) fn first(&self) -> Option<usize>
        ensures none { IfNone result (IsEmptySet self.now.words.items) }
        ensures first { IfSome result (IsFirstSet self.now.words.items) }
    {
        let at = next_bit(&self.tops, 0)?;
        Some(64 * at + lowest_bit(self.words[at]))
    }

    /// How many blocks from one on are in the set with no gap, up to a limit.
    pub(crate) fn run(&self, first: usize, most: usize) -> usize
        requires first { first < 2 ^ 32 }
        requires most { most < 2 ^ 32 }
        ensures most { result ≤ most }
        ensures run { (b : ℕ) → first ≤ b → b < first + result → is_set self.now.words.items b ≡ true }
        ensures ends { result < most → is_set self.now.words.items (first + result) ≡ false }
    {
        for len in 0..most {
            if !self.contains(first + len) {
                return len;
            }
        }
        most
    }
}
