//! Runs of bytes, and the places of blocks.
ghost use Rattle.std.specs.Prelude.{◌≡◌, ℕ, ◌+◌, ◌*◌, ◌^◌, ◌<◌, ◌≤◌, if◌then◌else◌, true, length, map, vec_len, slice_set};
ghost use Rattle.slab.specs.Slab.{get, slab_len};
ghost use Rattle.sim_disk.specs.Runs.{bytes_in, uses_in, content, is_in, Fits, AreKept};

use slab::Slab;
use std::alloc::AllocError;

/// Where a block's bytes stand.
#[derive(Clone, Copy)]
pub(crate) enum Place {
    /// In the shared block that has this byte at each place.
    Filled(u8),
    /// In this run, behind `at` other blocks.
    Within { at: u32, run: usize },
}

/// Bytes that came together, and how many blocks of the disk stand in them.
#[derive(Drop)]
pub(crate) struct Run {
    pub(crate) bytes: Vec<u8>,
    pub(crate) uses: u64,
}

impl Clone for Run {
    ghost is_clone = { λ run copy. (copy.bytes.items ≡ run.bytes.items) × (copy.uses ≡ run.uses) };

    fn clone(&self) -> Result<Run, AllocError> {
        Ok(Run {
            bytes: self.bytes.clone()?,
            uses: self.uses,
        })
    }
}

/// Counts one block more in the run of a place, where it is in one.
fn enter(runs: &mut Slab<Run>, p: Place)
    requires within { Fits runs.old p }
    requires few { (k : ℕ) → uses_in (get runs.old k) < 2 ^ 32 }
    ensures uses { (k : ℕ) → uses_in (get runs.new k) ≡ uses_in (get runs.old k) + (if is_in k p then 1 else 0) }
    ensures bytes { (k : ℕ) → bytes_in (get runs.new k) ≡ bytes_in (get runs.old k) }
    ensures len { slab_len runs.new ≡ slab_len runs.old }
    ensures capacity { runs.new.capacity ≡ runs.old.capacity }
{
    if let Place::Within { run, .. } = p {
        runs[run].uses += 1;
    }
}

/// Counts one block fewer in the run of a place, where it is in one. The run leaves with its last block.
fn leave(runs: &mut Slab<Run>, p: Place)
    requires { (k : ℕ) → is_in k p ≡ true → 0 < uses_in (get runs.old k) }
    ensures uses { (k : ℕ) → uses_in (get runs.new k) + (if is_in k p then 1 else 0) ≡ uses_in (get runs.old k) }
    ensures bytes { (k : ℕ) → 0 < uses_in (get runs.new k) → bytes_in (get runs.new k) ≡ bytes_in (get runs.old k) }
    ensures len { slab_len runs.new ≤ slab_len runs.old }
    ensures capacity { runs.new.capacity ≡ runs.old.capacity }
{
    if let Place::Within { run, .. } = p {
        if runs[run].uses > 1 {
            runs[run].uses -= 1;
        } else {
            runs.remove(run);
        }
    }
}

/// Lets a block stand in another place.
pub(crate) fn settle(places: &mut Vec<Place>, runs: &mut Slab<Run>, b: usize, p: Place)
    requires kept { AreKept places.old.items runs.old }
    requires block { b < vec_len places.old }
    requires within { Fits runs.old p }
    ensures kept { AreKept places.new.items runs.new }
    ensures blocks { map (content runs.new) places.new.items ≡
        slice_set (map (content runs.old) places.old.items) b (content runs.old p) }
    ensures run { (k : ℕ) → is_in k p ≡ true → bytes_in (get runs.new k) ≡ bytes_in (get runs.old k) }
    ensures places { places.new.items ≡ slice_set places.old.items b p }
    ensures len { slab_len runs.new ≤ slab_len runs.old }
    ensures capacity { runs.new.capacity ≡ runs.old.capacity }
{
    let old = places[b];
    places[b] = p;
    enter(runs, p);
    leave(runs, old);
}
