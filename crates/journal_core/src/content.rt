//! What the requests of the journal carry.
ghost use Rattle.std.specs.Prelude.{◌≡◌, ◌+◌, ◌-◌, ◌<◌, ◌≤◌, ◌++◌, length, [], slice_index_or, IfOk};
ghost use Rattle.std.specs.List.{flat_map};
ghost use Rattle.split_types.specs.DiskLayout.{descriptor_block, commit_block, zero_block, IsDescriptor, IsCommit};
ghost use Rattle.journal_core.specs.Journaled.{image_at};

use crate::images::BLOCK;
use fs_layout::{Desc, write_commit, write_desc};
use split_types::{List, Txn};
use std::alloc::{AllocError, Global};

/// The descriptor of a transaction, with room for the images of its buffers.
fn descriptor(alloc: Global, t: Txn, logged: &[u32]) -> Result<Vec<u8>, AllocError>
    requires { IsDescriptor t.0 logged.now }
    ensures { IfOk result (λ bytes. bytes.items ≡ descriptor_block t.0 logged.now) }
{
    let homes = List::from_vec(Vec::from_slice(alloc, logged)?);
    let mut bytes = vec![in alloc; 0; BLOCK]?;
    write_desc(&Desc { t, homes }, &mut bytes);
    bytes.reserve(BLOCK * logged.len())?;
    Ok(bytes)
}

/// The log of a transaction: its descriptor, and the images of its buffers.
pub(crate) fn log(
    alloc: Global,
    t: Txn,
    logged: &[u32],
    images: &[[u8; BLOCK]],
) -> Result<Vec<u8>, AllocError>
    requires value { IsDescriptor t.0 logged.now }
    requires images { length images.now ≡ 261 }
    ensures { IfOk result (λ bytes. bytes.items
        ≡ descriptor_block t.0 logged.now ++ flat_map (image_at images.now) logged.now) }
{
    let mut bytes = descriptor(alloc, t, logged)?;
    for block in logged {
        bytes.extend_from_slice(&images[*block as usize - 1])?;
    }
    Ok(bytes)
}

/// The commit block of a transaction.
pub(crate) fn commit(alloc: Global, t: Txn) -> Result<Vec<u8>, AllocError>
    requires { IsCommit t.0 }
    ensures { IfOk result (λ bytes. bytes.items ≡ commit_block t.0) }
{
    let mut bytes = vec![in alloc; 0; BLOCK]?;
    write_commit(t, &mut bytes);
    Ok(bytes)
}

/// A block of zeros.
#[tactic(auto, unfolding(split_types::specs::DiskLayout::zero_block, split_types::specs::DiskLayout::zeros))]
pub(crate) fn cleared(alloc: Global) -> Result<Vec<u8>, AllocError>
    ensures { IfOk result (λ bytes. bytes.items ≡ zero_block) }
{
    vec![in alloc; 0; BLOCK]
}
