//! The buffer that a walk looks for.
ghost use Rattle.std.specs.Prelude.{◌≡◌, Bool, ◌&&◌, ◌||◌};
ghost use Rattle.split_types.specs.Hooks.{same_buf, is_among, covers, is_dirtied, is_freed, is_out};
ghost use Rattle.provenance.specs.Targets.{buffer_of};
ghost use Rattle.split_types.specs.Parents.{buffer_at};

use split_types::{Buf, Event, ReqKind, Request, Serial, Slot, dirties};

/// A buffer, whose page may lie beyond those that a file can have.
#[derive(Clone, Copy)]
pub(crate) enum Target {
    Page(Serial, u64),
    Bitmap,
    Dir(u32),
    Inode(Slot),
}

/// The block of metadata of this number.
pub(crate) fn block_target(block: u32) -> Target
    ensures { buffer_of result ≡ buffer_at block }
{
    if block == 1 {
        Target::Bitmap
    } else if block < 6 {
        Target::Dir(block.saturating_sub(2))
    } else {
        Target::Inode(Slot(block - 6))
    }
}

/// Whether the target is this buffer.
fn same(target: &Target, b: &Buf) -> bool
    ensures { result ≡ same_buf (buffer_of target.now) b.now }
{
    match (*target, *b) {
        (Target::Page(s, g), Buf::Page(t, k)) => s.0 == t.0 && g == u64::from(k),
        (Target::Bitmap, Buf::Bitmap) => true,
        (Target::Dir(k), Buf::Dir(j)) => k == j,
        (Target::Inode(s), Buf::Inode(t)) => s.0 == t.0,
        _ => false,
    }
}

/// Whether the event dirties the target.
pub(crate) fn is_dirtied(e: &Event, target: &Target) -> bool
    ensures { result ≡ is_dirtied e.now (buffer_of target.now) }
{
    dirties(e).as_slice().iter().any(|b| same(target, b))
}

/// Whether the event drops the file of which the target is a page.
fn is_freed(e: &Event, target: &Target) -> bool
    ensures { result ≡ is_freed e.now (buffer_of target.now) }
{
    match (*e, *target) {
        (Event::Drop { serial, .. }, Target::Page(s, _)) => serial.0 == s.0,
        _ => false,
    }
}

/// Whether the request writes the target as a page of a file.
fn covers(r: &Request, target: &Target) -> bool
    ensures { result ≡ covers r.now (buffer_of target.now) }
{
    match (r.kind, *target) {
        (ReqKind::Pages(s, g), Target::Page(t, k)) => {
            s.0 == t.0 && u64::from(g) <= k && k - u64::from(g) < u64::from(r.n)
        }
        _ => false,
    }
}

/// Whether the event takes the target to be written out.
fn is_out(e: &Event, target: &Target) -> bool
    ensures { result ≡ is_out e.now (buffer_of target.now) }
{
    match *e {
        Event::Add { req, .. } => covers(&req, target),
        Event::Seal { .. } => !matches!(*target, Target::Page(_, _)),
        _ => false,
    }
}

/// Whether no earlier dirtying of the target is open after the event.
pub(crate) fn is_closed(e: &Event, target: &Target) -> bool
    ensures { result ≡ (is_freed e.now (buffer_of target.now) || is_out e.now (buffer_of target.now)) }
{
    is_freed(e, target) || is_out(e, target)
}
