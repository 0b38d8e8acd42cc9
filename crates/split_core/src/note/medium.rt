//! The disk, and the bytes of the writes that are queued.
ghost use Rattle.std.specs.Prelude.{◌≡◌, ◌+◌, ◌%◌, ◌/◌, ◌≤◌, ◌<◌, [], ◌∷◌, ◌++◌, length, All, List, None, IfOk, OnOk, true};
ghost use Rattle.std.specs.VecDeque.{deque_len, deque_capacity};
ghost use Rattle.split_types.specs.History.{◌▹◌};
ghost use Rattle.split_types.specs.Requests as requests;
ghost use Rattle.split_types.specs.Accepted.{IsAccepted};
ghost use Rattle.split_types.specs.Workloads as workloads;
ghost use Rattle.split_types.specs.declared.workload.Workload.{Workload};
ghost use Rattle.split_types.specs.declared.event.Event.{Event};
ghost use Rattle.split_core.specs.Asks.{asks};
ghost use Rattle.split_core.specs.Fits.{Fits};
ghost use Rattle.split_core.specs.Givens.{IsGiven};
ghost use Rattle.split_core.specs.Takings.{Brings};
ghost use Rattle.split_types.specs.DiskBytes.{layout_version, start_metadata};
ghost use Rattle.sim_disk.specs.Medium.{AreApart, write_of};
ghost use Rattle.sim_disk.specs.Sheet.{Overwrites};
ghost use Rattle.split_core.specs.Filing.{FilesAre};
ghost use Rattle.split_core.specs.Medium.{HasMetadata, IsStart, MediumStands, HasMediumRoom};

use crate::note::cargo::{Cargo, Load};
use crate::note::filing::first_block;
use crate::parts::Given;
use fs_layout::write_super;
use hook_events::History;
use sim_disk::Disk;
use small_fs::Fs;
use split_types::{Buf, Event, ReqId, ReqKind, Request, Slot, Workload};
use std::alloc::{AllocError, Global};
use std::collections::VecDeque;

/// The disk, with the writes in flight, and of each write that is queued the bytes that it carries.
#[derive(Drop)]
pub(crate) struct Medium {
    pub(crate) disk: Disk,
    pub(crate) carried: VecDeque<Cargo>,
}

/// Whether a request writes.
pub(crate) fn is_write(r: &Request) -> bool
    ensures { result ≡ requests.is_write r.now }
{
    !matches!(r.kind, ReqKind::Read(_, _, _))
}

/// The version of the disk's layout.
fn layout_version(w: &Workload) -> u32
    requires { IsAccepted w.now }
    ensures { result ≡ layout_version w.now }
{
    if w.version < 2 { 1 } else { 2 }
}

/// Writes a block of metadata: the superblock, or the image of a buffer.
fn put_metadata(w: &Workload, fs: &Fs, block: u32, out: &mut [u8])
    requires accepted { IsAccepted w.now }
    requires files { FilesAre w.now fs.now [] }
    requires block { block < 262 }
    requires long { length out.old ≡ 4096 }
    ensures { out.new ≡ start_metadata w.now block }
{
    match block {
        0 => write_super(layout_version(w), w.device, out),
        1 => fs.image(Buf::Bitmap, out),
        2..=5 => fs.image(Buf::Dir(block - 2), out),
        _ => fs.image(Buf::Inode(Slot(block - 6)), out),
    }
}

/// The bytes of a block of metadata.
fn metadata(alloc: Global, w: &Workload, fs: &Fs, block: u32) -> Result<Vec<u8>, AllocError>
    requires accepted { IsAccepted w.now }
    requires files { FilesAre w.now fs.now [] }
    requires block { block < 262 }
    ensures bytes { IfOk result (λ bytes. bytes.items ≡ start_metadata w.now block) }
    ensures long { IfOk result (λ bytes. length bytes.items ≡ 4096) }
{
    let mut bytes = vec![in alloc; 0u8; 4096]?;
    put_metadata(w, fs, block, &mut bytes);
    Ok(bytes)
}

/// Lets a block hold these bytes, while no write is in flight.
fn write_block(disk: &mut Disk, block: u32, bytes: Vec<u8>) -> Result<(), AllocError>
    requires long { length bytes.items ≡ 4096 }
    requires within { block < length disk.old.blocks }
    requires none { disk.old.writes ≡ [] }
    ensures writes { OnOk result (disk.new.writes ≡ []) }
    ensures blocks { OnOk result (Overwrites disk.old.blocks disk.new.blocks block 1 (λ i. bytes.items)) }
{
    disk.start(ReqId(0), block, bytes)?;
    disk.finish(ReqId(0), true);
    Ok(())
}

/// Writes the blocks of metadata that aren't zeros at the start: the superblock, the bitmap, the directory, and an
/// inode for each preset file.
fn write_metadata(alloc: Global, w: &Workload, fs: &Fs, disk: &mut Disk) -> Result<(), AllocError>
    requires accepted { IsAccepted w.now }
    requires files { FilesAre w.now fs.now [] }
    requires zeros { HasMetadata w.now disk.old 0 }
    ensures { OnOk result (HasMetadata w.now disk.new (workloads.first_block w.now)) }
{
    for block in 0..6 + w.files.len() as u32 {
        let bytes = metadata(alloc, w, fs, block)?;
        write_block(disk, block, bytes)?;
    }
    Ok(())
}

/// The pages of the preset files stand one after another from the first block of data on.
fn write_files(alloc: Global, w: &Workload, disk: &mut Disk) -> Result<(), AllocError>
    requires accepted { IsAccepted w.now }
    requires metadata { HasMetadata w.now disk.old (workloads.first_block w.now) }
    ensures { OnOk result (IsStart w.now disk.new) }
{
    let mut block = first_block(w);
    for file in w.files.as_slice() {
        disk.fill(alloc, block, file.pages, file.fill)?;
        block += file.pages;
    }
    Ok(())
}

/// The disk at the start.
fn disk_of(alloc: Global, w: &Workload, fs: &Fs) -> Result<Disk, AllocError>
    requires accepted { IsAccepted w.now }
    requires files { FilesAre w.now fs.now [] }
    ensures { IfOk result (IsStart w.now) }
{
    let mut disk = Disk::new(alloc, w.device)?;
    write_metadata(alloc, w, fs, &mut disk)?;
    write_files(alloc, w, &mut disk)?;
    Ok(disk)
}

/// Starts a write of what it carries.
fn start(disk: &mut Disk, id: ReqId, first: u32, cargo: Cargo)
    requires whole { length cargo % 4096 ≡ 0 }
    requires within { first + length cargo / 4096 ≤ length disk.old.blocks }
    requires apart { All (AreApart record { id = id; first = first; bytes = cargo }) disk.old.writes }
    requires other { write_of disk.old.writes id ≡ None }
    requires room { 0 < disk.old.spare }
    ensures writes { disk.new.writes ≡ disk.old.writes ++ record { id = id; first = first; bytes = cargo } ∷ [] }
    ensures blocks { disk.new.blocks ≡ disk.old.blocks }
{
    match cargo.into_load() {
        Load::Filled(fills) => disk.start_filled(id, first, fills).unwrap(),
        Load::Bytes(bytes) => disk.start(id, first, bytes).unwrap(),
    }
}

impl Medium {
    /// The disk before any event.
    pub(crate) fn new(alloc: Global, w: &Workload, fs: &Fs) -> Result<Medium, AllocError>
        requires accepted { IsAccepted w.now }
        requires files { FilesAre w.now fs.now [] }
        ensures { IfOk result (λ m. MediumStands w.now m []) }
    {
        let disk = disk_of(alloc, w, fs)?;
        Ok(Medium {
            disk,
            carried: VecDeque::new(alloc),
        })
    }

    /// Makes room for one more write.
    pub(crate) fn room(&mut self) -> Result<(), AllocError>
        ensures stands { (w : Workload) (h : List Event) → MediumStands w self.old h → MediumStands w self.new h }
        ensures ok { OnOk result (HasMediumRoom self.new) }
    {
        self.disk.room(1)?;
        self.carried.reserve(1)
    }

    /// Takes note of an event, with what an added request carries.
    pub(crate) fn note(&mut self, w: &Workload, h: &History, e: &Event, given: &Given, cargo: Cargo)
        requires accepted { IsAccepted w.now }
        requires stands { MediumStands w.now self.old h.now.events }
        requires fits { Fits w.now h.now.events e.now }
        requires given { IsGiven w.now h.now.events e.now given.now }
        requires cargo { Brings w.now h.now.events e.now cargo }
        requires room { asks e.now ≡ true → HasMediumRoom self.old }
        ensures { MediumStands w.now self.new (h.now.events ▹ e.now) }
    {
        match *e {
            Event::Add { req, .. } => if is_write(&req) {
                self.carried.push_back_reserved(cargo)
            },
            Event::Send { id, .. } => if let Some(request) = given.request
                && is_write(&request)
            {
                if let Some(cargo) = self.carried.pop_front() {
                    start(&mut self.disk, id, request.first, cargo)
                }
            },
            Event::Done { id, ok, .. } => if let Some(request) = given.request
                && is_write(&request)
            {
                self.disk.finish(id, ok)
            },
            _ => {}
        }
    }
}
