//! A disk in memory.
ghost use Rattle.std.specs.Prelude.{◌≡◌, ◌+◌, ◌<◌, ◌≤◌, true, if◌then◌else◌, [], ◌∷◌, ◌++◌, length, OnOk, OnErr, IfOk, IfSome, IsOk};
ghost use Rattle.ts_disk.specs.CrashImage.{file_after_write, Torn, Follows, LeavesNoMore, Only, Elapses, IsImage};
ghost use Rattle.ts_disk.specs.Disk.{Counted, HasLength, HasRange, IsRange, Writes, Keeps};
ghost use Rattle.ts_schema.specs.Counts.{one_more};
ghost use Rattle.ts_disk.specs.MemDisk.{state_of, content, known_bytes, leaves, moment, WasImage, PerformsAct, Asks, written_at};
ghost use Rattle.ts_disk.specs.PickedImages.{image_picked};
ghost use Rattle.ts_disk.specs.ImageLaws.{counts_now, only_now, shows_an_image};
ghost use Rattle.ts_disk.specs.declared.disk_acts.Act.TheVariants.{Write, Sync};

use crate::crash_images::pick_image;
use crate::disk_acts::{Act, Piece};
use crate::disks::{Disk, Failed, MOST_BYTES};
use crate::edits::write_over;
use std::alloc::Global;
use std::marker::Model;
use ts_schema::{NoMemory, Seq};

/// A disk in memory. Its bytes are known, and it records all its writes and syncs. So its crash images at each
/// moment are exactly those of the model of a disk. A call fails only if memory runs out or it extends beyond
/// `MOST_BYTES`.
#[derive(Drop)]
pub struct MemDisk {
    alloc: Global,
    /// The bytes at the start.
    first: Vec<u8>,
    /// The acts since then.
    acts: Vec<Act>,
    /// Whether the bytes are in `bytes`. Otherwise they are still those at the start.
    is_changed: bool,
    bytes: Vec<u8>,
    faults: u64,
}

impl Model for MemDisk {
    ghost use Rattle.std.specs.Prelude.{◌≡◌, if◌then◌else◌};
    ghost use Rattle.ts_disk.specs.MemDisk.{Recorded, state_after, all_within};
    ghost use Rattle.ts_disk.specs.CrashImage.{at_rest};

    ghost Value = { Recorded };

    ghost view = { λ d. record { first = d.first.items; acts = d.acts.items; faults = d.faults } };

    ghost invariant = { λ d.
        ((if d.is_changed then d.bytes.items else d.first.items)
        ≡ (state_after (at_rest d.first.items) d.acts.items).now)
        × all_within (at_rest d.first.items) d.acts.items };
}

impl MemDisk {
    /// A disk with these bytes, all of them on the disk. Takes no memory.
    pub fn new(alloc: Global, bytes: Vec<u8>) -> MemDisk
        ensures made { result ≡ record { first = bytes.items; acts = []; faults = 0 } }
    {
        MemDisk {
            alloc,
            first: bytes,
            acts: Vec::new(alloc),
            is_changed: false,
            bytes: Vec::new(alloc),
            faults: 0,
        }
    }

    /// Returns the bytes as reads return them.
    pub fn bytes(&self) -> &[u8]
        ensures { result.now ≡ content self.now }
    {
        if self.is_changed {
            &self.bytes
        } else {
            &self.first
        }
    }

    /// Appends to `out` one of the images that a crash at this moment may leave, for tests. Write number `i`
    /// since the last sync, from 0, is kept if bit `i mod 63` of `pick` is 1. Kept writes are applied in order to
    /// the bytes of that sync, and a gap is filled with zeros. If bit 63 is 1, only the first half, rounded up,
    /// of the last kept write is applied.
    pub fn crash(&self, pick: u64, out: &mut Vec<u8>) -> Result<(), NoMemory>
        ensures picked { OnOk result (out.new.items ≡ out.old.items ++ image_picked pick (state_of self.now)) }
        ensures image { IsImage (state_of self.now) (image_picked pick (state_of self.now)) }
        ensures kept { OnErr result (out.new.items ≡ out.old.items) }
    {
        let image = pick_image(self.alloc, &self.first, &self.acts, pick)?;
        out.extend_from_slice(&image)?;
        Ok(())
    }

    /// Writes bytes at a place and records the write. Changes nothing when out of memory.
    fn put(&mut self, at: u64, piece: &[u8]) -> Result<(), NoMemory>
        requires range { at ≤ length (content self.old) }
        ensures done { OnOk result (self.new ≡ written_at at piece.now self.old) }
        ensures kept { OnErr result (self.new ≡ self.old) }
    {
        make_changed(&self.first, &mut self.is_changed, &mut self.bytes)?;
        note_write(self.alloc, &mut self.bytes, &mut self.acts, at, piece)
    }

    /// Records a sync, or fails as out of memory.
    fn note_sync(&mut self) -> Result<(), NoMemory>
        ensures done { OnOk result (self.new ≡ record self.old { acts = self.old.acts ++ Sync ∷ [] }) }
        ensures kept { OnErr result (self.new ≡ self.old) }
    {
        self.acts.push(Act::Sync)?;
        Ok(())
    }

    /// Writes and records the write, or counts a fault.
    fn try_put(&mut self, at: u64, piece: &[u8]) -> Result<(), Failed>
        requires most { at ≤ MOST_BYTES }
        requires range { at ≤ length (content self.old) }
        ensures most { OnOk result (at + length piece.now ≤ MOST_BYTES) }
        ensures exact { PerformsAct (Write (record { at = at; bytes = piece.now })) self.old result self.new }
    {
        if piece.len() as u64 > MOST_BYTES - at || self.put(at, piece).is_err() {
            self.count_fault();
            return Err(Failed);
        }
        Ok(())
    }

    /// Records a sync, or counts a fault.
    fn try_sync(&mut self) -> Result<(), Failed>
        ensures exact { PerformsAct Sync self.old result self.new }
    {
        if self.note_sync().is_err() {
            self.count_fault();
            return Err(Failed);
        }
        Ok(())
    }

    /// Counts one more fault.
    fn count_fault(&mut self)
        ensures { self.new ≡ record self.old { faults = one_more self.old.faults } }
    {
        self.faults = self.faults.saturating_add(1);
    }
}

/// Copies the bytes at the start, if nothing has changed yet.
fn make_changed(first: &Vec<u8>, is_changed: &mut bool, bytes: &mut Vec<u8>) -> Result<(), NoMemory>
    ensures changed { OnOk result (is_changed.new ≡ true) }
    ensures bytes { OnOk result (bytes.new.items ≡ (if is_changed.old then bytes.old.items else first.now.items)) }
    ensures flag_kept { OnErr result (is_changed.new ≡ is_changed.old) }
    ensures bytes_kept { OnErr result (bytes.new.items ≡ bytes.old.items) }
{
    if !*is_changed {
        *bytes = first.clone()?;
        *is_changed = true;
    }
    Ok(())
}

/// Writes a piece into bytes and records the write. Changes neither when out of memory.
fn note_write(
    alloc: Global,
    bytes: &mut Vec<u8>,
    acts: &mut Vec<Act>,
    at: u64,
    piece: &[u8],
) -> Result<(), NoMemory>
    requires range { at ≤ length bytes.old.items }
    ensures bytes { OnOk result (bytes.new.items ≡ file_after_write bytes.old.items at piece.now) }
    ensures acts { OnOk result (acts.new.items ≡ acts.old.items ++ Write (record { at = at; bytes = piece.now }) ∷ []) }
    ensures bytes_kept { OnErr result (bytes.new.items ≡ bytes.old.items) }
    ensures acts_kept { OnErr result (acts.new.items ≡ acts.old.items) }
{
    let copy = Seq::of(Vec::from_slice(alloc, piece)?);
    bytes.reserve(piece.len())?;
    acts.push(Act::Write(Piece { at, bytes: copy }))?;
    write_over(bytes, at as usize, piece);
    Ok(())
}

impl Disk for MemDisk {
    ghost bytes = { known_bytes };

    ghost may_leave = { leaves };

    ghost moment = { moment };

    ghost left_since = { WasImage };

    ghost faults = { λ d. d.faults };

    ghost counts_now = { counts_now };

    ghost only_now = { only_now };

    ghost shows_an_image = { shows_an_image };

    fn faults(&self) -> u64 {
        self.faults
    }

    fn len(&mut self) -> Result<u64, Failed>
        ensures length { IfOk result (λ n. HasLength (known_bytes self.old) n) }
        ensures most { IfOk result (λ n. n ≤ MOST_BYTES) }
        ensures kept { Keeps known_bytes leaves moment WasImage self.old self.new }
        ensures counted { Counted self.old.faults self.new.faults result }
        ensures exact { Asks self.old result self.new }
        ensures long { OnErr result (MOST_BYTES < length (content self.old)) }
    {
        let n = self.bytes().len() as u64;
        if n > MOST_BYTES {
            self.count_fault();
            return Err(Failed);
        }
        Ok(n)
    }

    fn read_at(&mut self, at: u64, into: &mut [u8]) -> Result<(), Failed>
        requires most { at + length into.old ≤ MOST_BYTES }
        requires range { HasRange (known_bytes self.old) (at + length into.old) }
        ensures bytes { OnOk result (IsRange (known_bytes self.old) at into.new) }
        ensures kept { Keeps known_bytes leaves moment WasImage self.old self.new }
        ensures counted { Counted self.old.faults self.new.faults result }
        ensures exact { self.new ≡ self.old }
        ensures done { IsOk result }
    {
        let from = at as usize;
        into.copy_from_slice(&self.bytes()[from..from + into.len()]);
        Ok(())
    }

    fn write_at(&mut self, at: u64, piece: &[u8]) -> Result<(), Failed>
        requires most { at ≤ MOST_BYTES }
        requires range { HasRange (known_bytes self.old) at }
        ensures written { Writes (known_bytes self.old) at piece.now result (known_bytes self.new) }
        ensures most { OnOk result (at + length piece.now ≤ MOST_BYTES) }
        ensures crash { Follows (Torn at (length piece.now)) (leaves self.old) (leaves self.new) }
        ensures time { Elapses (moment self.old) (moment self.new) (WasImage self.old) (WasImage self.new)
            (leaves self.new) }
        ensures counted { Counted self.old.faults self.new.faults result }
        ensures exact { PerformsAct (Write (record { at = at; bytes = piece.now })) self.old result self.new }
    {
        self.try_put(at, piece)
    }

    fn sync(&mut self) -> Result<(), Failed>
        ensures same { known_bytes self.new ≡ known_bytes self.old }
        ensures durable { OnOk result (IfSome (known_bytes self.old) (λ file. Only file (leaves self.new))) }
        ensures crash { LeavesNoMore (leaves self.old) (leaves self.new) }
        ensures time { Elapses (moment self.old) (moment self.new) (WasImage self.old) (WasImage self.new)
            (leaves self.new) }
        ensures counted { Counted self.old.faults self.new.faults result }
        ensures exact { PerformsAct Sync self.old result self.new }
    {
        self.try_sync()
    }
}
