//! A file as a disk.
ghost use Rattle.std.specs.Prelude.{◌≡◌, ℕ, ◌+◌, ◌-◌, ◌<◌, ◌≤◌, None, length, OnOk, OnErr, IfOk, IfSome, ⊤};
ghost use Rattle.ts_schema.specs.Counts.{one_more};
ghost use Rattle.ts_disk.specs.CrashImage.{Torn, Follows, LeavesNoMore, Only, Elapses};
ghost use Rattle.ts_disk.specs.Disk.{Counted, HasLength, HasRange, IsRange, Writes, Keeps};
ghost use Rattle.ts_disk.specs.FileCalls.{IsLengthOf, ReadsFile, WritesAhead, SyncsFile, Spares, after_zeros, untold, any_image, one_moment, any_past};
ghost use Rattle.ts_disk.specs.declared.disks.TheConstants.{MOST_BYTES};

use crate::disks::{Disk, Failed, MOST_BYTES};
use crate::file_calls::FileCalls;
use std::io;
use std::marker::Model;

/// The number of bytes by which the file grows at a time, so that few syncs must wait for new blocks.
const STEP: u64 = 1 << 18;

/// The zeros that one write adds as the file grows.
const ZEROS: [u8; 4096] = [0; 4096];

/// An open file as a disk, with a count of its errors. As a disk it states neither what a read returns nor what
/// a crash leaves. The clauses `file` say which calls of the file it makes, and how it handles their errors.
///
/// A write past the end that doesn't begin at place 0 may leave zeros after its bytes: the file grows ahead in
/// steps.
#[derive(Drop)]
pub struct FileDisk<F> {
    file: F,
    /// The file has at least this many bytes.
    room: u64,
    faults: u64,
}

impl<F> Model for FileDisk<F> {
    ghost use Rattle.ts_disk.specs.FileCalls.{OnFile};

    ghost Value = { OnFile F };

    ghost view = { λ s. record { file = s.file; faults = s.faults } };
}

impl<F: FileCalls> FileDisk<F> {
    /// The disk of this file, which must be open for reading and writing.
    pub fn new(file: F) -> FileDisk<F>
        ensures made { result ≡ record { file = file; faults = 0 } }
    {
        FileDisk {
            file,
            room: 0,
            faults: 0,
        }
    }

    /// Returns the file, for tests that check its calls.
    pub fn file(&self) -> &F
        ensures { result.now ≡ self.now.file }
    {
        &self.file
    }

    /// Counts one more fault.
    fn count_fault(&mut self) -> Failed
        ensures counted { self.new ≡ record self.old { faults = one_more self.old.faults } }
    {
        self.faults = self.faults.saturating_add(1);
        Failed
    }

    /// Writes a piece, and zeros after it if it goes past the end and doesn't begin at place 0. The first bytes
    /// of a file are written without zeros, since a crash may leave any length up to the new one.
    fn write_and_grow(&mut self, at: u64, piece: &[u8]) -> io::Result<()>
        requires within { at + length piece.now ≤ MOST_BYTES }
        ensures file { WritesAhead (F.known self.old.file) at piece.now result (F.known self.new.file) }
        ensures faults { self.new.faults ≡ self.old.faults }
    {
        let end = at + piece.len() as u64;
        self.file.write(at, piece)?;
        if at > 0 && end > self.room {
            let len = self.file.len()?;
            self.room = if end < len {
                len
            } else {
                grow(&mut self.file, end)?
            };
        }
        Ok(())
    }
}

/// Writes zeros from place `end` on, which is the end of the file, up to a whole number of steps. Returns the new
/// length.
fn grow<F: FileCalls>(file: &mut F, end: u64) -> io::Result<u64>
    requires within { end ≤ MOST_BYTES }
    requires at_end { IfSome (F.known file.old) (λ s. length s.bytes ≡ end) }
    ensures longer { IfOk result (λ n. end ≤ n) }
    ensures zeros { IfOk result (λ n. F.known file.new ≡ after_zeros (F.known file.old) (n - end)) }
    ensures spares { OnErr result (Spares (F.known file.old) end 0 (F.known file.new)) }
{
    let goal = (end / STEP + 1) * STEP;
    let mut at = end;
    while at < goal {
        let n = (goal - at).min(ZEROS.len() as u64);
        file.write(at, &ZEROS[..n as usize])?;
        at += n;
    }
    Ok(goal)
}

impl<F: FileCalls> Disk for FileDisk<F> {
    ghost bytes = { untold };

    ghost may_leave = { any_image };

    ghost moment = { one_moment };

    ghost left_since = { any_past };

    ghost faults = { λ s. s.faults };

    ghost counts_now = { λ _ _ _ _ _. tt };

    ghost only_now = { λ _ _ _. tt };

    ghost shows_an_image = { λ _. tt };

    fn faults(&self) -> u64 {
        self.faults
    }

    fn len(&mut self) -> Result<u64, Failed>
        ensures length { IfOk result (λ n. HasLength (untold self.old) n) }
        ensures most { IfOk result (λ n. n ≤ MOST_BYTES) }
        ensures kept { Keeps untold any_image one_moment any_past self.old self.new }
        ensures file_length { IfOk result (λ n. IsLengthOf (F.known self.old.file) n) }
        ensures file { OnOk result (F.known self.new.file ≡ F.known self.old.file) }
        ensures counted { Counted self.old.faults self.new.faults result }
    {
        match self.file.len() {
            Ok(n) if n <= MOST_BYTES => Ok(n),
            _ => Err(self.count_fault()),
        }
    }

    fn read_at(&mut self, at: u64, into: &mut [u8]) -> Result<(), Failed>
        requires most { at + length into.old ≤ MOST_BYTES }
        requires range { HasRange (untold self.old) (at + length into.old) }
        ensures bytes { OnOk result (IsRange (untold self.old) at into.new) }
        ensures kept { Keeps untold any_image one_moment any_past self.old self.new }
        ensures file { ReadsFile (F.known self.old.file) at result into.new (F.known self.new.file) }
        ensures counted { Counted self.old.faults self.new.faults result }
    {
        match self.file.read(at, into) {
            Ok(()) => Ok(()),
            Err(_) => Err(self.count_fault()),
        }
    }

    fn write_at(&mut self, at: u64, piece: &[u8]) -> Result<(), Failed>
        requires most { at ≤ MOST_BYTES }
        requires range { HasRange (untold self.old) at }
        ensures written { Writes (untold self.old) at piece.now result (untold self.new) }
        ensures most { OnOk result (at + length piece.now ≤ MOST_BYTES) }
        ensures crash { Follows (Torn at (length piece.now)) (any_image self.old) (any_image self.new) }
        ensures time { Elapses (one_moment self.old) (one_moment self.new) (any_past self.old) (any_past self.new)
            (any_image self.new) }
        ensures file { WritesAhead (F.known self.old.file) at piece.now result (F.known self.new.file) }
        ensures counted { Counted self.old.faults self.new.faults result }
    {
        if piece.len() as u64 > MOST_BYTES - at {
            return Err(self.count_fault());
        }
        match self.write_and_grow(at, piece) {
            Ok(()) => Ok(()),
            Err(_) => Err(self.count_fault()),
        }
    }

    fn sync(&mut self) -> Result<(), Failed>
        ensures same { untold self.new ≡ untold self.old }
        ensures durable { OnOk result (IfSome (untold self.old) (λ file. Only file (any_image self.new))) }
        ensures crash { LeavesNoMore (any_image self.old) (any_image self.new) }
        ensures time { Elapses (one_moment self.old) (one_moment self.new) (any_past self.old) (any_past self.new)
            (any_image self.new) }
        ensures file { SyncsFile (F.known self.old.file) result (F.known self.new.file) }
        ensures counted { Counted self.old.faults self.new.faults result }
    {
        match self.file.sync() {
            Ok(()) => Ok(()),
            Err(_) => Err(self.count_fault()),
        }
    }
}
