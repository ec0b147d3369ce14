//! A file in memory one of whose calls fails.
ghost use Rattle.std.specs.Prelude.{◌≡◌, Some};
ghost use Rattle.ts_schema.specs.Counts.{one_more};

use crate::disks::MOST_BYTES;
use crate::edits::write_with_gap;
use crate::file_calls::FileCalls;
use std::io::{self, ErrorKind};
use std::marker::Model;

/// A file in memory. One of its calls fails and changes nothing, and the next one succeeds, as on a system that
/// reports a lost write once. A call also fails if memory runs out or it extends beyond `MOST_BYTES`, and a
/// read if it extends past the end.
#[derive(Drop)]
pub struct FailFile {
    bytes: Vec<u8>,
    /// The number of the call that fails, counted from 1.
    fails_at: u64,
    made: u64,
    syncs: u64,
    failed: u64,
}

impl Model for FailFile {
    ghost use Rattle.ts_disk.specs.FileCalls.{FileState};

    ghost Value = { FileState };

    ghost view = { λ f. record { bytes = f.bytes.items; syncs = f.syncs; failed = f.failed } };
}

impl FailFile {
    /// A file with these bytes. Its call with the number `fails_at`, counted from 1, fails.
    pub fn new(bytes: Vec<u8>, fails_at: u64) -> FailFile
        ensures made { result ≡ record { bytes = bytes.items; syncs = 0; failed = 0 } }
    {
        FailFile {
            bytes,
            fails_at,
            made: 0,
            syncs: 0,
            failed: 0,
        }
    }

    /// Returns the bytes as reads return them.
    pub fn bytes(&self) -> &[u8]
        ensures { result.now ≡ self.now.bytes }
    {
        &self.bytes
    }

    /// Returns the number of syncs that succeeded.
    pub fn syncs(&self) -> u64
        ensures { result ≡ self.now.syncs }
    {
        self.syncs
    }

    /// Returns the number of calls that failed.
    pub fn failures(&self) -> u64
        ensures { result ≡ self.now.failed }
    {
        self.failed
    }

    /// Counts a call, and returns whether it is the one that fails.
    fn is_failing(&mut self) -> bool
        ensures kept { self.new ≡ self.old }
    {
        self.made = self.made.saturating_add(1);
        self.made == self.fails_at
    }

    /// Counts a call that failed.
    fn count_failed(&mut self) -> io::Error
        ensures counted { self.new ≡ record self.old { failed = one_more self.old.failed } }
    {
        self.failed = self.failed.saturating_add(1);
        io::Error::from(ErrorKind::Other)
    }
}

impl FileCalls for FailFile {
    ghost known = { λ f. Some f };

    fn len(&mut self) -> io::Result<u64> {
        if self.is_failing() {
            return Err(self.count_failed());
        }
        Ok(self.bytes.len() as u64)
    }

    fn read(&mut self, at: u64, into: &mut [u8]) -> io::Result<()> {
        let len = self.bytes.len() as u64;
        if self.is_failing() || at > len || into.len() as u64 > len - at {
            return Err(self.count_failed());
        }
        let from = at as usize;
        into.copy_from_slice(&self.bytes[from..from + into.len()]);
        Ok(())
    }

    fn write(&mut self, at: u64, piece: &[u8]) -> io::Result<()> {
        if self.is_failing()
            || at > MOST_BYTES
            || write_with_gap(&mut self.bytes, at as usize, piece).is_err()
        {
            return Err(self.count_failed());
        }
        Ok(())
    }

    fn sync(&mut self) -> io::Result<()> {
        if self.is_failing() {
            return Err(self.count_failed());
        }
        self.syncs = self.syncs.saturating_add(1);
        Ok(())
    }
}
