//! The calls of an open file.
ghost use Rattle.std.specs.Prelude.{None, Option};
ghost use Rattle.ts_disk.specs.FileCalls.{FileState, Measures, ReadsFile, WritesFile, SyncsFile};

use std::fs::{File, OpenFile};
use std::io;
use std::os::unix::fs::FileExt;

/// The calls of an open file that a disk makes.
pub trait FileCalls {
    /// The known state of the file. A file of the operating system has none.
    ghost known: { Self → Option FileState };

    /// Returns the number of bytes.
    fn len(&mut self) -> io::Result<u64>
        ensures measures { Measures (known self.old) result (known self.new) };

    /// Fills `into` with the bytes from place `at` on. If it fails, `into` may hold any bytes.
    fn read(&mut self, at: u64, into: &mut [u8]) -> io::Result<()>
        ensures reads { ReadsFile (known self.old) at result into.new (known self.new) };

    /// Writes bytes at place `at`, over existing bytes and past the end.
    fn write(&mut self, at: u64, piece: &[u8]) -> io::Result<()>
        ensures writes { WritesFile (known self.old) at piece.now result (known self.new) };

    /// Writes all bytes through to the disk.
    fn sync(&mut self) -> io::Result<()>
        ensures syncs { SyncsFile (known self.old) result (known self.new) };
}

impl FileCalls for File {
    ghost known = { λ _. None };

    fn len(&mut self) -> io::Result<u64> {
        Ok(self.metadata()?.len())
    }

    fn read(&mut self, at: u64, into: &mut [u8]) -> io::Result<()> {
        self.read_exact_at(into, at)
    }

    fn write(&mut self, at: u64, piece: &[u8]) -> io::Result<()> {
        self.write_all_at(piece, at)
    }

    fn sync(&mut self) -> io::Result<()> {
        self.sync_data()
    }
}
