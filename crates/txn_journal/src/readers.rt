//! A journal that is read payload by payload.
ghost use Rattle.std.specs.Prelude.{◌≡◌, ◌≢◌, ℕ, ◌+◌, ◌≤◌, List, Some, true, false, length, slice_index, IfOk};
ghost use Rattle.ts_disk.specs.CrashImage.{Only};
ghost use Rattle.ts_disk.specs.Disk.{Counted, HasRange, Keeps};
ghost use Rattle.txn_journal.specs.Calls.{IsAtRest, IsTold};
ghost use Rattle.txn_journal.specs.Places.{IsReading};
ghost use Rattle.txn_journal.specs.Contents.{Content, version_of};
ghost use Rattle.txn_journal.specs.Reading.{CountsNext, CountsTaken, HasRead, IfTaken, Moves, Steps, Takes, at_gate, is_end};

use crate::heads::{Head, read_version, sight_head};
use crate::journals::{Journal, JournalState};
use crate::read_start::ReadStart;
use crate::versions::Version;
use std::alloc::Global;
use std::marker::Model;
use std::mem;
use ts_disk::{Disk, Failed, MOST_BYTES};
use ts_schema::Seq;

/// Reads the payloads of a journal in order, and holds one of them at a time. Writes nothing.
#[derive(Drop)]
pub struct Reader<D: Disk> {
    disk: D,
    /// The beginning of the file: bare or ready.
    standing: JournalState,
    version: Version,
    /// The number of bytes of the file when its length was last read.
    size: u64,
    /// The place of the next commit byte.
    at: u64,
    payload: Vec<u8>,
    is_done: bool,
}

impl<D: Disk> Model for Reader<D> {
    ghost use Rattle.txn_journal.specs.Reading.{Progress};

    ghost Value = { Progress D };

    ghost use Rattle.txn_journal.specs.Places.{IsReading};

    ghost view = { λ r. record {
      disk = r.disk;
      standing = r.standing;
      version = r.version;
      size = r.size;
      at = r.at;
      payload = r.payload.items;
      is_done = r.is_done;
    } };

    ghost invariant = { λ r. IsReading (D.bytes r.disk) r.standing r.size r.at };
}

/// The result of one step of reading.
#[derive(Clone, Copy, Debug, PartialEq, Eq)]
pub enum Next {
    /// A base, which `Reader::payload` returns, with the place of its commit byte. Payloads read before it no
    /// longer count.
    Base(u64),
    /// Another payload, which `Reader::payload` returns, with the place of its commit byte.
    Payload(u64),
    /// A commit byte that isn't 1 ends the journal, or the file has at most nine bytes and isn't a header.
    End,
    /// After the commit byte of 1 at this place the file is too short for a frame and the next commit byte.
    Damaged(u64),
    /// The disk failed. The next step tries again.
    DiskFault,
    /// It ran out of memory for the payload. The next step tries again.
    NoMemory,
}

impl<D: Disk> Reader<D> {
    /// A reader that has read no payload.
    pub(crate) fn start(
        alloc: Global,
        disk: D,
        standing: JournalState,
        version: Version,
        beginning: ReadStart,
    ) -> Reader<D>
        requires reading { IsReading (D.bytes disk) standing beginning.size beginning.at }
        ensures made { result ≡ at_gate disk standing version beginning.size beginning.at }
    {
        Reader {
            disk,
            standing,
            version,
            size: beginning.size,
            at: beginning.at,
            payload: Vec::new(alloc),
            is_done: false,
        }
    }

    /// Reads the next payload. After `Base` and `Payload` others may follow. After any other result the reader
    /// stays at the same commit byte, and the next step begins there. Meanwhile another process may write the
    /// first base of the file, which raises the journal to version 2. Contracts about known bytes don't cover
    /// that.
    pub fn next(&mut self) -> Next
        ensures steps { (file : List ℕ) (content : Content) → HasRead D.bytes self.old file content
            → Steps D.bytes result file content self.old self.new }
        ensures moves { Moves result self.old self.new }
        ensures done { self.new.is_done ≡ is_end result }
        ensures version { (file : List ℕ) (content : Content) → HasRead D.bytes self.old file content
            → self.new.version ≡ self.old.version }
        ensures stays { self.old.version ≡ Version.Two → self.new.version ≡ Version.Two }
        ensures kept { Keeps D.bytes D.may_leave D.moment D.left_since self.old.disk self.new.disk }
        ensures counted { CountsNext result (D.faults self.old.disk) (D.faults self.new.disk) }
    {
        self.is_done = false;
        if let JournalState::Bare = self.standing {
            self.is_done = true;
            return Next::End;
        }
        let Ok(seen) = sight_head(&mut self.disk, self.at, self.size) else {
            return Next::DiskFault;
        };
        self.size = seen.size;
        match seen.head {
            Head::Closed => {
                self.is_done = true;
                Next::End
            }
            Head::Frame { length, .. } => {
                match read_payload(&mut self.disk, self.at + 5, length, &mut self.payload) {
                    PayloadRead::Done => {
                        let Ok(version) = version_now(&mut self.disk, self.version, &self.payload)
                        else {
                            return Next::DiskFault;
                        };
                        self.version = version;
                        let at = self.at;
                        self.at += 5 + length;
                        if version.is_base(&self.payload) {
                            return Next::Base(at);
                        }
                        Next::Payload(at)
                    }
                    PayloadRead::DiskFault => Next::DiskFault,
                    PayloadRead::NoMemory => Next::NoMemory,
                }
            }
            Head::Short => Next::Damaged(self.at),
        }
    }

    /// Returns the payload of the last step, if that returned `Base` or `Payload` and `take_out` wasn't called
    /// since. After `DiskFault` and `NoMemory` it may be any bytes.
    pub fn payload(&self) -> &[u8]
        ensures payload { result.now ≡ self.now.payload }
    {
        &self.payload
    }

    /// Removes the same payload from the reader and returns it.
    pub fn take_out(&mut self, alloc: Global) -> Seq<u8>
        ensures payload { result ≡ self.old.payload }
        ensures disk { self.new.disk ≡ self.old.disk }
        ensures place { self.new.at ≡ self.old.at }
        ensures read { (file : List ℕ) (content : Content) → HasRead D.bytes self.old file content
            → HasRead D.bytes self.new file content }
    {
        Seq::of(mem::replace(&mut self.payload, Vec::new(alloc)))
    }

    /// Returns the journal, once the end was found.
    pub fn finish(self) -> Journal<D>
        requires done { self.is_done ≡ true }
        ensures disk { result.disk ≡ self.disk }
        ensures goes_on { result.standing ≢ JournalState.Still }
        ensures version { result.version ≡ self.version }
        ensures tells { (file : List ℕ) (content : Content) → HasRead D.bytes self file content
            → IsTold D.bytes result content }
        ensures at_rest { (file : List ℕ) (content : Content) → HasRead D.bytes self file content
            → Only file (D.may_leave self.disk) → IsAtRest D.bytes D.may_leave result content }
    {
        Journal::new(self.disk, self.version, self.at, self.standing)
    }

    /// Returns the disk.
    pub fn close(self) -> D
        ensures disk { result ≡ self.disk }
    {
        self.disk
    }
}

/// Whether the bytes of a payload were read.
#[derive(Clone, Copy)]
enum PayloadRead {
    Done,
    DiskFault,
    NoMemory,
}

/// Reads `count` bytes from place `at` on into a payload.
fn read_payload<D: Disk>(disk: &mut D, at: u64, count: u64, payload: &mut Vec<u8>) -> PayloadRead
    requires most { at + count ≤ MOST_BYTES }
    requires range { HasRange (D.bytes disk.old) (at + count) }
    ensures taken { Takes result (D.bytes disk.old) at payload.new.items }
    ensures size { IfTaken result (length payload.new.items ≡ count) }
    ensures kept { Keeps D.bytes D.may_leave D.moment D.left_since disk.old disk.new }
    ensures counted { CountsTaken result (D.faults disk.old) (D.faults disk.new) }
{
    if payload.resize(count as usize, 0).is_err() {
        return PayloadRead::NoMemory;
    }
    match disk.read_at(at, payload.as_mut_slice()) {
        Ok(()) => PayloadRead::Done,
        Err(Failed) => PayloadRead::DiskFault,
    }
}

/// Returns the version of a journal from which this payload was read. No event begins like a base. If the
/// payload of a journal of version 1 does, another process may have raised the version since, so this function
/// reads the version again.
fn version_now<D: Disk>(disk: &mut D, version: Version, payload: &[u8]) -> Result<Version, Failed>
    requires range { HasRange (D.bytes disk.old) 8 }
    ensures told { (file : List ℕ) → D.bytes disk.old ≡ Some file → version_of (slice_index file 7) ≡ version
        → IfOk result (λ now. now ≡ version) }
    ensures stays { version ≡ Version.Two → IfOk result (λ now. now ≡ Version.Two) }
    ensures kept { Keeps D.bytes D.may_leave D.moment D.left_since disk.old disk.new }
    ensures counted { Counted (D.faults disk.old) (D.faults disk.new) result }
{
    if !Version::Two.is_base(payload) {
        return Ok(version);
    }
    match version {
        Version::One => read_version(disk),
        Version::Two => Ok(Version::Two),
    }
}
