//! The start of reading.
ghost use Rattle.std.specs.Prelude.{◌≡◌, ℕ, ◌≤◌, List, Some, IfOk};
ghost use Rattle.ts_disk.specs.Disk.{Counted, HasLength, Keeps};
ghost use Rattle.txn_journal.specs.Opening.{Opens, CountsOpened, disk_of_opened};
ghost use Rattle.txn_journal.specs.Places.{IsReading};
ghost use Rattle.txn_journal.specs.Contents.{nothing};
ghost use Rattle.txn_journal.specs.Reading.{BeginsAt, IsFound, IsSized, MayBegin, MayBeginAt, ReadsTo, StartsAs};
ghost use Rattle.txn_journal.specs.declared.heads.Start.TheVariants.{Journal as StartsJournal};
ghost use Rattle.txn_journal.specs.declared.journals.JournalState.TheVariants.{Ready};

use crate::heads::{FIRST_GATE, Start, read_start};
use crate::journals::JournalState;
use crate::read_start::{ReadStart, find_base};
use crate::readers::Reader;
use crate::versions::Version;
use std::alloc::Global;
use ts_disk::{Disk, Failed, MOST_BYTES};

/// The result of `Reader::open`.
#[derive(Drop)]
pub enum OpenOutcome<D: Disk> {
    /// The journal may be read.
    Reading(Reader<D>),
    /// The file is longer than a header and doesn't begin like a journal. The damaged place is 0.
    Damaged { disk: D, at: u64 },
    /// The disk failed.
    DiskFault(D),
}

impl<D: Disk> Reader<D> {
    /// Begins to read the journal on this disk. Takes no memory.
    pub fn open(alloc: Global, disk: D) -> OpenOutcome<D>
        ensures opens { (file : List ℕ) → D.bytes disk ≡ Some file → Opens D.bytes result file }
        ensures kept { Keeps D.bytes D.may_leave D.moment D.left_since disk (disk_of_opened result) }
        ensures counted { CountsOpened result (D.faults disk) (D.faults (disk_of_opened result)) }
    {
        let mut disk = disk;
        match find_start(&mut disk) {
            Ok(found) => match found.start {
                Start::Bare => OpenOutcome::Reading(Reader::start(
                    alloc,
                    disk,
                    JournalState::Bare,
                    Version::One,
                    found.beginning,
                )),
                Start::Journal(version) => OpenOutcome::Reading(Reader::start(
                    alloc,
                    disk,
                    JournalState::Ready,
                    version,
                    found.beginning,
                )),
                Start::Foreign => OpenOutcome::Damaged { disk, at: 0 },
            },
            Err(Failed) => OpenOutcome::DiskFault(disk),
        }
    }
}

/// The beginning of a file, and the place at which reading begins in it.
#[derive(Clone, Copy)]
struct FileStart {
    start: Start,
    beginning: ReadStart,
}

/// Finds the beginning of a disk's file, and the place at which reading begins in it.
fn find_start<D: Disk>(disk: &mut D) -> Result<FileStart, Failed>
    ensures found { (file : List ℕ) → D.bytes disk.old ≡ Some file → IfOk result (λ found. IsFound found file) }
    ensures reading { IfOk result (λ found. MayBegin (D.bytes disk.new) found) }
    ensures size { IfOk result (λ found. HasLength (D.bytes disk.new) found.beginning.size) }
    ensures kept { Keeps D.bytes D.may_leave D.moment D.left_since disk.old disk.new }
    ensures counted { Counted (D.faults disk.old) (D.faults disk.new) result }
{
    let size = disk.len()?;
    let start = read_start(disk, size)?;
    let beginning = find_beginning(disk, start, size)?;
    Ok(FileStart { start, beginning })
}

/// The place at which reading begins in a file with this beginning. It is the first commit byte, or in a
/// journal of version 2 the last base, if it has one.
fn find_beginning<D: Disk>(disk: &mut D, start: Start, size: u64) -> Result<ReadStart, Failed>
    requires sized { IsSized start size }
    requires most { size ≤ MOST_BYTES }
    requires size { HasLength (D.bytes disk.old) size }
    ensures found { (file : List ℕ) → D.bytes disk.old ≡ Some file → StartsAs start file
        → IfOk result (λ beginning. BeginsAt start file beginning.at) }
    ensures reading { IfOk result (λ beginning. MayBeginAt (D.bytes disk.new) start beginning) }
    ensures length { IfOk result (λ beginning. HasLength (D.bytes disk.new) beginning.size) }
    ensures kept { Keeps D.bytes D.may_leave D.moment D.left_since disk.old disk.new }
    ensures counted { Counted (D.faults disk.old) (D.faults disk.new) result }
{
    match start {
        Start::Journal(version) => find_gate(disk, version, size),
        Start::Bare => Ok(ReadStart {
            at: FIRST_GATE,
            size,
        }),
        Start::Foreign => Ok(ReadStart {
            at: FIRST_GATE,
            size,
        }),
    }
}

/// The place at which reading begins in a journal of this version.
fn find_gate<D: Disk>(disk: &mut D, version: Version, size: u64) -> Result<ReadStart, Failed>
    requires gate { 9 ≤ size }
    requires most { size ≤ MOST_BYTES }
    requires size { HasLength (D.bytes disk.old) size }
    ensures found { (file : List ℕ) → D.bytes disk.old ≡ Some file → StartsAs (StartsJournal version) file
        → IfOk result (λ beginning. ReadsTo file version beginning.at nothing) }
    ensures reading { IfOk result (λ beginning. IsReading (D.bytes disk.new) Ready beginning.size beginning.at) }
    ensures kept { Keeps D.bytes D.may_leave D.moment D.left_since disk.old disk.new }
    ensures counted { Counted (D.faults disk.old) (D.faults disk.new) result }
{
    match version {
        Version::One => Ok(ReadStart {
            at: FIRST_GATE,
            size,
        }),
        Version::Two => find_base(disk, size),
    }
}
