//! The history of a journal, without a store.
ghost use Rattle.std.specs.Prelude.{◌≡◌, ℕ, List, Some};
ghost use Rattle.std.specs.Thread.{IsSync};
ghost use Rattle.ts_disk.specs.Disk.{Keeps};
ghost use Rattle.ts_store.specs.Starts.{CountsRead, CountsReplayed, ReadsHistory, Replays, disk_of_read, disk_of_replayed, told_to};

use crate::replays::{ReplayOutcome, replay};
use engine_core::Ledger;
use std::alloc::Global;
use std::thread::Threads;
use ts_disk::Disk;
use txn_journal::{OpenOutcome, Reader};

/// The result of reading the history of a journal.
#[derive(Drop)]
pub enum HistoryRead<D: Disk> {
    /// The history that the journal contains.
    Ready { disk: D, ledger: Ledger },
    /// The journal contains no history. This is its first damaged place, which is the one that the start of a
    /// store finds.
    Damaged { disk: D, at: u64 },
    /// The disk failed.
    DiskFault(D),
    /// It ran out of memory.
    NoMemory(D),
}

/// Reads the journal on a disk, event by event, as the start of a store does. Keeps its history without its
/// rows, which aren't needed to check whether an event may come next. Writes nothing, and returns the disk with
/// every result.
pub fn read_history<R: Threads + Sync, D: Disk>(rt: &R, alloc: Global, disk: D) -> HistoryRead<D>
    requires sync { IsSync R.row }
    ensures reads { (file : List ℕ) → D.bytes disk ≡ Some file → ReadsHistory result file }
    ensures kept { Keeps D.bytes D.may_leave D.moment D.left_since disk (disk_of_read result) }
    ensures counted { CountsRead result (D.faults disk) (D.faults (disk_of_read result)) }
{
    match Reader::open(alloc, disk) {
        OpenOutcome::Reading(reader) => close_replayed(replay(
            rt,
            alloc,
            reader,
            Ledger::new(alloc),
        )),
        OpenOutcome::Damaged { disk, at } => HistoryRead::Damaged { disk, at },
        OpenOutcome::DiskFault(disk) => HistoryRead::DiskFault(disk),
    }
}

/// Closes a journal, and returns the history that was read from it.
fn close_replayed<D: Disk>(replayed: ReplayOutcome<D, Ledger>) -> HistoryRead<D>
    ensures reads { (file : List ℕ) → Replays told_to replayed file → ReadsHistory result file }
    ensures disk { disk_of_read result ≡ disk_of_replayed replayed }
    ensures counted { (before now : ℕ) → CountsReplayed replayed before now → CountsRead result before now }
{
    match replayed {
        ReplayOutcome::Ready { journal, follower } => HistoryRead::Ready {
            disk: journal.close(),
            ledger: follower,
        },
        ReplayOutcome::Damaged { disk, at } => HistoryRead::Damaged { disk, at },
        ReplayOutcome::DiskFault(disk) => HistoryRead::DiskFault(disk),
        ReplayOutcome::NoMemory(disk) => HistoryRead::NoMemory(disk),
    }
}
