//! From a disk to a store.
ghost use Rattle.std.specs.Prelude.{◌≡◌, ℕ, ◌<◌, ◌^◌, List, Some};
ghost use Rattle.std.specs.Thread.{IsSync};
ghost use Rattle.ts_disk.specs.CrashImage.{Only};
ghost use Rattle.ts_disk.specs.Disk.{Keeps};
ghost use Rattle.ts_store.specs.Starts.{CountsReplayed, CountsStarted, GoesOn, IfReady, IsNew, Replays, RestsReplayed, SoundReplayed};
ghost use Rattle.ts_store.specs.Starts.{Starts, TellsReplayed, disk_of, disk_of_replayed, past_of};
ghost use Rattle.ts_store.specs.Stores.{Rests, Tells};

use crate::initial_value::InitialValue;
use crate::replays::{ReplayOutcome, replay};
use crate::stores::Store;
use engine_core::Engine;
use std::alloc::Global;
use std::thread::Threads;
use ts_disk::Disk;
use ts_schema::NoMemory;
use txn_journal::{OpenOutcome, Reader};

/// The result of starting a store.
#[derive(Drop)]
pub enum Started<D: Disk> {
    /// A store of the history that its journal contains.
    Ready(Store<D>),
    /// The journal contains no history. This is its first damaged place: 0 if the file doesn't begin like a
    /// journal, and otherwise the place of a commit byte of 1. After that byte the file is too short, or there
    /// is a bad payload: a base that isn't a valid image, or another one that isn't an event that may come
    /// next.
    Damaged { disk: D, at: u64 },
    /// The disk failed.
    DiskFault(D),
    /// It ran out of memory.
    NoMemory(D),
}

impl<D: Disk> Store<D> {
    /// Reads the journal on a disk, event by event. Writes nothing.
    pub fn start<R: Threads + Sync>(rt: &R, alloc: Global, disk: D) -> Started<D>
        requires sync { IsSync R.row }
        ensures starts { (file : List ℕ) → D.bytes disk ≡ Some file → Starts result file }
        ensures tells { (file : List ℕ) → D.bytes disk ≡ Some file → IfReady result (Tells D.bytes) }
        ensures rests { (file : List ℕ) → D.bytes disk ≡ Some file → Only file (D.may_leave disk)
            → IfReady result (Rests D.bytes D.may_leave) }
        ensures new { IfReady result (IsNew disk) }
        ensures kept { Keeps D.bytes D.may_leave D.moment D.left_since disk (disk_of result) }
        ensures counted { CountsStarted result (D.faults disk) (D.faults (disk_of result)) }
    {
        let begun = InitialValue::of(&disk);
        // Reading the count tells the prover that it has 64 bits.
        let _faults = disk.faults();
        let Ok(engine) = Engine::new(alloc) else {
            return Started::NoMemory(disk);
        };
        match Reader::open(alloc, disk) {
            OpenOutcome::Reading(reader) => from_replayed(
                alloc,
                begun,
                replay(rt, alloc, reader, engine),
            ),
            OpenOutcome::Damaged { disk, at } => Started::Damaged { disk, at },
            OpenOutcome::DiskFault(disk) => Started::DiskFault(disk),
        }
    }
}

/// The result of starting a store on a disk, given the result of reading its journal.
fn from_replayed<D: Disk>(
    alloc: Global,
    begun: InitialValue<D>,
    replayed: ReplayOutcome<D, Engine>,
) -> Started<D>
    requires bounded { D.faults begun < 2 ^ 64 }
    requires replays { (file : List ℕ) → D.bytes begun ≡ Some file → Replays past_of replayed file }
    requires tells { (file : List ℕ) → D.bytes begun ≡ Some file → TellsReplayed past_of D.bytes replayed }
    requires at_rest { (file : List ℕ) → D.bytes begun ≡ Some file → Only file (D.may_leave begun)
        → RestsReplayed past_of D.bytes D.may_leave replayed }
    requires sound { SoundReplayed past_of replayed }
    requires goes_on { GoesOn replayed }
    requires kept { Keeps D.bytes D.may_leave D.moment D.left_since begun (disk_of_replayed replayed) }
    requires counted { CountsReplayed replayed (D.faults begun) (D.faults (disk_of_replayed replayed)) }
    ensures starts { (file : List ℕ) → D.bytes begun ≡ Some file → Starts result file }
    ensures tells { (file : List ℕ) → D.bytes begun ≡ Some file → IfReady result (Tells D.bytes) }
    ensures rests { (file : List ℕ) → D.bytes begun ≡ Some file → Only file (D.may_leave begun)
        → IfReady result (Rests D.bytes D.may_leave) }
    ensures new { IfReady result (IsNew begun) }
    ensures kept { Keeps D.bytes D.may_leave D.moment D.left_since begun (disk_of result) }
    ensures counted { CountsStarted result (D.faults begun) (D.faults (disk_of result)) }
{
    match replayed {
        ReplayOutcome::Ready { journal, follower } => {
            Started::Ready(Store::new(alloc, follower, journal, begun))
        }
        ReplayOutcome::Damaged { disk, at } => Started::Damaged { disk, at },
        ReplayOutcome::DiskFault(disk) => Started::DiskFault(disk),
        ReplayOutcome::NoMemory(disk) => Started::NoMemory(disk),
    }
}
