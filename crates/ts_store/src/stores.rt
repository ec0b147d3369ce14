//! A store.
ghost use Rattle.std.specs.Prelude.{◌≡◌, ◌⊎◌, ℕ, ◌<◌, ◌≤◌, ◌^◌, List, None, IsTrue, IsSome, IsSomeAnd, true};
ghost use Rattle.ts_disk.specs.CrashImage.{LeavesOnly};
ghost use Rattle.ts_model.specs.History.{History, Begins};
ghost use Rattle.ts_model.specs.Sound.{sound};
ghost use Rattle.refresh_build.specs.Fitting.{JobIsFor};
ghost use Rattle.engine_core.specs.Acts.{making_event};
ghost use Rattle.txn_journal.specs.Calls.{IfDone, IfStopped, IsCounted};
ghost use Rattle.ts_store.specs.Arming.{armed_after};
ghost use Rattle.ts_store.specs.Checkpoints.{BeginsSaved, CountsEnd, EndsAs, HoldsImage, IfSaved, IfUntouched, IfWritten};
ghost use Rattle.ts_store.specs.Checkpoints.{StandsForImage, StandsSaved};
ghost use Rattle.ts_store.specs.Images.{BeginSince, HasHeader, IsBetween, IsDurable, StandsForEither, latest};
ghost use Rattle.ts_store.specs.Safe.{IsSafe, StopsBy};
ghost use Rattle.ts_store.specs.Stands.{Stands};
ghost use Rattle.ts_store.specs.Stores.{StoreDoes, IsKept, Rests, Tells, known_of, opening_history, history_seen, stop_at, store_at_start};

use crate::checkpoints::{Checkpointed, checkpoint};
use crate::initial_value::InitialValue;
use crate::recorders::Recorder;
use engine_core::Engine;
use refresh_build::Job;
use std::alloc::Global;
use std::marker::Model;
use ts_disk::Disk;
use ts_model::{Committed, Event, Outcome};
use txn_journal::{Append, Journal};

/// A store on a disk that only this store changes. It appends each event to the journal before the event
/// counts. After an I/O error the store has stopped, because the disk then holds the history with the last
/// event or without it.
#[derive(Drop)]
pub struct Store<D: Disk> {
    alloc: Global,
    recorder: Recorder<D>,
    /// The disk as it was at the start.
    begun: InitialValue<D>,
    /// The position at which it was opened.
    opened: u64,
    /// Whether a call of `arm` wrote the header, or found it on the disk.
    armed: bool,
}

impl<D: Disk> Model for Store<D> {
    ghost use Rattle.ts_store.specs.Recorders.{IsKeptIn, store_of};
    ghost use Rattle.ts_store.specs.Stores.{StoreValue};

    ghost Value = { StoreValue D };

    ghost view = { λ s. store_of s.recorder s.begun s.opened s.armed };

    ghost invariant = { λ s.
        IsKeptIn D.bytes D.may_leave D.moment D.left_since D.faults s.recorder s.begun s.opened s.armed };
}

impl<D: Disk> Store<D> {
    /// The store of an engine and of the journal from which its events were read.
    pub(crate) fn new(
        alloc: Global,
        engine: Engine,
        journal: Journal<D>,
        begun: InitialValue<D>,
    ) -> Store<D>
        requires kept { IsKept D.bytes D.may_leave D.moment D.left_since D.faults
            (store_at_start engine journal begun) }
        ensures made { result ≡ store_at_start engine journal begun }
    {
        let opened = engine.length();
        let recorder = Recorder {
            engine,
            journal,
            failed: None,
        };
        Store {
            alloc,
            recorder,
            begun,
            opened,
            armed: false,
        }
    }

    /// Returns the engine.
    pub fn engine(&self) -> &Engine
        ensures engine { result.now ≡ self.now.engine }
    {
        &self.recorder.engine
    }

    /// Writes and syncs the header of the journal if there is none. `DiskFault` stops the store. After `Done` the
    /// store is armed.
    pub fn arm(&mut self) -> Append
        ensures engine { self.new.engine ≡ self.old.engine }
        ensures begun { self.new.begun ≡ self.old.begun }
        ensures opened { self.new.opened ≡ self.old.opened }
        ensures tells { Tells D.bytes self.old → IfDone result (Tells D.bytes self.new) }
        ensures done { Rests D.bytes D.may_leave self.old → IfDone result (Rests D.bytes D.may_leave self.new) }
        // A crash at any moment leaves a file that contains the history.
        ensures any_moment { Rests D.bytes D.may_leave self.old
            → LeavesOnly D.moment D.left_since self.old.journal.disk self.new.journal.disk
            (λ file. Stands file (history_seen self.old)) }
        // Reads also return such a file, whether or not all of it was on the disk.
        ensures shown { Tells D.bytes self.old
            → IsSomeAnd (D.bytes self.new.journal.disk) (λ file. Stands file (history_seen self.old)) }
        // If each image since an earlier moment contains a history that begins with `h`, each still does.
        ensures earlier { (t : ℕ) (h : History) → Rests D.bytes D.may_leave self.old → Begins h (history_seen self.old)
            → t ≤ D.moment self.old.journal.disk
            → BeginSince D.left_since self.old.journal.disk t h → BeginSince D.left_since self.new.journal.disk t h }
        ensures ends { StopsBy result self.old.failed self.new.failed }
        ensures armed { IfDone result (self.new.armed ≡ true) }
        ensures stays_armed { self.old.armed ≡ true → self.new.armed ≡ true }
        ensures stopped { IfStopped result (self.new ≡ self.old) }
        ensures counted { IsCounted result (D.faults self.old.journal.disk) (D.faults self.new.journal.disk) }
    {
        let answer = self.recorder.arm();
        self.armed = is_armed_after(self.armed, answer);
        answer
    }

    /// Returns the disk. A store is closed when its program ends, so the engine's memory isn't freed piece by
    /// piece.
    pub fn close(self) -> D
        ensures disk { result ≡ self.journal.disk }
        // The bytes that reads return, if the bytes of the disk were known at the start.
        ensures shown { IsSome (D.bytes self.begun)
            → IsSomeAnd (D.bytes result) (StandsForEither (history_seen self) (latest (history_seen self) self.failed)) }
        // If all bytes were on the disk at the start, all of them are now, unless the disk failed. A later
        // crash then leaves the bytes that reads return.
        ensures rests { self.failed ≡ None → IsDurable D.bytes D.may_leave self.begun
            → IsDurable D.bytes D.may_leave result }
        // If the store was armed, the bytes that reads return begin with the header.
        ensures header { self.armed ≡ true → self.failed ≡ None → IsSome (D.bytes self.begun)
            → IsSomeAnd (D.bytes result) HasHeader }
        // If all bytes were on the disk at the start, these are the files that a crash at each moment since
        // might have left.
        ensures images { IsDurable D.bytes D.may_leave self.begun
            → (c : List ℕ) → D.left_since result (D.moment self.begun) c
            → IsBetween (opening_history self) (history_seen self) self.failed c }
    {
        let recorder = self.recorder;
        recorder.into_disk()
    }

    /// Appends the image of the store's history to its journal, if it has at most `most` bytes. Allocates all
    /// memory, raises the version, and then appends the image. A later start begins there. Returns the disk
    /// with every result.
    pub fn checkpoint(self, most: u64) -> Checkpointed<D>
        requires armed { self.armed ≡ true }
        requires most { most < 2 ^ 32 }
        ensures ends { EndsAs result.end self.engine.past self.failed most }
        ensures untouched { IfUntouched result.end (result.disk ≡ self.journal.disk) }
        // A crash at any moment leaves the history, or its image.
        ensures any_moment { Rests D.bytes D.may_leave self → IfWritten result.end
            (LeavesOnly D.moment D.left_since self.journal.disk result.disk (StandsSaved (history_seen self))) }
        // Reads also return one of these, whether or not all of it was on the disk.
        ensures shown { Tells D.bytes self → IfWritten result.end
            (IsSomeAnd (D.bytes result.disk) (StandsSaved (history_seen self))) }
        // After `Done` the disk holds the image, and a crash leaves exactly that.
        ensures done { Tells D.bytes self → IfSaved result.end
            (HoldsImage D.bytes D.may_leave result.disk (history_seen self)) }
        // If each image since an earlier moment contains a history that begins with `h`, each still does, or contains
        // the image of such a history.
        ensures earlier { (t : ℕ) (h : History) → Rests D.bytes D.may_leave self → Begins h (history_seen self)
            → t ≤ D.moment self.journal.disk → BeginSince D.left_since self.journal.disk t h
            → (c : List ℕ) → D.left_since result.disk t c → BeginsSaved h c }
        // If all bytes were on the disk at the start, these are the files that a crash since then might have
        // left.
        ensures images { IsDurable D.bytes D.may_leave self.begun
            → (c : List ℕ) → D.left_since result.disk (D.moment self.begun) c
            → IsBetween (opening_history self) (history_seen self) self.failed c ⊎ StandsForImage (history_seen self) c }
        // If nothing was written, the bytes that reads return begin with the header.
        ensures header { self.failed ≡ None → IsSome (D.bytes self.begun)
            → IfUntouched result.end (IsSomeAnd (D.bytes result.disk) HasHeader) }
        ensures counted { CountsEnd result.end (D.faults self.journal.disk) (D.faults result.disk) }
    {
        checkpoint(self.alloc, self.recorder, most)
    }

    /// Appends an event, unless its call is refused. Consumes the job of a finish with every result.
    pub(crate) fn make(&mut self, event: Event, job: Option<Job>) -> Outcome<Committed>
        requires sound { IsTrue (sound (history_seen self.old) event) }
        requires job { JobIsFor (history_seen self.old) event job }
        ensures does { StoreDoes D.faults D.moment (making_event event) self.old result self.new }
        ensures known { known_of self.new ≡ known_of self.old }
        ensures safe { IsSafe D.bytes D.may_leave D.moment D.left_since self.old self.new }
    {
        self.recorder.make(self.alloc, event, job)
    }

    /// States the invariant of each store. Does nothing.
    pub(crate) fn store_law(&self)
        ensures kept { IsKept D.bytes D.may_leave D.moment D.left_since D.faults self.now }
    {
        let _opened = self.opened;
    }

    /// The position at which the store stopped, if it did.
    pub(crate) fn stop(&self) -> Option<u64>
        ensures { result ≡ stop_at (history_seen self.now) self.now.failed }
    {
        self.recorder.stop()
    }
}

/// Whether a store is armed after `arm` returned this result.
fn is_armed_after(armed: bool, answer: Append) -> bool
    ensures { result ≡ armed_after armed answer }
{
    match answer {
        Append::Done => true,
        Append::DiskFault | Append::Stopped => armed,
    }
}
