//! An engine with the journal of its events.
ghost use Rattle.std.specs.Prelude.{◌≡◌, ◌≢◌, ◌<◌, None, is_some, IsTrue};
ghost use Rattle.ts_model.specs.Allowed.{allowed};
ghost use Rattle.ts_model.specs.Calls.{refusal};
ghost use Rattle.ts_model.specs.Numbers.{stopped};
ghost use Rattle.ts_model.specs.Sound.{sound};
ghost use Rattle.refresh_build.specs.Fitting.{JobIsFor};
ghost use Rattle.engine_core.specs.Acts.{making_event};
ghost use Rattle.engine_core.specs.Histories.{history_of};
ghost use Rattle.txn_journal.specs.Calls.{IfStopped, IsCounted};
ghost use Rattle.txn_journal.specs.declared.journals.JournalState.TheVariants.{Bare};
ghost use Rattle.ts_store.specs.Recorders.{ArmsSafely, DoesKept, IsSafeIn, StaysKept};
ghost use Rattle.ts_store.specs.Drafts.{IsDraft};
ghost use Rattle.ts_store.specs.Safe.{StopsBy};
ghost use Rattle.ts_store.specs.Stands.{IsSound};
ghost use Rattle.ts_store.specs.Stores.{is_still, stop_at};

use crate::appends::append_armed;
use crate::drafts::{FramedEvent, draft_of};
use engine_core::Engine;
use refresh_build::Job;
use std::alloc::Global;
use std::mem::forget;
use ts_disk::Disk;
use ts_model::codes::STOPPED;
use ts_model::{Committed, Event, Outcome, Refusal};
use ts_schema::NoMemory;
use txn_journal::{Append, Journal};

/// An engine, the journal of its events, and the event whose append failed, if one did.
#[derive(Drop)]
pub(crate) struct Recorder<D: Disk> {
    pub engine: Engine,
    pub journal: Journal<D>,
    /// If the disk failed at the header, this is an event that is never allowed.
    pub failed: Option<Event>,
}

impl<D: Disk> Recorder<D> {
    /// Writes and syncs the header of the journal if there is none.
    pub(crate) fn arm(&mut self) -> Append
        requires sound { IsSound (history_of self.old.engine.past) }
        requires still { is_some self.old.failed ≡ is_still self.old.journal.standing }
        ensures engine { self.new.engine ≡ self.old.engine }
        ensures ends { StopsBy result self.old.failed self.new.failed }
        ensures armed { self.new.journal.standing ≢ Bare }
        ensures arms { ArmsSafely D.bytes D.may_leave D.moment D.left_since result self.old self.new }
        ensures kept { StaysKept D.bytes D.may_leave D.moment D.left_since D.faults self.old self.new }
        ensures stopped { IfStopped result (self.new ≡ self.old) }
        ensures counted { IsCounted result (D.faults self.old.journal.disk) (D.faults self.new.journal.disk) }
    {
        match self.journal.arm() {
            Append::Done => Append::Done,
            Append::DiskFault => {
                // There was no event to append. No refresh has the number 0, so this one is never allowed.
                self.failed = Some(Event::Built { cut: 0, snap: 0 });
                Append::DiskFault
            }
            Append::Stopped => Append::Stopped,
        }
    }

    /// Appends an event, unless its call is refused. Consumes the job of a finish with every result.
    pub(crate) fn make(
        &mut self,
        alloc: Global,
        event: Event,
        job: Option<Job>,
    ) -> Outcome<Committed>
        requires history { IsSound (history_of self.old.engine.past) }
        requires sound { IsTrue (sound (history_of self.old.engine.past) event) }
        requires job { JobIsFor (history_of self.old.engine.past) event job }
        ensures does { DoesKept D.bytes D.may_leave D.moment D.left_since D.faults (making_event event)
            self.old result self.new }
        ensures kept { StaysKept D.bytes D.may_leave D.moment D.left_since D.faults self.old self.new }
        ensures safe { IsSafeIn D.bytes D.may_leave D.moment D.left_since self.old self.new }
    {
        match self.engine.check_sound(&event) {
            Err(refusal) => Outcome::Refused(refusal),
            Ok(()) => self.make_checked(alloc, event, job),
        }
    }

    /// Appends an event that is allowed next, unless the journal has stopped.
    fn make_checked(&mut self, alloc: Global, event: Event, job: Option<Job>) -> Outcome<Committed>
        requires history { IsSound (history_of self.old.engine.past) }
        requires allowed { IsTrue (allowed (history_of self.old.engine.past) event) }
        requires job { JobIsFor (history_of self.old.engine.past) event job }
        ensures does { DoesKept D.bytes D.may_leave D.moment D.left_since D.faults (making_event event)
            self.old result self.new }
        ensures kept { StaysKept D.bytes D.may_leave D.moment D.left_since D.faults self.old self.new }
        ensures safe { IsSafeIn D.bytes D.may_leave D.moment D.left_since self.old self.new }
    {
        match self.failed {
            Some(_) => Outcome::Refused(self.stop_refusal()),
            None => self.append_event(alloc, event, job),
        }
    }

    /// Appends an event that is allowed next. The journal hasn't stopped.
    fn append_event(&mut self, alloc: Global, event: Event, job: Option<Job>) -> Outcome<Committed>
        requires history { IsSound (history_of self.old.engine.past) }
        requires allowed { IsTrue (allowed (history_of self.old.engine.past) event) }
        requires job { JobIsFor (history_of self.old.engine.past) event job }
        requires goes_on { self.old.failed ≡ None }
        ensures does { DoesKept D.bytes D.may_leave D.moment D.left_since D.faults (making_event event)
            self.old result self.new }
        ensures kept { StaysKept D.bytes D.may_leave D.moment D.left_since D.faults self.old self.new }
        ensures safe { IsSafeIn D.bytes D.may_leave D.moment D.left_since self.old self.new }
    {
        match draft_of(alloc, &mut self.engine, event, job) {
            Ok(draft) => self.put(draft),
            Err(NoMemory) => Outcome::NoMemory,
        }
    }

    /// Writes an event to the disk, and then adds it to the history. Takes no memory.
    fn put(&mut self, draft: FramedEvent) -> Outcome<Committed>
        requires history { IsSound (history_of self.old.engine.past) }
        requires draft { IsDraft (history_of self.old.engine.past) draft.prepared.event draft }
        requires room { 0 < self.old.engine.room }
        requires goes_on { self.old.failed ≡ None }
        ensures does { DoesKept D.bytes D.may_leave D.moment D.left_since D.faults (making_event draft.prepared.event)
            self.old result self.new }
        ensures kept { StaysKept D.bytes D.may_leave D.moment D.left_since D.faults self.old self.new }
        ensures safe { IsSafeIn D.bytes D.may_leave D.moment D.left_since self.old self.new }
    {
        let effect = draft.prepared.effect();
        match append_armed(&mut self.journal, &draft.frame) {
            Append::Done => {
                self.engine.install(draft.prepared);
                Outcome::Done(effect)
            }
            Append::DiskFault => {
                self.failed = Some(draft.prepared.into_event());
                Outcome::DiskFault
            }
            Append::Stopped => Outcome::Refused(self.stop_refusal()),
        }
    }

    /// The refusal of an event if the store has stopped.
    fn stop_refusal(&self) -> Refusal
        ensures { result ≡ refusal stopped (history_of self.now.engine.past) 0 }
    {
        Refusal {
            code: STOPPED,
            pos: self.engine.length(),
            mark: 0,
        }
    }

    /// The position at which the store stopped, if it did.
    pub(crate) fn stop(&self) -> Option<u64>
        ensures { result ≡ stop_at (history_of self.now.engine.past) self.now.failed }
    {
        match self.failed {
            Some(_) => Some(self.engine.length()),
            None => None,
        }
    }

    /// Returns the disk. Doesn't free the engine's memory: the process is about to end, and the system frees it
    /// faster than piece by piece.
    pub(crate) fn into_disk(self) -> D
        ensures { result ≡ self.journal.disk }
    {
        let Recorder {
            engine,
            journal,
            ..
        } = self;
        forget(engine);
        journal.close()
    }
}
