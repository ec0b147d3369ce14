//! The image of a store's history, appended to its journal.
ghost use Rattle.std.specs.Prelude.{◌≡◌, ◌≢◌, ◌<◌, ◌^◌, IsSomeAnd, None, is_some, true};
ghost use Rattle.ts_disk.specs.CrashImage.{LeavesOnly};
ghost use Rattle.engine_core.specs.Histories.{history_of};
ghost use Rattle.txn_journal.specs.Calls.{Ends, IfDone, IsAtRest, IsCounted, IsTold};
ghost use Rattle.txn_journal.specs.Contents.{Content, is_base, content_of_version_2};
ghost use Rattle.txn_journal.specs.Frames.{StandsForEither};
ghost use Rattle.txn_journal.specs.Reading.{based_on};
ghost use Rattle.txn_journal.specs.declared.journals.JournalState.TheVariants.{Bare, Still};
ghost use Rattle.txn_journal.specs.declared.versions.Version.TheVariants.{Two};
ghost use Rattle.ts_store.specs.Checkpoints.{CountsEnd, EndsAs, HoldsImage, IfSaved, IfUntouched, IfWritten, StandsSaved};
ghost use Rattle.ts_store.specs.Recorders.{RestsIn, TellsIn};
ghost use Rattle.ts_store.specs.Stands.{IsSound, content_of};
ghost use Rattle.ts_store.specs.Stores.{is_still};

use crate::image_writes::{SaveOutcome, save};
use crate::recorders::Recorder;
use std::alloc::Global;
use ts_disk::Disk;
use txn_journal::{Append, Frame, Journal};

/// The result of a checkpoint. If it is neither `Done` nor `DiskFault`, nothing was written. After `DiskFault`
/// the journal contains the history as before, or its image.
#[derive(Clone, Copy, Debug, PartialEq, Eq)]
pub enum CheckEnd {
    /// The disk has the image of the history, at this position and of this many bytes.
    Done { pos: u64, bytes: u64 },
    /// The history has no event after the image with which it begins, at this position, or has no event at all.
    Nothing { pos: u64 },
    /// The image has this many bytes, which is more than `most`.
    TooLong { pos: u64, bytes: u64 },
    /// The disk failed.
    DiskFault,
    /// The store had stopped at this position.
    Stopped(u64),
    /// It ran out of memory.
    NoMemory,
}

/// The result of a checkpoint, and the disk.
#[derive(Drop)]
pub struct Checkpointed<D: Disk> {
    pub disk: D,
    pub end: CheckEnd,
}

/// Appends the image of a recorder's history to its journal. Does so only if the recorder hasn't stopped and
/// has events, and the image has at most `most` bytes.
pub(crate) fn checkpoint<D: Disk>(
    alloc: Global,
    recorder: Recorder<D>,
    most: u64,
) -> Checkpointed<D>
    requires history { IsSound (history_of recorder.engine.past) }
    requires still { is_some recorder.failed ≡ is_still recorder.journal.standing }
    requires headed { recorder.journal.standing ≢ Bare }
    requires most { most < 2 ^ 32 }
    ensures ends { EndsAs result.end recorder.engine.past recorder.failed most }
    ensures untouched { IfUntouched result.end (result.disk ≡ recorder.journal.disk) }
    ensures any_moment { RestsIn D.bytes D.may_leave recorder → IfWritten result.end
        (LeavesOnly D.moment D.left_since recorder.journal.disk result.disk
        (StandsSaved (history_of recorder.engine.past))) }
    ensures shown { TellsIn D.bytes recorder → IfWritten result.end
        (IsSomeAnd (D.bytes result.disk) (StandsSaved (history_of recorder.engine.past))) }
    ensures done { TellsIn D.bytes recorder → IfSaved result.end
        (HoldsImage D.bytes D.may_leave result.disk (history_of recorder.engine.past)) }
    ensures counted { CountsEnd result.end (D.faults recorder.journal.disk) (D.faults result.disk) }
{
    let mut recorder = recorder;
    let end = write_image(alloc, &mut recorder, most);
    Checkpointed {
        disk: recorder.into_disk(),
        end,
    }
}

/// Does the same and keeps the recorder. After an I/O error the recorder is of no use.
#[tactic(auto, using(crate::proofs::CheckpointLaws::image_within))]
fn write_image<D: Disk>(alloc: Global, recorder: &mut Recorder<D>, most: u64) -> CheckEnd
    requires history { IsSound (history_of recorder.old.engine.past) }
    requires still { is_some recorder.old.failed ≡ is_still recorder.old.journal.standing }
    requires headed { recorder.old.journal.standing ≢ Bare }
    requires most { most < 2 ^ 32 }
    ensures ends { EndsAs result recorder.old.engine.past recorder.old.failed most }
    ensures untouched { IfUntouched result (recorder.new.journal.disk ≡ recorder.old.journal.disk) }
    ensures any_moment { RestsIn D.bytes D.may_leave recorder.old → IfWritten result
        (LeavesOnly D.moment D.left_since recorder.old.journal.disk recorder.new.journal.disk
        (StandsSaved (history_of recorder.old.engine.past))) }
    ensures shown { TellsIn D.bytes recorder.old → IfWritten result
        (IsSomeAnd (D.bytes recorder.new.journal.disk) (StandsSaved (history_of recorder.old.engine.past))) }
    ensures done { TellsIn D.bytes recorder.old → IfSaved result
        (HoldsImage D.bytes D.may_leave recorder.new.journal.disk (history_of recorder.old.engine.past)) }
    ensures counted { CountsEnd result (D.faults recorder.old.journal.disk) (D.faults recorder.new.journal.disk) }
{
    if let Some(pos) = recorder.stop() {
        return CheckEnd::Stopped(pos);
    }
    let pos = recorder.engine.length();
    if recorder.engine.events().is_empty() {
        return CheckEnd::Nothing { pos };
    }
    match save(alloc, &recorder.engine, most) {
        SaveOutcome::Framed { frame, bytes } => match put_base(&mut recorder.journal, &frame) {
            Append::Done => CheckEnd::Done { pos, bytes },
            Append::DiskFault => CheckEnd::DiskFault,
            Append::Stopped => CheckEnd::Stopped(pos),
        },
        SaveOutcome::TooLong(bytes) => CheckEnd::TooLong { pos, bytes },
        SaveOutcome::NoMemory => CheckEnd::NoMemory,
    }
}

/// Raises the version, and appends a base. Takes no memory.
fn put_base<D: Disk>(journal: &mut Journal<D>, frame: &Frame) -> Append
    requires armed { journal.old.standing ≢ Bare }
    requires base { is_base Two frame.now ≡ true }
    ensures done { (content : Content) → IsTold D.bytes journal.old content
        → IfDone result (IsAtRest D.bytes D.may_leave journal.new (based_on frame.now)) }
    ensures any_moment { (content : Content) → IsAtRest D.bytes D.may_leave journal.old content
        → content_of_version_2 content ≡ content
        → LeavesOnly D.moment D.left_since journal.old.disk journal.new.disk
        (StandsForEither content (based_on frame.now)) }
    ensures shown { (content : Content) → IsTold D.bytes journal.old content → content_of_version_2 content ≡ content
        → IsSomeAnd (D.bytes journal.new.disk) (StandsForEither content (based_on frame.now)) }
    ensures ends { Ends result journal.old.standing journal.new.standing }
    ensures counted { IsCounted result (D.faults journal.old.disk) (D.faults journal.new.disk) }
{
    match journal.raise_version() {
        Append::Done => journal.append(frame),
        Append::DiskFault => Append::DiskFault,
        Append::Stopped => Append::Stopped,
    }
}
