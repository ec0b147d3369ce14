//! Appends to a journal that may have no header yet.
ghost use Rattle.std.specs.Prelude.{◌≡◌, IsSomeAnd};
ghost use Rattle.ts_disk.specs.CrashImage.{LeavesOnly};
ghost use Rattle.txn_journal.specs.Calls.{IsAtRest, IsTold, Ends, IsCounted, IfDone, IfStopped};
ghost use Rattle.txn_journal.specs.Contents.{Content, with_payload};
ghost use Rattle.txn_journal.specs.Frames.{WithOrWithout};

use ts_disk::Disk;
use txn_journal::{Append, Frame, Journal};

/// Writes the header if there is none, and appends a payload. Takes no memory.
pub(crate) fn append_armed<D: Disk>(journal: &mut Journal<D>, frame: &Frame) -> Append
    ensures done { (content : Content) → IsTold D.bytes journal.old content
        → IfDone result (IsAtRest D.bytes D.may_leave journal.new (with_payload journal.old.version content frame.now)) }
    ensures any_moment { (content : Content) → IsAtRest D.bytes D.may_leave journal.old content
        → LeavesOnly D.moment D.left_since journal.old.disk journal.new.disk
        (WithOrWithout journal.old.version content frame.now) }
    ensures shown { (content : Content) → IsTold D.bytes journal.old content
        → IsSomeAnd (D.bytes journal.new.disk) (WithOrWithout journal.old.version content frame.now) }
    ensures ends { Ends result journal.old.standing journal.new.standing }
    ensures stopped { IfStopped result (journal.new ≡ journal.old) }
    ensures counted { IsCounted result (D.faults journal.old.disk) (D.faults journal.new.disk) }
{
    match journal.arm() {
        Append::Done => journal.append(frame),
        Append::DiskFault => Append::DiskFault,
        Append::Stopped => Append::Stopped,
    }
}
