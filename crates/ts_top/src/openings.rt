//! Opens the journal on a disk for a script.
ghost use Rattle.std.specs.Prelude.{◌≡◌, ℕ, List, None, Option, Some, true, IfErr, IfOk, IfSome, IsSome};
ghost use Rattle.ts_disk.specs.Disk.{Keeps};
ghost use Rattle.ts_io.specs.Faults.{Counted};
ghost use Rattle.ts_store.specs.Images.{IsDurable};
ghost use Rattle.ts_store.specs.Stands.{Stands};
ghost use Rattle.ts_store.specs.Stores.{Rests, Tells, opening_history, history_seen};
ghost use Rattle.ts_top.specs.Endings.{is_disk_fault};
ghost use Rattle.ts_top.specs.Openings.{NotOpened};
ghost use Rattle.ts_top.specs.Outcomes.{LeftAfter};

use crate::endings::{Ended, Status};
use std::alloc::Global;
use std::thread::Threads;
use ts_disk::Disk;
use ts_store::{Started, Store};
use txn_journal::Append;

/// Writes the header of the journal of a store at its start, if it is missing.
fn write_header<D: Disk>(mut store: Store<D>) -> Result<Store<D>, Ended<D>>
    requires goes_on { store.failed ≡ None }
    requires whole { opening_history store ≡ history_seen store }
    ensures begun { IfOk result (λ ready. ready.begun ≡ store.begun) }
    ensures history { IfOk result (λ ready. history_seen ready ≡ history_seen store) }
    ensures goes_on { IfOk result (λ ready. ready.failed ≡ None) }
    ensures armed { IfOk result (λ ready. ready.armed ≡ true) }
    ensures whole { IfOk result (λ ready. opening_history ready ≡ history_seen ready) }
    ensures tells { (IsSome (D.bytes store.begun) → Tells D.bytes store)
        → IfOk result (λ ready. IsSome (D.bytes store.begun) → Tells D.bytes ready) }
    ensures rests { (IsDurable D.bytes D.may_leave store.begun → Rests D.bytes D.may_leave store)
        → IfOk result (λ ready. IsDurable D.bytes D.may_leave store.begun → Rests D.bytes D.may_leave ready) }
    ensures images { (IsDurable D.bytes D.may_leave store.begun → Rests D.bytes D.may_leave store)
        → Keeps D.bytes D.may_leave D.moment D.left_since store.begun store.journal.disk
        → IfOk result (λ ready. (c : List ℕ)
        → LeftAfter D.bytes D.may_leave D.moment D.left_since store.begun ready.journal.disk c → Stands c (history_seen ready)) }
    ensures counted { IfOk result (λ ready. D.faults ready.journal.disk ≡ D.faults store.journal.disk) }
    ensures ended { IfErr result (λ end. (before : Option (List ℕ))
        → IfSome before (λ file. Stands file (history_seen store))
        → (IsSome (D.bytes store.begun) → Tells D.bytes store)
        → (IsDurable D.bytes D.may_leave store.begun → Rests D.bytes D.may_leave store)
        → Keeps D.bytes D.may_leave D.moment D.left_since store.begun store.journal.disk
        → NotOpened end.status
        (IsSome (D.bytes store.begun)) (LeftAfter D.bytes D.may_leave D.moment D.left_since store.begun end.disk)
        ⊥ before (D.bytes end.disk)) }
    ensures unread { IfErr result (λ end. end.reads ≡ 0) }
    ensures disk { IfErr result (λ end.
        Counted (D.faults store.journal.disk) (D.faults end.disk) (is_disk_fault end.status)) }
{
    match store.arm() {
        Append::Done => Ok(store),
        Append::DiskFault => Err(Ended {
            status: Status::DiskFault,
            disk: store.close(),
            reads: 0,
        }),
        // Can't occur: the store hasn't stopped.
        Append::Stopped => Err(Ended {
            status: Status::DiskFault,
            disk: store.close(),
            reads: 0,
        }),
    }
}

/// Opens a store on the history that the journal on the disk represents, and writes the journal's header if it is
/// missing. If that fails, returns how the call ends. It reads nothing from the source, and prints nothing.
pub(crate) fn open<R: Threads + Sync, D: Disk>(
    rt: &R,
    alloc: Global,
    disk: D,
) -> Result<Store<D>, Ended<D>>
    ensures begun { IfOk result (λ store. store.begun ≡ disk) }
    ensures stands { IfOk result (λ store. (file : List ℕ) → D.bytes disk ≡ Some file → Stands file (history_seen store)) }
    ensures goes_on { IfOk result (λ store. store.failed ≡ None) }
    ensures armed { IfOk result (λ store. store.armed ≡ true) }
    ensures whole { IfOk result (λ store. opening_history store ≡ history_seen store) }
    ensures tells { IfOk result (λ store. IsSome (D.bytes disk) → Tells D.bytes store) }
    ensures rests { IfOk result (λ store.
        IsDurable D.bytes D.may_leave disk → Rests D.bytes D.may_leave store) }
    ensures images { IfOk result (λ store. (c : List ℕ)
        → LeftAfter D.bytes D.may_leave D.moment D.left_since disk store.journal.disk c → Stands c (history_seen store)) }
    ensures counted { IfOk result (λ store. D.faults store.journal.disk ≡ D.faults disk) }
    ensures ended { IfErr result (λ end. NotOpened end.status
        (IsSome (D.bytes disk)) (LeftAfter D.bytes D.may_leave D.moment D.left_since disk end.disk)
        (Keeps D.bytes D.may_leave D.moment D.left_since disk end.disk) (D.bytes disk) (D.bytes end.disk)) }
    ensures unread { IfErr result (λ end. end.reads ≡ 0) }
    ensures disk { IfErr result (λ end. Counted (D.faults disk) (D.faults end.disk) (is_disk_fault end.status)) }
{
    match Store::start(rt, alloc, disk) {
        Started::Ready(store) => write_header(store),
        Started::Damaged { disk, at } => Err(Ended {
            status: Status::Damaged(at),
            disk,
            reads: 0,
        }),
        Started::DiskFault(disk) => Err(Ended {
            status: Status::DiskFault,
            disk,
            reads: 0,
        }),
        Started::NoMemory(disk) => Err(Ended {
            status: Status::NoMemory,
            disk,
            reads: 0,
        }),
    }
}
