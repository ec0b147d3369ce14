//! Runs scripts on the history of a journal.
ghost use Rattle.std.specs.Prelude.{◌≡◌, ℕ, List, None, Option, false, true, IfSome, IsSome};
ghost use Rattle.ts_disk.specs.Disk.{Keeps};
ghost use Rattle.ts_io.specs.Faults.{Counted};
ghost use Rattle.ts_store.specs.Images.{IsDurable};
ghost use Rattle.ts_store.specs.Stands.{Stands};
ghost use Rattle.ts_store.specs.Stores.{opening_history, history_seen};
ghost use Rattle.ts_top.specs.Endings.{is_disk_fault, is_read_fault, is_write_fault};
ghost use Rattle.ts_top.specs.Outcomes.{IfWentOn, RanTo, HeaderAfter, LeftAfter};

use crate::endings::{Ended, status_of};
use crate::openings::open;
use engine_core::Shot;
use policy_jobs::PolicySession;
use std::alloc::Global;
use std::thread::Threads;
use ts_disk::Disk;
use ts_io::{Sink, Source};
use ts_schema::Steps;
use ts_sessions::Session;
use ts_store::Store;

/// The counter of stored rows that answers and refreshes read.
#[derive(Drop)]
struct Reads;

/// Runs the lines of the source in order, on a store whose journal has its header.
fn run_lines<R: Threads + Sync, S: Source, K: Sink, D: Disk>(
    rt: &R,
    alloc: Global,
    source: &mut S,
    sink: &mut K,
    mut store: Store<D>,
) -> Ended<D>
    requires untold { S.ended source.old ≡ false }
    requires goes_on { store.failed ≡ None }
    requires armed { store.armed ≡ true }
    requires whole { opening_history store ≡ history_seen store }
    ensures outcome { (before : Option (List ℕ)) → IfSome before (λ file. Stands file (history_seen store))
        → RanTo result.status
        (IsSome (D.bytes store.begun)) (LeftAfter D.bytes D.may_leave D.moment D.left_since store.begun result.disk)
        ⊥ ⊥ ⊥ (record {
          input = S.left source.old;
          rest = S.left source.new;
          written_before = K.written sink.old;
          written = K.written sink.new;
          file_before = before;
          file = D.bytes result.disk;
          reads = result.reads;
        }) }
    ensures header { HeaderAfter result.status (IsSome (D.bytes store.begun)) (D.bytes result.disk) }
    ensures lasting { IfWentOn result.status
        (IsDurable D.bytes D.may_leave store.begun → IsDurable D.bytes D.may_leave result.disk) }
    ensures reads { Counted (S.faults source.old) (S.faults source.new) (is_read_fault result.status) }
    ensures writes { Counted (K.faults sink.old) (K.faults sink.new) (is_write_fault result.status) }
    ensures disk { Counted (D.faults store.journal.disk) (D.faults result.disk) (is_disk_fault result.status) }
{
    let mut steps = Steps::new(Reads);
    let end = script_run::run::<PolicySession<Session<Shot>>, R, Store<D>, S, K, Reads>(
        rt, alloc, &mut store, source, sink, &mut steps,
    );
    Ended {
        status: status_of(end),
        reads: steps.count(),
        disk: store.close(),
    }
}

/// Runs the lines of the source in order, on the history that the journal on the disk represents.
pub(crate) fn run<R: Threads + Sync, S: Source, K: Sink, D: Disk>(
    rt: &R,
    alloc: Global,
    source: &mut S,
    sink: &mut K,
    disk: D,
) -> Ended<D>
    requires untold { S.ended source.old ≡ false }
    ensures outcome { RanTo result.status
        (IsSome (D.bytes disk)) (LeftAfter D.bytes D.may_leave D.moment D.left_since disk result.disk)
        (source.new ≡ source.old) (sink.new ≡ sink.old)
        (Keeps D.bytes D.may_leave D.moment D.left_since disk result.disk)
        (record {
          input = S.left source.old;
          rest = S.left source.new;
          written_before = K.written sink.old;
          written = K.written sink.new;
          file_before = D.bytes disk;
          file = D.bytes result.disk;
          reads = result.reads;
        }) }
    ensures header { HeaderAfter result.status (IsSome (D.bytes disk)) (D.bytes result.disk) }
    ensures lasting { IfWentOn result.status
        (IsDurable D.bytes D.may_leave disk → IsDurable D.bytes D.may_leave result.disk) }
    ensures reads { Counted (S.faults source.old) (S.faults source.new) (is_read_fault result.status) }
    ensures writes { Counted (K.faults sink.old) (K.faults sink.new) (is_write_fault result.status) }
    ensures disk { Counted (D.faults disk) (D.faults result.disk) (is_disk_fault result.status) }
{
    match open(rt, alloc, disk) {
        Ok(store) => run_lines(rt, alloc, source, sink, store),
        Err(ended) => ended,
    }
}
