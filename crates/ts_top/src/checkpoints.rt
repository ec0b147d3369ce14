//! Appends the image of a journal's history to the journal.
ghost use Rattle.std.specs.Prelude.{◌≡◌, ◌++◌, ◌≤◌, ℕ, List, None, Option, codes, decimal, false, length, true, IsSome};
ghost use Rattle.ts_disk.specs.Disk.{Keeps};
ghost use Rattle.ts_io.specs.Faults.{Counted};
ghost use Rattle.ts_store.specs.Images.{IsDurable};
ghost use Rattle.ts_store.specs.Stands.{Stands};
ghost use Rattle.ts_store.specs.Stores.{Rests, Tells, opening_history, history_seen};
ghost use Rattle.ts_top.specs.Checkpoints.{CheckpointTo, Prints, TellsEnd, nothing_text, saved_text, too_long_text};
ghost use Rattle.ts_top.specs.Endings.{is_disk_fault, is_read_fault, is_write_fault};
ghost use Rattle.ts_top.specs.Outcomes.{HeaderAfter, IfWentOn, LeftAfter};

use crate::endings::{Ended, Status};
use crate::openings::open;
use arrayvec::ArrayString;
use itoa::Buffer;
use std::alloc::Global;
use std::thread::Threads;
use ts_disk::Disk;
use ts_io::{Sink, WriteFault, write_whole};
use ts_store::{CheckEnd, Checkpointed, Store};

/// The greatest length of an image in bytes.
const LONGEST_IMAGE: u64 = 1_073_741_824;

/// The line of a checkpoint. It needs no memory, so the call can't run out of memory after the image is written.
type Line = ArrayString<70>;

/// A word, a position and a count of bytes.
fn place_and_bytes(word: &str, pos: u64, bytes: u64) -> Line
    requires short { length word.now ≤ 22 }
    ensures line { result.bytes ≡ word.now ++ decimal pos ++ codes " bytes " ++ decimal bytes ++ codes "\n" }
{
    let mut line = Line::new();
    line.push_str(word);
    line.push_str(Buffer::new().format(pos));
    line.push_str(" bytes ");
    line.push_str(Buffer::new().format(bytes));
    line.push_str("\n");
    line
}

/// The line of an image that is on the disk.
fn saved_line(pos: u64, bytes: u64) -> Line
    ensures line { result.bytes ≡ saved_text pos bytes }
{
    place_and_bytes("CHECKPOINT @", pos, bytes)
}

/// The line of an image that is too long.
fn too_long_line(pos: u64, bytes: u64) -> Line
    ensures line { result.bytes ≡ too_long_text pos bytes }
{
    place_and_bytes("FAULT E25 image_long @", pos, bytes)
}

/// The line of a history without events after its image.
fn nothing_line(pos: u64) -> Line
    ensures line { result.bytes ≡ nothing_text pos }
{
    let mut line = Line::new();
    line.push_str("NOTHING @");
    line.push_str(Buffer::new().format(pos));
    line.push_str("\n");
    line
}

/// Prints a line. Returns `end`, or a write fault if the sink fails.
pub(crate) fn print_line<K: Sink>(sink: &mut K, line: Line, end: Status) -> Status
    requires writes { is_write_fault end ≡ false }
    ensures prints { Prints end line.bytes result (K.written sink.old) (K.written sink.new) }
    ensures counted { Counted (K.faults sink.old) (K.faults sink.new) (is_write_fault result) }
{
    match write_whole(sink, line.as_str().as_bytes()) {
        Ok(()) => end,
        Err(WriteFault) => Status::WriteFault,
    }
}

/// Prints the line for the end of a checkpoint, if it has one.
fn tell_end<K: Sink>(sink: &mut K, end: CheckEnd) -> Status
    ensures tells { TellsEnd end result (sink.new ≡ sink.old) (K.written sink.old) (K.written sink.new) }
    ensures counted { Counted (K.faults sink.old) (K.faults sink.new) (is_write_fault result) }
{
    match end {
        CheckEnd::Done { pos, bytes } => print_line(sink, saved_line(pos, bytes), Status::Done),
        CheckEnd::Nothing { pos } => print_line(sink, nothing_line(pos), Status::Done),
        CheckEnd::TooLong { pos, bytes } => {
            print_line(sink, too_long_line(pos, bytes), Status::Refused)
        }
        CheckEnd::DiskFault => Status::DiskFault,
        // Can't occur: the store hasn't stopped.
        CheckEnd::Stopped(_) => Status::DiskFault,
        CheckEnd::NoMemory => Status::NoMemory,
    }
}

/// Appends the image of a store's history to its journal, which has its header. Prints the line of the outcome.
fn save<K: Sink, D: Disk>(sink: &mut K, store: Store<D>) -> Ended<D>
    requires goes_on { store.failed ≡ None }
    requires armed { store.armed ≡ true }
    requires whole { opening_history store ≡ history_seen store }
    requires stands { (file : List ℕ) → D.bytes store.begun ≡ Some file → Stands file (history_seen store) }
    requires tells { IsSome (D.bytes store.begun) → Tells D.bytes store }
    requires rests { IsDurable D.bytes D.may_leave store.begun → Rests D.bytes D.may_leave store }
    requires images { (c : List ℕ)
        → LeftAfter D.bytes D.may_leave D.moment D.left_since store.begun store.journal.disk c → Stands c (history_seen store) }
    ensures outcome { (input rest : Option (List ℕ)) → CheckpointTo result.status
        (IsSome (D.bytes store.begun)) (LeftAfter D.bytes D.may_leave D.moment D.left_since store.begun result.disk)
        (sink.new ≡ sink.old) ⊥ (record {
          input = input;
          rest = rest;
          written_before = K.written sink.old;
          written = K.written sink.new;
          file_before = D.bytes store.begun;
          file = D.bytes result.disk;
          reads = result.reads;
        }) }
    ensures unread { is_read_fault result.status ≡ false }
    ensures uncounted { result.reads ≡ 0 }
    ensures header { HeaderAfter result.status (IsSome (D.bytes store.begun)) (D.bytes result.disk) }
    ensures lasting { IfWentOn result.status
        (IsDurable D.bytes D.may_leave store.begun → IsDurable D.bytes D.may_leave result.disk) }
    ensures writes { Counted (K.faults sink.old) (K.faults sink.new) (is_write_fault result.status) }
    ensures disk { Counted (D.faults store.journal.disk) (D.faults result.disk) (is_disk_fault result.status) }
{
    let Checkpointed { disk, end } = store.checkpoint(LONGEST_IMAGE);
    Ended {
        status: tell_end(sink, end),
        disk,
        reads: 0,
    }
}

/// Appends the image of the history that the journal on the disk represents to that journal. Prints the line of the
/// outcome. It reads nothing from the source.
pub(crate) fn checkpoint<R: Threads + Sync, K: Sink, D: Disk>(
    rt: &R,
    alloc: Global,
    sink: &mut K,
    disk: D,
) -> Ended<D>
    ensures outcome { (input rest : Option (List ℕ)) → CheckpointTo result.status
        (IsSome (D.bytes disk)) (LeftAfter D.bytes D.may_leave D.moment D.left_since disk result.disk)
        (sink.new ≡ sink.old) (Keeps D.bytes D.may_leave D.moment D.left_since disk result.disk)
        (record {
          input = input;
          rest = rest;
          written_before = K.written sink.old;
          written = K.written sink.new;
          file_before = D.bytes disk;
          file = D.bytes result.disk;
          reads = result.reads;
        }) }
    ensures unread { is_read_fault result.status ≡ false }
    ensures uncounted { result.reads ≡ 0 }
    ensures header { HeaderAfter result.status (IsSome (D.bytes disk)) (D.bytes result.disk) }
    ensures lasting { IfWentOn result.status
        (IsDurable D.bytes D.may_leave disk → IsDurable D.bytes D.may_leave result.disk) }
    ensures writes { Counted (K.faults sink.old) (K.faults sink.new) (is_write_fault result.status) }
    ensures disk { Counted (D.faults disk) (D.faults result.disk) (is_disk_fault result.status) }
{
    match open(rt, alloc, disk) {
        Ok(store) => save(sink, store),
        Err(ended) => ended,
    }
}
