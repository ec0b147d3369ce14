//! The top call.
ghost use Rattle.std.specs.Prelude.{◌≡◌, ◌↔◌, false, None, map, string_bytes, IsSome};
ghost use Rattle.ts_disk.specs.Disk.{Keeps};
ghost use Rattle.ts_io.specs.Faults.{Counted};
ghost use Rattle.ts_schema.specs.Faults.{Rose};
ghost use Rattle.ts_store.specs.Images.{IsDurable};
ghost use Rattle.ts_top.specs.Commands.{command_of};
ghost use Rattle.ts_top.specs.Calls.{DiskCounted, IfDemo, IfWrites, OutcomeOf, SinkCounted};
ghost use Rattle.ts_top.specs.Endings.{is_read_fault};
ghost use Rattle.ts_top.specs.Outcomes.{HeaderAfter, IfWentOn, LeftAfter};

use crate::audits::audit_transcript;
use crate::checkpoints::checkpoint;
use crate::commands::{Command, command_of};
use crate::demos::print_demo;
use crate::endings::{Ended, Status};
use crate::parallel::{Replies, par};
use crate::prints::print;
use crate::scripts::run;
use std::alloc::Global;
use std::sync::Wait;
use std::thread::Threads;
use ts_disk::Disk;
use ts_io::{Sink, Source};
use ts_model::Gate;

/// Runs the command that the words name, with or without `--` before them. `run` runs the lines of the source in order
/// on the history of the journal on the disk, and writes their replies to the sink. `par` reads all lines, and runs
/// them by a worker for each session. `par json` does the same, and writes the transcript of the run instead of its
/// replies, unless the disk failed or memory ran out. `demo` and a number runs the script of a demonstration on a new
/// disk in memory, and writes a summary. `log` and `check` print the contents of the journal. `checkpoint` appends the
/// image of the journal's history to the journal, so that a later call begins there. `audit` reads a transcript, and
/// writes whether the history of the journal explains it. Other words do nothing.
///
/// The source must not have reported its end. Only the workers of `par` and `par json` call the worker hook; the call
/// may wait for it.
pub fn run_words<R, S, K, D, G>(
    rt: &R,
    alloc: Global,
    words: &[String],
    source: &mut S,
    sink: &mut K,
    disk: D,
    gate: &G,
) -> Ended<D>
where
    R: Threads + Wait + Sync,
    S: Source,
    K: Sink,
    D: Disk + Send,
    G: Gate + Sync,
    requires untold { S.ended source.old ≡ false }
    ensures words { (result.status ≡ Status.BadWords) ↔ (command_of (map string_bytes words.now) ≡ None) }
    ensures outcome { OutcomeOf (command_of (map string_bytes words.now)) result.status
        (IsSome (D.bytes disk)) (LeftAfter D.bytes D.may_leave D.moment D.left_since disk result.disk)
        (Rose (K.faults sink.old) (K.faults sink.new)) (source.new ≡ source.old) (sink.new ≡ sink.old)
        (Keeps D.bytes D.may_leave D.moment D.left_since disk result.disk) (result.disk ≡ disk)
        (record {
          input = S.left source.old;
          rest = S.left source.new;
          written_before = K.written sink.old;
          written = K.written sink.new;
          file_before = D.bytes disk;
          file = D.bytes result.disk;
          reads = result.reads;
        }) }
    ensures header { IfWrites (command_of (map string_bytes words.now))
        (HeaderAfter result.status (IsSome (D.bytes disk)) (D.bytes result.disk)) }
    // No later crash removes an event or an image.
    ensures lasting { IfWrites (command_of (map string_bytes words.now)) (IfWentOn result.status
        (IsDurable D.bytes D.may_leave disk → IsDurable D.bytes D.may_leave result.disk)) }
    ensures untouched { IfDemo (command_of (map string_bytes words.now)) (result.disk ≡ disk) }
    ensures reads { Counted (S.faults source.old) (S.faults source.new) (is_read_fault result.status) }
    ensures writes { SinkCounted (command_of (map string_bytes words.now)) result.status
        (K.faults sink.old) (K.faults sink.new) }
    ensures disk { DiskCounted (command_of (map string_bytes words.now)) result.status
        (D.faults disk) (D.faults result.disk) }
{
    match command_of(words) {
        Some(Command::Run) => run(rt, alloc, source, sink, disk),
        Some(Command::Par) => par(rt, alloc, Replies::Plain, source, sink, disk, gate),
        Some(Command::ParJson) => par(rt, alloc, Replies::Json, source, sink, disk, gate),
        Some(Command::Demo(number)) => print_demo(rt, alloc, sink, disk, number),
        Some(Command::Print(text)) => print(rt, alloc, sink, disk, text),
        Some(Command::Checkpoint) => checkpoint(rt, alloc, sink, disk),
        Some(Command::Audit) => audit_transcript(rt, alloc, source, sink, disk),
        None => Ended {
            status: Status::BadWords,
            disk,
            reads: 0,
        },
    }
}
