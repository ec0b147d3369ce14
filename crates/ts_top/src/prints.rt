//! Prints texts of a journal.
ghost use Rattle.std.specs.Prelude.{◌≡◌, ◌+◌, ◌++◌, ◌<◌, ◌^◌, ℕ, List, Option, IfOk, OnErr, OnOk, length, string_bytes};
ghost use Rattle.std.specs.Io.KnownBytes.{Appends};
ghost use Rattle.ts_disk.specs.Disk.{Keeps};
ghost use Rattle.ts_io.specs.Faults.{Counted};
ghost use Rattle.ts_io.specs.Whole.{AppendsPart};
ghost use Rattle.engine_core.specs.Histories.{history_of};
ghost use Rattle.result_text.specs.Events.{log_text};
ghost use Rattle.ts_model.specs.Roster.{view_of};
ghost use Rattle.ts_top.specs.Endings.{is_disk_fault, is_write_fault};
ghost use Rattle.ts_top.specs.Logs.{begun_text, check_of, image_text, lines_after, log_of, text_of, waiting_text, waiting_texts};
ghost use Rattle.ts_top.specs.Stops.{failed_writing, status_of_print};
ghost use Rattle.ts_top.specs.Outcomes.{PrintedTo};

use crate::commands::Text;
use crate::endings::{Ended, Status};
use engine_core::Ledger;
use result_text::{put_event, put_history, put_pending};
use std::alloc::Global;
use std::mem::forget;
use std::thread::Threads;
use ts_bucket::first;
use ts_disk::Disk;
use ts_io::{Sink, WriteFault, write_whole};
use ts_model::{Event, Image, Roster, Waiting};
use ts_schema::NoMemory;
use ts_store::{HistoryRead, read_history};

/// Why printing stopped.
#[derive(Clone, Copy, Debug, PartialEq, Eq)]
enum PrintStop {
    /// The sink failed, and its count of faults rose.
    WriteFault,
    /// Out of memory.
    NoMemory,
}

impl From<NoMemory> for PrintStop {
    ghost use Rattle.ts_top.specs.declared.prints.PrintStop.TheVariants as stops;

    ghost from_gives = { λ _ e. e ≡ stops.NoMemory };

    fn from(_refused: NoMemory) -> PrintStop {
        PrintStop::NoMemory
    }
}

impl From<WriteFault> for PrintStop {
    ghost use Rattle.ts_top.specs.declared.prints.PrintStop.TheVariants as stops;

    ghost from_gives = { λ _ e. e ≡ stops.WriteFault };

    fn from(_failed: WriteFault) -> PrintStop {
        PrintStop::WriteFault
    }
}

/// Prints a line of the log.
fn print_event<K: Sink>(
    alloc: Global,
    sink: &mut K,
    number: u64,
    event: &Event,
    names: &Roster,
) -> Result<(), PrintStop>
    ensures done { OnOk result (Appends (K.written sink.old) (K.written sink.new)
        (log_text number names.now event.now)) }
    ensures part { OnErr result (AppendsPart (K.written sink.old) (K.written sink.new)
        (log_text number names.now event.now)) }
    ensures counted { Counted (K.faults sink.old) (K.faults sink.new) (failed_writing result) }
{
    let mut line = Vec::new(alloc);
    put_event(number, event, names, &mut line)?;
    write_whole(sink, &line)?;
    Ok(())
}

/// Prints a line for each of some events, which follow a position.
fn print_events<K: Sink>(
    alloc: Global,
    sink: &mut K,
    after: u64,
    events: &[Event],
    names: &Roster,
) -> Result<(), PrintStop>
    requires room { after + length events.now < 2 ^ 64 }
    ensures done { OnOk result (Appends (K.written sink.old) (K.written sink.new)
        (lines_after names.now after events.now)) }
    ensures part { OnErr result (AppendsPart (K.written sink.old) (K.written sink.new)
        (lines_after names.now after events.now)) }
    ensures counted { Counted (K.faults sink.old) (K.faults sink.new) (failed_writing result) }
{
    let mut number = after;
    for event in events {
        number += 1;
        print_event(alloc, sink, number, event, names)?;
    }
    Ok(())
}

/// The line of an image at a position.
fn image_line(alloc: Global, pos: u64) -> Result<String, NoMemory>
    ensures line { IfOk result (λ line. string_bytes line ≡ image_text pos) }
{
    Ok(format!(in alloc; "IMAGE @{}\n", pos)?)
}

/// Prints the line of the image that a history begins with, if there is one.
fn print_base<K: Sink>(alloc: Global, sink: &mut K, base: &Option<Image>) -> Result<(), PrintStop>
    ensures done { OnOk result (Appends (K.written sink.old) (K.written sink.new) (begun_text base.now)) }
    ensures part { OnErr result (AppendsPart (K.written sink.old) (K.written sink.new) (begun_text base.now)) }
    ensures counted { Counted (K.faults sink.old) (K.faults sink.new) (failed_writing result) }
{
    match base {
        None => Ok(()),
        Some(image) => {
            let line = image_line(alloc, image.pos)?;
            write_whole(sink, line.as_bytes())?;
            Ok(())
        }
    }
}

/// Prints the log of a ledger's history.
fn print_log<K: Sink>(alloc: Global, sink: &mut K, ledger: &Ledger) -> Result<(), PrintStop>
    ensures done { OnOk result (Appends (K.written sink.old) (K.written sink.new)
        (log_of (history_of ledger.now.past))) }
    ensures part { OnErr result (AppendsPart (K.written sink.old) (K.written sink.new)
        (log_of (history_of ledger.now.past))) }
    ensures counted { Counted (K.faults sink.old) (K.faults sink.new) (failed_writing result) }
{
    let events = ledger.events();
    let after = ledger.length() - events.len() as u64;
    print_base(alloc, sink, ledger.base())?;
    print_events(alloc, sink, after, events, ledger.roster())?;
    Ok(())
}

/// Appends the line of a pending refresh.
fn put_waiting(refresh: &Waiting, names: &Roster, out: &mut Vec<u8>) -> Result<(), NoMemory>
    ensures appended { IfOk result (λ _. out.new.items
        ≡ out.old.items ++ waiting_text refresh.now (view_of names.now refresh.now.view)) }
{
    match names.views.items().get(refresh.view as usize) {
        None => Ok(()),
        Some(def) => put_pending(
            refresh.cut,
            &def.name,
            refresh.span,
            first(def.fold.width),
            out,
        ),
    }
}

/// Appends the lines of pending refreshes.
fn put_all_waiting(refreshes: &[Waiting], names: &Roster, out: &mut Vec<u8>) -> Result<(), NoMemory>
    ensures appended { IfOk result (λ _. out.new.items ≡ out.old.items ++ waiting_texts names.now refreshes.now) }
{
    for refresh in refreshes {
        put_waiting(refresh, names, out)?;
    }
    Ok(())
}

/// The position of a ledger's history, and its pending refreshes.
fn check_text(alloc: Global, ledger: &Ledger) -> Result<Vec<u8>, NoMemory>
    ensures text { IfOk result (λ text. text.items ≡ check_of (history_of ledger.now.past)) }
{
    let mut text = Vec::new(alloc);
    put_history(ledger.length(), &mut text)?;
    put_all_waiting(ledger.waiting()?.items(), ledger.roster(), &mut text)?;
    Ok(text)
}

/// Prints the position of a ledger's history, and its pending refreshes.
fn print_check<K: Sink>(alloc: Global, sink: &mut K, ledger: &Ledger) -> Result<(), PrintStop>
    ensures done { OnOk result (Appends (K.written sink.old) (K.written sink.new)
        (check_of (history_of ledger.now.past))) }
    ensures part { OnErr result (AppendsPart (K.written sink.old) (K.written sink.new)
        (check_of (history_of ledger.now.past))) }
    ensures counted { Counted (K.faults sink.old) (K.faults sink.new) (failed_writing result) }
{
    let text = check_text(alloc, ledger)?;
    write_whole(sink, &text)?;
    Ok(())
}

/// Prints a text of a ledger's history.
fn print_text<K: Sink>(
    alloc: Global,
    sink: &mut K,
    ledger: &Ledger,
    text: Text,
) -> Result<(), PrintStop>
    ensures done { OnOk result (Appends (K.written sink.old) (K.written sink.new)
        (text_of text (history_of ledger.now.past))) }
    ensures part { OnErr result (AppendsPart (K.written sink.old) (K.written sink.new)
        (text_of text (history_of ledger.now.past))) }
    ensures counted { Counted (K.faults sink.old) (K.faults sink.new) (failed_writing result) }
{
    match text {
        Text::Log => print_log(alloc, sink, ledger),
        Text::Check => print_check(alloc, sink, ledger),
    }
}

/// How a call ends after printing ended like this.
fn status_of_print(printed: Result<(), PrintStop>) -> Status
    ensures { result ≡ status_of_print printed }
{
    match printed {
        Ok(()) => Status::Done,
        Err(PrintStop::WriteFault) => Status::WriteFault,
        Err(PrintStop::NoMemory) => Status::NoMemory,
    }
}

/// Prints a text of the journal on the disk, and leaves the disk as it was. The call never frees the history,
/// since the process is about to end and freeing its events one by one would take time.
pub(crate) fn print<R: Threads + Sync, K: Sink, D: Disk>(
    rt: &R,
    alloc: Global,
    sink: &mut K,
    disk: D,
    text: Text,
) -> Ended<D>
    ensures outcome { (input rest : Option (List ℕ)) → PrintedTo (text_of text) result.status (sink.new ≡ sink.old)
        (record {
          input = input;
          rest = rest;
          written_before = K.written sink.old;
          written = K.written sink.new;
          file_before = D.bytes disk;
          file = D.bytes result.disk;
          reads = result.reads;
        }) }
    ensures kept { Keeps D.bytes D.may_leave D.moment D.left_since disk result.disk }
    ensures uncounted { result.reads ≡ 0 }
    ensures writes { Counted (K.faults sink.old) (K.faults sink.new) (is_write_fault result.status) }
    ensures disk { Counted (D.faults disk) (D.faults result.disk) (is_disk_fault result.status) }
{
    match read_history(rt, alloc, disk) {
        HistoryRead::Ready { disk, ledger } => {
            let printed = print_text(alloc, sink, &ledger, text);
            forget(ledger);
            Ended {
                status: status_of_print(printed),
                disk,
                reads: 0,
            }
        }
        HistoryRead::Damaged { disk, at } => Ended {
            status: Status::Damaged(at),
            disk,
            reads: 0,
        },
        HistoryRead::DiskFault(disk) => Ended {
            status: Status::DiskFault,
            disk,
            reads: 0,
        },
        HistoryRead::NoMemory(disk) => Ended {
            status: Status::NoMemory,
            disk,
            reads: 0,
        },
    }
}
