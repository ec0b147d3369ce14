//! Audits a transcript against a journal.
ghost use Rattle.std.specs.Prelude.{◌≡◌, ◌++◌, ◌≤◌, ℕ, List, Option, codes, decimal, false, length};
ghost use Rattle.std.specs.Thread.{IsSync};
ghost use Rattle.ts_disk.specs.Disk.{Keeps};
ghost use Rattle.ts_io.specs.Faults.{Counted};
ghost use Rattle.ts_model.specs.History.{position};
ghost use Rattle.engine_core.specs.Histories.{history_of};
ghost use Rattle.ts_top.specs.Audits.{AuditTo, AuditTold, AuditsBeside, PrintsAudit, reply_line, yes_text};
ghost use Rattle.ts_top.specs.Endings.{is_disk_fault, is_read_fault, is_write_fault};

use crate::checkpoints::print_line;
use crate::endings::{Ended, Status};
use arrayvec::ArrayString;
use audit::{Audit, audit};
use engine_core::Ledger;
use itoa::Buffer;
use std::alloc::Global;
use std::mem::forget;
use std::thread::Threads;
use ts_disk::Disk;
use ts_io::{AllEnd, Sink, Source, read_all};
use ts_store::{HistoryRead, read_history};

/// The line of an audit. It needs no memory.
type Line = ArrayString<70>;

/// A word and a position.
fn word_at(word: &str, at: u64) -> Line
    requires short { length word.now ≤ 20 }
    ensures line { result.bytes ≡ word.now ++ decimal at ++ codes "\n" }
{
    let mut line = Line::new();
    line.push_str(word);
    line.push_str(Buffer::new().format(at));
    line.push_str("\n");
    line
}

/// A reply by its session and its index, after a word.
fn reply_at(word: &str, session: u64, reply: u64) -> Line
    requires short { length word.now ≤ 21 }
    ensures line { result.bytes ≡ reply_line word.now session reply }
{
    let mut line = Line::new();
    line.push_str(word);
    line.push_str(Buffer::new().format(session));
    line.push_str(" reply ");
    line.push_str(Buffer::new().format(reply));
    line.push_str("\n");
    line
}

/// The line if all replies are explained: the number of replies, and the position at which the history ends.
fn yes_line(replies: u64, end: u64) -> Line
    ensures line { result.bytes ≡ yes_text end replies }
{
    let mut line = Line::new();
    line.push_str("AUDIT YES replies ");
    line.push_str(Buffer::new().format(replies));
    line.push_str(" @");
    line.push_str(Buffer::new().format(end));
    line.push_str("\n");
    line
}

/// The line of a reply that isn't explained.
fn no_line(session: u64, reply: u64) -> Line
    ensures line { result.bytes ≡ reply_line (codes "AUDIT NO session ") session reply }
{
    reply_at("AUDIT NO session ", session, reply)
}

/// The line of a position that isn't named exactly once.
fn lost_line(at: u64) -> Line
    ensures line { result.bytes ≡ codes "AUDIT LOST @" ++ decimal at ++ codes "\n" }
{
    word_at("AUDIT LOST @", at)
}

/// The line of a reply to a statement on policies.
fn policy_line(session: u64, reply: u64) -> Line
    ensures line { result.bytes ≡ reply_line (codes "AUDIT POLICY session ") session reply }
{
    reply_at("AUDIT POLICY session ", session, reply)
}

/// The line of a start that isn't in the history. `at` is the history's end.
fn early_line(at: u64) -> Line
    ensures line { result.bytes ≡ codes "AUDIT EARLY @" ++ decimal at ++ codes "\n" }
{
    word_at("AUDIT EARLY @", at)
}

/// The line of a text that isn't a transcript.
fn bad_line() -> Line
    ensures line { result.bytes ≡ codes "AUDIT BAD\n" }
{
    let mut line = Line::new();
    line.push_str("AUDIT BAD\n");
    line
}

/// Prints the line of an audit over a history that ends at a position. Returns how the call ends. Prints nothing if
/// memory ran out.
fn print_audit<K: Sink>(sink: &mut K, audit: Audit, end: u64) -> Status
    ensures prints { PrintsAudit audit end result (sink.new ≡ sink.old) (K.written sink.old) (K.written sink.new) }
    ensures counted { Counted (K.faults sink.old) (K.faults sink.new) (is_write_fault result) }
{
    match audit {
        Audit::Yes(replies) => print_line(sink, yes_line(replies, end), Status::Done),
        Audit::No { session, reply } => {
            print_line(sink, no_line(session, reply), Status::Refused)
        }
        Audit::Lost(at) => print_line(sink, lost_line(at), Status::Refused),
        Audit::Policy { session, reply } => {
            print_line(sink, policy_line(session, reply), Status::Refused)
        }
        Audit::Early(at) => print_line(sink, early_line(at), Status::Refused),
        Audit::BadText => print_line(sink, bad_line(), Status::Refused),
        Audit::NoMemory => Status::NoMemory,
    }
}

/// Prints whether the history of a ledger explains the transcript in `text`. Returns how the call ends.
fn audit_read<R: Threads + Sync, K: Sink>(
    rt: &R,
    alloc: Global,
    text: &[u8],
    sink: &mut K,
    ledger: &Ledger,
) -> Status
    requires sync { IsSync R.row }
    ensures told { AuditTold (history_of ledger.now.past) text.now result (sink.new ≡ sink.old)
        (K.written sink.old) (K.written sink.new) }
    ensures counted { Counted (K.faults sink.old) (K.faults sink.new) (is_write_fault result) }
{
    let end = ledger.length();
    let found = audit(rt, alloc, ledger.base(), ledger.events(), text);
    print_audit(sink, found, end)
}

/// Prints whether the history that the journal on the disk represents explains the transcript in `text`. The disk
/// stays as it was. The call never frees the history, since the process is about to end and freeing its events one
/// by one would take time.
fn audit_beside<R, K, D>(rt: &R, alloc: Global, text: &[u8], sink: &mut K, disk: D) -> Ended<D>
where
    R: Threads + Sync,
    K: Sink,
    D: Disk,
    requires sync { IsSync R.row }
    ensures outcome { (input rest : Option (List ℕ)) → AuditsBeside result.status (sink.new ≡ sink.old) text.now (record {
      input = input;
      rest = rest;
      written_before = K.written sink.old;
      written = K.written sink.new;
      file_before = D.bytes disk;
      file = D.bytes result.disk;
      reads = result.reads;
    }) }
    ensures kept { Keeps D.bytes D.may_leave D.moment D.left_since disk result.disk }
    ensures uncounted { result.reads ≡ 0 }
    ensures writes { Counted (K.faults sink.old) (K.faults sink.new) (is_write_fault result.status) }
    ensures disk { Counted (D.faults disk) (D.faults result.disk) (is_disk_fault result.status) }
{
    match read_history(rt, alloc, disk) {
        HistoryRead::Ready { disk, ledger } => {
            let status = audit_read(rt, alloc, text, sink, &ledger);
            forget(ledger);
            Ended {
                status,
                disk,
                reads: 0,
            }
        }
        HistoryRead::Damaged { disk, at } => Ended {
            status: Status::Damaged(at),
            disk,
            reads: 0,
        },
        HistoryRead::DiskFault(disk) => Ended {
            status: Status::DiskFault,
            disk,
            reads: 0,
        },
        HistoryRead::NoMemory(disk) => Ended {
            status: Status::NoMemory,
            disk,
            reads: 0,
        },
    }
}

/// Reads a transcript, and prints whether the history that the journal on the disk represents explains it. The
/// journal is read after the end of the text: the run that writes the transcript may write the journal until then.
pub(crate) fn audit_transcript<R, S, K, D>(
    rt: &R,
    alloc: Global,
    source: &mut S,
    sink: &mut K,
    disk: D,
) -> Ended<D>
where
    R: Threads + Sync,
    S: Source,
    K: Sink,
    D: Disk,
    requires sync { IsSync R.row }
    requires untold { S.ended source.old ≡ false }
    ensures outcome { AuditTo result.status (sink.new ≡ sink.old) (result.disk ≡ disk) (record {
      input = S.left source.old;
      rest = S.left source.new;
      written_before = K.written sink.old;
      written = K.written sink.new;
      file_before = D.bytes disk;
      file = D.bytes result.disk;
      reads = result.reads;
    }) }
    ensures kept { Keeps D.bytes D.may_leave D.moment D.left_since disk result.disk }
    ensures uncounted { result.reads ≡ 0 }
    ensures reads { Counted (S.faults source.old) (S.faults source.new) (is_read_fault result.status) }
    ensures writes { Counted (K.faults sink.old) (K.faults sink.new) (is_write_fault result.status) }
    ensures disk { Counted (D.faults disk) (D.faults result.disk) (is_disk_fault result.status) }
{
    let mut text = Vec::new(alloc);
    match read_all(source, &mut text) {
        AllEnd::End => audit_beside(rt, alloc, &text, sink, disk),
        AllEnd::InputLong => Ended {
            status: Status::InputLong,
            disk,
            reads: 0,
        },
        AllEnd::ReadFault => Ended {
            status: Status::ReadFault,
            disk,
            reads: 0,
        },
        AllEnd::NoMemory => Ended {
            status: Status::NoMemory,
            disk,
            reads: 0,
        },
    }
}
