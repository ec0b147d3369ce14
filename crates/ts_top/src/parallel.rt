//! Runs inputs by a worker for each session, on the history of a journal.
ghost use Rattle.std.specs.Prelude.{◌≡◌, ◌≢◌, ◌<◌, ◌≤◌, ◌^◌, ℕ, List, None, Option, false, true, length, IfSome, IsSomeAnd, IsTrue, IsSome};
ghost use Rattle.std.specs.Thread.{IsSync};
ghost use Rattle.ts_schema.specs.Faults.{Rose};
ghost use Rattle.ts_disk.specs.Disk.{Keeps};
ghost use Rattle.ts_io.specs.Faults.{Counted};
ghost use Rattle.ts_io.specs.declared.limits.TheConstants.{INPUT_LIMIT};
ghost use Rattle.ts_model.specs.History.{position};
ghost use Rattle.ts_model.specs.States.{stands_still};
ghost use Rattle.ts_top.specs.Scripts.{block_in, first_places, program_replies, program_semantics};
ghost use Rattle.shared_store.specs.Wrapped.{GoesOn};
ghost use Rattle.par_lines.specs.Sorted.{sorted_lines};
ghost use Rattle.par_run.specs.Crews.{LinesRan, LinesRanAsFar};
ghost use Rattle.par_run.specs.Ends.{is_disk_fault};
ghost use Rattle.par_run.specs.Outputs.{output_of, transcript_in};
ghost use Rattle.ts_store.specs.Images.{HasHeader, IsDurable};
ghost use Rattle.ts_store.specs.Stands.{Stands};
ghost use Rattle.ts_store.specs.Stores.{opening_history, history_seen};
ghost use Rattle.transcript.specs.Ascii.{is_ascii_transcript};
ghost use Rattle.ts_top.specs.Endings.{is_read_fault, is_write_fault};
ghost use Rattle.ts_top.specs.Outcomes.{Holds, HeaderAfter, IfWentOn, LeftAfter};
ghost use Rattle.ts_top.specs.Parallel.{CountedAfterDisk, CountedAfterPrinting, CountedAfterWorkers, InputTo, ParTo, Prints, PrintsReplies, PrintsTranscript, output_in};

use crate::endings::{Ended, Status, status_answered};
use crate::openings::open;
use par_run::{ParEnd, ParStop, par as run_in_parallel};
use policy_jobs::PolicySession;
use std::alloc::Global;
use std::mem::forget;
use std::sync::Wait;
use std::thread::Threads;
use transcript::{SessionTranscript, Transcript, send_transcript};
use ts_disk::Disk;
use ts_io::{AllEnd, Sink, Source, WriteFault, read_all, write_whole};
use ts_model::{Backend, Gate, Shown};
use ts_schema::Seq;
use ts_sessions::Session;
use ts_store::Store;

/// The form in which the call prints a parallel run.
#[derive(Clone, Copy, Debug, PartialEq, Eq)]
pub(crate) enum Replies {
    /// The refusals of lines that no session answers, and all replies.
    Plain,
    /// The transcript of the run.
    Json,
}

/// The replies of a parallel run.
#[derive(Drop)]
struct RunReplies {
    /// The position at which the run began.
    start: u64,
    /// The refusals of lines that no session answers, and then all replies.
    text: Seq<u8>,
    /// Whether one of them is a FAULT.
    fault: bool,
    /// The sessions, each with its lines and their replies.
    sessions: Seq<SessionTranscript>,
    /// How the run stopped.
    stop: ParStop,
}

/// Ends a call that ran no statement. Its store's journal has its header.
fn close_store<D: Disk>(store: Store<D>, status: Status) -> Ended<D>
    requires goes_on { store.failed ≡ None }
    requires armed { store.armed ≡ true }
    requires whole { opening_history store ≡ history_seen store }
    ensures status { result.status ≡ status }
    ensures holds { IsSome (D.bytes store.begun) → Holds (D.bytes result.disk) (history_seen store) }
    ensures images { (c : List ℕ)
        → LeftAfter D.bytes D.may_leave D.moment D.left_since store.begun result.disk c → Stands c (history_seen store) }
    ensures header { IsSome (D.bytes store.begun) → IsSomeAnd (D.bytes result.disk) HasHeader }
    ensures lasting { IsDurable D.bytes D.may_leave store.begun → IsDurable D.bytes D.may_leave result.disk }
    ensures uncounted { result.reads ≡ 0 }
    ensures counted { D.faults result.disk ≡ D.faults store.journal.disk }
{
    Ended {
        status,
        disk: store.close(),
        reads: 0,
    }
}

/// Prints the replies of a parallel run that stopped like this. Returns how the call ends. It returns a disk fault even
/// if the sink fails after it. If memory ran out, there are no replies.
fn print_replies<K: Sink>(sink: &mut K, text: &[u8], fault: bool, stop: ParStop) -> Status
    ensures prints { PrintsReplies stop fault text.now result (Rose (K.faults sink.old) (K.faults sink.new))
        (K.written sink.old) (K.written sink.new) }
    ensures counted { CountedAfterDisk result (K.faults sink.old) (K.faults sink.new) }
{
    match stop {
        ParStop::Done => match write_whole(sink, text) {
            Ok(()) => status_answered(fault),
            Err(WriteFault) => Status::WriteFault,
        },
        ParStop::DiskFault => match write_whole(sink, text) {
            Ok(()) => Status::DiskFault,
            Err(WriteFault) => Status::DiskFault,
        },
        ParStop::NoMemory => Status::NoMemory,
    }
}

/// Prints a transcript that is ASCII. Returns how the call ends.
fn print_ascii<K: Sink>(sink: &mut K, transcript: &Transcript, refused: bool) -> Status
    requires ascii { IsTrue (is_ascii_transcript transcript.now) }
    requires start { transcript.now.start < 2 ^ 64 }
    ensures prints { PrintsTranscript ParStop.Done refused transcript.now result
        (K.written sink.old) (K.written sink.new) }
    ensures counted { Counted (K.faults sink.old) (K.faults sink.new) (is_write_fault result) }
{
    match send_transcript(transcript, sink) {
        Ok(()) => status_answered(refused),
        Err(WriteFault) => Status::WriteFault,
    }
}

/// Prints the transcript of a run that was executed to its end. Returns how the call ends.
fn print_executed<K: Sink>(
    sink: &mut K,
    start: u64,
    sessions: Seq<SessionTranscript>,
    refused: bool,
) -> Status
    requires ascii { IsTrue (is_ascii_transcript (record { start = start; sessions = sessions })) }
    ensures prints { PrintsTranscript ParStop.Done refused (record { start = start; sessions = sessions }) result
        (K.written sink.old) (K.written sink.new) }
    ensures counted { Counted (K.faults sink.old) (K.faults sink.new) (is_write_fault result) }
{
    let transcript = Transcript { start, sessions };
    let status = print_ascii(sink, &transcript, refused);
    // The call ends after it, so its memory isn't freed.
    forget(transcript);
    status
}

/// Prints the transcript of a parallel run. Returns how the call ends. It prints nothing if the disk failed or memory
/// ran out.
fn print_transcript<K: Sink>(sink: &mut K, replied: RunReplies) -> Status
    requires ascii { replied.stop ≢ ParStop.NoMemory
        → IsTrue (is_ascii_transcript (transcript_in replied.start (output_in replied))) }
    ensures prints { PrintsTranscript replied.stop replied.fault (transcript_in replied.start (output_in replied))
        result (K.written sink.old) (K.written sink.new) }
    ensures counted { Counted (K.faults sink.old) (K.faults sink.new) (is_write_fault result) }
{
    let RunReplies {
        start,
        fault,
        sessions,
        stop,
        ..
    } = replied;
    match stop {
        ParStop::Done => print_executed(sink, start, sessions, fault),
        ParStop::DiskFault => Status::DiskFault,
        ParStop::NoMemory => Status::NoMemory,
    }
}

/// Prints a parallel run. Returns how the call ends.
fn print_run<K: Sink>(replies: Replies, sink: &mut K, replied: RunReplies) -> Status
    requires ascii { replied.stop ≢ ParStop.NoMemory
        → IsTrue (is_ascii_transcript (transcript_in replied.start (output_in replied))) }
    ensures prints { Prints replies replied.stop replied.start (output_in replied) result
        (Rose (K.faults sink.old) (K.faults sink.new)) (K.written sink.old) (K.written sink.new) }
    ensures counted { CountedAfterPrinting replies result (K.faults sink.old) (K.faults sink.new) }
{
    match replies {
        Replies::Plain => {
            let status = print_replies(sink, replied.text.items(), replied.fault, replied.stop);
            // Not freed, since the process ends after the call.
            forget(replied);
            status
        }
        Replies::Json => print_transcript(sink, replied),
    }
}

/// Runs an input by a worker for each session, on a store that nobody else uses and that hasn't stopped.
fn run_sessions<B, R, G>(rt: &R, alloc: Global, backend: B, input: &[u8], gate: &G) -> ParEnd<B>
where
    B: Backend + Send,
    B::Shot: Send,
    <B::Shot as Shown>::Job: Send + Drop,
    G: Gate + Sync,
    R: Threads + Wait + Sync,
    requires sync { IsSync R.row }
    requires alone { IsTrue B.alone }
    requires going { stands_still (B.state backend) ≡ false }
    requires within { length input.now ≤ INPUT_LIMIT }
    ensures ran { result.stop ≢ ParStop.NoMemory → LinesRan program_replies first_places
        (B.state backend).history (sorted_lines input.now) (B.state result.backend) (output_of result) result.reads }
    ensures as_far { LinesRanAsFar block_in program_semantics.does first_places
        (B.state backend).history (sorted_lines input.now) (B.state result.backend) result.reads }
    ensures start { result.start ≡ position (B.state backend).history }
    ensures stop { result.stop ≢ ParStop.NoMemory
        → stands_still (B.state result.backend) ≡ is_disk_fault result.stop }
    ensures goes_on { GoesOn (B.state backend) (B.state result.backend) }
    ensures kin { B.kin result.backend ≡ B.kin backend }
{
    run_in_parallel::<PolicySession<Session<B::Shot>>, B, R, G>(rt, alloc, backend, input, gate)
}

/// Runs an input by a worker for each session, on a store whose journal has its header, and prints the run.
fn run_input<R, K, D, G>(
    rt: &R,
    alloc: Global,
    replies: Replies,
    input: &[u8],
    sink: &mut K,
    store: Store<D>,
    gate: &G,
) -> Ended<D>
where
    R: Threads + Wait + Sync,
    K: Sink,
    D: Disk + Send,
    G: Gate + Sync,
    requires goes_on { store.failed ≡ None }
    requires armed { store.armed ≡ true }
    requires whole { opening_history store ≡ history_seen store }
    requires within { length input.now ≤ INPUT_LIMIT }
    ensures ran { InputTo replies result.status
        (IsSome (D.bytes store.begun)) (LeftAfter D.bytes D.may_leave D.moment D.left_since store.begun result.disk)
        (Rose (K.faults sink.old) (K.faults sink.new)) (history_seen store) input.now result.reads
        (K.written sink.old) (K.written sink.new) (D.bytes result.disk) }
    ensures header { HeaderAfter result.status (IsSome (D.bytes store.begun)) (D.bytes result.disk) }
    ensures lasting { IfWentOn result.status
        (IsDurable D.bytes D.may_leave store.begun → IsDurable D.bytes D.may_leave result.disk) }
    ensures writes { CountedAfterPrinting replies result.status (K.faults sink.old) (K.faults sink.new) }
    ensures disk { CountedAfterWorkers result.status (D.faults store.journal.disk) (D.faults result.disk) }
{
    let ParEnd {
        backend,
        start,
        text,
        fault,
        sessions,
        reads,
        stop,
    } = run_sessions(rt, alloc, store, input, gate);
    let replied = RunReplies {
        start,
        text,
        fault,
        sessions,
        stop,
    };
    let status = print_run(replies, sink, replied);
    Ended {
        status,
        disk: backend.close(),
        reads,
    }
}

/// Reads the whole input, and runs it by a worker for each session, on a store whose journal has its header.
fn run_all<R, S, K, D, G>(
    rt: &R,
    alloc: Global,
    replies: Replies,
    source: &mut S,
    sink: &mut K,
    store: Store<D>,
    gate: &G,
) -> Ended<D>
where
    R: Threads + Wait + Sync,
    S: Source,
    K: Sink,
    D: Disk + Send,
    G: Gate + Sync,
    requires untold { S.ended source.old ≡ false }
    requires goes_on { store.failed ≡ None }
    requires armed { store.armed ≡ true }
    requires whole { opening_history store ≡ history_seen store }
    ensures outcome { (before : Option (List ℕ)) → IfSome before (λ file. Stands file (history_seen store))
        → ParTo replies result.status
        (IsSome (D.bytes store.begun)) (LeftAfter D.bytes D.may_leave D.moment D.left_since store.begun result.disk)
        (Rose (K.faults sink.old) (K.faults sink.new))
        ⊥ ⊥ ⊥ (record {
          input = S.left source.old;
          rest = S.left source.new;
          written_before = K.written sink.old;
          written = K.written sink.new;
          file_before = before;
          file = D.bytes result.disk;
          reads = result.reads;
        }) }
    ensures header { HeaderAfter result.status (IsSome (D.bytes store.begun)) (D.bytes result.disk) }
    ensures lasting { IfWentOn result.status
        (IsDurable D.bytes D.may_leave store.begun → IsDurable D.bytes D.may_leave result.disk) }
    ensures reads { Counted (S.faults source.old) (S.faults source.new) (is_read_fault result.status) }
    ensures writes { CountedAfterPrinting replies result.status (K.faults sink.old) (K.faults sink.new) }
    ensures disk { CountedAfterWorkers result.status (D.faults store.journal.disk) (D.faults result.disk) }
{
    let mut input = Vec::new(alloc);
    match read_all(source, &mut input) {
        AllEnd::End => run_input(rt, alloc, replies, &input, sink, store, gate),
        AllEnd::InputLong => close_store(store, Status::InputLong),
        AllEnd::ReadFault => close_store(store, Status::ReadFault),
        AllEnd::NoMemory => close_store(store, Status::NoMemory),
    }
}

/// Runs the whole input by a worker for each session, on the history that the journal on the disk represents, and
/// prints the run.
pub(crate) fn par<R, S, K, D, G>(
    rt: &R,
    alloc: Global,
    replies: Replies,
    source: &mut S,
    sink: &mut K,
    disk: D,
    gate: &G,
) -> Ended<D>
where
    R: Threads + Wait + Sync,
    S: Source,
    K: Sink,
    D: Disk + Send,
    G: Gate + Sync,
    requires untold { S.ended source.old ≡ false }
    ensures outcome { ParTo replies result.status
        (IsSome (D.bytes disk)) (LeftAfter D.bytes D.may_leave D.moment D.left_since disk result.disk)
        (Rose (K.faults sink.old) (K.faults sink.new)) (source.new ≡ source.old) (sink.new ≡ sink.old)
        (Keeps D.bytes D.may_leave D.moment D.left_since disk result.disk)
        (record {
          input = S.left source.old;
          rest = S.left source.new;
          written_before = K.written sink.old;
          written = K.written sink.new;
          file_before = D.bytes disk;
          file = D.bytes result.disk;
          reads = result.reads;
        }) }
    ensures header { HeaderAfter result.status (IsSome (D.bytes disk)) (D.bytes result.disk) }
    ensures lasting { IfWentOn result.status
        (IsDurable D.bytes D.may_leave disk → IsDurable D.bytes D.may_leave result.disk) }
    ensures reads { Counted (S.faults source.old) (S.faults source.new) (is_read_fault result.status) }
    ensures writes { CountedAfterPrinting replies result.status (K.faults sink.old) (K.faults sink.new) }
    ensures disk { CountedAfterWorkers result.status (D.faults disk) (D.faults result.disk) }
{
    match open(rt, alloc, disk) {
        Ok(store) => run_all(rt, alloc, replies, source, sink, store, gate),
        Err(ended) => ended,
    }
}
