//! The state of a script between lines.
ghost use Rattle.std.specs.Prelude.{◌≡◌, ◌+◌, ◌<◌, ◌≤◌, ◌^◌, ◌||◌, [], false, true, is_err, length, IfErr, OnOk, OnErr};
ghost use Rattle.std.specs.Thread.{IsSync};
ghost use Rattle.std.specs.Io.KnownBytes.{Appends};
ghost use Rattle.ts_io.specs.Faults.{Counted};
ghost use Rattle.ts_io.specs.Whole.{AppendsPart};
ghost use Rattle.ts_model.specs.States.{stands_still};
ghost use Rattle.result_text.specs.Replies.{line_fault_text};
ghost use Rattle.ts_model.specs.Numbers.{line_long};
ghost use Rattle.ts_sessions.specs.Script.{executes};
ghost use Rattle.ts_sessions.specs.Step.{bare};
ghost use Rattle.script_run.specs.Executing.{AreReady};
ghost use Rattle.script_run.specs.Sessions.{waiting_in, AreSessions, script_over};
ghost use Rattle.script_run.specs.RunStates.{WentOn};
ghost use Rattle.script_run.specs.LineEnds.{LineWritten};
ghost use Rattle.script_run.specs.Stops.{LineCut, RefusalCut, is_disk_stop, is_write_stop, reply_or_stop, stops_by};

use crate::lines::execute_line;
use crate::replies::refuse_line;
use crate::sessions::Sessions;
use indexmap::IndexMap;
use std::alloc::Global;
use std::thread::Threads;
use ts_io::{Sink, WriteFault, write_whole};
use ts_model::{Backend, codes};
use ts_schema::{NoMemory, Steps};
use ts_sessions::{Actor, Reply, StepEnd};

/// Why a script stopped at a line.
#[derive(Clone, Copy, Debug, PartialEq, Eq)]
pub(crate) enum ScriptStop {
    /// The sink failed, and its count of faults rose.
    WriteFault,
    /// The disk failed at an event of the line, and the store's count of faults rose.
    DiskFault,
    /// Out of memory.
    NoMemory,
}

/// The state of a script between lines.
#[derive(Drop)]
pub(crate) struct Script<A> {
    /// The sessions that have appeared.
    pub sessions: Sessions<A>,
    /// The number of the next line.
    pub line: u64,
    /// Whether a reply was a FAULT.
    pub refused: bool,
}

impl<A> Script<A> {
    /// The state before the first line. No session has appeared.
    pub fn new(alloc: Global) -> Script<A>
        ensures nobody { result.sessions.entries ≡ [] }
        ensures first { result.line ≡ 1 }
        ensures quiet { result.refused ≡ false }
    {
        Script {
            sessions: IndexMap::new(alloc),
            line: 1,
            refused: false,
        }
    }

    /// Executes the next line, which has at most 65,536 bytes, and writes its reply.
    pub fn execute<R, B, K, L>(
        &mut self,
        rt: &R,
        alloc: Global,
        backend: &mut B,
        line: &[u8],
        sink: &mut K,
        steps: &mut Steps<L>,
    ) -> Result<(), ScriptStop>
    where
        A: Actor<Shot = B::Shot> + Drop,
        R: Threads + Sync,
        B: Backend,
        K: Sink,
        requires sync { IsSync R.row }
        requires room { self.old.line + 1 < 2 ^ 64 }
        requires ready { AreReady A.Actor B.alone (B.state backend.old) self.old.sessions.entries (length line.now)
            steps.old }
        ensures written { OnOk result (LineWritten
            (executes A.semantics (script_over A.places (B.state backend.old) self.old.sessions.entries)
            self.old.line line.now)
            (script_over A.places (B.state backend.new) self.new.sessions.entries)
            (K.written sink.old) (K.written sink.new) self.old.refused self.new.refused steps.old steps.new) }
        ensures cut { IfErr result (λ stop. LineCut stop
            (executes A.semantics (script_over A.places (B.state backend.old) self.old.sessions.entries)
            self.old.line line.now)
            (B.state backend.old) (B.state backend.new)
            (script_over A.places (B.state backend.new) self.new.sessions.entries)
            (K.written sink.old) (K.written sink.new) steps.old steps.new) }
        ensures numbered { OnOk result (self.new.line ≡ self.old.line + 1) }
        ensures sessions { OnOk result (AreSessions A.Actor (B.state backend.new) self.new.sessions.entries) }
        ensures waiting { waiting_in A.waiting self.new.sessions.entries
            ≤ waiting_in A.waiting self.old.sessions.entries + length line.now }
        ensures store { WentOn (stops_by is_disk_stop result) (B.state backend.old) (B.state backend.new) }
        ensures kin { B.kin backend.new ≡ B.kin backend.old }
        ensures writes { Counted (K.faults sink.old) (K.faults sink.new) (stops_by is_write_stop result) }
    {
        let end = execute_line(
            rt,
            alloc,
            backend,
            &mut self.sessions,
            self.line,
            line,
            steps,
        );
        let reply = reply_of(end, backend)?;
        self.answer(reply, sink)
    }

    /// Refuses the next line, which has more than 65,536 bytes.
    pub fn refuse_long<K: Sink>(&mut self, alloc: Global, sink: &mut K) -> Result<(), ScriptStop>
        requires room { self.old.line + 1 < 2 ^ 64 }
        ensures wrote { OnOk result (Appends (K.written sink.old) (K.written sink.new)
            (line_fault_text self.old.line (bare line_long))) }
        ensures refused { OnOk result (self.new.refused ≡ true) }
        ensures cut { IfErr result (λ stop. RefusalCut stop (K.written sink.old) (K.written sink.new)
            (line_fault_text self.old.line (bare line_long))) }
        ensures numbered { OnOk result (self.new.line ≡ self.old.line + 1) }
        ensures sessions { self.new.sessions ≡ self.old.sessions }
        ensures writes { Counted (K.faults sink.old) (K.faults sink.new) (stops_by is_write_stop result) }
    {
        match refuse_line(alloc, self.line, codes::LINE_LONG) {
            Ok(reply) => self.answer(reply, sink),
            Err(NoMemory) => Err(ScriptStop::NoMemory),
        }
    }

    /// Writes the reply to an executed line, and advances to the next line.
    fn answer<K: Sink>(&mut self, reply: Reply, sink: &mut K) -> Result<(), ScriptStop>
        requires room { self.old.line + 1 < 2 ^ 64 }
        ensures wrote { OnOk result (Appends (K.written sink.old) (K.written sink.new) reply.text) }
        ensures refused { OnOk result (self.new.refused ≡ (self.old.refused || reply.fault)) }
        ensures part { OnErr result (AppendsPart (K.written sink.old) (K.written sink.new) reply.text) }
        ensures stops { IfErr result (λ stop. stop ≡ ScriptStop.WriteFault) }
        ensures numbered { OnOk result (self.new.line ≡ self.old.line + 1) }
        ensures sessions { self.new.sessions ≡ self.old.sessions }
        ensures writes { Counted (K.faults sink.old) (K.faults sink.new) (is_err result) }
    {
        match write_whole(sink, reply.text.items()) {
            Ok(()) => {
                self.refused |= reply.fault;
                self.line += 1;
                Ok(())
            }
            Err(WriteFault) => Err(ScriptStop::WriteFault),
        }
    }
}

/// The reply to a line that ended like this, or why it has none. If the disk failed and then memory ran out, it returns
/// the disk fault.
fn reply_of<B: Backend>(end: StepEnd, backend: &B) -> Result<Reply, ScriptStop>
    ensures { result ≡ reply_or_stop (stands_still (B.state backend.now)) end }
{
    match end {
        StepEnd::Reply(reply) => Ok(reply),
        StepEnd::DiskFault(_) => Err(ScriptStop::DiskFault),
        StepEnd::NoMemory => match backend.stopped() {
            Some(_) => Err(ScriptStop::DiskFault),
            None => Err(ScriptStop::NoMemory),
        },
    }
}
