//! The loop over the lines of a script.
ghost use Rattle.std.specs.Prelude.{◌≡◌, false, IsTrue, IfSome};
ghost use Rattle.std.specs.Thread.{IsSync};
ghost use Rattle.ts_io.specs.Faults.{Counted};
ghost use Rattle.ts_model.specs.States.{stands_still};
ghost use Rattle.script_run.specs.Runs.{Ran, is_read_fault, is_write_fault, is_disk_fault};
ghost use Rattle.script_run.specs.Stopped.{end_of_stop, end_of_input};

use crate::ends::RunEnd;
use crate::scripts::{Script, ScriptStop};
use std::alloc::Global;
use std::thread::Threads;
use ts_io::{LineEnd, Lines, Sink, Source};
use ts_model::Backend;
use ts_schema::{NoMemory, Steps};
use ts_sessions::Actor;

/// Runs the lines of a source in order on a store that nobody else uses and that hasn't stopped. It reads each line,
/// executes it in its session, and writes the reply before it reads the next one. `A::begin` creates sessions as they
/// appear.
pub fn run<A, R, B, S, K, L>(
    rt: &R,
    alloc: Global,
    backend: &mut B,
    source: &mut S,
    sink: &mut K,
    steps: &mut Steps<L>,
) -> RunEnd
where
    A: Actor<Shot = B::Shot> + Drop,
    R: Threads + Sync,
    B: Backend,
    S: Source,
    K: Sink,
    requires sync { IsSync R.row }
    requires alone { IsTrue B.alone }
    requires going { stands_still (B.state backend.old) ≡ false }
    requires untold { S.ended source.old ≡ false }
    ensures ran { IfSome (S.left source.old) (λ input.
        Ran result A.semantics (B.state backend.old).history input (S.left source.new) (record {
          store = B.state backend.new;
          written_before = K.written sink.old;
          written = K.written sink.new;
          read_before = steps.old;
          read = steps.new;
        })) }
    ensures reads { Counted (S.faults source.old) (S.faults source.new) (is_read_fault result) }
    ensures writes { Counted (K.faults sink.old) (K.faults sink.new) (is_write_fault result) }
    ensures disk { Counted (B.state backend.old).faults (B.state backend.new).faults (is_disk_fault result) }
    ensures still { stands_still (B.state backend.new) ≡ is_disk_fault result }
    ensures origin { (B.state backend.new).origin ≡ (B.state backend.old).origin }
    ensures kin { B.kin backend.new ≡ B.kin backend.old }
{
    let _so_far = steps.count();
    let mut lines = match Lines::new(alloc) {
        Ok(lines) => lines,
        Err(NoMemory) => return RunEnd::NoMemory,
    };
    let mut script: Script<A> = Script::new(alloc);
    loop {
        match lines.next(source) {
            LineEnd::Line => match script.execute(rt, alloc, backend, lines.line(), sink, steps) {
                Ok(()) => {}
                Err(stop) => return run_end_of_stop(stop),
            },
            LineEnd::LineLong => match script.refuse_long(alloc, sink) {
                Ok(()) => {}
                Err(stop) => return run_end_of_stop(stop),
            },
            LineEnd::End => return run_end_of_input(script.refused),
            LineEnd::InputLong => return RunEnd::InputLong,
            LineEnd::ReadFault => return RunEnd::ReadFault,
        }
    }
}

/// How a run that stopped at a line ends.
fn run_end_of_stop(stop: ScriptStop) -> RunEnd
    ensures { result ≡ end_of_stop stop }
{
    match stop {
        ScriptStop::WriteFault => RunEnd::WriteFault,
        ScriptStop::DiskFault => RunEnd::DiskFault,
        ScriptStop::NoMemory => RunEnd::NoMemory,
    }
}

/// How a run that executed its whole input ends.
fn run_end_of_input(refused: bool) -> RunEnd
    ensures { result ≡ end_of_input refused }
{
    if refused {
        RunEnd::Refused
    } else {
        RunEnd::Done
    }
}
