//! Executes a line of a script.
ghost use Rattle.std.specs.Prelude.{◌≡◌, ◌+◌, ◌≤◌, take, drop, length};
ghost use Rattle.std.specs.Thread.{IsSync};
ghost use Rattle.ts_sessions.specs.Script.{executes, executes_as, places_of};
ghost use Rattle.script_run.specs.Executing.{AreReady, HaveTaken};
ghost use Rattle.script_run.specs.Sessions.{script_over};
ghost use Rattle.stmt_tokens.specs.Lines.{session_name, IsStatementLine};

use crate::replies::{refuse_line, silence, step_end_of};
use crate::sessions::{Sessions, execute_in_session};
use std::alloc::Global;
use std::thread::Threads;
use stmt_tokens::{LineKind, split_line};
use ts_model::{Backend, codes};
use ts_schema::Steps;
use ts_sessions::{Actor, StepEnd};

/// Executes the line with this number, which has at most 65,536 bytes.
pub(crate) fn execute_line<A, R, B, L>(
    rt: &R,
    alloc: Global,
    backend: &mut B,
    sessions: &mut Sessions<A>,
    number: u64,
    line: &[u8],
    steps: &mut Steps<L>,
) -> StepEnd
where
    A: Actor<Shot = B::Shot> + Drop,
    R: Threads + Sync,
    B: Backend,
    requires sync { IsSync R.row }
    requires ready { AreReady A.Actor B.alone (B.state backend.old) sessions.old.entries (length line.now) steps.old }
    ensures { HaveTaken A.Actor B.Backend backend.old sessions.old.entries (length line.now)
        (executes A.semantics (script_over A.places (B.state backend.old) sessions.old.entries) number line.now)
        result backend.new sessions.new.entries steps.old steps.new }
{
    match split_line(line) {
        LineKind::Blank => StepEnd::Reply(silence(alloc)),
        LineKind::NotAscii => step_end_of(refuse_line(alloc, number, codes::NOT_ASCII)),
        LineKind::NoSession => step_end_of(refuse_line(alloc, number, codes::NO_SESSION)),
        LineKind::Stmt {
            name_len,
            skip,
            end,
        } => execute_statement(
            rt, alloc, backend, sessions, line, name_len, skip, end, steps,
        ),
    }
}

/// Executes a line in its session. The other arguments are the length of the session's name, and how many bytes
/// come before its statement and before its comment.
fn execute_statement<A, R, B, L>(
    rt: &R,
    alloc: Global,
    backend: &mut B,
    sessions: &mut Sessions<A>,
    line: &[u8],
    name_len: u32,
    skip: u32,
    end: u32,
    steps: &mut Steps<L>,
) -> StepEnd
where
    A: Actor<Shot = B::Shot> + Drop,
    R: Threads + Sync,
    B: Backend,
    requires sync { IsSync R.row }
    requires statement_line { IsStatementLine line.now name_len skip end }
    requires ready { AreReady A.Actor B.alone (B.state backend.old) sessions.old.entries (length line.now) steps.old }
    ensures { let script_state = script_over A.places (B.state backend.old) sessions.old.entries in
        let name = session_name line.now name_len skip in
        HaveTaken A.Actor B.Backend backend.old sessions.old.entries (length line.now)
        (executes_as A.semantics script_state name (take end line.now) skip (places_of name script_state.sessions))
        result backend.new sessions.new.entries steps.old steps.new }
{
    let from = skip as usize - 1 - name_len as usize;
    let name = name_at(line, from, name_len as usize);
    let text = &line[..end as usize];
    execute_in_session(rt, alloc, backend, sessions, name, text, skip, steps)
}

/// The bytes of a line from `from` on, up to a length.
fn name_at(line: &[u8], from: usize, len: usize) -> &[u8]
    requires { from + len ≤ length line.now }
    ensures { result.now ≡ take len (drop from line.now) }
{
    &line[from..from + len]
}
