//! The sessions of a script.
ghost use Rattle.std.specs.Prelude.{◌≡◌, ◌+◌, ◌<◌, ◌≤◌, None, length, IsTrue, IfOk, OnOk};
ghost use Rattle.std.specs.Thread.{IsSync};
ghost use Rattle.indexmap.specs.IndexMap.{index_map_len, spare};
ghost use Rattle.ts_schema.specs.Names.{is_name};
ghost use Rattle.stmt_syntax.specs.Limits.{longest_line};
ghost use Rattle.ts_sessions.specs.Held.{most_queued};
ghost use Rattle.ts_sessions.specs.Script.{executes_as, places_of, takes_turn};
ghost use Rattle.ts_sessions.specs.Sessions.{IfAnswered, Stepped};
ghost use Rattle.script_run.specs.Executing.{AreReady, HaveTaken};
ghost use Rattle.script_run.specs.Sessions.{sessions_of, script_over};

use crate::replies::{refuse_session, step_end_of};
use indexmap::IndexMap;
use std::alloc::Global;
use std::thread::Threads;
use ts_model::limits::MOST_SESSIONS;
use ts_model::{Backend, Gate, NoGate, codes};
use ts_schema::{Name, NoMemory, Steps};
use ts_sessions::{Actor, StepEnd};

/// The sessions that have appeared, by their names, in order of appearance.
pub(crate) type Sessions<A> = IndexMap<Vec<u8>, A>;

/// Executes a line in the session `name`, which has appeared before or is new.
pub(crate) fn execute_in_session<A, R, B, L>(
    rt: &R,
    alloc: Global,
    backend: &mut B,
    sessions: &mut Sessions<A>,
    name: &[u8],
    text: &[u8],
    skip: u32,
    steps: &mut Steps<L>,
) -> StepEnd
where
    A: Actor<Shot = B::Shot> + Drop,
    R: Threads + Sync,
    B: Backend,
    requires sync { IsSync R.row }
    requires name { IsTrue (is_name name.now) }
    requires within { skip ≤ length text.now }
    requires ready { AreReady A.Actor B.alone (B.state backend.old) sessions.old.entries (length text.now) steps.old }
    ensures { let script_state = script_over A.places (B.state backend.old) sessions.old.entries in
        HaveTaken A.Actor B.Backend backend.old sessions.old.entries (length text.now)
        (executes_as A.semantics script_state name.now text.now skip (places_of name.now script_state.sessions))
        result backend.new sessions.new.entries steps.old steps.new }
{
    match sessions.get_index_of(name) {
        Some(place) => {
            let (_, actor) = sessions.pair_mut(place);
            take_turn(rt, alloc, backend, actor, text, skip, steps)
        }
        None => find_or_begin(rt, alloc, backend, sessions, name, text, skip, steps),
    }
}

/// Executes the first line of a session that hasn't appeared before, unless there are too many sessions.
fn find_or_begin<A, R, B, L>(
    rt: &R,
    alloc: Global,
    backend: &mut B,
    sessions: &mut Sessions<A>,
    name: &[u8],
    text: &[u8],
    skip: u32,
    steps: &mut Steps<L>,
) -> StepEnd
where
    A: Actor<Shot = B::Shot> + Drop,
    R: Threads + Sync,
    B: Backend,
    requires sync { IsSync R.row }
    requires name { IsTrue (is_name name.now) }
    requires within { skip ≤ length text.now }
    requires absent { places_of name.now (sessions_of A.places sessions.old.entries) ≡ None }
    requires ready { AreReady A.Actor B.alone (B.state backend.old) sessions.old.entries (length text.now) steps.old }
    ensures { let script_state = script_over A.places (B.state backend.old) sessions.old.entries in
        HaveTaken A.Actor B.Backend backend.old sessions.old.entries (length text.now)
        (executes_as A.semantics script_state name.now text.now skip None)
        result backend.new sessions.new.entries steps.old steps.new }
{
    let session = match session_name(alloc, name) {
        Ok(session) => session,
        Err(NoMemory) => return StepEnd::NoMemory,
    };
    if sessions.len() < MOST_SESSIONS {
        begin_session(rt, alloc, backend, sessions, session, text, skip, steps)
    } else {
        step_end_of(refuse_session(alloc, &session, codes::TOO_MANY_SESSIONS))
    }
}

/// Begins a session, and executes its first line. Its number is how many sessions have appeared before it.
fn begin_session<A, R, B, L>(
    rt: &R,
    alloc: Global,
    backend: &mut B,
    sessions: &mut Sessions<A>,
    session: Name,
    text: &[u8],
    skip: u32,
    steps: &mut Steps<L>,
) -> StepEnd
where
    A: Actor<Shot = B::Shot> + Drop,
    R: Threads + Sync,
    B: Backend,
    requires sync { IsSync R.row }
    requires within { skip ≤ length text.now }
    requires few { index_map_len sessions.old < 64 }
    requires absent { places_of session (sessions_of A.places sessions.old.entries) ≡ None }
    requires ready { AreReady A.Actor B.alone (B.state backend.old) sessions.old.entries (length text.now) steps.old }
    ensures { let script_state = script_over A.places (B.state backend.old) sessions.old.entries in
        let opening = A.semantics.opening (length script_state.sessions) in
        HaveTaken A.Actor B.Backend backend.old sessions.old.entries (length text.now)
        (takes_turn script_state session (A.semantics.does opening text.now skip))
        result backend.new sessions.new.entries steps.old steps.new }
{
    let number = sessions.len() as u32;
    let key = match make_room(alloc, sessions, &session) {
        Ok(key) => key,
        Err(NoMemory) => return StepEnd::NoMemory,
    };
    let mut actor = A::begin(alloc, session, number);
    let end = take_turn(rt, alloc, backend, &mut actor, text, skip, steps);
    sessions.insert(key, actor).unwrap();
    end
}

/// Executes a line in a session. Lines are executed in order, so there is no worker hook to stop a session.
fn take_turn<A, R, B, L>(
    rt: &R,
    alloc: Global,
    backend: &mut B,
    actor: &mut A,
    text: &[u8],
    skip: u32,
    steps: &mut Steps<L>,
) -> StepEnd
where
    A: Actor<Shot = B::Shot> + Drop,
    R: Threads + Sync,
    B: Backend,
    requires sync { IsSync R.row }
    requires short { length text.now ≤ longest_line }
    requires within { skip ≤ length text.now }
    requires room { A.waiting actor.old + length text.now ≤ most_queued }
    requires holds { A.holds actor.old (B.state backend.old) }
    ensures stepped { Stepped B.alone (B.state backend.old) (A.semantics.does (A.places actor.old) text.now skip)
        (A.named actor.old) result (B.state backend.new) (A.places actor.new) steps.old steps.new }
    ensures name { A.named actor.new ≡ A.named actor.old }
    ensures number { A.numbered actor.new ≡ A.numbered actor.old }
    ensures waiting { A.waiting actor.new ≤ A.waiting actor.old + length text.now }
    ensures holds { IfAnswered result (A.holds actor.new (B.state backend.new)) }
    ensures kin { B.kin backend.new ≡ B.kin backend.old }
{
    let end = actor.act(rt, alloc, backend, &NoGate, text, skip, steps);
    NoGate.answered(actor.number());
    end
}

/// Allocates memory for one more session. Returns its key.
fn make_room<A: Drop>(
    alloc: Global,
    sessions: &mut Sessions<A>,
    session: &Name,
) -> Result<Vec<u8>, NoMemory>
    ensures kept { sessions.new.entries ≡ sessions.old.entries }
    ensures room { OnOk result (0 < spare sessions.new) }
    ensures key { IfOk result (λ key. key.items ≡ session.now) }
{
    sessions.reserve(1)?;
    Ok(Vec::from_slice(alloc, session.bytes())?)
}

/// The name of a session.
fn session_name(alloc: Global, text: &[u8]) -> Result<Name, NoMemory>
    requires { IsTrue (is_name text.now) }
    ensures { IfOk result (λ name. name ≡ text.now) }
{
    match Name::read(alloc, text)? {
        Some(name) => Ok(name),
        None => unreachable!(),
    }
}
