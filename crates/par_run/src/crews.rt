//! The workers of a run.
ghost use Rattle.std.specs.Prelude.{◌≡◌, ◌≤◌, All, length, map, IfOk};
ghost use Rattle.std.specs.Option.{option_to_list};
ghost use Rattle.ts_io.specs.declared.limits.TheConstants.{INPUT_LIMIT};
ghost use Rattle.par_lines.specs.Places.{scripts_of, IsWithin};
ghost use Rattle.par_lines.specs.Sorted.{sorted_lines};
ghost use Rattle.par_run.specs.Crews.{AreFew, AreNumbered, AreOf, AreReady, IsCrew};
ghost use Rattle.par_run.specs.Workers.{number_of};
ghost use Rattle.par_workers.specs.Slots.{workers_of};

use crate::workers::SessionWorker;
use par_lines::{SessionLines, into_phases, sort_lines};
use par_workers::Slot;
use std::alloc::Global;
use ts_model::{Backend, Gate};
use ts_schema::NoMemory;
use ts_sessions::Actor;

/// Workers, each with a slot for its pass.
pub(crate) type Crew<'a, A, B, G> = Vec<Slot<SessionWorker<'a, A, G>, B>>;

/// The workers of a run by phase, and the refusals of the other lines of its input.
#[derive(Drop)]
pub(crate) struct Crews<'a, A, B: Backend, G> {
    /// The refusals of lines that no session answers, in order.
    pub refusals: Vec<u8>,
    /// The worker of `setup`, which runs before all others.
    pub setup: Crew<'a, A, B, G>,
    /// The workers that run in parallel, in order of appearance.
    pub at_once: Crew<'a, A, B, G>,
    /// The worker of `final`, which runs after all others.
    pub last: Crew<'a, A, B, G>,
}

/// The workers for the lines of an input.
pub(crate) fn make_crews<'a, A, B, G>(
    alloc: Global,
    input: &'a [u8],
    gate: &'a G,
) -> Result<Crews<'a, A, B, G>, NoMemory>
where
    A: Actor + Drop,
    B: Backend,
    G: Gate,
    requires short { length input.now ≤ INPUT_LIMIT }
    ensures lines { IfOk result (AreOf A.named (sorted_lines input.now)) }
    ensures numbered { IfOk result (AreNumbered A.named A.numbered (sorted_lines input.now).sessions) }
    ensures ready { IfOk result (AreReady A.Actor) }
    ensures few { IfOk result AreFew }
{
    let lines = sort_lines(alloc, input)?;
    let phases = into_phases(lines.sessions);
    let setup_session = to_list(alloc, phases.setup)?;
    let last_session = to_list(alloc, phases.last)?;
    let setup = make_crew(alloc, setup_session, input, gate)?;
    let at_once = make_crew(alloc, phases.at_once, input, gate)?;
    let last = make_crew(alloc, last_session, input, gate)?;
    Ok(Crews {
        refusals: lines.refusals,
        setup,
        at_once,
        last,
    })
}

/// The session, if there is one, as a list.
fn to_list(alloc: Global, session: Option<SessionLines>) -> Result<Vec<SessionLines>, NoMemory>
    ensures { IfOk result (λ sessions. sessions.items ≡ option_to_list session) }
{
    match session {
        Some(session) => Ok(vec![in alloc; session]?),
        None => Ok(Vec::new(alloc)),
    }
}

/// A worker for each session.
fn make_crew<'a, A, B, G>(
    alloc: Global,
    sessions: Vec<SessionLines>,
    input: &'a [u8],
    gate: &'a G,
) -> Result<Crew<'a, A, B, G>, NoMemory>
where
    A: Actor + Drop,
    B: Backend,
    G: Gate,
    requires short { length input.now ≤ INPUT_LIMIT }
    requires within { All (IsWithin (length input.now)) sessions.items }
    ensures crew { IfOk result (λ crew. IsCrew A.Actor
        (scripts_of input.now sessions.items) crew.items) }
    ensures numbers { IfOk result (λ crew. map (number_of A.numbered) (workers_of crew.items)
        ≡ map (λ session. session.number) sessions.items) }
    ensures each { IfOk result (λ crew. length crew.items ≡ length sessions.items) }
{
    let mut crew = Vec::new(alloc);
    for session in sessions {
        crew.push((SessionWorker::new(alloc, session, input, gate), None))?;
    }
    Ok(crew)
}
