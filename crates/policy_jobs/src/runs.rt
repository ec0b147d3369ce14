//! Runs statements in order by an actor.
ghost use Rattle.std.specs.Prelude.{◌≡◌, ℕ, ◌<◌, ◌^◌, IfOk, OnOk};
ghost use Rattle.std.specs.List.{AllByRecursion};
ghost use Rattle.std.specs.Thread.{IsSync};
ghost use Rattle.ts_model.specs.States.{State};
ghost use Rattle.ts_sessions.specs.Places.{Turn, none};
ghost use Rattle.ts_sessions.specs.Procedures.{Procedure};
ghost use Rattle.ts_sessions.specs.Sessions.{Reports};
ghost use Rattle.policy_jobs.specs.Runs.{GoesOnBy, IsBehind, IsRunnable, RunsTo};
ghost use Rattle.policy_jobs.specs.Turns.{and_all, and_then};

use std::alloc::Global;
use std::thread::Threads;
use ts_model::{Backend, Gate};
use ts_schema::{NoMemory, Seq, Steps};
use ts_sessions::{Actor, Reply, StepEnd, step_end};

/// The outcome of the statements so far.
#[derive(Drop)]
pub(crate) struct TickOutcome {
    /// Their replies, as one.
    pub reply: Reply,
    /// Whether the disk failed at an event.
    pub failed: bool,
}

/// Executes statements in order, and appends their replies. After a disk fault it executes the remaining statements
/// too.
pub(crate) fn run_all<A, R, B, G, L>(
    rt: &R,
    alloc: Global,
    actor: &mut A,
    backend: &mut B,
    gate: &G,
    texts: &[Seq<u8>],
    run: TickOutcome,
    steps: &mut Steps<L>,
) -> Result<TickOutcome, NoMemory>
where
    A: Actor<Shot = B::Shot>,
    R: Threads + Sync,
    B: Backend,
    G: Gate,
    requires sync { IsSync R.row }
    requires runnable { AllByRecursion IsRunnable texts.now }
    requires outside { A.within (A.places actor.old) ≡ none }
    requires holds { A.holds actor.old (B.state backend.old) }
    ensures ran { (s : State) (before : ℕ) (first : Procedure (Turn A.Places)) → before < 2 ^ 64
        → Reports B.alone run.failed s first (A.named actor.old) run.reply (B.state backend.old) (A.places actor.old)
        before steps.old
        → RunsTo B.alone s (and_all A.semantics.does first texts.now) (A.named actor.old) result (B.state backend.new)
        (A.places actor.new) before steps.new }
    ensures name { A.named actor.new ≡ A.named actor.old }
    ensures number { A.numbered actor.new ≡ A.numbered actor.old }
    ensures quiet { A.waiting actor.new ≡ 0 }
    ensures holds { OnOk result (A.holds actor.new (B.state backend.new)) }
    ensures kin { B.kin backend.new ≡ B.kin backend.old }
{
    match texts {
        [] => Ok(run),
        [text, rest @ ..] => {
            let run = run_one(rt, alloc, actor, backend, gate, text.items(), run, steps)?;
            run_all(rt, alloc, actor, backend, gate, rest, run, steps)
        }
    }
}

/// Executes a statement, and appends its reply.
fn run_one<A, R, B, G, L>(
    rt: &R,
    alloc: Global,
    actor: &mut A,
    backend: &mut B,
    gate: &G,
    text: &[u8],
    run: TickOutcome,
    steps: &mut Steps<L>,
) -> Result<TickOutcome, NoMemory>
where
    A: Actor<Shot = B::Shot>,
    R: Threads + Sync,
    B: Backend,
    G: Gate,
    requires sync { IsSync R.row }
    requires runnable { IsRunnable text.now }
    requires outside { A.within (A.places actor.old) ≡ none }
    requires holds { A.holds actor.old (B.state backend.old) }
    ensures ran { (s : State) (before : ℕ) (first : Procedure (Turn A.Places)) → before < 2 ^ 64
        → Reports B.alone run.failed s first (A.named actor.old) run.reply (B.state backend.old) (A.places actor.old)
        before steps.old
        → RunsTo B.alone s (and_then A.semantics.does first text.now) (A.named actor.old) result (B.state backend.new)
        (A.places actor.new) before steps.new }
    ensures name { A.named actor.new ≡ A.named actor.old }
    ensures number { A.numbered actor.new ≡ A.numbered actor.old }
    ensures outside { OnOk result (A.within (A.places actor.new) ≡ none) }
    ensures quiet { A.waiting actor.new ≡ 0 }
    ensures holds { OnOk result (A.holds actor.new (B.state backend.new)) }
    ensures kin { B.kin backend.new ≡ B.kin backend.old }
{
    A::stays_outside();
    let end = actor.act(rt, alloc, backend, gate, text, 0, steps);
    run.goes_on(end)
}

impl TickOutcome {
    /// Appends the outcome of one more statement.
    fn goes_on(self, end: StepEnd) -> Result<TickOutcome, NoMemory>
        ensures { GoesOnBy self end result }
    {
        match end {
            StepEnd::Reply(more) => Ok(TickOutcome {
                reply: put_behind(self.reply, &more)?,
                failed: self.failed,
            }),
            StepEnd::DiskFault(more) => Ok(TickOutcome {
                reply: put_behind(self.reply, &more)?,
                failed: true,
            }),
            StepEnd::NoMemory => Err(NoMemory),
        }
    }
}

/// Appends a reply to another.
fn put_behind(first: Reply, more: &Reply) -> Result<Reply, NoMemory>
    ensures { IfOk result (λ whole. IsBehind first more.now whole) }
{
    let mut text = first.text.into_items();
    text.extend_from_slice(more.text.items())?;
    let mut events = first.events.into_items();
    events.extend_from_slice(more.events.items())?;
    Ok(Reply {
        text: Seq::of(text),
        fault: first.fault || more.fault,
        events: Seq::of(events),
    })
}
