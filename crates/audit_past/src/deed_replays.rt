//! Replays store calls over a history: what each does at its position there.
ghost use Rattle.std.specs.Prelude.{◌≡◌, ℕ, ◌<◌, ◌≤◌, ◌^◌, None, length, IsTrue, IfOk};
ghost use Rattle.std.specs.Thread.{IsSync};
ghost use Rattle.ts_model.specs.History.{History, position as position_of, prefix};
ghost use Rattle.ts_model.specs.Allowed.{all_allowed};
ghost use Rattle.ts_model.specs.Calls.{act_of_finish as finishing_of, making_view};
ghost use Rattle.ts_model.specs.Roster.{roster as roster_of};
ghost use Rattle.ts_sessions.specs.declared.calls.CallOutcome.TheVariants as outcomes;
ghost use Rattle.ts_sessions.specs.Deeds.{at_in, cut_in, turn_of_finish, with_line, left, rest, rest_next};
ghost use Rattle.ts_sessions.specs.Places.{Places, Turn};
ghost use Rattle.ts_sessions.specs.Procedures.{Procedure, ends};
ghost use Rattle.ts_sessions.specs.Step.{after_view};
ghost use Rattle.audit_past.specs.ReplaySteps.{AsksThere, GoesTo, LedTo, MeetsAt, NextStands, ReachesTo, after_look, does_at, later_looks, next_look as look_told};

use crate::history_view::{Past, ReplayPoint};
use result_text::Said;
use std::alloc::Global;
use std::thread::Threads;
use ts_model::{Refusal, Shown, ViewDef};
use ts_schema::{NoMemory, Steps};
use ts_sessions::calls::CallOutcome;
use ts_sessions::changes::Completion;
use ts_sessions::deeds::{ChangeLine, Deed, FinishSource, Next, prepend_line};
use ts_sessions::events::{new_view, whole_refresh};
use ts_sessions::follows::follow;

/// The outcome of a store call at a position.
#[derive(Drop)]
pub(crate) struct OutcomeAt<T> {
    /// A line that is replied before the statement ends.
    pub said: Option<Said>,
    /// The outcome.
    pub outcome: CallOutcome<T>,
    /// The position after it.
    pub at: u64,
}

/// The outcome of a store call within a statement.
#[derive(Drop)]
pub(crate) struct StepOutcome<T: Shown>
where
    T::Job: Drop,
{
    /// A line of the reply that comes before all later ones.
    pub said: Option<Said>,
    /// What comes next.
    pub next: Next<T>,
    /// The position after it.
    pub at: u64,
}

/// The outcome of a statement.
#[derive(Drop)]
pub(crate) struct StatementOutcome<T: Shown>
where
    T::Job: Drop,
{
    /// The lines of its reply, and how it changes its session.
    pub completion: Completion<T>,
    /// The position of its last read or event.
    pub last: u64,
}

/// Replays the rest of a statement, after a line that is already replied. `None`: the history explains no such
/// statement.
pub(crate) fn go_on<R: Threads + Sync, P: Past, L>(
    rt: &R,
    alloc: Global,
    past: &P,
    point: ReplayPoint<'_>,
    said: Option<Said>,
    next: Next<P::Shot>,
    steps: &mut Steps<L>,
) -> Result<Option<StatementOutcome<P::Shot>>, NoMemory>
where
    <P::Shot as Shown>::Job: Drop,
    requires sync { IsSync R.row }
    requires counts { steps.old < 2 ^ 64 }
    requires allowed { IsTrue (all_allowed (P.all past.now)) }
    requires known { P.from past.now ≤ point.at }
    requires within { point.at ≤ position_of (P.all past.now) }
    requires stands { (bytes : ℕ) × NextStands P.Shot.Shown bytes (P.all past.now) point.at next }
    ensures { (p : Places) (read bytes : ℕ) → NextStands P.Shot.Shown bytes (P.all past.now) point.entry.at next
        → ReachesTo P.Shot.Shown bytes (P.all past.now) point.entry.at (with_line said (rest_next p read next))
        point.entry.looks.now p result }
{
    match next {
        Next::End(completion) => led_by(
            said,
            Some(StatementOutcome {
                completion,
                last: point.at,
            }),
        ),
        Next::Deed(deed) => match next_look(past, point.at, point.looks) {
            None => Ok(None),
            Some(look) => match act(rt, alloc, past, look, deed, steps)? {
                None => Ok(None),
                Some(went) => {
                    let _so_far = steps.count();
                    let later = ReplayPoint {
                        at: went.at,
                        looks: after_next(point.looks),
                    };
                    let reached = go_on(rt, alloc, past, later, went.said, went.next, steps)?;
                    led_by(said, reached)
                }
            },
        },
    }
}

/// Prepends an earlier line of the reply to the outcome of a statement.
fn led_by<T: Shown + Drop>(
    said: Option<Said>,
    reached: Option<StatementOutcome<T>>,
) -> Result<Option<StatementOutcome<T>>, NoMemory>
where
    T::Job: Drop,
    ensures { LedTo said reached result }
{
    match reached {
        None => Ok(None),
        Some(reached) => {
            let completion = prepend_line(reached.completion, said, false)?;
            Ok(Some(StatementOutcome {
                completion,
                last: reached.last,
            }))
        }
    }
}

/// The next printed read position. `None` if none is left, or if it is before `at` or after the end of the history.
pub(crate) fn next_look<P: Past>(past: &P, at: u64, looks: &[u64]) -> Option<u64>
    ensures { result ≡ look_told (P.all past.now) at looks.now }
{
    match looks {
        [] => None,
        [look, ..] => match at <= *look && *look <= past.length() {
            true => Some(*look),
            false => None,
        },
    }
}

/// The read positions after the next one.
pub(crate) fn after_next(looks: &[u64]) -> &[u64]
    ensures { result.now ≡ later_looks looks.now }
{
    match looks {
        [] => looks,
        [_, later @ ..] => later,
    }
}

/// Makes a store call at a position of the history, and follows its outcome.
pub(crate) fn act<R: Threads + Sync, P: Past, L>(
    rt: &R,
    alloc: Global,
    past: &P,
    at: u64,
    deed: Deed<P::Shot>,
    steps: &mut Steps<L>,
) -> Result<Option<StepOutcome<P::Shot>>, NoMemory>
where
    <P::Shot as Shown>::Job: Drop,
    requires sync { IsSync R.row }
    requires counts { steps.old < 2 ^ 64 }
    requires allowed { IsTrue (all_allowed (P.all past.now)) }
    requires known { P.from past.now ≤ at }
    requires within { at ≤ position_of (P.all past.now) }
    requires asks { AsksThere deed (prefix (P.all past.now) at) }
    ensures { GoesTo P.Shot.Shown (P.all past.now) at (left deed)
        (λ p read. after_look (prefix (P.all past.now) at) (rest p read deed)) result }
{
    let met = call(past, at, deed)?;
    follow_met(rt, alloc, met, steps)
}

/// Follows the outcome of a call. `None` if the history has another event there.
pub(crate) fn follow_met<R: Threads + Sync, T: Shown + Drop, L>(
    rt: &R,
    alloc: Global,
    met: Option<OutcomeAt<T>>,
    steps: &mut Steps<L>,
) -> Result<Option<StepOutcome<T>>, NoMemory>
where
    T::Job: Drop,
    requires sync { IsSync R.row }
    requires counts { steps.old < 2 ^ 64 }
    ensures { (all : History) (at before : ℕ) (procedure : Places → ℕ → Procedure (Turn Places))
        → MeetsAt T.Shown all at before procedure met → GoesTo T.Shown all at before procedure result }
{
    match met {
        None => Ok(None),
        Some(met) => {
            let next = follow(rt, alloc, met.outcome, steps)?;
            Ok(Some(StepOutcome {
                said: met.said,
                next,
                at: met.at,
            }))
        }
    }
}

/// The outcome of a store call at a position of the history.
fn call<P: Past>(
    past: &P,
    at: u64,
    deed: Deed<P::Shot>,
) -> Result<Option<OutcomeAt<P::Shot>>, NoMemory>
where
    <P::Shot as Shown>::Job: Drop,
    requires allowed { IsTrue (all_allowed (P.all past.now)) }
    requires known { P.from past.now ≤ at }
    requires within { at ≤ position_of (P.all past.now) }
    requires asks { AsksThere deed (prefix (P.all past.now) at) }
    ensures { IfOk result (MeetsAt P.Shot.Shown (P.all past.now) at (left deed)
        (λ p read. after_look (prefix (P.all past.now) at) (rest p read deed))) }
{
    match deed {
        Deed::Make(making) => {
            let line = making.line();
            match past.make(at, making) {
                None => Ok(None),
                Some(met) => Ok(Some(number_outcome(line, met.came, met.at))),
            }
        }
        Deed::Commit { ops, leaves } => match past.commit(at, ops) {
            None => Ok(None),
            Some(met) => Ok(Some(OutcomeAt {
                said: None,
                outcome: CallOutcome::Commit {
                    leaves,
                    came: met.came,
                },
                at: met.at,
            })),
        },
        Deed::View { def, filled } => make_view(past, at, def, filled),
        Deed::Cut { asked, then } => match past.cut(at, asked.view, asked.lo, asked.hi) {
            None => Ok(None),
            Some(met) => Ok(Some(OutcomeAt {
                said: None,
                outcome: CallOutcome::Cut {
                    asked,
                    then,
                    came: met.came,
                },
                at: met.at,
            })),
        },
        Deed::Finish {
            job: _job,
            finishing,
        } => Ok(finish(past, at, finishing)),
        Deed::Look(then) => {
            let shot = past.at(at)?;
            Ok(Some(OutcomeAt {
                said: None,
                outcome: CallOutcome::Look { then, shot },
                at,
            }))
        }
    }
}

/// The outcome of a call that creates one event, which this line reports.
fn number_outcome<T: Drop>(line: ChangeLine, came: Result<u64, Refusal>, at: u64) -> OutcomeAt<T>
    ensures { result ≡ record { said = None; outcome = outcomes.Number line came; at = at } }
{
    OutcomeAt {
        said: None,
        outcome: CallOutcome::Number { line, came },
        at,
    }
}

/// The outcome of making an aggregate. If it is to be filled, its number is found for the refresh that follows.
fn make_view<P: Past>(
    past: &P,
    at: u64,
    def: ViewDef,
    filled: bool,
) -> Result<Option<OutcomeAt<P::Shot>>, NoMemory>
where
    <P::Shot as Shown>::Job: Drop,
    requires allowed { IsTrue (all_allowed (P.all past.now)) }
    requires known { P.from past.now ≤ at }
    requires within { at ≤ position_of (P.all past.now) }
    ensures { IfOk result (MeetsAt P.Shot.Shown (P.all past.now) at 4 (λ p read. does_at (prefix (P.all past.now) at)
        (making_view def) (after_view p (length (roster_of (prefix (P.all past.now) at)).views) def filled))) }
{
    let new = new_view(&def)?;
    match past.make_view(at, def) {
        None => Ok(None),
        Some(met) => match met.came {
            Ok(made) => match filled {
                true => {
                    let shot = past.at(met.at)?;
                    let asked = whole_refresh(&shot, &new);
                    Ok(Some(OutcomeAt {
                        said: Some(Said::View(made)),
                        outcome: CallOutcome::Found { asked },
                        at: met.at,
                    }))
                }
                false => Ok(Some(number_outcome(ChangeLine::View, Ok(made), met.at))),
            },
            Err(refusal) => Ok(Some(number_outcome(ChangeLine::View, Err(refusal), met.at))),
        },
    }
}

/// The outcome of the finish of a refresh, by the refresh's number and the position of its snapshot.
pub(crate) fn finish<P: Past>(
    past: &P,
    at: u64,
    finishing: FinishSource,
) -> Option<OutcomeAt<P::Shot>>
where
    <P::Shot as Shown>::Job: Drop,
    requires known { P.from past.now ≤ at }
    requires within { at ≤ position_of (P.all past.now) }
    ensures { MeetsAt P.Shot.Shown (P.all past.now) at 1 (λ p read. does_at (prefix (P.all past.now) at)
        (finishing_of (cut_in finishing) (at_in finishing)) (λ r. ends (turn_of_finish p read finishing r))) result }
{
    match past.finish(at, finishing.cut(), finishing.at()) {
        None => None,
        Some(met) => Some(OutcomeAt {
            said: None,
            outcome: CallOutcome::Finish {
                finishing,
                came: met.came,
            },
            at: met.at,
        }),
    }
}
