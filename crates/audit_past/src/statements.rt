//! Replays statements over a history, by the block of their session.
ghost use Rattle.std.specs.Prelude.{◌≡◌, ℕ, ◌<◌, ◌≤◌, ◌^◌, None, Some, IsTrue, IfOk};
ghost use Rattle.std.specs.Thread.{IsSync};
ghost use Rattle.result_text.specs.declared.replies.Said.TheVariants.{Fault};
ghost use Rattle.ts_model.specs.Allowed.{all_allowed};
ghost use Rattle.ts_model.specs.History.{position as position_of};
ghost use Rattle.ts_sessions.specs.declared.changes.Change.TheVariants as changes;
ghost use Rattle.ts_sessions.specs.Deeds.{said_once};
ghost use Rattle.ts_sessions.specs.Held.{HoldsOf, places_in};
ghost use Rattle.ts_sessions.specs.ResolvedNames.{looks_at_names};
ghost use Rattle.ts_sessions.specs.Places.{Places};
ghost use Rattle.ts_sessions.specs.Procedures.{looks as looks_of};
ghost use Rattle.ts_sessions.specs.Sound.{AsksSoundly};
ghost use Rattle.ts_sessions.specs.Step.{block_refusal, finishes_held, kind_of as kind_of_stmt, named_here};
ghost use Rattle.audit_past.specs.ReplaySteps.{ReachesTo, ended_of, state_of};

use crate::deed_replays::{StatementOutcome, after_next, finish, follow_met, go_on, next_look};
use crate::history_view::{Past, ReplayPoint};
use crate::write_blocks::{replay_change, replay_query};
use result_text::Said;
use std::alloc::Global;
use std::thread::Threads;
use stmt_syntax::Stmt;
use ts_model::{Refusal, Shown};
use ts_schema::{NoMemory, Steps};
use ts_sessions::changes::Change;
use ts_sessions::deeds::{AfterLook, Deed, FinishSource, MissingPart, Next};
use ts_sessions::follows::say;
use ts_sessions::{Open, Opening, Session, StatementKind, kind_of};

/// The outcome of a statement that is refused, after a read or event at a position.
pub(crate) fn refuse_at<T: Shown + Drop>(
    alloc: Global,
    refusal: Refusal,
    last: u64,
) -> Result<Option<StatementOutcome<T>>, NoMemory>
where
    T::Job: Drop,
    ensures { IfOk result (λ o. o ≡ ended_of (said_once (Fault refusal) changes.Nothing) last) }
{
    let next = say(alloc, Said::Fault(refusal), Change::Nothing)?;
    Ok(end_of_statement(next, last))
}

/// The outcome of a statement that ends here. `None` if a store call follows.
pub(crate) fn end_of_statement<T: Shown + Drop>(
    next: Next<T>,
    last: u64,
) -> Option<StatementOutcome<T>>
where
    T::Job: Drop,
    ensures { result ≡ ended_of next last }
{
    match next {
        Next::End(completion) => Some(StatementOutcome { completion, last }),
        Next::Deed(_) => None,
    }
}

/// Replays a statement that the block allows. `bytes` is the length of its text.
pub(crate) fn replay_statement<T: Shown + Drop, R: Threads + Sync, P: Past<Shot = T>, L>(
    rt: &R,
    alloc: Global,
    session: &Session<T>,
    past: &P,
    point: ReplayPoint<'_>,
    stmt: &Stmt,
    bytes: u64,
    steps: &mut Steps<L>,
) -> Result<Option<StatementOutcome<T>>, NoMemory>
where
    T::Job: Drop,
    requires sync { IsSync R.row }
    requires counts { steps.old < 2 ^ 64 }
    requires sound { AsksSoundly bytes stmt.now }
    requires passes { block_refusal (places_in session.now).block (kind_of_stmt stmt.now) ≡ None }
    requires allowed { IsTrue (all_allowed (P.all past.now)) }
    requires known { P.from past.now ≤ point.at }
    requires within { point.at ≤ position_of (P.all past.now) }
    requires holds { HoldsOf T.Shown session.now (state_of (P.all past.now)) }
    ensures { ReachesTo T.Shown bytes (P.all past.now) point.entry.at
        (named_here (places_in session.now) bytes stmt.now)
        point.entry.looks.now (places_in session.now) result }
{
    let opening = session.opening(alloc, stmt)?;
    match opening {
        Opening::Next(next) => go_on(rt, alloc, past, point, None, next, steps),
        Opening::Names => replay_names(rt, alloc, session, past, point, stmt, bytes, steps),
        Opening::Finish(number) => match session.refresh_named(number) {
            None => {
                let deed = Deed::Look(AfterLook::Unknown);
                go_on(rt, alloc, past, point, None, Next::Deed(deed), steps)
            }
            Some(cut) => match session.held_at(cut) {
                None => {
                    let deed = Deed::Look(AfterLook::Refuse {
                        cut,
                        lacks: MissingPart::Snapshot,
                    });
                    go_on(rt, alloc, past, point, None, Next::Deed(deed), steps)
                }
                Some(snap) => replay_held(rt, alloc, past, point, cut, snap, steps),
            },
        },
    }
}

/// Replays a statement that resolves names, by the block of its session.
fn replay_names<T: Shown + Drop, R: Threads + Sync, P: Past<Shot = T>, L>(
    rt: &R,
    alloc: Global,
    session: &Session<T>,
    past: &P,
    point: ReplayPoint<'_>,
    stmt: &Stmt,
    bytes: u64,
    steps: &mut Steps<L>,
) -> Result<Option<StatementOutcome<T>>, NoMemory>
where
    T::Job: Drop,
    requires sync { IsSync R.row }
    requires counts { steps.old < 2 ^ 64 }
    requires sound { AsksSoundly bytes stmt.now }
    requires names { IsTrue (looks_at_names (kind_of_stmt stmt.now)) }
    requires passes { block_refusal (places_in session.now).block (kind_of_stmt stmt.now) ≡ None }
    requires allowed { IsTrue (all_allowed (P.all past.now)) }
    requires known { P.from past.now ≤ point.at }
    requires within { point.at ≤ position_of (P.all past.now) }
    requires holds { HoldsOf T.Shown session.now (state_of (P.all past.now)) }
    ensures { ReachesTo T.Shown bytes (P.all past.now) point.entry.at
        (named_here (places_in session.now) bytes stmt.now)
        point.entry.looks.now (places_in session.now) result }
{
    match &session.block {
        Open::Nothing => match next_look(past, point.at, point.looks) {
            None => Ok(None),
            Some(look) => {
                let there = past.at(look)?;
                let next = session.resolve_at(rt, alloc, &there, stmt, bytes, steps)?;
                let _so_far = steps.count();
                let after = ReplayPoint {
                    at: look,
                    looks: point.looks,
                };
                go_on(rt, alloc, past, after, None, next, steps)
            }
        },
        Open::Write(queue) => match kind_of(stmt) {
            StatementKind::Asks => {
                replay_query(rt, alloc, past, point, queue, stmt, bytes, steps)
            }
            StatementKind::Changes => replay_change(alloc, past, point, stmt, bytes),
            StatementKind::Defines
            | StatementKind::Snaps
            | StatementKind::Finishes
            | StatementKind::Begins
            | StatementKind::BeginsRead
            | StatementKind::Commits
            | StatementKind::RollsBack => unreachable!(),
        },
        Open::Read { at: _begun, shot } => {
            let next = session.resolve_at(rt, alloc, shot, stmt, bytes, steps)?;
            let _so_far = steps.count();
            go_on(rt, alloc, past, point, None, next, steps)
        }
    }
}

/// Replays the finish of a refresh with the snapshot at a position.
fn replay_held<R: Threads + Sync, P: Past, L>(
    rt: &R,
    alloc: Global,
    past: &P,
    point: ReplayPoint<'_>,
    cut: u64,
    snap: u64,
    steps: &mut Steps<L>,
) -> Result<Option<StatementOutcome<P::Shot>>, NoMemory>
where
    <P::Shot as Shown>::Job: Drop,
    requires sync { IsSync R.row }
    requires counts { steps.old < 2 ^ 64 }
    requires allowed { IsTrue (all_allowed (P.all past.now)) }
    requires known { P.from past.now ≤ point.at }
    requires within { point.at ≤ position_of (P.all past.now) }
    ensures { (p : Places) (bytes : ℕ) → ReachesTo P.Shot.Shown bytes (P.all past.now) point.entry.at
        (looks_of (λ h. finishes_held p h cut (Some snap))) point.entry.looks.now p result }
{
    match next_look(past, point.at, point.looks) {
        None => Ok(None),
        Some(look) => {
            let finishing = FinishSource::Held { cut, at: snap };
            let met = finish(past, look, finishing);
            match follow_met(rt, alloc, met, steps)? {
                None => Ok(None),
                Some(went) => {
                    let _so_far = steps.count();
                    let later = ReplayPoint {
                        at: went.at,
                        looks: after_next(point.looks),
                    };
                    go_on(rt, alloc, past, later, went.said, went.next, steps)
                }
            }
        }
    }
}
