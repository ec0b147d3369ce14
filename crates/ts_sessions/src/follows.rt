//! What follows a store call, by its outcome: another call, or the end of the statement. Nothing here calls a store.
ghost use Rattle.std.specs.Prelude.{◌≡◌, ◌<◌, ◌^◌, [], ◌∷◌, false, IfOk, IsTrue};
ghost use Rattle.std.specs.Thread.{IsSync};
ghost use Rattle.ts_model.specs.Allowed.{all_allowed};
ghost use Rattle.ts_model.specs.History.{History, position as position_of};
ghost use Rattle.result_text.specs.declared.replies.Said.TheVariants.{Cut, Fault};
ghost use Rattle.ts_sessions.specs.declared.calls.CallOutcome.TheVariants as outcomes;
ghost use Rattle.ts_sessions.specs.declared.changes.Change.TheVariants.{Cuts};
ghost use Rattle.ts_sessions.specs.declared.deeds.AfterCut.TheVariants as after_cuts;
ghost use Rattle.ts_sessions.specs.declared.deeds.Next.TheVariants.{End};
ghost use Rattle.ts_sessions.specs.Calls.{Follows, FollowsSnapshot, FollowsTo, OutcomeFits};
ghost use Rattle.ts_sessions.specs.Deeds.{lack_code, said_once};
ghost use Rattle.ts_sessions.specs.Places.{cuts};
ghost use Rattle.ts_sessions.specs.Procedures.{ends};
ghost use Rattle.ts_sessions.specs.Step.{after_snapshot as snapshot_leaves, snap_turn, unfinished_refusal};

use crate::blocks::Open;
use crate::calls::CallOutcome;
use crate::changes::{Change, Completion, one_line};
use crate::deeds::{
    AfterCut, AfterLook, ChangeLine, CutRefresh, Deed, FinishSource, MissingPart, Next,
};
use crate::refreshes::{RefreshRequest, SnapOutcome, snapshot_of};
use crate::refusals::at;
use result_text::Said;
use std::alloc::Global;
use std::thread::Threads;
use ts_model::{Committed, CutDone, Pending, Refusal, Shown, codes};
use ts_schema::{NoMemory, Seq, Steps};

/// Returns what follows a store call, by its outcome.
pub fn follow<R: Threads + Sync, T: Shown + Drop, L>(
    rt: &R,
    alloc: Global,
    outcome: CallOutcome<T>,
    steps: &mut Steps<L>,
) -> Result<Next<T>, NoMemory>
where
    T::Job: Drop,
    requires sync { IsSync R.row }
    requires counts { steps.old < 2 ^ 64 }
    ensures { (h : History) → OutcomeFits T.Shown h outcome
        → FollowsTo T.Shown h outcome result steps.old steps.new }
{
    match outcome {
        CallOutcome::Number { line, came } => after_number(alloc, line, came),
        CallOutcome::Commit { leaves, came } => after_commit(alloc, leaves, came),
        CallOutcome::Found { asked } => Ok(Next::Deed(Deed::Cut {
            asked,
            then: AfterCut::Refresh,
        })),
        CallOutcome::Cut { asked, then, came } => match then {
            AfterCut::Refresh => after_refresh_cut(alloc, &asked, came),
            AfterCut::End => after_cut(alloc, &asked, came),
        },
        CallOutcome::Finish { finishing, came } => after_finish(alloc, &finishing, came),
        CallOutcome::Look { then, shot } => after_look(rt, alloc, then, shot, steps),
    }
}

/// Returns what follows a snapshot, by what it is for.
fn after_look<R: Threads + Sync, T: Shown + Drop, L>(
    rt: &R,
    alloc: Global,
    then: AfterLook,
    shot: T,
    steps: &mut Steps<L>,
) -> Result<Next<T>, NoMemory>
where
    T::Job: Drop,
    requires sync { IsSync R.row }
    requires counts { steps.old < 2 ^ 64 }
    ensures { (h : History) → T.stands shot h → IsTrue (all_allowed h)
        → FollowsTo T.Shown h (outcomes.Look then shot) result steps.old steps.new }
{
    match then {
        AfterLook::BeginRead => {
            let at = shot.position();
            say(
                alloc,
                Said::BeginRead(at),
                Change::Enters(Open::Read { at, shot }),
            )
        }
        AfterLook::Snapshot(begun) => {
            let snapped = snapshot_of(rt, &shot, begun.cut, steps)?;
            after_snapshot(alloc, begun, snapped)
        }
        AfterLook::Hold { cut } => {
            let snapped = snapshot_of(rt, &shot, cut, steps)?;
            after_hold(alloc, cut, snapped)
        }
        AfterLook::Refuse { cut, lacks } => {
            refuse(alloc, shot.pending(cut), shot.position(), lacks)
        }
        AfterLook::Unknown => {
            refuse(
                alloc,
                Pending::Unknown,
                shot.position(),
                MissingPart::Snapshot,
            )
        }
    }
}

/// Ends the statement after a call that creates or sets a relation.
fn after_number<T: Shown + Drop>(
    alloc: Global,
    line: ChangeLine,
    came: Result<u64, Refusal>,
) -> Result<Next<T>, NoMemory>
where
    T::Job: Drop,
    ensures { (h : History) → IfOk result (Follows T.Shown h (outcomes.Number line came)) }
{
    match came {
        Ok(number) => match line {
            ChangeLine::Table => say(alloc, Said::Table(number), Change::Nothing),
            ChangeLine::Hyper => say(alloc, Said::Hypertable(number), Change::Nothing),
            ChangeLine::Mode => say(alloc, Said::Mode(number), Change::Nothing),
            ChangeLine::View => say(alloc, Said::View(number), Change::Nothing),
        },
        Err(refusal) => say(alloc, Said::Fault(refusal), Change::Nothing),
    }
}

/// Ends the statement after a commit. `leaves` says whether the commit ends a block.
fn after_commit<T: Shown + Drop>(
    alloc: Global,
    leaves: bool,
    came: Result<Committed, Refusal>,
) -> Result<Next<T>, NoMemory>
where
    T::Job: Drop,
    ensures { (h : History) → IfOk result (Follows T.Shown h (outcomes.Commit leaves came)) }
{
    match came {
        Ok(done) => match leaves {
            true => say(alloc, Said::Commit(done), Change::Enters(Open::Nothing)),
            false => say(alloc, Said::Commit(done), Change::Nothing),
        },
        Err(refusal) => say(alloc, Said::Fault(refusal), Change::Nothing),
    }
}

/// Continues after the cut of a whole refresh, or ends the statement if it was refused or had nothing to do.
fn after_refresh_cut<T: Shown + Drop>(
    alloc: Global,
    asked: &RefreshRequest,
    came: Result<CutDone, Refusal>,
) -> Result<Next<T>, NoMemory>
where
    T::Job: Drop,
    ensures { (h : History) → IfOk result (Follows T.Shown h (outcomes.Cut asked.now after_cuts.Refresh came)) }
{
    match came {
        Ok(done) => match done {
            CutDone::Cut { pos, span } => Ok(Next::Deed(Deed::Look(AfterLook::Snapshot(
                CutRefresh {
                    cut: pos,
                    span,
                    min: asked.min,
                },
            )))),
            CutDone::Nothing { pos } => say(alloc, Said::Nothing(pos), Change::Nothing),
        },
        Err(refusal) => say(alloc, Said::Fault(refusal), Change::Nothing),
    }
}

/// Ends the statement after a cut.
fn after_cut<T: Shown + Drop>(
    alloc: Global,
    asked: &RefreshRequest,
    came: Result<CutDone, Refusal>,
) -> Result<Next<T>, NoMemory>
where
    T::Job: Drop,
    ensures { (h : History) → IfOk result (Follows T.Shown h (outcomes.Cut asked.now after_cuts.End came)) }
{
    match came {
        Ok(done) => match done {
            CutDone::Cut { pos, span } => {
                let said = Said::Cut {
                    cut: pos,
                    span,
                    min: asked.min,
                };
                say(alloc, said, Change::Cuts(pos))
            }
            CutDone::Nothing { pos } => say(alloc, Said::Nothing(pos), Change::Nothing),
        },
        Err(refusal) => say(alloc, Said::Fault(refusal), Change::Nothing),
    }
}

/// Continues after the snapshot of a refresh that the statement cut, or ends the statement if it was refused.
fn after_snapshot<T: Shown + Drop>(
    alloc: Global,
    begun: CutRefresh,
    snapped: SnapOutcome<T::Job>,
) -> Result<Next<T>, NoMemory>
where
    T::Job: Drop,
    ensures { IfOk result (FollowsSnapshot T.Shown begun.cut 2 snapped
        (λ p taken. snapshot_leaves (cuts begun.cut p) begun.cut begun.span begun.min taken)) }
{
    match snapped {
        SnapOutcome::Taken { at, job } => Ok(Next::Deed(Deed::Finish {
            job,
            finishing: FinishSource::Begun { begun, at },
        })),
        SnapOutcome::Refused(refusal) => say_broken(alloc, &begun, refusal),
    }
}

/// Ends the statement after a snapshot that the session will hold.
fn after_hold<T: Shown + Drop>(
    alloc: Global,
    cut: u64,
    snapped: SnapOutcome<T::Job>,
) -> Result<Next<T>, NoMemory>
where
    T::Job: Drop,
    ensures { IfOk result (FollowsSnapshot T.Shown cut 1 snapped (λ p taken. ends (snap_turn p cut taken))) }
{
    match snapped {
        SnapOutcome::Taken { at, job } => {
            let said = Said::Snap { cut, snap: at };
            say(alloc, said, Change::Holds { cut, at, job })
        }
        SnapOutcome::Refused(refusal) => say(alloc, Said::Fault(refusal), Change::Nothing),
    }
}

/// Ends the statement after a finish.
fn after_finish<T: Shown + Drop>(
    alloc: Global,
    finishing: &FinishSource,
    came: Result<u64, Refusal>,
) -> Result<Next<T>, NoMemory>
where
    T::Job: Drop,
    ensures { (h : History) → IfOk result (Follows T.Shown h (outcomes.Finish finishing.now came)) }
{
    match finishing {
        FinishSource::Begun { begun, at } => match came {
            Ok(pos) => {
                let said = Said::Refresh {
                    cut: begun.cut,
                    pos,
                    snap: *at,
                    span: begun.span,
                    min: begun.min,
                };
                say(alloc, said, Change::Cuts(begun.cut))
            }
            Err(refusal) => say_broken(alloc, begun, refusal),
        },
        FinishSource::Held { cut, at } => match came {
            Ok(pos) => {
                let said = Said::Finish {
                    cut: *cut,
                    pos,
                    snap: *at,
                };
                say(alloc, said, Change::GivesUp(*cut))
            }
            Err(refusal) => say(alloc, Said::Fault(refusal), Change::Nothing),
        },
    }
}

/// Refuses to finish a refresh that is in this state at a position.
fn refuse<T: Shown + Drop>(
    alloc: Global,
    pending: Pending,
    position: u64,
    lacks: MissingPart,
) -> Result<Next<T>, NoMemory>
where
    T::Job: Drop,
    ensures { (g : History) → position ≡ position_of g →
        IfOk result (λ n. n ≡ said_once (Fault (unfinished_refusal (lack_code lacks g) g pending)) Change.Nothing) }
{
    let refusal = match pending {
        Pending::Waiting(_) => at(lacks.code(position), position, 0),
        Pending::Finished(finish) => at(codes::NO_REFRESH, position, finish),
        Pending::Unknown => at(codes::NO_REFRESH, position, 0),
    };
    say(alloc, Said::Fault(refusal), Change::Nothing)
}

/// Ends the statement with a reply of one line.
pub fn say<T: Shown + Drop>(
    alloc: Global,
    said: Said,
    change: Change<T>,
) -> Result<Next<T>, NoMemory>
where
    T::Job: Drop,
    ensures { IfOk result (λ n. n ≡ said_once said change) }
{
    Ok(Next::End(Completion {
        said: one_line(alloc, said)?,
        change,
        failed: false,
    }))
}

/// Ends the statement after its cut, with a refusal of its refresh.
fn say_broken<T: Shown + Drop>(
    alloc: Global,
    begun: &CutRefresh,
    refusal: Refusal,
) -> Result<Next<T>, NoMemory>
where
    T::Job: Drop,
    ensures { IfOk result (λ n. n ≡ End (record {
      said = Cut begun.now.cut begun.now.span begun.now.min ∷ Fault refusal ∷ [];
      change = Cuts begun.now.cut;
      failed = false;
    })) }
{
    let mut lines = Seq::new(alloc);
    lines.push(Said::Cut {
        cut: begun.cut,
        span: begun.span,
        min: begun.min,
    })?;
    lines.push(Said::Fault(refusal))?;
    Ok(Next::End(Completion {
        said: lines,
        change: Change::Cuts(begun.cut),
        failed: false,
    }))
}
