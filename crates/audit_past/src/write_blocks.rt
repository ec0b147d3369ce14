//! Replays statements of a write block over a history: changes that are queued, and queries that see the queue.
ghost use Rattle.std.specs.Prelude.{◌≡◌, ℕ, ◌<◌, ◌≤◌, List, IsTrue, IfOk};
ghost use Rattle.std.specs.List.{list_all};
ghost use Rattle.std.specs.Thread.{IsSync};
ghost use Rattle.ts_model.specs.Allowed.{all_allowed};
ghost use Rattle.ts_model.specs.Answers.{can_ask};
ghost use Rattle.ts_model.specs.declared.events.Op.{Op as OpMade};
ghost use Rattle.ts_model.specs.History.{History, position as position_of};
ghost use Rattle.ts_model.specs.Roster.{roster as roster_of};
ghost use Rattle.ts_model.specs.Sound.{op_fits};
ghost use Rattle.ts_sessions.specs.declared.changes.Change.TheVariants as changes;
ghost use Rattle.ts_sessions.specs.Deeds.{IsFormed, said_once};
ghost use Rattle.ts_sessions.specs.ResolvedNames.{answered_line, meant_by as meant_by_names};
ghost use Rattle.ts_sessions.specs.declared.kinds.StatementKind.TheVariants as kinds;
ghost use Rattle.ts_sessions.specs.Places.{Places, writing};
ghost use Rattle.ts_sessions.specs.Sound.{AsksSoundly, StandsForAllowed, kind_of_action};
ghost use Rattle.ts_sessions.specs.Held.{most_queued};
ghost use Rattle.stmt_check.specs.Sound.{IsQueue};
ghost use Rattle.ts_sessions.specs.Step.{kind_of as kind_of_stmt, named_here};
ghost use Rattle.audit_past.specs.ReplaySteps.{ReachesTo, next_look as look_told, refused_at, shown_as, queued_operation, waits_at};

use crate::deed_replays::{StatementOutcome, next_look};
use crate::history_view::{Past, ReplayPoint};
use crate::statements::{end_of_statement, refuse_at};
use event_check::op_is_fit;
use result_text::Said;
use std::alloc::Global;
use std::thread::Threads;
use stmt_check::{Action, Checked, check};
use stmt_syntax::Stmt;
use ts_model::{Op, Roster, Shown};
use ts_schema::{NoMemory, Steps};
use ts_sessions::Queue;
use ts_sessions::changes::Change;
use ts_sessions::deeds::Next;
use ts_sessions::follows::say;
use ts_sessions::name_checks::{Resolved, resolve};
use ts_sessions::queries::{Plan, answer_line, in_form};

/// Replays a change in a write block. `bytes` is the length of its text. It is refused at its read position, or
/// queued by the names at the end of the history.
pub(crate) fn replay_change<P: Past>(
    alloc: Global,
    past: &P,
    point: ReplayPoint<'_>,
    stmt: &Stmt,
    bytes: u64,
) -> Result<Option<StatementOutcome<P::Shot>>, NoMemory>
where
    <P::Shot as Shown>::Job: Drop,
    requires sound { AsksSoundly bytes stmt.now }
    requires changes { kind_of_stmt stmt.now ≡ kinds.Changes }
    requires allowed { IsTrue (all_allowed (P.all past.now)) }
    requires known { P.from past.now ≤ point.at }
    requires within { point.at ≤ position_of (P.all past.now) }
    ensures { (p : Places) (ops : List OpMade) (n : ℕ) → p.block ≡ writing ops n → ReachesTo P.Shot.Shown bytes
        (P.all past.now) point.entry.at (named_here p bytes stmt.now) point.entry.looks.now p result }
{
    match refused_there(alloc, past, point, stmt)? {
        Some(reached) => Ok(Some(reached)),
        None => wait(alloc, past, point.at, stmt, bytes),
    }
}

/// The refusal of a statement's names at its read position, if it has a printed one and is refused there.
fn refused_there<P: Past>(
    alloc: Global,
    past: &P,
    point: ReplayPoint<'_>,
    stmt: &Stmt,
) -> Result<Option<StatementOutcome<P::Shot>>, NoMemory>
where
    <P::Shot as Shown>::Job: Drop,
    requires allowed { IsTrue (all_allowed (P.all past.now)) }
    requires known { P.from past.now ≤ point.at }
    ensures { IfOk result (λ o. o ≡ refused_at (P.all past.now) stmt.now
        (look_told (P.all past.now) point.entry.at point.entry.looks.now)) }
{
    match next_look(past, point.at, point.looks) {
        None => Ok(None),
        Some(look) => {
            let shot = past.at(look)?;
            match check(alloc, stmt, shot.roster(), shot.position()) {
                Checked::Refused(refusal) => refuse_at(alloc, refusal, look),
                Checked::Ready(_) => Ok(None),
                Checked::NoMemory => Err(NoMemory),
            }
        }
    }
}

/// Queues a change. `None` if it is refused at the end of the history.
fn wait<P: Past>(
    alloc: Global,
    past: &P,
    at: u64,
    stmt: &Stmt,
    bytes: u64,
) -> Result<Option<StatementOutcome<P::Shot>>, NoMemory>
where
    <P::Shot as Shown>::Job: Drop,
    requires changes { kind_of_stmt stmt.now ≡ kinds.Changes }
    requires allowed { IsTrue (all_allowed (P.all past.now)) }
    requires known { P.from past.now ≤ at }
    requires within { at ≤ position_of (P.all past.now) }
    ensures { IfOk result (λ o. o ≡ waits_at (P.all past.now) at bytes stmt.now) }
{
    let shot = past.at(past.length())?;
    match check(alloc, stmt, shot.roster(), shot.position()) {
        Checked::Refused(_) => Ok(None),
        Checked::Ready(action) => {
            let next = queue_operation(alloc, action, bytes)?;
            Ok(end_of_statement(next, at))
        }
        Checked::NoMemory => Err(NoMemory),
    }
}

/// Queues an operation until the end of its write block.
fn queue_operation<T: Shown + Drop>(
    alloc: Global,
    action: Action,
    bytes: u64,
) -> Result<Next<T>, NoMemory>
where
    T::Job: Drop,
    requires { kind_of_action action ≡ kinds.Changes }
    ensures { IfOk result (λ n. n ≡ queued_operation action bytes) }
{
    match action {
        Action::Change(op) => say(alloc, Said::Queued, Change::Queues { op, bytes }),
        Action::Table(_)
        | Action::Hyper { .. }
        | Action::View { .. }
        | Action::Mode { .. }
        | Action::Refresh { .. }
        | Action::Cut { .. }
        | Action::Snap { .. }
        | Action::Finish { .. }
        | Action::Begin
        | Action::BeginRead
        | Action::Commit
        | Action::Rollback
        | Action::Ask(_)
        | Action::Calendar { .. } => unreachable!(),
    }
}

/// Replays a query in a write block. `bytes` is the length of its text. The history doesn't explain a query at a
/// position at which some queued operation doesn't fit the tables: its session hadn't queued that operation yet.
pub(crate) fn replay_query<R: Threads + Sync, P: Past, L>(
    rt: &R,
    alloc: Global,
    past: &P,
    point: ReplayPoint<'_>,
    queue: &Queue,
    stmt: &Stmt,
    bytes: u64,
    steps: &mut Steps<L>,
) -> Result<Option<StatementOutcome<P::Shot>>, NoMemory>
where
    <P::Shot as Shown>::Job: Drop,
    requires sync { IsSync R.row }
    requires sound { AsksSoundly bytes stmt.now }
    requires asks { kind_of_stmt stmt.now ≡ kinds.Asks }
    requires waits { IsQueue (P.all past.now) queue.now.bytes queue.now.ops }
    requires room { queue.now.bytes ≤ most_queued }
    requires allowed { IsTrue (all_allowed (P.all past.now)) }
    requires known { P.from past.now ≤ point.at }
    ensures { (p : Places) → p.block ≡ writing queue.now.ops queue.now.bytes → ReachesTo P.Shot.Shown bytes
        (P.all past.now) point.entry.at (named_here p bytes stmt.now) point.entry.looks.now p result }
{
    match next_look(past, point.at, point.looks) {
        None => Ok(None),
        Some(look) => {
            let shot = past.at(look)?;
            if !all_fit(shot.roster(), queue.ops.items()) {
                return Ok(None);
            }
            let next = show(rt, alloc, &shot, queue, stmt, bytes, steps)?;
            Ok(end_of_statement(next, look))
        }
    }
}

/// The reply of a query in a write block to a snapshot.
fn show<R: Threads + Sync, T: Shown + Drop, L>(
    rt: &R,
    alloc: Global,
    shot: &T,
    queue: &Queue,
    stmt: &Stmt,
    bytes: u64,
    steps: &mut Steps<L>,
) -> Result<Next<T>, NoMemory>
where
    T::Job: Drop,
    requires sync { IsSync R.row }
    requires sound { AsksSoundly bytes stmt.now }
    requires asks { kind_of_stmt stmt.now ≡ kinds.Asks }
    requires stands { StandsForAllowed T.stands shot.now queue.now.ops }
    ensures { (h : History) → T.stands shot.now h → IfOk result (λ n. n ≡ shown_as
        (writing queue.now.ops queue.now.bytes) h (meant_by_names (position_of h) (roster_of h) stmt.now)) }
{
    let meant: Resolved<T> = resolve(alloc, stmt, shot.roster(), shot.position())?;
    match meant {
        Resolved::Refused(refusal) => say(alloc, Said::Fault(refusal), Change::Nothing),
        Resolved::Shows(plan) => answer_queued(rt, alloc, shot, queue, plan, steps),
        Resolved::Changes(_) | Resolved::Does(_) => unreachable!(),
    }
}

/// Answers by a plan from a snapshot with a queue on top of it.
fn answer_queued<R: Threads + Sync, T: Shown + Drop, L>(
    rt: &R,
    alloc: Global,
    shot: &T,
    queue: &Queue,
    plan: Plan,
    steps: &mut Steps<L>,
) -> Result<Next<T>, NoMemory>
where
    T::Job: Drop,
    requires sync { IsSync R.row }
    requires stands { StandsForAllowed T.stands shot.now queue.now.ops }
    requires formed { (h : History) → T.stands shot.now h → IsTrue (all_allowed h)
        → IsFormed (roster_of h) plan plan.form }
    requires asks { (h : History) → T.stands shot.now h → IsTrue (can_ask (roster_of h) plan.query) }
    ensures { (h : History) → T.stands shot.now h → IfOk result (λ n. n ≡ said_once (answered_line
        (writing queue.now.ops queue.now.bytes) h plan) changes.Nothing) }
{
    let roster = shot.roster();
    let answer = shot.answer_with(rt, &queue.ops, &plan.query, steps)?;
    let shown = in_form(alloc, roster, &plan.form, answer)?;
    let count = queue.ops.len() as u64;
    let said = answer_line(&plan, shown, shot.position(), Some(count));
    say(alloc, said, Change::Nothing)
}

/// Whether all operations fit the tables of a roster.
fn all_fit(roster: &Roster, ops: &[Op]) -> bool
    ensures { result ≡ list_all (op_fits roster.now) ops.now }
{
    ops.iter().all(|op| op_is_fit(roster, op))
}
