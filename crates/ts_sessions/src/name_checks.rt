//! Resolves the names of statements in a history, and says what each statement does first.
ghost use Rattle.std.specs.Prelude.{◌≡◌, ◌<◌, ◌^◌, Bool, None, true, IsTrue, IfOk};
ghost use Rattle.std.specs.Thread.{IsSync};
ghost use Rattle.ts_model.specs.Allowed.{all_allowed};
ghost use Rattle.ts_model.specs.History.{History};
ghost use Rattle.ts_model.specs.States.{State};
ghost use Rattle.stmt_check.specs.Check.{IsNumbered, refusal_of};
ghost use Rattle.ts_sessions.specs.declared.kinds.StatementKind.TheVariants.{Changes};
ghost use Rattle.ts_sessions.specs.Deeds.{OpensTo, taken_next};
ghost use Rattle.ts_sessions.specs.Held.{HoldsOf, places_in};
ghost use Rattle.ts_sessions.specs.ResolvedNames.{asked_by as asked_by_action, asked_for, change_next, checked_as, left_of, looks_at_names, meant_by as meant_by_names, IsLeftOf};
ghost use Rattle.ts_sessions.specs.Places.{queue_in};
ghost use Rattle.ts_sessions.specs.Sound.{AsksSoundly, StandsForAllowed, kind_of_action};
ghost use Rattle.ts_sessions.specs.Step.{block_refusal, kind_of as kind_of_stmt, performs, read_at};

use crate::blocks::Open;
use crate::changes::Change;
use crate::deeds::{AfterCut, Deed, Next, RelationChange};
use crate::events::alone;
use crate::follows::say;
use crate::queries::{Plan, answer, calendar_plan, least_start, plan_of, roll_up_plan, unit_of};
use crate::refreshes::RefreshRequest;
use crate::sessions::Session;
use cal_bucket::CalPlan;
use hier_agg::{UpperRead, read_upper};
use result_text::Said;
use std::alloc::Global;
use std::thread::Threads;
use stmt_check::{Action, Checked, check};
use stmt_syntax::Stmt;
use ts_model::{Backend, Op, Refusal, Roster, Shown};
use ts_schema::{NoMemory, Steps};

/// What a statement asks for, with its names resolved.
#[derive(Drop)]
pub enum Resolved<T: Shown>
where
    T::Job: Drop,
{
    /// A refusal.
    Refused(Refusal),
    /// An answer by a plan.
    Shows(Plan),
    /// An operation, now or at the end of its block.
    Changes(Op),
    /// A store call, outside a block.
    Does(Deed<T>),
}

/// Resolves the names of a statement by a roster. `pos` is the read position, for refusals.
pub fn resolve<T: Shown + Drop>(
    alloc: Global,
    stmt: &Stmt,
    roster: &Roster,
    pos: u64,
) -> Result<Resolved<T>, NoMemory>
where
    T::Job: Drop,
    requires numbered { IsNumbered roster.now }
    requires names { IsTrue (looks_at_names (kind_of_stmt stmt.now)) }
    ensures { IfOk result (λ m. m ≡ meant_by_names pos roster.now stmt.now) }
{
    match read_upper(alloc, stmt, roster, pos) {
        UpperRead::Plan(plan) => Ok(Resolved::Shows(roll_up_plan(plan))),
        UpperRead::Refused(refusal) => Ok(Resolved::Refused(refusal)),
        UpperRead::NotUpper => check_names(alloc, stmt, roster, pos),
        UpperRead::NoMemory => Err(NoMemory),
    }
}

/// Resolves the names of a statement that isn't a roll-up.
fn check_names<T: Shown + Drop>(
    alloc: Global,
    stmt: &Stmt,
    roster: &Roster,
    pos: u64,
) -> Result<Resolved<T>, NoMemory>
where
    T::Job: Drop,
    requires numbered { IsNumbered roster.now }
    requires names { IsTrue (looks_at_names (kind_of_stmt stmt.now)) }
    ensures { IfOk result (λ m. m ≡ checked_as roster.now stmt.now (refusal_of pos roster.now stmt.now)) }
{
    match check(alloc, stmt, roster, pos) {
        Checked::Ready(action) => asked_by(roster, action),
        Checked::Refused(refusal) => Ok(Resolved::Refused(refusal)),
        Checked::NoMemory => Err(NoMemory),
    }
}

/// Returns what an action with names asks for.
fn asked_by<T: Shown + Drop>(roster: &Roster, action: Action) -> Result<Resolved<T>, NoMemory>
where
    T::Job: Drop,
    requires { IsTrue (looks_at_names (kind_of_action action)) }
    ensures { IfOk result (λ m. m ≡ asked_by_action roster.now action) }
{
    match action {
        Action::Table(def) => Ok(Resolved::Does(Deed::Make(RelationChange::Table(def)))),
        Action::Hyper { table, hyper } => {
            Ok(Resolved::Does(Deed::Make(RelationChange::Hyper { table, hyper })))
        }
        Action::View { def, filled } => Ok(Resolved::Does(Deed::View { def, filled })),
        Action::Mode { view, only } => Ok(Resolved::Does(Deed::Make(RelationChange::Mode {
            view,
            only,
        }))),
        Action::Change(op) => Ok(Resolved::Changes(op)),
        Action::Refresh { view, lo, hi } => {
            let asked = asked_of(roster, view, lo, hi);
            Ok(Resolved::Does(Deed::Cut {
                asked,
                then: AfterCut::Refresh,
            }))
        }
        Action::Cut { view, lo, hi } => {
            let asked = asked_of(roster, view, lo, hi);
            Ok(Resolved::Does(Deed::Cut {
                asked,
                then: AfterCut::End,
            }))
        }
        Action::Ask(query) => Ok(Resolved::Shows(plan_of(roster, query))),
        Action::Calendar {
            table,
            number,
            unit,
            at,
            fold,
        } => {
            let unit = unit_of(&unit);
            let cal = CalPlan {
                number,
                unit,
                at,
                fold,
            };
            Ok(Resolved::Shows(calendar_plan(table, cal)?))
        }
        Action::Snap { .. }
        | Action::Finish { .. }
        | Action::Begin
        | Action::BeginRead
        | Action::Commit
        | Action::Rollback => unreachable!(),
    }
}

/// Returns a request to refresh an aggregate over a window.
fn asked_of(roster: &Roster, view: u32, lo: Option<i64>, hi: Option<i64>) -> RefreshRequest
    ensures { result ≡ asked_for roster.now view lo hi }
{
    RefreshRequest {
        view,
        lo,
        hi,
        min: least_start(roster, view),
    }
}

impl<T: Shown + Drop> Session<T>
where
    T::Job: Drop,
{
    /// Resolves the names of a statement, and returns what it does first. In a read block it reads the snapshot of the
    /// block, otherwise a new one. `bytes` is the length of the text.
    pub(crate) fn resolve_names<R: Threads + Sync, B: Backend<Shot = T>, L>(
        &self,
        rt: &R,
        alloc: Global,
        backend: &mut B,
        stmt: &Stmt,
        bytes: u64,
        steps: &mut Steps<L>,
    ) -> Result<Next<T>, NoMemory>
        requires sync { IsSync R.row }
        requires counts { steps.old < 2 ^ 64 }
        requires sound { AsksSoundly bytes stmt.now }
        requires names { IsTrue (looks_at_names (kind_of_stmt stmt.now)) }
        requires passes { block_refusal (places_in self.now).block (kind_of_stmt stmt.now) ≡ None }
        requires holds { HoldsOf T.Shown self.now (B.state backend.old) }
        ensures opens { OpensTo T.Shown bytes B.alone (B.state backend.old)
            (performs (places_in self.now) bytes stmt.now) (places_in self.now) result (B.state backend.new)
            steps.old steps.new }
        ensures taken { IfOk result (λ n. taken_next n ≡ None) }
        ensures kin { B.kin backend.new ≡ B.kin backend.old }
    {
        match &self.block {
            Open::Read { at: _, shot } => self.resolve_at(rt, alloc, shot, stmt, bytes, steps),
            Open::Nothing | Open::Write(_) => {
                let shot = backend.snap()?;
                self.resolve_at(rt, alloc, &shot, stmt, bytes, steps)
            }
        }
    }

    /// Resolves the names of a statement in a snapshot, and returns what it does first.
    pub fn resolve_at<R: Threads + Sync, L>(
        &self,
        rt: &R,
        alloc: Global,
        shot: &T,
        stmt: &Stmt,
        bytes: u64,
        steps: &mut Steps<L>,
    ) -> Result<Next<T>, NoMemory>
        requires sync { IsSync R.row }
        requires counts { steps.old < 2 ^ 64 }
        requires sound { AsksSoundly bytes stmt.now }
        requires names { IsTrue (looks_at_names (kind_of_stmt stmt.now)) }
        requires passes { block_refusal (places_in self.now).block (kind_of_stmt stmt.now) ≡ None }
        requires stands { StandsForAllowed T.stands shot.now (queue_in (places_in self.now).block) }
        ensures opens { (s : State) (alone : Bool) → T.stands shot.now (read_at (places_in self.now).block s.history)
            → IsTrue (all_allowed (read_at (places_in self.now).block s.history))
            → OpensTo T.Shown bytes alone s (left_of T.Shown (places_in self.now) bytes stmt.now
            (read_at (places_in self.now).block s.history)) (places_in self.now) result s steps.old steps.new }
        ensures leaves { (h : History) → T.stands shot.now h
            → IfOk result (IsLeftOf T.Shown (places_in self.now) bytes stmt.now h) }
        ensures taken { IfOk result (λ n. taken_next n ≡ None) }
    {
        match resolve(alloc, stmt, shot.roster(), shot.position())? {
            Resolved::Refused(refusal) => say(alloc, Said::Fault(refusal), Change::Nothing),
            Resolved::Shows(plan) => answer(rt, alloc, &self.block, shot, plan, steps),
            Resolved::Changes(op) => self.change(alloc, op, bytes),
            Resolved::Does(deed) => Ok(Next::Deed(deed)),
        }
    }

    /// Commits an operation, or queues it in a write block. `bytes` is the length of its text.
    fn change(&self, alloc: Global, op: Op, bytes: u64) -> Result<Next<T>, NoMemory>
        requires { block_refusal (places_in self.now).block Changes ≡ None }
        ensures { IfOk result (λ n. n ≡ change_next (places_in self.now).block bytes op) }
    {
        match &self.block {
            Open::Nothing => {
                let ops = alone(alloc, op)?;
                Ok(Next::Deed(Deed::Commit { ops, leaves: false }))
            }
            Open::Write(_) => say(alloc, Said::Queued, Change::Queues { op, bytes }),
            Open::Read { .. } => unreachable!(),
        }
    }
}
