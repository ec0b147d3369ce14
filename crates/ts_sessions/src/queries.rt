//! Queries.
ghost use Rattle.std.specs.Prelude.{◌≡◌, ℕ, ◌<◌, ◌^◌, Bool, true, None, IsTrue, IfOk};
ghost use Rattle.std.specs.Thread.{IsSync};
ghost use Rattle.ts_model.specs.History.{History};
ghost use Rattle.ts_model.specs.Roster.{roster as roster_of, view_of};
ghost use Rattle.ts_schema.specs.Counts.{Ticks};
ghost use Rattle.ts_model.specs.Allowed.{QueueFits, all_allowed};
ghost use Rattle.ts_model.specs.Answers.{answer as answer_of, can_ask};
ghost use Rattle.ts_model.specs.Reads.{reads as reads_of};
ghost use Rattle.hier_agg.specs.Choices.{takes_groups as keeps_groups};
ghost use Rattle.hier_agg.specs.Upper.{upper_answer};
ghost use Rattle.result_text.specs.declared.replies.Said.TheVariants.{Answered};
ghost use Rattle.ts_model.specs.States.{State};
ghost use Rattle.ts_sessions.specs.declared.changes.Change.TheVariants as changes;
ghost use Rattle.ts_sessions.specs.Deeds.{FitsRollUp, FormFits, IsFormed, OpensTo, said_once, taken_next};
ghost use Rattle.ts_sessions.specs.Held.{block_of};
ghost use Rattle.ts_sessions.specs.Procedures.{ends};
ghost use Rattle.ts_sessions.specs.Places.{Places, queue_in};
ghost use Rattle.ts_sessions.specs.Sound.{StandsForAllowed};
ghost use Rattle.ts_sessions.specs.Step.{answers, asked_start as start_asked, in_form as formed, least_start as start_of_view, plan_of as plan_of_query, roll_up_plan as plan_of_roll_up, calendar_plan as plan_of_calendar, shown_in, unit_of as unit_of_word};
ghost use Rattle.ts_sessions.specs.ResolvedNames.{answered_line};

use crate::blocks::Open;
use crate::changes::Change;
use crate::deeds::Next;
use crate::follows::say;
use cal_bucket::{CalPlan, CalUnit, cal_answer};
use hier_agg::{UpperPlan, answer_upper, chosen_places, lower_query, takes_all, takes_groups};
use result_text::Said;
use std::alloc::Global;
use std::thread::Threads;
use ts_bucket::first;
use ts_model::{Answer, Query, Roster, Shown, ViewDef};
use ts_schema::{Name, NoMemory, Steps};

/// The form in which a query shows the answer of its plan.
#[derive(Drop)]
pub enum Form {
    /// The answer itself.
    Own,
    /// In wider buckets.
    RolledUp(UpperPlan),
    /// Its rows grouped by calendar buckets.
    Calendar(CalPlan),
}

/// The plan of a query statement.
#[derive(Drop)]
pub struct Plan {
    /// The query of the snapshot.
    pub query: Query,
    /// The form in which its answer is shown.
    pub form: Form,
    /// The start of the first bucket, or 0 if no range can be stale.
    pub min: i64,
}

/// Answers a plan from a snapshot, with the queue of the block on top.
pub(crate) fn answer<R: Threads + Sync, T: Shown + Drop, L>(
    rt: &R,
    alloc: Global,
    block: &Open<T>,
    shot: &T,
    plan: Plan,
    steps: &mut Steps<L>,
) -> Result<Next<T>, NoMemory>
where
    T::Job: Drop,
    requires sync { IsSync R.row }
    requires counts { steps.old < 2 ^ 64 }
    requires stands { StandsForAllowed T.stands shot.now (queue_in (block_of block.now)) }
    requires formed { (h : History) → T.stands shot.now h → IsTrue (all_allowed h)
        → IsFormed (roster_of h) plan plan.form }
    requires asks { (h : History) → T.stands shot.now h → IsTrue (can_ask (roster_of h) plan.query) }
    ensures opens { (h : History) → T.stands shot.now h → (p : Places) (bytes : ℕ) (alone : Bool) (s : State)
        → p.block ≡ block_of block.now
        → OpensTo T.Shown bytes alone s (ends (answers p h plan)) p result s steps.old steps.new }
    ensures says { (h : History) → T.stands shot.now h
        → IfOk result (λ n. n ≡ said_once (answered_line (block_of block.now) h plan) changes.Nothing) }
    ensures taken { IfOk result (λ n. taken_next n ≡ None) }
{
    let roster = shot.roster();
    let answer = ask(rt, block, shot, &plan.query, steps)?;
    let shown = in_form(alloc, roster, &plan.form, answer)?;
    let said = answer_line(&plan, shown, shot.position(), block.queue_count());
    say(alloc, said, Change::Nothing)
}

/// Answers a query from a snapshot, with the queue of the block on top.
fn ask<R: Threads + Sync, T: Shown, L>(
    rt: &R,
    block: &Open<T>,
    shot: &T,
    query: &Query,
    steps: &mut Steps<L>,
) -> Result<Answer, NoMemory>
    requires sync { IsSync R.row }
    requires asks { (h : History) → T.stands shot.now h → IsTrue (can_ask (roster_of h) query.now) }
    requires fits { (h : History) → T.stands shot.now h → QueueFits (queue_in (block_of block.now)) h }
    ensures shown { (h : History) → T.stands shot.now h
        → IfOk result (λ a. a ≡ answer_of query.now (shown_in (block_of block.now) h)) }
    ensures read { (h : History) → T.stands shot.now h
        → Ticks result (reads_of query.now (shown_in (block_of block.now) h)) steps.old steps.new }
{
    match block {
        Open::Nothing => shot.answer(rt, query, steps),
        Open::Write(queue) => shot.answer_with(rt, &queue.ops, query, steps),
        Open::Read { .. } => shot.answer(rt, query, steps),
    }
}

/// Returns the answer in this form. `roster` is that of the snapshot.
pub fn in_form(
    alloc: Global,
    roster: &Roster,
    form: &Form,
    answer: Answer,
) -> Result<Answer, NoMemory>
    requires { FormFits roster.now form.now answer }
    ensures { IfOk result (λ shown. shown ≡ formed roster.now form.now answer) }
{
    match form {
        Form::Own => Ok(answer),
        Form::RolledUp(plan) => match roster.views.items().get(plan.view as usize) {
            None => Ok(answer),
            Some(def) => roll_up(alloc, plan, def, answer),
        },
        Form::Calendar(plan) => cal_answer(alloc, plan, &answer),
    }
}

/// Rolls up an aggregate's answer. A plan that takes all of the aggregate returns the answer itself. A plan that keeps
/// its groups only chooses cells.
fn roll_up(
    alloc: Global,
    plan: &UpperPlan,
    def: &ViewDef,
    answer: Answer,
) -> Result<Answer, NoMemory>
    requires { FitsRollUp def.now.fold answer }
    ensures { IfOk result (λ upper. upper ≡ upper_answer def.now.fold plan.now answer) }
{
    // Reading the width proves that it is within its bounds.
    let _step = def.fold.width.step;
    if takes_all(plan, &def.fold) {
        return Ok(answer);
    }
    if takes_groups(plan, &def.fold) {
        return choose_cells(alloc, plan, def, answer);
    }
    answer_upper(alloc, plan, def, answer)
}

/// Rolls up an aggregate's answer by a plan that keeps its groups, by choosing cells. It builds rows only if cells of
/// the answer are already built or chosen.
fn choose_cells(
    alloc: Global,
    plan: &UpperPlan,
    def: &ViewDef,
    answer: Answer,
) -> Result<Answer, NoMemory>
    requires fits { FitsRollUp def.now.fold answer }
    requires groups { keeps_groups def.now.fold plan.now ≡ true }
    ensures { IfOk result (λ upper. upper ≡ upper_answer def.now.fold plan.now answer) }
{
    // Reading the width proves that it is within its bounds.
    let _step = def.fold.width.step;
    let places = chosen_places(alloc, plan)?;
    let Answer { rows, stale } = answer;
    match rows.choose(places) {
        Ok(rows) => Ok(Answer { rows, stale }),
        Err(rows) => answer_upper(alloc, plan, def, Answer { rows, stale }),
    }
}

/// Returns the reply for an answer at a position. `queue` is how many operations are queued, if in a write block.
pub fn answer_line(plan: &Plan, answer: Answer, pos: u64, queue: Option<u64>) -> Said
    ensures { result ≡ Answered answer pos queue plan.now.min }
{
    Said::Answered {
        answer,
        pos,
        queue,
        min: plan.min,
    }
}

/// Returns the plan of a query: its answer as it is.
pub(crate) fn plan_of(roster: &Roster, query: Query) -> Plan
    ensures { result ≡ plan_of_query roster.now query }
{
    let min = asked_start(roster, &query);
    Plan {
        query,
        form: Form::Own,
        min,
    }
}

/// Returns the plan of a roll-up.
pub(crate) fn roll_up_plan(plan: UpperPlan) -> Plan
    ensures { result ≡ plan_of_roll_up plan }
{
    let query = lower_query(&plan);
    let min = first(plan.width);
    Plan {
        query,
        form: Form::RolledUp(plan),
        min,
    }
}

/// Returns the plan of a grouping of a hypertable by calendar buckets.
pub(crate) fn calendar_plan(table: u32, cal: CalPlan) -> Result<Plan, NoMemory>
    ensures { IfOk result (λ plan. plan ≡ plan_of_calendar table cal) }
{
    let tests = cal.fold.tests.copy()?;
    Ok(Plan {
        query: Query::Rows { table, tests },
        form: Form::Calendar(cal),
        min: 0,
    })
}

/// Returns the calendar unit that a word names; any word but `day`, `week` and `month` is a year.
pub(crate) fn unit_of(word: &Name) -> CalUnit
    ensures { result ≡ unit_of_word word.now }
{
    let word = word.bytes();
    if word == b"day".as_slice() {
        CalUnit::Day
    } else if word == b"week".as_slice() {
        CalUnit::Week
    } else if word == b"month".as_slice() {
        CalUnit::Month
    } else {
        CalUnit::Year
    }
}

/// Returns the start of the first bucket of a query's answer, or 0 if no range of it can be stale.
fn asked_start(roster: &Roster, query: &Query) -> i64
    ensures { result ≡ start_asked roster.now query.now }
{
    match query {
        Query::Rows { .. } => 0,
        Query::Buckets { .. } => 0,
        Query::Aggregate { view, .. } => least_start(roster, *view),
    }
}

/// Returns the start of the first bucket of an aggregate, or 0 if none has this number.
pub(crate) fn least_start(roster: &Roster, view: u32) -> i64
    ensures { result ≡ start_of_view (view_of roster.now view) }
{
    match roster.views.items().get(view as usize) {
        None => 0,
        Some(def) => first(def.fold.width),
    }
}
