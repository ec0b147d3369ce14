//! The request of a statement to an aggregate.
ghost use Rattle.std.specs.Prelude.{◌≡◌, ◌<◌, ◌^◌, length};
ghost use Rattle.ts_catalog.specs.Relations.{found_in};
ghost use Rattle.stmt_check.specs.Check.{IsNumbered};
ghost use Rattle.stmt_check.specs.Folds.{columns_before};
ghost use Rattle.hier_agg.specs.Reads.{Checks, IsRead, fold_read, plan_of, read_as, upper_read, view_numbered};
ghost use Rattle.hier_agg.specs.Refusals.{upper_refusal};

use crate::columns::{check_aggs, check_keys, check_tests};
use crate::plans::UpperPlan;
use crate::stops::PlanStop;
use crate::widths::check_width;
use std::alloc::Global;
use stmt_syntax::{NamedFold, Stmt};
use ts_catalog::{Found, find};
use ts_model::{Refusal, Roster, ViewDef};

/// The request of a statement to an aggregate.
#[derive(Drop, Debug, PartialEq, Eq)]
pub enum UpperRead {
    /// A roll-up with this plan. Nothing is refused.
    Plan(UpperPlan),
    /// A roll-up with this first refusal.
    Refused(Refusal),
    /// The statement isn't SELECT time_bucket over an aggregate.
    NotUpper,
    /// Out of memory.
    NoMemory,
}

/// The request of a statement to an aggregate of a roster: the plan of a roll-up, or the first refusal of its
/// names and values. `pos` is the read position.
pub fn read_upper(alloc: Global, stmt: &Stmt, roster: &Roster, pos: u64) -> UpperRead
    requires { IsNumbered roster.now }
    ensures read { IsRead (upper_read pos roster.now stmt.now) result }
{
    match stmt {
        Stmt::Buckets(fold) => read_fold(alloc, pos, roster, fold),
        Stmt::Table { .. }
        | Stmt::Hyper { .. }
        | Stmt::View { .. }
        | Stmt::Mode { .. }
        | Stmt::Insert { .. }
        | Stmt::Delete { .. }
        | Stmt::Drop { .. }
        | Stmt::Refresh { .. }
        | Stmt::Cut { .. }
        | Stmt::Snap { .. }
        | Stmt::Finish { .. }
        | Stmt::Begin
        | Stmt::BeginRead
        | Stmt::Commit
        | Stmt::Rollback
        | Stmt::Calendar { .. }
        | Stmt::Rows { .. } => UpperRead::NotUpper,
    }
}

/// The request of a fold to an aggregate.
fn read_fold(alloc: Global, pos: u64, roster: &Roster, fold: &NamedFold) -> UpperRead
    requires { IsNumbered roster.now }
    ensures { IsRead (fold_read pos roster.now fold.now (found_in roster.now fold.now.table)) result }
{
    match find(roster, &fold.table) {
        Found::None | Found::Plain(_) | Found::Hyper(_) => UpperRead::NotUpper,
        Found::View(number) => read_over(alloc, pos, number, view_def(roster, number), fold),
    }
}

/// The aggregate with this number.
fn view_def(roster: &Roster, number: u32) -> &ViewDef
    requires there { number < length roster.now.views }
    requires numbered { IsNumbered roster.now }
    ensures view { result.now ≡ view_numbered roster.now number }
    ensures names { length result.now.names < 2 ^ 32 }
{
    roster.views.get(number as usize)
}

/// The plan of a fold over the aggregate with this number, or the first refusal.
fn read_over(alloc: Global, pos: u64, number: u32, def: &ViewDef, fold: &NamedFold) -> UpperRead
    requires { length def.now.names < 2 ^ 32 }
    ensures { IsRead (read_as (upper_refusal pos def.now fold.now) (plan_of number def.now fold.now)) result }
{
    match plan_over(alloc, pos, number, def, fold) {
        Ok(plan) => UpperRead::Plan(plan),
        Err(PlanStop::Refused(refusal)) => UpperRead::Refused(refusal),
        Err(PlanStop::NoMemory) => UpperRead::NoMemory,
    }
}

/// The same as a result.
fn plan_over(
    alloc: Global,
    pos: u64,
    number: u32,
    def: &ViewDef,
    fold: &NamedFold,
) -> Result<UpperPlan, PlanStop>
    requires { length def.now.names < 2 ^ 32 }
    ensures { Checks (upper_refusal pos def.now fold.now) (plan_of number def.now fold.now) result }
{
    let keys = columns_up_to(fold.keys.len(), 0);
    let count = columns_up_to(fold.keys.len(), fold.aggs.len());
    let width = check_width(pos, def, fold)?;
    Ok(UpperPlan {
        view: number,
        width,
        keys: check_keys(alloc, pos, def, count, fold.keys.items())?,
        cols: check_aggs(alloc, pos, def, count, keys, fold.aggs.items())?,
        tests: check_tests(alloc, pos, def, fold.tests.items())?,
    })
}

/// The number of output columns: the bucket, these keys and these aggregates.
fn columns_up_to(keys: usize, aggs: usize) -> u64
    ensures { result ≡ columns_before keys aggs }
{
    1u64.saturating_add(keys as u64).saturating_add(aggs as u64)
}
