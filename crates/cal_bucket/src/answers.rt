//! The answer of a query by buckets of the calendar.
ghost use Rattle.std.specs.Prelude.{◌≡◌, [], IfOk, IsTrue};
ghost use Rattle.std.specs.List.{AllByRecursion};
ghost use Rattle.cal_bucket.specs.Answers.{plan_rows};
ghost use Rattle.cal_bucket.specs.Buckets.{IsNumber};
ghost use Rattle.cal_bucket.specs.Rows.{ShowARow};
ghost use Rattle.ts_model.specs.Answers.{columns_are_there};
ghost use Rattle.ts_model.specs.Limits.{most_columns};

use crate::gathers::gather;
use crate::plans::CalPlan;
use crate::shapes::{shape_of, tests_among};
use cell_groups::{Stop, rows_of};
use std::alloc::Global;
use ts_model::{Answer, ResultRows};
use ts_schema::{NoMemory, Seq};

/// The rows of a table, which `lower` shows, grouped by buckets of the calendar. Its counts and sums never
/// overflow, since the rows show numbers of 64 bits: the only error is out of memory.
pub fn cal_answer(alloc: Global, plan: &CalPlan, lower: &Answer) -> Result<Answer, NoMemory>
    requires number { IsNumber plan.now.number }
    requires columns { IsTrue (columns_are_there most_columns plan.now.fold) }
    requires shown { AllByRecursion (ShowARow plan.now.at) lower.now.rows }
    ensures rows { IfOk result (λ answer. answer.rows ≡ plan_rows plan.now lower.now.rows) }
    ensures stale { IfOk result (λ answer. answer.stale ≡ []) }
{
    Ok(Answer {
        rows: answer_rows(alloc, plan, &lower.rows)?,
        stale: Seq::new(alloc),
    })
}

/// The result rows, computed from the rows of an answer.
fn answer_rows(alloc: Global, plan: &CalPlan, lower: &ResultRows) -> Result<ResultRows, NoMemory>
    requires number { IsNumber plan.now.number }
    requires shown { AllByRecursion (ShowARow plan.now.at) lower.now }
    ensures { IfOk result (λ rows. rows ≡ plan_rows plan.now lower.now) }
{
    let shape = shape_of(alloc, plan.at, &plan.fold)?;
    let tests = tests_among(alloc, plan.at, plan.fold.tests.items())?;
    let gathered = gather(alloc, plan, &shape, tests.as_slice(), lower)?;
    // Reading the length tells the prover that it has 64 bits, so no count and no sum of rows is too large.
    let _rows = lower.len();
    match rows_of(alloc, &shape, gathered) {
        Ok(rows) => Ok(ResultRows::of_cells(alloc, rows)),
        Err(Stop::NoMemory) => Err(NoMemory),
        Err(Stop::TooGreat) => unreachable!(),
    }
}
