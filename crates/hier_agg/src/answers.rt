//! The upper answer of a lower one.
ghost use Rattle.std.specs.Prelude.{◌≡◌, [], IfOk};
ghost use Rattle.cell_groups.specs.Groups.{rows_shown};
ghost use Rattle.cell_groups.specs.TakenRows.{with_rows};
ghost use Rattle.hier_agg.specs.Plans.{agg_at};
ghost use Rattle.hier_agg.specs.Stale.{AreUpperRanges, AreWholeRanges};
ghost use Rattle.hier_agg.specs.Taken.{row_group_of, row_passes};
ghost use Rattle.hier_agg.specs.Upper.{upper_answer, upper_rows};

use crate::gathers::gather;
use crate::plans::UpperPlan;
use crate::shapes::shape_of;
use crate::stale::widen;
use crate::writes::write_in_order;
use cell_groups::{Shape, Stop, rows_of};
use cell_rows::CellRows;
use std::alloc::Global;
use ts_model::{Answer, Fold, ResultRows, ViewDef};
use ts_num::{Datum, Fun};
use ts_schema::NoMemory;

/// The upper answer, computed from the answer of an aggregate over all its buckets. Reports as out of memory a
/// count over 64 bits, and a sum or a wider bucket over 128 bits. Reports the same for a stale range that can't
/// be widened within 64 bits.
pub fn answer_upper(
    alloc: Global,
    plan: &UpperPlan,
    def: &ViewDef,
    lower: Answer,
) -> Result<Answer, NoMemory>
    requires { AreWholeRanges def.now.fold.width lower.stale }
    ensures answer { IfOk result (λ upper. upper ≡ upper_answer def.now.fold plan.now lower) }
    ensures stale { IfOk result (λ upper. AreUpperRanges plan.now.width lower.stale upper.stale) }
{
    let stale = widen(alloc, &plan.width, &lower.stale)?;
    let upper = made_rows(alloc, plan, &def.fold, &lower.rows)?;
    let rows = ResultRows::of_cells(alloc, upper);
    Ok(Answer { rows, stale })
}

/// The rows of the upper answer. A sum over 128 bits is reported as out of memory.
fn made_rows(
    alloc: Global,
    plan: &UpperPlan,
    lower: &Fold,
    rows: &ResultRows,
) -> Result<CellRows<Datum>, NoMemory>
    ensures { IfOk result (λ upper. upper ≡ upper_rows lower.now plan.now rows.now) }
{
    // Reading a width tells the prover that it keeps its bounds.
    let _step = plan.width.step;
    let shape = shape_of(alloc, lower, plan)?;
    let upper = rolled_rows(alloc, plan, lower, &shape, rows)?;
    Ok(upper)
}

/// The result rows of the rows whose keys pass, in one pass if their groups come in order.
fn rolled_rows(
    alloc: Global,
    plan: &UpperPlan,
    lower: &Fold,
    shape: &Shape,
    rows: &ResultRows,
) -> Result<CellRows<Datum>, NoMemory>
    ensures { IfOk result (λ upper. upper
        ≡ rows_shown shape.now (with_rows (row_passes plan.now) (row_group_of plan.now shape.now) rows.now [])) }
{
    let written = write_in_order(alloc, plan, shape, room_for(plan, lower, rows), rows)?;
    match written {
        Some(upper) => Ok(upper),
        None => gathered_rows(alloc, plan, shape, rows),
    }
}

/// The number of result rows to reserve room for: each row may be one if the buckets stay as wide.
fn room_for(plan: &UpperPlan, lower: &Fold, rows: &ResultRows) -> usize {
    if plan.width.step == lower.width.step {
        return rows.len();
    }
    0
}

/// The same, for groups in any order.
fn gathered_rows(
    alloc: Global,
    plan: &UpperPlan,
    shape: &Shape,
    rows: &ResultRows,
) -> Result<CellRows<Datum>, NoMemory>
    ensures { IfOk result (λ upper. upper
        ≡ rows_shown shape.now (with_rows (row_passes plan.now) (row_group_of plan.now shape.now) rows.now [])) }
{
    let gathered = gather(alloc, plan, shape, rows)?;
    match rows_of(alloc, shape, gathered) {
        Ok(upper) => Ok(upper),
        Err(Stop::NoMemory) | Err(Stop::TooGreat) => Err(NoMemory),
    }
}

/// The function of the lower fold for a column after its keys.
pub(crate) fn function_at(lower: &Fold, col: u32) -> Fun
    ensures { result ≡ (agg_at lower.now col).fun }
{
    match lower
        .aggs
        .items()
        .get((col as usize).saturating_sub(lower.keys.len()))
    {
        Some(agg) => agg.fun,
        None => Fun::CountAll,
    }
}
