//! The result rows of an answer's rows, written in one pass if their groups come in order.
ghost use Rattle.std.specs.Prelude.{◌≡◌, List, [], true, IfOk, IfSome, OnOk};
ghost use Rattle.partial_agg.specs.declared.groups.Group.{Group};
ghost use Rattle.cell_groups.specs.Groups.{HasTallies, rows_shown};
ghost use Rattle.cell_groups.specs.TakenRows.{taken_in, with_rows};
ghost use Rattle.cell_groups.specs.Written.{AreRows, AreWritten, rows_written};
ghost use Rattle.ts_model.specs.Results.{row_cells};
ghost use Rattle.hier_agg.specs.Taken.{row_group_of, row_passes};
ghost use Rattle.hier_agg.specs.Wides.{HoldsItsNumbers};

use crate::plans::UpperPlan;
use crate::rows::{columns_of, passes_to};
use crate::wides::{WideBucket, no_bucket};
use cell_groups::{Shape, Stop, WrittenGroups};
use cell_rows::CellRows;
use std::alloc::Global;
use ts_model::{ResultRow, ResultRows};
use ts_num::Datum;
use ts_schema::NoMemory;

/// The result rows of the rows whose keys match, or `None` if a group comes before the one ahead of it.
/// Reserves room for `many` of them.
pub(crate) fn write_in_order(
    alloc: Global,
    plan: &UpperPlan,
    shape: &Shape,
    many: usize,
    rows: &ResultRows,
) -> Result<Option<CellRows<Datum>>, NoMemory>
    ensures { IfOk result (λ written. IfSome written (λ upper. upper
        ≡ rows_shown shape.now (with_rows (row_passes plan.now) (row_group_of plan.now shape.now) rows.now []))) }
{
    let mut written = WrittenGroups::with_room(alloc, shape, many)?;
    let mut bucket = no_bucket();
    for row in rows.iter() {
        if !write_row(alloc, plan, shape, row, &mut bucket, &mut written)? {
            return Ok(None);
        }
    }
    Ok(Some(written.finish(shape)?))
}

/// Adds a row, if its keys match. Returns false if its group comes before the last one. `bucket` is that of an
/// earlier row, and afterwards that of this row. A sum over 128 bits is reported as out of memory.
#[inline(always)]
fn write_row<'a>(
    alloc: Global,
    plan: &UpperPlan,
    shape: &Shape,
    row: ResultRow<'a>,
    bucket: &mut WideBucket,
    written: &mut WrittenGroups<'a>,
) -> Result<bool, NoMemory>
    requires numbers { HoldsItsNumbers plan.now.width bucket.old }
    requires tallies { IfSome written.old.last (HasTallies shape.now.aggs) }
    requires rows { AreRows written.old }
    ensures numbers { HoldsItsNumbers plan.now.width bucket.new }
    ensures tallies { OnOk result (IfSome written.new.last (HasTallies shape.now.aggs)) }
    ensures rows { OnOk result (AreRows written.new) }
    ensures written { (groups : List Group) → AreWritten shape.now groups (rows_written written.old) written.old.last
        → IfOk result (λ came. came ≡ true
        → AreWritten shape.now (taken_in (row_passes plan.now) (row_group_of plan.now shape.now) (row_cells row.entry) groups) (rows_written written.new) written.new.last) }
{
    if !passes_to(plan, row, bucket)? {
        return Ok(true);
    }
    match written.take(alloc, shape, bucket.start, columns_of(row)) {
        Ok(came) => Ok(came),
        Err(Stop::NoMemory) | Err(Stop::TooGreat) => Err(NoMemory),
    }
}
