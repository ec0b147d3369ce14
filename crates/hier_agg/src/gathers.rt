//! The groups of an answer's rows.
ghost use Rattle.std.specs.Prelude.{◌≡◌, [], IfOk, OnOk};
ghost use Rattle.cell_groups.specs.Groups.{as_groups};
ghost use Rattle.cell_groups.specs.TakenRows.{AreGathered, taken_in, with_rows};
ghost use Rattle.group_fold.specs.Gathering.{in_group_order};
ghost use Rattle.ts_model.specs.Results.{row_cells};
ghost use Rattle.hier_agg.specs.Taken.{row_group_of, row_passes};
ghost use Rattle.hier_agg.specs.Wides.{HoldsItsNumbers};

use crate::plans::UpperPlan;
use crate::rows::{columns_of, passes_to};
use crate::wides::{WideBucket, no_bucket};
use cell_groups::{CellGroups, Shape, Stop};
use std::alloc::Global;
use ts_model::{ResultRow, ResultRows};
use ts_schema::NoMemory;

/// The groups of the rows whose keys pass.
pub(crate) fn gather<'a>(
    alloc: Global,
    plan: &UpperPlan,
    shape: &Shape,
    rows: &'a ResultRows,
) -> Result<CellGroups<'a>, NoMemory>
    ensures groups { IfOk result (λ gathered. in_group_order (as_groups shape.now gathered.groups.items)
        ≡ with_rows (row_passes plan.now) (row_group_of plan.now shape.now) rows.now []) }
    ensures gathered { IfOk result (λ gathered. AreGathered shape.now gathered) }
{
    let mut gathered = CellGroups::new(alloc);
    let mut bucket = no_bucket();
    for row in rows.iter() {
        take_row(alloc, plan, shape, row, &mut bucket, &mut gathered)?;
    }
    Ok(gathered)
}

/// Adds a row, if its keys match. `bucket` is that of an earlier row, and afterwards that of this row. A sum
/// over 128 bits is reported as out of memory.
#[inline(always)]
fn take_row<'a>(
    alloc: Global,
    plan: &UpperPlan,
    shape: &Shape,
    row: ResultRow<'a>,
    bucket: &mut WideBucket,
    gathered: &mut CellGroups<'a>,
) -> Result<(), NoMemory>
    requires numbers { HoldsItsNumbers plan.now.width bucket.old }
    requires gathered { AreGathered shape.now gathered.old }
    ensures numbers { HoldsItsNumbers plan.now.width bucket.new }
    ensures groups { OnOk result (in_group_order (as_groups shape.now gathered.new.groups.items)
        ≡ taken_in (row_passes plan.now) (row_group_of plan.now shape.now) (row_cells row.entry) (in_group_order (as_groups shape.now gathered.old.groups.items))) }
    ensures gathered { OnOk result (AreGathered shape.now gathered.new) }
{
    if !passes_to(plan, row, bucket)? {
        return Ok(());
    }
    match gathered.take(alloc, shape, bucket.start, columns_of(row)) {
        Ok(()) => Ok(()),
        Err(Stop::NoMemory) | Err(Stop::TooGreat) => Err(NoMemory),
    }
}
