//! The groups of the rows of an answer.
ghost use Rattle.std.specs.Prelude.{◌≡◌, ◌+◌, ◌-◌, ◌^◌, ℕ, [], length, IfOk, OnOk, IsTrue};
ghost use Rattle.std.specs.List.{AllByRecursion};
ghost use Rattle.cell_groups.specs.Cells.{cells_pass};
ghost use Rattle.cell_groups.specs.Groups.{as_groups, cells_at};
ghost use Rattle.cell_groups.specs.Room.{AreOfRows, ShowWords};
ghost use Rattle.cell_groups.specs.TakenRows.{AreGathered, taken_in, with_rows};
ghost use Rattle.group_fold.specs.Merging.{with_group};
ghost use Rattle.group_fold.specs.Gathering.{in_group_order};
ghost use Rattle.ts_model.specs.Results.{row_cells};
ghost use Rattle.cal_bucket.specs.Buckets.{IsNumber};
ghost use Rattle.cal_bucket.specs.Named.{NamesItsTimes};
ghost use Rattle.cal_bucket.specs.Rows.{ShowARow};
ghost use Rattle.cal_bucket.specs.Shapes.{named_group};

use crate::buckets::{Bucket, bucket_with, no_bucket};
use crate::plans::CalPlan;
use crate::rows::time_of;
use cell_groups::{CellGroups, RowCells, Shape, Stop, passes};
use std::alloc::Global;
use ts_model::{ResultRow, ResultRows};
use ts_schema::{NoMemory, Test};

/// The groups of the rows that pass every test, by the names of their buckets.
pub(crate) fn gather<'a>(
    alloc: Global,
    plan: &CalPlan,
    shape: &Shape,
    tests: &[Test],
    lower: &'a ResultRows,
) -> Result<CellGroups<'a>, NoMemory>
    requires number { IsNumber plan.now.number }
    requires shown { AllByRecursion (ShowARow plan.now.at) lower.now }
    ensures groups { IfOk result (λ gathered. in_group_order (as_groups shape.now gathered.groups.items)
        ≡ with_rows (cells_pass tests.now) (named_group plan.now shape.now) lower.now []) }
    ensures gathered { IfOk result (λ gathered. AreGathered shape.now gathered) }
    ensures few { IfOk result (λ gathered. AreOfRows (length lower.now) (as_groups shape.now gathered.groups.items)) }
{
    // Reading the length tells the prover that it has 64 bits, so no count and no sum of rows is too large.
    let _rows = lower.len();
    let mut gathered = CellGroups::new(alloc);
    let mut bucket = no_bucket();
    for row in lower.iter() {
        take_row(alloc, plan, shape, tests, row, &mut bucket, &mut gathered)?;
    }
    Ok(gathered)
}

/// Adds a row, if it matches every test. `bucket` is that of an earlier row, and afterwards that of this row.
#[inline(always)]
fn take_row<'a>(
    alloc: Global,
    plan: &CalPlan,
    shape: &Shape,
    tests: &[Test],
    row: ResultRow<'a>,
    bucket: &mut Bucket,
    gathered: &mut CellGroups<'a>,
) -> Result<(), NoMemory>
    requires number { IsNumber plan.now.number }
    requires shown { ShowARow plan.now.at (row_cells row) }
    requires names { NamesItsTimes plan.now.unit plan.now.number bucket.old }
    requires gathered { AreGathered shape.now gathered.old }
    requires room { AreOfRows (2 ^ 64 - 2) (as_groups shape.now gathered.old.groups.items) }
    ensures names { NamesItsTimes plan.now.unit plan.now.number bucket.new }
    ensures groups { OnOk result (in_group_order (as_groups shape.now gathered.new.groups.items)
        ≡ taken_in (cells_pass tests.now) (named_group plan.now shape.now) (row_cells row.entry)
        (in_group_order (as_groups shape.now gathered.old.groups.items))) }
    ensures gathered { OnOk result (AreGathered shape.now gathered.new) }
    ensures few { (n : ℕ) → AreOfRows n (as_groups shape.now gathered.old.groups.items)
        → OnOk result (AreOfRows (n + 1) (as_groups shape.now gathered.new.groups.items)) }
{
    let cells = RowCells::of(row, 0);
    if !passes(&cells, tests) {
        return Ok(());
    }
    *bucket = bucket_with(plan.unit, plan.number, *bucket, time_of(plan.at, &cells));
    take_words(alloc, shape, i128::from(bucket.start), cells, gathered)
}

/// Adds a row of 64-bit numbers. Fewer than `2^64` of these never make a number too large.
#[inline(always)]
fn take_words<'a>(
    alloc: Global,
    shape: &Shape,
    start: i128,
    cells: RowCells<'a>,
    gathered: &mut CellGroups<'a>,
) -> Result<(), NoMemory>
    requires words { ShowWords cells }
    requires gathered { AreGathered shape.now gathered.old }
    requires room { AreOfRows (2 ^ 64 - 2) (as_groups shape.now gathered.old.groups.items) }
    ensures groups { OnOk result (in_group_order (as_groups shape.now gathered.new.groups.items)
        ≡ with_group (cells_at shape.now start cells.entry) (in_group_order (as_groups shape.now gathered.old.groups.items))) }
    ensures gathered { OnOk result (AreGathered shape.now gathered.new) }
    ensures few { (n : ℕ) → AreOfRows n (as_groups shape.now gathered.old.groups.items)
        → OnOk result (AreOfRows (n + 1) (as_groups shape.now gathered.new.groups.items)) }
{
    match gathered.take(alloc, shape, start, cells) {
        Ok(()) => Ok(()),
        Err(Stop::NoMemory) => Err(NoMemory),
        Err(Stop::TooGreat) => unreachable!(),
    }
}
