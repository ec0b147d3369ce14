//! A row of an answer: its keys, and its wider bucket.
ghost use Rattle.std.specs.Prelude.{◌≡◌, true, IfOk};
ghost use Rattle.ts_bucket.specs.Bucket.{bucket_of};
ghost use Rattle.ts_model.specs.Results.{row_cells};
ghost use Rattle.hier_agg.specs.Taken.{columns_of, row_passes};
ghost use Rattle.hier_agg.specs.Upper.{row_of};
ghost use Rattle.hier_agg.specs.Wides.{HoldsItsNumbers};

use crate::plans::UpperPlan;
use crate::wides::{WideBucket, go_to};
use cell_groups::{RowCells, passes};
use ts_model::ResultRow;
use ts_schema::NoMemory;

/// Whether the keys of a row match. `bucket` is that of an earlier row, and afterwards that of this row, if
/// they do.
#[inline(always)]
pub(crate) fn passes_to(
    plan: &UpperPlan,
    row: ResultRow<'_>,
    bucket: &mut WideBucket,
) -> Result<bool, NoMemory>
    requires { HoldsItsNumbers plan.now.width bucket.old }
    ensures numbers { HoldsItsNumbers plan.now.width bucket.new }
    ensures passes { IfOk result (λ passed. passed ≡ row_passes plan.now (row_cells row.entry)) }
    ensures start { IfOk result (λ passed. passed ≡ true → bucket.new.start ≡ bucket_of plan.now.width (row_of (row_cells row.entry)).at) }
{
    if !passes(&columns_of(row), plan.tests.items()) {
        return Ok(false);
    }
    go_to(&plan.width, bucket, start_of(row))?;
    Ok(true)
}

/// The cells of a row after its bucket.
#[inline(always)]
pub(crate) fn columns_of(row: ResultRow<'_>) -> RowCells<'_>
    ensures { result ≡ columns_of (row_cells row.entry) }
{
    RowCells::of(row, 1)
}

/// The start of a row's bucket.
#[inline(always)]
#[tactic(auto, using(crate::proofs::Stands::start_shown))]
fn start_of(row: ResultRow<'_>) -> i128
    ensures { result ≡ (row_of (row_cells row.entry)).at }
{
    row.value_at(0).unwrap_or(0)
}
