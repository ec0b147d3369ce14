//! The width of a roll-up.
ghost use Rattle.std.specs.Prelude.{◌≡◌, ◌<◌, ◌-ℤ◌, ◌^◌, length};
ghost use Rattle.stmt_check.specs.Folds.{is_step, width_of};
ghost use Rattle.stmt_check.specs.Queries.{is_bucket_column};
ghost use Rattle.hier_agg.specs.Reads.{Checks};
ghost use Rattle.hier_agg.specs.Refusals.{divides_evenly, width_refusal};

use crate::stops::{PlanStop, refuse_marked};
use stmt_syntax::NamedFold;
use ts_bucket::{MOST_STEP, Width, width};
use ts_catalog::view_column;
use ts_model::codes::{BAD_WIDTH, NO_COLUMN};
use ts_model::{Refusal, ViewDef};

/// The width, if it fits that of the aggregate and the column is the bucket column.
pub(crate) fn check_width(pos: u64, def: &ViewDef, fold: &NamedFold) -> Result<Width, PlanStop>
    requires { length def.now.names < 2 ^ 32 }
    ensures { Checks (width_refusal pos def.now fold.now) (width_of fold.now) result }
{
    let lower = &def.fold.width;
    refuse_marked(pos, BAD_WIDTH, 0, !is_step_in_range(fold.step))?;
    refuse_marked(pos, BAD_WIDTH, 0, !divides(lower, fold.step))?;
    refuse_marked(pos, NO_COLUMN, 0, !is_first(view_column(def, &fold.at)))?;
    match width(fold.step, fold.shift) {
        Some(width) => {
            refuse_marked(pos, BAD_WIDTH, 0, !fits_offset(lower, &width))?;
            Ok(width)
        }
        None => Err(PlanStop::Refused(Refusal {
            code: BAD_WIDTH,
            pos,
            mark: 0,
        })),
    }
}

/// Whether a step is in range.
fn is_step_in_range(step: i64) -> bool
    ensures { result ≡ is_step step }
{
    0 < step && step <= MOST_STEP
}

/// Whether the step of a width divides a number.
fn divides(lower: &Width, z: i64) -> bool
    ensures { result ≡ divides_evenly z lower.now.step }
{
    z.rem_euclid(lower.step) == 0
}

/// Whether the step of a width divides the difference of its offset and another.
fn fits_offset(lower: &Width, upper: &Width) -> bool
    ensures { result ≡ divides_evenly (upper.now.shift -ℤ lower.now.shift) lower.now.step }
{
    (upper.shift - lower.shift).rem_euclid(lower.step) == 0
}

/// Whether a column is the bucket column.
fn is_first(column: Option<u32>) -> bool
    ensures { result ≡ is_bucket_column column }
{
    match column {
        Some(number) => number == 0,
        None => false,
    }
}
