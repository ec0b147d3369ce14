//! A roll-up, as a grouping of the cells after the bucket of each row.
ghost use Rattle.std.specs.Prelude.{◌≡◌, IfOk, map};
ghost use Rattle.hier_agg.specs.Plans.{added_by};
ghost use Rattle.hier_agg.specs.Taken.{added_at, shape_of};

use crate::answers::function_at;
use crate::plans::UpperPlan;
use cell_groups::Shape;
use std::alloc::Global;
use ts_model::{Agg, Fold};
use ts_num::Fun;
use ts_schema::{NoMemory, Seq};

/// The cells by which rows are grouped, and those that are added up.
pub(crate) fn shape_of(alloc: Global, lower: &Fold, plan: &UpperPlan) -> Result<Shape, NoMemory>
    ensures { IfOk result (λ shape. shape ≡ shape_of lower.now plan.now) }
{
    Ok(Shape {
        keys: plan.keys.copy()?,
        aggs: Seq::of(all_added(alloc, lower, plan.cols.items())?),
    })
}

/// The aggregates that add up columns.
fn all_added(alloc: Global, lower: &Fold, cols: &[u32]) -> Result<Vec<Agg>, NoMemory>
    ensures { IfOk result (λ aggs. aggs.items ≡ map (added_at lower.now) cols.now) }
{
    let mut aggs = Vec::with_capacity(alloc, cols.len())?;
    for col in cols {
        aggs.push(Agg {
            fun: added_by(function_at(lower, *col)),
            col: *col,
        })?;
    }
    Ok(aggs)
}

/// The function that adds up the values of a function.
fn added_by(fun: Fun) -> Fun
    ensures { result ≡ added_by fun }
{
    match fun {
        Fun::CountAll | Fun::Count | Fun::Sum | Fun::Avg => Fun::Sum,
        Fun::Min => Fun::Min,
        Fun::Max => Fun::Max,
    }
}
