//! Roll-ups that take all of an aggregate, or all its groups.
ghost use Rattle.std.specs.Prelude.{◌≡◌};
ghost use Rattle.std.specs.List.{list_all};
ghost use Rattle.hier_agg.specs.Choices.{keeps_its_cell, takes_groups};
ghost use Rattle.hier_agg.specs.Plans.{is_additive};
ghost use Rattle.hier_agg.specs.Wholes.{are_all, run_from, same_width, takes_all};

use crate::answers::function_at;
use crate::plans::UpperPlan;
use ts_bucket::Width;
use ts_model::{Agg, Fold};
use ts_num::Fun;

/// Whether a plan takes all of the fold of an aggregate: its width, and all its keys and then all its
/// aggregates, each once and in their order. The plan must have no test, and no aggregate may be a mean. If so,
/// the roll-up is the aggregate's answer.
pub fn takes_all(plan: &UpperPlan, lower: &Fold) -> bool
    ensures { result ≡ takes_all lower.now plan.now }
{
    let keys = lower.keys.len();
    same_width(&plan.width, &lower.width)
        && are_all(0, keys, plan.keys.items())
        && are_all(keys, lower.aggs.len(), plan.cols.items())
        && plan.tests.items().is_empty()
        && are_additive(lower.aggs.items())
}

/// Whether a plan keeps the groups of the fold of an aggregate: its width, all its keys, each once and in their
/// order, and no test. It takes any aggregates except means, in any order. Then the roll-up is the aggregate's
/// answer with the cells at its `chosen_places`.
pub fn takes_groups(plan: &UpperPlan, lower: &Fold) -> bool
    ensures { result ≡ takes_groups lower.now plan.now }
{
    same_width(&plan.width, &lower.width)
        && are_all(0, lower.keys.len(), plan.keys.items())
        && plan.tests.is_empty()
        && keep_their_cells(lower, plan.cols.items())
}

/// Whether the totals of these columns show a single cell unchanged.
fn keep_their_cells(lower: &Fold, cols: &[u32]) -> bool
    ensures { result ≡ list_all (keeps_its_cell lower.now) cols.now }
{
    cols.iter().all(|col| keeps_its_cell(lower, *col))
}

/// Whether the total of a column shows a single cell unchanged: the column is an aggregate's, and not a mean.
fn keeps_its_cell(lower: &Fold, col: u32) -> bool
    ensures { result ≡ keeps_its_cell lower.now col }
{
    let keys = lower.keys.len();
    let place = col as usize;
    keys <= place && place - keys < lower.aggs.len() && is_additive(function_at(lower, col))
}

/// Whether two widths have the same step and the same offset.
fn same_width(width: &Width, other: &Width) -> bool
    ensures { result ≡ same_width width.now other.now }
{
    width.step == other.step && width.shift == other.shift
}

/// Whether these are this many columns from one on, each once and in their order.
fn are_all(first: usize, many: usize, cols: &[u32]) -> bool
    ensures { result ≡ are_all first many cols.now }
{
    cols.len() == many && run_from(first as u64, cols)
}

/// Whether these are the numbers from one on.
fn run_from(first: u64, cols: &[u32]) -> bool
    ensures { result ≡ run_from first cols.now }
{
    let mut next = first;
    let mut left = cols;
    while let [col, rest @ ..] = left {
        if u64::from(*col) != next {
            return false;
        }
        next = u64::from(*col) + 1;
        left = rest;
    }
    true
}

/// Whether the values of all of these can be added up.
fn are_additive(aggs: &[Agg]) -> bool
    ensures { result ≡ list_all (λ a. is_additive a.fun) aggs.now }
{
    aggs.iter().all(|agg| is_additive(agg.fun))
}

/// Whether the values of a function can be added up.
fn is_additive(fun: Fun) -> bool
    ensures { result ≡ is_additive fun }
{
    match fun {
        Fun::CountAll | Fun::Count | Fun::Sum | Fun::Min | Fun::Max => true,
        Fun::Avg => false,
    }
}
