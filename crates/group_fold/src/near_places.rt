//! The place of the group of a row, while groups are in order.
ghost use Rattle.std.specs.Prelude.{◌≤◌, length, IfOk, IfErr};
ghost use Rattle.group_fold.specs.Grouping.{row_at};
ghost use Rattle.group_fold.specs.Blocks.{IsHeadAt};

use crate::heads::Head;
use crate::members::{is_of, order_at, order_of};
use std::cmp::Ordering;
use ts_model::Fold;
use ts_schema::Row;

/// The place of the group of a row, or otherwise the place to insert it, so that groups in order stay in order.
/// Checks the group of the row before and the next one first: in each bucket the same keys occur, mostly in the
/// same order.
pub(crate) fn place_of(
    heads: &[Head],
    last: usize,
    plan: &Fold,
    row: &Row,
    start: i64,
) -> Result<usize, usize>
    ensures found { IfOk result (IsHeadAt (row_at plan.now start row.now) heads.now) }
    ensures free { IfErr result (λ at. at ≤ length heads.now) }
{
    match order_at(heads, last, plan, row, start) {
        Ordering::Equal => Ok(last),
        Ordering::Less => place_behind(heads, last + 1, plan, row, start),
        Ordering::Greater => place_among(heads, plan, row, start),
    }
}

/// The same, if the group in front of the place `next` comes before that of the row.
fn place_behind(
    heads: &[Head],
    next: usize,
    plan: &Fold,
    row: &Row,
    start: i64,
) -> Result<usize, usize>
    requires { next ≤ length heads.now }
    ensures found { IfOk result (IsHeadAt (row_at plan.now start row.now) heads.now) }
    ensures free { IfErr result (λ at. at ≤ length heads.now) }
{
    match order_at(heads, next, plan, row, start) {
        Ordering::Equal => Ok(next),
        Ordering::Less => place_among(heads, plan, row, start),
        Ordering::Greater => Err(next),
    }
}

/// The same, by binary search.
fn place_among(heads: &[Head], plan: &Fold, row: &Row, start: i64) -> Result<usize, usize>
    ensures found { IfOk result (IsHeadAt (row_at plan.now start row.now) heads.now) }
    ensures free { IfErr result (λ at. at ≤ length heads.now) }
{
    let at = heads.partition_point(|head: &Head| {
        order_of(plan, row, start, head) == Ordering::Less
    });
    if is_of(heads, at, plan, row, start) {
        Ok(at)
    } else {
        Err(at)
    }
}
