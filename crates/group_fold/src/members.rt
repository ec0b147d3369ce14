//! The group of a row among groups, and what the row adds to it.
ghost use Rattle.std.specs.Prelude.{◌≡◌, ◌-◌, ◌^◌, ◌<◌, true, [], IfOk, length};
ghost use Rattle.std.specs.List.{AllByRecursion};
ghost use Rattle.std.specs.declared.cmp.Ordering.TheVariants.{Less, Equal};
ghost use Rattle.ts_schema.specs.Rows.{values_cmp};
ghost use Rattle.ts_model.specs.Scratch.{keys_of};
ghost use Rattle.partial_agg.specs.Groups.{group_cmp};
ghost use Rattle.group_fold.specs.Grouping.{row_at, row_parts};
ghost use Rattle.group_fold.specs.Merging.{joined_parts};
ghost use Rattle.group_fold.specs.Blocks.{IsHeadAt, shown_group};

use crate::heads::Head;
use partial_agg::{Keys, Partial};
use std::alloc::Global;
use std::cmp::Ordering;
use ts_model::{Agg, Fold};
use ts_schema::{NoMemory, Row, Seq, field, value_order};

/// Whether the group at a place is that of a row, in its bucket.
#[inline(always)]
pub(crate) fn is_of(heads: &[Head], at: usize, plan: &Fold, row: &Row, start: i64) -> bool
    ensures { result ≡ true → IsHeadAt (row_at plan.now start row.now) heads.now at }
{
    order_at(heads, at, plan, row, start) == Ordering::Equal
}

/// How the group at a place compares with that of a row. After the last group there is no group to compare.
#[inline(always)]
pub(crate) fn order_at(heads: &[Head], at: usize, plan: &Fold, row: &Row, start: i64) -> Ordering
    ensures same { result ≡ Equal → IsHeadAt (row_at plan.now start row.now) heads.now at }
    ensures before { result ≡ Less → at < length heads.now }
{
    match heads.get(at) {
        None => Ordering::Greater,
        Some(head) => order_of(plan, row, start, head),
    }
}

/// How a group compares with that of a row.
#[inline(always)]
pub(crate) fn order_of(plan: &Fold, row: &Row, start: i64, head: &Head) -> Ordering
    ensures { result ≡ group_cmp (shown_group 0 [] head.now) (row_at plan.now start row.now) }
{
    match head.start.cmp(&start) {
        Ordering::Less => Ordering::Less,
        Ordering::Equal => keys_order(head.keys.items(), plan.keys.items(), row),
        Ordering::Greater => Ordering::Greater,
    }
}

/// How keys compare with those of a row.
#[inline(always)]
fn keys_order(keys: &[Option<i64>], cols: &[u32], row: &Row) -> Ordering
    ensures { result ≡ values_cmp keys.now (keys_of cols.now row.now) }
{
    match keys {
        [] => if cols.is_empty() {
            Ordering::Equal
        } else {
            Ordering::Less
        },
        [key, more_keys @ ..] => match cols {
            [] => Ordering::Greater,
            [col, more_cols @ ..] => match value_order(*key, field(row, *col)) {
                Ordering::Less => Ordering::Less,
                Ordering::Equal => keys_order(more_keys, more_cols, row),
                Ordering::Greater => Ordering::Greater,
            },
        },
    }
}

/// The keys of a row. A single key takes no memory.
pub(crate) fn keys_alone(alloc: Global, cols: &[u32], row: &Row) -> Result<Keys, NoMemory>
    ensures { IfOk result (λ keys. keys ≡ keys_of cols.now row.now) }
{
    match cols {
        [col] => Ok(Keys::one(field(row, *col))),
        _ => Ok(Keys::of(Seq::of(keys_listed(alloc, cols, row)?))),
    }
}

fn keys_listed(alloc: Global, cols: &[u32], row: &Row) -> Result<Vec<Option<i64>>, NoMemory>
    ensures { IfOk result (λ keys. keys.items ≡ keys_of cols.now row.now) }
{
    let mut keys = Vec::with_capacity(alloc, cols.len())?;
    for col in cols {
        keys.push(field(row, *col))?;
    }
    Ok(keys)
}

/// Adds a row to the partial aggregates of its group.
#[inline(always)]
pub(crate) fn add_to_parts(aggs: &[Agg], row: &Row, parts: &mut [Partial])
    requires many { length parts.old ≡ length aggs.now }
    requires room { AllByRecursion (λ p. p.count < 2 ^ 62 - 1) parts.old }
    ensures { parts.new ≡ joined_parts parts.old (row_parts aggs.now row.now) }
{
    for k in 0..aggs.len() {
        parts[k].add(field(row, aggs[k].col));
    }
}
