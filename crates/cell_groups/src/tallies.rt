//! Totals of the cells of a column.
ghost use Rattle.std.specs.Prelude.{◌≡◌, ◌+◌, ◌<◌, pos, IfSome, IsOk, IsSome, OnOk, length, unwrap_or};
ghost use Rattle.std.specs.List.{AllByRecursion};
ghost use Rattle.ts_num.specs.Aggregates.{greater, lesser};
ghost use Rattle.ts_num.specs.declared.values.Fun.TheVariants.{CountAll, Max, Min, Sum};
ghost use Rattle.partial_agg.specs.Summaries.{summary_of_both, mean_shown, sum_shown};
ghost use Rattle.group_fold.specs.Merging.{joined_parts};
ghost use Rattle.cell_groups.specs.KeptSummaries.{as_part, as_parts, bound_of, cell_tally, row_tallies, tally_shown};
ghost use Rattle.cell_groups.specs.Room.{CanBeKept};

use crate::cells::RowCells;
use crate::stops::Stop;
use ts_model::Agg;
use ts_num::{Datum, Fun, lowest};
use ts_schema::Seq;

/// The total of the cells of a column. What it counts depends on the function that is shown.
#[derive(Clone, Copy, Debug)]
pub struct Tally {
    /// The number of cells that aren't NULL, or of all if rows are counted.
    pub values: u64,
    /// The sum of the values, or the least or the greatest of them, if there are any.
    pub number: i128,
}

/// The tally of one cell.
#[inline(always)]
pub(crate) fn tally_of(fun: Fun, value: Option<i128>) -> Tally
    ensures { result ≡ cell_tally fun value }
{
    match fun {
        Fun::CountAll => Tally {
            values: 1,
            number: 0,
        },
        Fun::Count | Fun::Sum | Fun::Min | Fun::Max | Fun::Avg => tally_of_value(value),
    }
}

/// The tally of one cell if its value counts.
#[inline(always)]
fn tally_of_value(value: Option<i128>) -> Tally
    ensures { result ≡ cell_tally Sum value }
{
    match value {
        None => Tally {
            values: 0,
            number: 0,
        },
        Some(v) => Tally {
            values: 1,
            number: v,
        },
    }
}

/// The tally of the cells of both, if it can be kept.
#[inline(always)]
fn both(fun: Fun, a: &Tally, b: &Tally) -> Option<Tally>
    ensures sum { IfSome result (λ t. as_part fun t ≡ summary_of_both (as_part fun a.now) (as_part fun b.now)) }
    ensures room { CanBeKept (summary_of_both (as_part fun a.now) (as_part fun b.now)) → IsSome result }
{
    match fun {
        Fun::CountAll => rows_of_both(a, b),
        Fun::Count | Fun::Sum | Fun::Avg => sum_of_both(a, b),
        Fun::Min => least_of_both(a, b),
        Fun::Max => most_of_both(a, b),
    }
}

/// The same if rows are counted.
#[inline(always)]
fn rows_of_both(a: &Tally, b: &Tally) -> Option<Tally>
    ensures sum { IfSome result (λ t. as_part CountAll t ≡ summary_of_both (as_part CountAll a.now) (as_part CountAll b.now)) }
    ensures room { CanBeKept (summary_of_both (as_part CountAll a.now) (as_part CountAll b.now)) → IsSome result }
{
    let values = a.values.checked_add(b.values)?;
    Some(Tally { values, number: 0 })
}

/// The same if they are summed.
#[inline(always)]
fn sum_of_both(a: &Tally, b: &Tally) -> Option<Tally>
    ensures sum { IfSome result (λ t. as_part Sum t ≡ summary_of_both (as_part Sum a.now) (as_part Sum b.now)) }
    ensures room { CanBeKept (summary_of_both (as_part Sum a.now) (as_part Sum b.now)) → IsSome result }
{
    let values = a.values.checked_add(b.values)?;
    let number = a.number.checked_add(b.number)?;
    Some(Tally { values, number })
}

/// The same for the least value.
#[inline(always)]
fn least_of_both(a: &Tally, b: &Tally) -> Option<Tally>
    ensures sum { IfSome result (λ t. as_part Min t ≡ summary_of_both (as_part Min a.now) (as_part Min b.now)) }
    ensures room { CanBeKept (summary_of_both (as_part Min a.now) (as_part Min b.now)) → IsSome result }
{
    let values = a.values.checked_add(b.values)?;
    Some(tally_with(values, lesser_of(bound_of(a), bound_of(b))))
}

/// The same for the greatest value.
#[inline(always)]
fn most_of_both(a: &Tally, b: &Tally) -> Option<Tally>
    ensures sum { IfSome result (λ t. as_part Max t ≡ summary_of_both (as_part Max a.now) (as_part Max b.now)) }
    ensures room { CanBeKept (summary_of_both (as_part Max a.now) (as_part Max b.now)) → IsSome result }
{
    let values = a.values.checked_add(b.values)?;
    Some(tally_with(values, greater_of(bound_of(a), bound_of(b))))
}

/// The number of a tally, if it has one.
#[inline(always)]
fn bound_of(tally: &Tally) -> Option<i128>
    ensures { result ≡ bound_of tally.now.values tally.now.number }
{
    match tally.values {
        0 => None,
        _ => Some(tally.number),
    }
}

/// The tally of `values` cells with this number.
#[inline(always)]
fn tally_with(values: u64, number: Option<i128>) -> Tally
    ensures values { result.values ≡ values }
    ensures number { result.number ≡ unwrap_or number (pos 0) }
{
    match number {
        None => Tally { values, number: 0 },
        Some(number) => Tally { values, number },
    }
}

/// The lesser of two numbers. If one is missing, it is the other.
#[inline(always)]
fn lesser_of(a: Option<i128>, b: Option<i128>) -> Option<i128>
    ensures { result ≡ lesser a b }
{
    match (a, b) {
        (Some(x), Some(y)) => Some(x.min(y)),
        (Some(x), None) => Some(x),
        (None, y) => y,
    }
}

/// The greater of two numbers. If one is missing, it is the other.
#[inline(always)]
fn greater_of(a: Option<i128>, b: Option<i128>) -> Option<i128>
    ensures { result ≡ greater a b }
{
    match (a, b) {
        (Some(x), Some(y)) => Some(x.max(y)),
        (Some(x), None) => Some(x),
        (None, y) => y,
    }
}

/// Adds the cells of a row to tallies.
pub(crate) fn add_row(
    aggs: &[Agg],
    tallies: &mut Seq<Tally>,
    cells: &RowCells<'_>,
) -> Result<(), Stop>
    requires { length tallies.old ≡ length aggs.now }
    ensures many { length tallies.new ≡ length aggs.now }
    ensures parts { OnOk result (as_parts aggs.now tallies.new ≡ joined_parts (as_parts aggs.now tallies.old) (as_parts aggs.now (row_tallies aggs.now cells.now))) }
    ensures room { AllByRecursion CanBeKept (joined_parts (as_parts aggs.now tallies.old) (as_parts aggs.now (row_tallies aggs.now cells.now))) → IsOk result }
{
    for k in 0..aggs.len() {
        let agg = &aggs[k];
        let Some(tally) = with_cell(agg.fun, tallies.get(k), cells.value_at(agg.col)) else {
            return Err(Stop::TooGreat);
        };
        tallies.set(k, tally);
    }
    Ok(())
}

/// A tally with one more cell, if it can be kept.
#[inline(always)]
fn with_cell(fun: Fun, tally: &Tally, value: Option<i128>) -> Option<Tally>
    ensures sum { IfSome result (λ t. as_part fun t ≡ summary_of_both (as_part fun tally.now) (as_part fun (cell_tally fun value))) }
    ensures room { CanBeKept (summary_of_both (as_part fun tally.now) (as_part fun (cell_tally fun value))) → IsSome result }
{
    match fun {
        Fun::CountAll => rows_of_both(tally, &tally_of(Fun::CountAll, value)),
        Fun::Count | Fun::Sum | Fun::Avg => sum_of_both(tally, &tally_of_value(value)),
        Fun::Min => least_of_both(tally, &tally_of_value(value)),
        Fun::Max => most_of_both(tally, &tally_of_value(value)),
    }
}

/// Adds other tallies of the same columns to tallies.
pub(crate) fn add_tallies(
    aggs: &[Agg],
    tallies: &mut Seq<Tally>,
    others: &[Tally],
) -> Result<(), Stop>
    requires mine { length tallies.old ≡ length aggs.now }
    requires theirs { length others.now ≡ length aggs.now }
    ensures many { length tallies.new ≡ length aggs.now }
    ensures parts { OnOk result (as_parts aggs.now tallies.new ≡ joined_parts (as_parts aggs.now tallies.old) (as_parts aggs.now others.now)) }
    ensures room { AllByRecursion CanBeKept (joined_parts (as_parts aggs.now tallies.old) (as_parts aggs.now others.now)) → IsOk result }
{
    for k in 0..aggs.len() {
        let Some(tally) = both(aggs[k].fun, tallies.get(k), &others[k]) else {
            return Err(Stop::TooGreat);
        };
        tallies.set(k, tally);
    }
    Ok(())
}

/// What a function shows of a tally.
pub(crate) fn shown_of(fun: Fun, tally: &Tally) -> Datum
    ensures { result ≡ tally_shown fun tally.now }
{
    match fun {
        Fun::CountAll | Fun::Count => Datum::Int(i128::from(tally.values)),
        Fun::Sum | Fun::Min | Fun::Max => number_shown(tally),
        Fun::Avg => mean_of(tally),
    }
}

/// What a function shows of one cell.
#[inline(always)]
pub(crate) fn shown_alone(fun: Fun, value: Option<i128>) -> Datum
    ensures { result ≡ tally_shown fun (cell_tally fun value) }
{
    match fun {
        Fun::CountAll => Datum::Int(1),
        Fun::Sum | Fun::Min | Fun::Max => number_alone(value),
        Fun::Count | Fun::Avg => shown_of(fun, &tally_of_value(value)),
    }
}

/// The number of one cell, NULL if it has none.
#[inline(always)]
fn number_alone(value: Option<i128>) -> Datum
    ensures { result ≡ tally_shown Sum (cell_tally Sum value) }
{
    match value {
        None => Datum::Null,
        Some(v) => Datum::Int(v),
    }
}

/// The number of a tally, NULL if it has none.
fn number_shown(tally: &Tally) -> Datum
    ensures { result ≡ sum_shown tally.now.values tally.now.number }
{
    match tally.values {
        0 => Datum::Null,
        _ => Datum::Int(tally.number),
    }
}

/// The mean of a tally, NULL if it has no value.
fn mean_of(tally: &Tally) -> Datum
    ensures { result ≡ mean_shown tally.now.values tally.now.number }
{
    match tally.values {
        0 => Datum::Null,
        _ => Datum::Ratio(lowest(tally.number, tally.values)),
    }
}
