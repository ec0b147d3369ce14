//! The rows of a hypertable that match tests.
ghost use Rattle.std.specs.Prelude.{◌≡◌, ◌-◌, ◌≤◌, [], ◌∷◌, ◌++◌, drop, filter, length, map, take, IfOk, OnOk};
ghost use Rattle.cell_rows.specs.Parts.{AreParts, parts};
ghost use Rattle.ts_schema.specs.Conditions.{passes_all};
ghost use Rattle.ts_schema.specs.Counts.{Ticks};
ghost use Rattle.ts_model.specs.Answers.{all_columns};
ghost use Rattle.ts_model.specs.Rows.{in_order};
ghost use Rattle.ts_num.specs.Aggregates.{shown_or_null};
ghost use Rattle.group_fold.specs.Spans.{HaveTimes};
ghost use Rattle.realtime_union.specs.Whole.{all_reads, passing_rows};

use crate::tables::whole_time;
use cell_rows::CellRows;
use std::alloc::Global;
use ts_model::{ResultRows, RowsAt, put_values};
use ts_num::Datum;
use ts_schema::{NoMemory, Row, Seq, Steps, Test, Values, passes, row_order};

/// The rows of a hypertable that match every test, in row order and with all their columns in declared order.
/// `at` is the place of the time column. Scans all times once. Counts one step for each stored row in a chunk
/// that holds a time.
pub fn passing_rows<W: RowsAt, L>(
    alloc: Global,
    rows: &W,
    table: u32,
    at: u32,
    tests: &Seq<Test>,
    steps: &mut Steps<L>,
) -> Result<ResultRows, NoMemory>
    requires times { HaveTimes (W.visible rows.now table) }
    ensures rows { IfOk result (λ shown. shown ≡ passing_rows at tests.now (W.visible rows.now table)) }
    ensures read { Ticks result (all_reads (W.interval rows.now table) (W.stored rows.now table)) steps.old steps.new }
{
    let _so_far = steps.count();
    let found = all_rows(rows, table, steps)?;
    let sorted = passing_in_order(found, tests)?;
    let cells = columns_of_each(alloc, at, sorted.as_slice())?;
    Ok(ResultRows::of_cells(alloc, cells))
}

/// All rows of a hypertable.
fn all_rows<W: RowsAt, L>(rows: &W, table: u32, steps: &mut Steps<L>) -> Result<Seq<Row>, NoMemory>
    requires times { HaveTimes (W.visible rows.now table) }
    ensures rows { IfOk result (λ found. in_order found ≡ in_order (W.visible rows.now table)) }
    ensures read { Ticks result (all_reads (W.interval rows.now table) (W.stored rows.now table)) steps.old steps.new }
{
    rows.scan(table, whole_time(), steps)
}

/// The rows that pass every test, in row order.
fn passing_in_order(found: Seq<Row>, tests: &Seq<Test>) -> Result<Vec<Row>, NoMemory>
    ensures { IfOk result (λ sorted. sorted.items ≡ filter (λ row. passes_all row tests.now) (in_order found)) }
{
    let mut sorted = found.into_items();
    sorted.retain(|row| passes(row, tests));
    sorted.sort_by(|a: &Row, b: &Row| row_order(a, b))?;
    Ok(sorted)
}

/// Rows with all their columns.
fn columns_of_each(alloc: Global, at: u32, rows: &[Row]) -> Result<CellRows<Datum>, NoMemory>
    ensures { IfOk result (λ shown. shown ≡ map (all_columns at) rows.now) }
{
    let mut cells = Vec::new(alloc);
    let mut ends = Vec::new(alloc);
    cells.reserve(rows.len().saturating_mul(width_of(rows)))?;
    ends.reserve(rows.len())?;
    for row in rows {
        show_row(at, row, &mut cells, &mut ends)?;
    }
    Ok(CellRows::of(cells, ends))
}

/// The number of columns of these rows, which is the same for all rows of a table, or 0 without rows.
fn width_of(rows: &[Row]) -> usize {
    match rows.first() {
        Some(row) => row.vals.len().saturating_add(1),
        None => 0,
    }
}

/// Appends a row with all its columns: its cells, and the place at which they end.
#[inline(always)]
fn show_row(
    at: u32,
    row: &Row,
    cells: &mut Vec<Datum>,
    ends: &mut Vec<usize>,
) -> Result<(), NoMemory>
    requires parts { AreParts 0 ends.old.items cells.old.items }
    ensures parts { OnOk result (AreParts 0 ends.new.items cells.new.items) }
    ensures shown { OnOk result (parts 0 ends.new.items cells.new.items
        ≡ parts 0 ends.old.items cells.old.items ++ all_columns at row.now ∷ []) }
{
    put_columns(at, row, cells)?;
    ends.push(cells.as_slice().len())?;
    Ok(())
}

/// Appends all columns of a row in declared order, if the time column is at this place.
#[inline(always)]
fn put_columns(at: u32, row: &Row, cells: &mut Vec<Datum>) -> Result<(), NoMemory>
    ensures { IfOk result (λ _. cells.new.items ≡ cells.old.items ++ all_columns at row.now) }
{
    let count = row.vals.len();
    let before = count.min(at as usize);
    put_part(&row.vals, 0, before, cells)?;
    put_values(&[Some(row.at)], cells)?;
    put_part(&row.vals, before, count, cells)
}

/// Appends the values of a row from place `from` on and below place `to`.
#[inline(always)]
fn put_part(vals: &Values, from: usize, to: usize, cells: &mut Vec<Datum>) -> Result<(), NoMemory>
    requires order { from ≤ to }
    requires within { to ≤ length vals.now }
    ensures { IfOk result (λ _. cells.new.items ≡ cells.old.items
        ++ map shown_or_null (take (to - from) (drop from vals.now))) }
{
    for i in from..to {
        cells.push(number_or_null(vals.get(i)))?;
    }
    Ok(())
}

/// A number as a cell, or NULL.
#[inline(always)]
fn number_or_null(value: Option<i64>) -> Datum
    ensures { result ≡ shown_or_null value }
{
    match value {
        None => Datum::Null,
        Some(number) => Datum::Int(i128::from(number)),
    }
}
