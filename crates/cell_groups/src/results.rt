//! The result rows of groups.
ghost use Rattle.std.specs.Prelude.{◌≡◌, ◌++◌, ◌∷◌, ◌<◌, ◌^◌, ℕ, [], map, IfOk, IsOkUnless, OnOk};
ghost use Rattle.cell_rows.specs.Parts.{AreParts, parts};
ghost use Rattle.ts_num.specs.Aggregates.{shown_or_null};
ghost use Rattle.group_fold.specs.Gathering.{in_group_order};
ghost use Rattle.cell_groups.specs.Groups.{as_groups, group_shown, keys_at, rows_shown, tallies_of};
ghost use Rattle.cell_groups.specs.KeptSummaries.{cell_shown, tallies_shown};
ghost use Rattle.cell_groups.specs.Room.{AreOfRows};
ghost use Rattle.cell_groups.specs.TakenRows.{AreGathered};

use crate::cells::RowCells;
use crate::group_lookup::CellGroups;
use crate::groups::CellGroup;
use crate::orders::in_order;
use crate::shapes::Shape;
use crate::stops::Stop;
use crate::tallies::{Tally, shown_alone, shown_of};
use cell_rows::CellRows;
use std::alloc::Global;
use ts_model::Agg;
use ts_num::Datum;
use ts_schema::NoMemory;

/// The result rows of groups, in order by bucket and keys: the start of the bucket, the keys, and what each
/// aggregate shows.
pub fn rows_of(
    alloc: Global,
    shape: &Shape,
    gathered: CellGroups<'_>,
) -> Result<CellRows<Datum>, Stop>
    requires { AreGathered shape.now gathered }
    ensures rows { IfOk result (λ rows. rows ≡ rows_shown shape.now (in_group_order (as_groups shape.now gathered.entry.groups.items))) }
    ensures room { (n : ℕ) → AreOfRows n (as_groups shape.now gathered.entry.groups.items) → n < 2 ^ 64 → IsOkUnless result (Stop.NoMemory) }
{
    let groups = in_order(alloc, shape, gathered)?;
    Ok(shown_rows(alloc, shape, groups.as_slice())?)
}

/// The result rows of these groups, in the same order.
fn shown_rows(
    alloc: Global,
    shape: &Shape,
    groups: &[CellGroup<'_>],
) -> Result<CellRows<Datum>, NoMemory>
    ensures { IfOk result (λ rows. rows ≡ map (group_shown shape.now) groups.now) }
{
    let mut cells = Vec::new(alloc);
    let mut ends = Vec::new(alloc);
    cells.reserve(groups.len().saturating_mul(width_of(shape)))?;
    ends.reserve(groups.len())?;
    for group in groups {
        put_group(shape, group, &mut cells, &mut ends)?;
    }
    Ok(CellRows::of(cells, ends))
}

/// The number of cells of a result row.
pub(crate) fn width_of(shape: &Shape) -> usize {
    1usize
        .saturating_add(shape.keys.len())
        .saturating_add(shape.aggs.len())
}

/// Appends the result row of a group if the answer keeps it: its cells, and the place at which they end.
#[inline]
pub(crate) fn put_group(
    shape: &Shape,
    group: &CellGroup<'_>,
    cells: &mut Vec<Datum>,
    ends: &mut Vec<usize>,
) -> Result<(), NoMemory>
    requires parts { AreParts 0 ends.old.items cells.old.items }
    ensures parts { OnOk result (AreParts 0 ends.new.items cells.new.items) }
    ensures shown { OnOk result (parts 0 ends.new.items cells.new.items
        ≡ parts 0 ends.old.items cells.old.items ++ group_shown shape.now group.now ∷ []) }
{
    put_cells(shape, group, cells)?;
    ends.push(cells.as_slice().len())?;
    Ok(())
}

/// Appends the cells of a group's result row.
fn put_cells(shape: &Shape, group: &CellGroup<'_>, cells: &mut Vec<Datum>) -> Result<(), NoMemory>
    ensures { OnOk result (cells.new.items ≡ cells.old.items ++ group_shown shape.now group.now) }
{
    cells.push(Datum::Int(group.start))?;
    put_keys(shape.keys.items(), &group.first, cells)?;
    put_parts(shape.aggs.items(), group, cells)
}

/// Appends the keys of a row as they are shown.
fn put_keys(keys: &[u32], row: &RowCells<'_>, cells: &mut Vec<Datum>) -> Result<(), NoMemory>
    ensures { IfOk result (λ _. cells.new.items ≡ cells.old.items ++ map shown_or_null (keys_at keys.now row.now)) }
{
    for key in keys {
        cells.push(number_or_null(row.value_at(*key)))?;
    }
    Ok(())
}

/// A number, or NULL if it is missing.
#[inline]
fn number_or_null(value: Option<i128>) -> Datum
    ensures { result ≡ shown_or_null value }
{
    match value {
        None => Datum::Null,
        Some(v) => Datum::Int(v),
    }
}

/// Appends what each aggregate shows of a group.
fn put_parts(aggs: &[Agg], group: &CellGroup<'_>, cells: &mut Vec<Datum>) -> Result<(), NoMemory>
    ensures { OnOk result (cells.new.items ≡ cells.old.items ++ tallies_shown aggs.now (tallies_of aggs.now group.now)) }
{
    match &group.tallies {
        None => put_row(aggs, &group.first, cells),
        Some(tallies) => put_tallies(aggs, tallies.items(), cells),
    }
}

/// Appends what each aggregate shows of one row.
fn put_row(aggs: &[Agg], row: &RowCells<'_>, cells: &mut Vec<Datum>) -> Result<(), NoMemory>
    ensures { OnOk result (cells.new.items ≡ cells.old.items ++ map (cell_shown row.now) aggs.now) }
{
    for agg in aggs {
        cells.push(shown_alone(agg.fun, row.value_at(agg.col)))?;
    }
    Ok(())
}

/// Appends what each aggregate shows of its tally.
fn put_tallies(aggs: &[Agg], tallies: &[Tally], cells: &mut Vec<Datum>) -> Result<(), NoMemory>
    ensures { OnOk result (cells.new.items ≡ cells.old.items ++ tallies_shown aggs.now tallies.now) }
{
    let mut aggs_left = aggs;
    let mut tallies_left = tallies;
    while let [agg, more_aggs @ ..] = aggs_left {
        let [tally, more_tallies @ ..] = tallies_left else {
            return Ok(());
        };
        cells.push(shown_of(agg.fun, tally))?;
        aggs_left = more_aggs;
        tallies_left = more_tallies;
    }
    Ok(())
}
