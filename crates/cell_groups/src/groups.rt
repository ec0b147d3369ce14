//! One group of rows of an answer.
ghost use Rattle.std.specs.Prelude.{◌≡◌, ◌++◌, IfOk, IsOkUnless, None, OnOk, length};
ghost use Rattle.std.specs.List.{AllByRecursion};
ghost use Rattle.group_fold.specs.Merging.{joined_parts};
ghost use Rattle.cell_groups.specs.Groups.{HasTallies, parts_of, tallies_of};
ghost use Rattle.cell_groups.specs.KeptSummaries.{as_parts, row_tallies};
ghost use Rattle.cell_groups.specs.Room.{CanBeKept};

use crate::cells::RowCells;
use crate::stops::Stop;
use crate::tallies::{Tally, add_row, add_tallies, tally_of};
use std::alloc::Global;
use ts_model::Agg;
use ts_schema::{NoMemory, Seq};

/// A group of rows of an answer. It reads its keys from its first row, and allocates nothing until a second
/// row comes.
#[derive(Drop)]
pub struct CellGroup<'a> {
    /// The start of its bucket.
    pub start: i128,
    /// The cells of its first row that are grouped or aggregated.
    pub first: RowCells<'a>,
    /// The tallies of its columns, from the second row on.
    pub tallies: Option<Seq<Tally>>,
}

/// The group of one row, in the bucket that starts at `start`.
pub(crate) fn group_of(start: i128, cells: RowCells<'_>) -> CellGroup<'_>
    ensures start { result.start ≡ start }
    ensures first { result.first ≡ cells.entry }
    ensures tallies { result.tallies ≡ None }
{
    CellGroup {
        start,
        first: cells,
        tallies: None,
    }
}

/// The tallies of a row.
fn tallies_of_row(alloc: Global, aggs: &[Agg], cells: &RowCells<'_>) -> Result<Seq<Tally>, NoMemory>
    ensures { IfOk result (λ tallies. tallies ≡ row_tallies aggs.now cells.now) }
{
    let mut tallies = Vec::with_capacity(alloc, aggs.len())?;
    for agg in aggs {
        tallies.push(tally_of(agg.fun, cells.value_at(agg.col)))?;
    }
    Ok(Seq::of(tallies))
}

/// Removes and returns the tallies of a group, which keeps its first row.
fn take_tallies(
    alloc: Global,
    aggs: &[Agg],
    group: &mut CellGroup<'_>,
) -> Result<Seq<Tally>, NoMemory>
    ensures tallies { IfOk result (λ tallies. tallies ≡ tallies_of aggs.now group.old) }
    ensures start { group.new.start ≡ group.old.start }
    ensures first { group.new.first ≡ group.old.first }
    ensures none { group.new.tallies ≡ None }
{
    match group.tallies.take() {
        Some(tallies) => Ok(tallies),
        None => tallies_of_row(alloc, aggs, &group.first),
    }
}

/// Adds a row to a group.
pub(crate) fn take_row(
    alloc: Global,
    aggs: &[Agg],
    group: &mut CellGroup<'_>,
    cells: &RowCells<'_>,
) -> Result<(), Stop>
    requires { HasTallies aggs.now group.old }
    ensures start { group.new.start ≡ group.old.start }
    ensures first { group.new.first ≡ group.old.first }
    ensures many { HasTallies aggs.now group.new }
    ensures parts { OnOk result (parts_of aggs.now group.new ≡ joined_parts (parts_of aggs.now group.old) (as_parts aggs.now (row_tallies aggs.now cells.now))) }
    ensures room { AllByRecursion CanBeKept (joined_parts (parts_of aggs.now group.old) (as_parts aggs.now (row_tallies aggs.now cells.now))) → IsOkUnless result (Stop.NoMemory) }
{
    if let Some(tallies) = &mut group.tallies {
        return add_row(aggs, tallies, cells);
    }
    let mut tallies = tallies_of_row(alloc, aggs, &group.first)?;
    add_row(aggs, &mut tallies, cells)?;
    group.tallies = Some(tallies);
    Ok(())
}

/// Adds the rows of another group to a group.
pub(crate) fn take_group(
    alloc: Global,
    aggs: &[Agg],
    group: &mut CellGroup<'_>,
    other: &mut CellGroup<'_>,
) -> Result<(), Stop>
    requires mine { HasTallies aggs.now group.old }
    requires theirs { HasTallies aggs.now other.old }
    ensures start { group.new.start ≡ group.old.start }
    ensures first { group.new.first ≡ group.old.first }
    ensures many { HasTallies aggs.now group.new }
    ensures parts { OnOk result (parts_of aggs.now group.new ≡ joined_parts (parts_of aggs.now group.old) (parts_of aggs.now other.old)) }
    ensures room { AllByRecursion CanBeKept (joined_parts (parts_of aggs.now group.old) (parts_of aggs.now other.old)) → IsOkUnless result (Stop.NoMemory) }
{
    let mut tallies = take_tallies(alloc, aggs, group)?;
    let theirs = take_tallies(alloc, aggs, other)?;
    add_tallies(aggs, &mut tallies, theirs.items())?;
    group.tallies = Some(tallies);
    Ok(())
}
