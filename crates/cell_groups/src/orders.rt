//! Groups in order by bucket and keys.
ghost use Rattle.std.specs.Prelude.{◌≡◌, ◌∷◌, ◌<◌, ◌^◌, ℕ, IfOk, IsOkUnless, OnOk};
ghost use Rattle.std.specs.List.Sorted.{IsSorted};
ghost use Rattle.ts_schema.specs.Rows.{value_cmp, values_cmp};
ghost use Rattle.group_fold.specs.Gathering.{in_group_order};
ghost use Rattle.group_fold.specs.Merging.{with_group};
ghost use Rattle.cell_groups.specs.Groups.{HasTallies, HaveTallies, as_group, as_groups, keys_at};
ghost use Rattle.cell_groups.specs.Room.{AreOfRows};
ghost use Rattle.cell_groups.specs.TakenRows.{AreGathered, IsNotAfter, place_cmp, row_cmp};

use crate::cells::RowCells;
use crate::group_lookup::CellGroups;
use crate::groups::{CellGroup, take_group};
use crate::shapes::Shape;
use crate::stops::Stop;
use std::alloc::Global;
use std::cmp::Ordering;
use std::collections::VecDeque;

/// Compares a group with that of a row in the bucket that starts at `start`: by bucket, and then by keys, with
/// NULL greater than every number.
#[inline(always)]
pub(crate) fn order_beside(
    shape: &Shape,
    group: &CellGroup<'_>,
    start: i128,
    cells: &RowCells<'_>,
) -> Ordering
    ensures { result ≡ row_cmp shape.now group.now start cells.now }
{
    match group.start.cmp(&start) {
        Ordering::Less => Ordering::Less,
        Ordering::Equal => keys_order(shape.keys.items(), &group.first, cells),
        Ordering::Greater => Ordering::Greater,
    }
}

/// The keys of two rows, from left to right.
#[inline(always)]
fn keys_order(keys: &[u32], a: &RowCells<'_>, b: &RowCells<'_>) -> Ordering
    ensures { result ≡ values_cmp (keys_at keys.now a.now) (keys_at keys.now b.now) }
{
    match keys {
        [] => Ordering::Equal,
        [key, more_keys @ ..] => match key_order(a.value_at(*key), b.value_at(*key)) {
            Ordering::Less => Ordering::Less,
            Ordering::Equal => keys_order(more_keys, a, b),
            Ordering::Greater => Ordering::Greater,
        },
    }
}

/// Keys by size; NULL is greater than every number.
#[inline(always)]
fn key_order(a: Option<i128>, b: Option<i128>) -> Ordering
    ensures { result ≡ value_cmp a b }
{
    match (a, b) {
        (None, None) => Ordering::Equal,
        (None, Some(_)) => Ordering::Greater,
        (Some(_), None) => Ordering::Less,
        (Some(x), Some(y)) => x.cmp(&y),
    }
}

/// Groups by bucket and keys.
fn order_of(shape: &Shape, a: &CellGroup<'_>, b: &CellGroup<'_>) -> Ordering
    ensures { result ≡ place_cmp shape.now a.now b.now }
{
    order_beside(shape, a, b.start, &b.first)
}

/// Groups in order by bucket and keys; those of the same bucket and keys are merged.
pub(crate) fn in_order<'a>(
    alloc: Global,
    shape: &Shape,
    gathered: CellGroups<'a>,
) -> Result<Vec<CellGroup<'a>>, Stop>
    requires { AreGathered shape.now gathered }
    ensures groups { IfOk result (λ sorted. as_groups shape.now sorted.items ≡ in_group_order (as_groups shape.now gathered.entry.groups.items)) }
    ensures room { (n : ℕ) → AreOfRows n (as_groups shape.now gathered.entry.groups.items) → n < 2 ^ 64 → IsOkUnless result (Stop.NoMemory) }
{
    if gathered.in_order {
        return Ok(gathered.groups);
    }
    sort_groups(alloc, shape, gathered.groups)
}

/// The same groups in order, given in any order.
fn sort_groups<'a>(
    alloc: Global,
    shape: &Shape,
    groups: Vec<CellGroup<'a>>,
) -> Result<Vec<CellGroup<'a>>, Stop>
    requires { HaveTallies shape.now.aggs groups.items }
    ensures groups { IfOk result (λ sorted. as_groups shape.now sorted.items ≡ in_group_order (as_groups shape.now groups.entry.items)) }
    ensures room { (n : ℕ) → AreOfRows n (as_groups shape.now groups.entry.items) → n < 2 ^ 64 → IsOkUnless result (Stop.NoMemory) }
{
    let mut sorted = groups;
    sorted.sort_by(|a: &CellGroup<'_>, b: &CellGroup<'_>| order_of(shape, a, b))?;
    Ok(Vec::from(merge_neighbours(alloc, shape, sorted)?))
}

/// The same for groups none of which is before the one ahead of it.
fn merge_neighbours<'a>(
    alloc: Global,
    shape: &Shape,
    groups: Vec<CellGroup<'a>>,
) -> Result<VecDeque<CellGroup<'a>>, Stop>
    requires sorted { IsSorted (place_cmp shape.now) groups.items }
    requires alike { HaveTallies shape.now.aggs groups.items }
    ensures groups { IfOk result (λ merged. as_groups shape.now merged.items ≡ in_group_order (as_groups shape.now groups.entry.items)) }
    ensures room { (n : ℕ) → AreOfRows n (as_groups shape.now groups.entry.items) → n < 2 ^ 64 → IsOkUnless result (Stop.NoMemory) }
{
    let mut left = groups;
    let mut merged = VecDeque::new(alloc);
    while let Some(group) = left.pop() {
        put_first(alloc, shape, &mut merged, group)?;
    }
    Ok(merged)
}

/// Inserts a group before others in order, or merges it with the first of them if that has its bucket and keys.
fn put_first<'a>(
    alloc: Global,
    shape: &Shape,
    merged: &mut VecDeque<CellGroup<'a>>,
    group: CellGroup<'a>,
) -> Result<(), Stop>
    requires first { IsNotAfter (as_group shape.now group) (as_groups shape.now merged.old.items) }
    requires mine { HasTallies shape.now.aggs group }
    requires theirs { HaveTallies shape.now.aggs merged.old.items }
    ensures groups { OnOk result (as_groups shape.now merged.new.items ≡ with_group (as_group shape.now group.entry) (as_groups shape.now merged.old.items)) }
    ensures tallies { OnOk result (HaveTallies shape.now.aggs merged.new.items) }
    ensures room { (n : ℕ) → AreOfRows n (as_group shape.now group.entry ∷ as_groups shape.now merged.old.items) → n < 2 ^ 64 → IsOkUnless result (Stop.NoMemory) }
{
    match merged.pop_front() {
        None => merged.push_front(group)?,
        Some(next) => if order_of(shape, &group, &next) == Ordering::Equal {
            let mut both = group;
            let mut other = next;
            take_group(alloc, shape.aggs.items(), &mut both, &mut other)?;
            merged.push_front(both)?;
        } else {
            merged.push_front(next)?;
            merged.push_front(group)?;
        },
    }
    Ok(())
}
