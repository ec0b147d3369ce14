//! The result row of a group, built or read cell by cell.
ghost use Rattle.std.specs.Prelude.{◌≡◌, ◌++◌, map, IfOk};
ghost use Rattle.ts_num.specs.Aggregates.{shown_or_null};
ghost use Rattle.partial_agg.specs.Summaries.{value_of};
ghost use Rattle.ts_model.specs.Chosen.{cell_or_null, chosen_cells};
ghost use Rattle.ts_model.specs.Groups.{cells_by, shown_each};
ghost use Rattle.ts_model.specs.Results.{cell_at, group_cells};

use crate::views::Agg;
use partial_agg::{Group, Partial};
use ts_num::Datum;
use ts_schema::NoMemory;

/// The result row of a group, without stored cells. Its keys and its partial aggregates are looked up once, for
/// all of its cells. Contracts see the cells as `group_cells`: at 0 the start of the bucket, then the keys, and
/// then the aggregates.
#[derive(Clone, Copy, Debug)]
pub struct GroupRow<'a> {
    /// The start of the bucket.
    pub start: i64,
    /// The values of the columns that rows are grouped by; NULL is `None`.
    pub keys: &'a [Option<i64>],
    /// What is shown of the partial aggregates, in order.
    pub aggs: &'a [Agg],
    /// The partial aggregates.
    pub parts: &'a [Partial],
}

impl<'a> GroupRow<'a> {
    /// The result row of a group that shows these aggregates.
    #[inline(always)]
    pub fn of(aggs: &'a [Agg], group: &'a Group) -> GroupRow<'a>
        ensures cells { group_cells result ≡ cells_by aggs.now group.now }
    {
        GroupRow {
            start: group.start,
            keys: group.keys.items(),
            aggs,
            parts: group.parts.items(),
        }
    }

    /// Appends the cells.
    pub(crate) fn put_cells(&self, cells: &mut Vec<Datum>) -> Result<(), NoMemory>
        ensures appended { IfOk result (λ _. cells.new.items ≡ cells.old.items ++ group_cells self.now) }
    {
        cells.push(Datum::Int(i128::from(self.start)))?;
        put_values(self.keys, cells)?;
        put_parts(self.aggs, self.parts, cells)
    }

    /// Appends the cells at these places.
    pub(crate) fn put_chosen(&self, places: &[u32], cells: &mut Vec<Datum>) -> Result<(), NoMemory>
        ensures appended { IfOk result (λ _. cells.new.items
            ≡ cells.old.items ++ chosen_cells places.now (group_cells self.now)) }
    {
        for place in places {
            cells.push(self.cell(*place as usize))?;
        }
        Ok(())
    }

    /// The cell at a place, and NULL if there is none.
    #[inline]
    #[tactic(auto, using(crate::proofs::ResultLaws::cell_of_key, crate::proofs::ResultLaws::cell_behind))]
    pub fn cell(&self, place: usize) -> Datum
        ensures cell { result ≡ cell_or_null (group_cells self.now) place }
    {
        if place == 0 {
            return Datum::Int(i128::from(self.start));
        }
        match self.keys.get(place - 1) {
            Some(key) => number_or_null(*key),
            None => part_cell(self.aggs, self.parts, place - 1 - self.keys.len()),
        }
    }

    /// The value of the cell at a place.
    #[inline(always)]
    #[tactic(auto, using(crate::proofs::ResultLaws::value_of_key, crate::proofs::ResultLaws::value_behind))]
    pub(crate) fn value_at(&self, place: usize) -> Option<i128>
        ensures { result ≡ cell_at (group_cells self.now) place }
    {
        if place == 0 {
            return Some(i128::from(self.start));
        }
        if place <= self.keys.len() {
            return number(self.keys[place - 1]);
        }
        part_value(self.aggs, self.parts, place - 1 - self.keys.len())
    }

    /// The value of the chosen cell at a place, by the places of the chosen cells.
    #[inline]
    #[tactic(auto, using(crate::proofs::ResultLaws::value_chosen, crate::proofs::ResultLaws::none_chosen))]
    pub(crate) fn chosen_value(&self, places: &[u32], at: usize) -> Option<i128>
        ensures { result ≡ cell_at (chosen_cells places.now (group_cells self.now)) at }
    {
        let place = places.get(at)?;
        self.value_at(*place as usize)
    }
}

/// Appends values as they are shown: numbers, or NULL.
pub fn put_values(values: &[Option<i64>], cells: &mut Vec<Datum>) -> Result<(), NoMemory>
    ensures appended { IfOk result (λ _. cells.new.items ≡ cells.old.items ++ map shown_or_null values.now) }
{
    for value in values {
        cells.push(number_or_null(*value))?;
    }
    Ok(())
}

/// A number, or NULL.
fn number_or_null(value: Option<i64>) -> Datum
    ensures { result ≡ shown_or_null value }
{
    match value {
        None => Datum::Null,
        Some(value) => Datum::Int(i128::from(value)),
    }
}

/// Appends what each aggregate shows of its part.
fn put_parts(aggs: &[Agg], parts: &[Partial], cells: &mut Vec<Datum>) -> Result<(), NoMemory>
    ensures { IfOk result (λ _. cells.new.items ≡ cells.old.items ++ shown_each aggs.now parts.now) }
{
    let mut aggs_left = aggs;
    let mut parts_left = parts;
    while let [agg, more_aggs @ ..] = aggs_left {
        let [part, more_parts @ ..] = parts_left else {
            return Ok(());
        };
        cells.push(part.finish(agg.fun))?;
        aggs_left = more_aggs;
        parts_left = more_parts;
    }
    Ok(())
}

/// What the aggregate at a place shows of its part, and NULL if there is none.
#[inline]
#[tactic(auto, using(crate::proofs::ResultLaws::cell_of_part, crate::proofs::ResultLaws::no_agg_cell, crate::proofs::ResultLaws::no_part_cell))]
fn part_cell(aggs: &[Agg], parts: &[Partial], at: usize) -> Datum
    ensures { result ≡ cell_or_null (shown_each aggs.now parts.now) at }
{
    match aggs.get(at) {
        None => Datum::Null,
        Some(agg) => match parts.get(at) {
            None => Datum::Null,
            Some(part) => part.finish(agg.fun),
        },
    }
}

/// The value of the cell at a place of a row with stored cells.
#[inline(always)]
pub(crate) fn cell_value(cells: &[Datum], place: usize) -> Option<i128>
    ensures { result ≡ cell_at cells.now place }
{
    match cells.get(place)? {
        Datum::Int(v) => Some(*v),
        Datum::Null | Datum::Ratio(_) => None,
    }
}

/// A number, if it isn't missing.
#[inline(always)]
fn number(value: Option<i64>) -> Option<i128>
    ensures { result ≡ value_of (shown_or_null value) }
{
    match value {
        None => None,
        Some(value) => Some(i128::from(value)),
    }
}

/// The whole number that the aggregate at a place shows of its part.
#[inline(always)]
#[tactic(auto, using(crate::proofs::ResultLaws::value_of_part, crate::proofs::ResultLaws::no_agg, crate::proofs::ResultLaws::no_part))]
fn part_value(aggs: &[Agg], parts: &[Partial], at: usize) -> Option<i128>
    ensures { result ≡ cell_at (shown_each aggs.now parts.now) at }
{
    let agg = aggs.get(at)?;
    let part = parts.get(at)?;
    part.number(agg.fun)
}
