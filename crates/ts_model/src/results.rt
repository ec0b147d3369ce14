//! The rows of an answer.
ghost use Rattle.std.specs.Prelude.{◌≡◌, ◌==◌, [], ◌++◌, length, map, IfOk, IfErr};
ghost use Rattle.std.specs.Iterator.{YieldsFirstBy, item_count};
ghost use Rattle.ts_model.specs.Chosen.{chosen_cells, group_shown};
ghost use Rattle.ts_model.specs.Groups.{cells_by};
ghost use Rattle.ts_model.specs.Results.{cell_at, row_cells};

use crate::cells::{GroupRow, cell_value};
use crate::views::Agg;
use block_list::Slice;
use cell_rows::CellRows;
use partial_agg::Group;
use std::alloc::Global;
use std::marker::Model;
use ts_num::Datum;
use ts_schema::{NoMemory, Seq};

/// The rows of an answer, as lists of cells: rows with stored cells, and then those of groups. The cells of
/// groups are computed when they are read. So an answer of many groups takes no memory for its cells, even if
/// only some of them are shown. It shares groups that a store keeps.
#[derive(Drop, Debug)]
pub struct ResultRows {
    /// Rows with stored cells.
    cells: CellRows<Datum>,
    /// What the groups show.
    aggs: Seq<Agg>,
    /// Which cells of a group's row are shown, by their places, if not all are.
    places: Option<Seq<u32>>,
    /// Groups that a store keeps.
    kept: Slice<Group>,
    /// Groups after them.
    live: Seq<Group>,
    /// The number of rows.
    len: usize,
}

impl Model for ResultRows {
    ghost use Rattle.std.specs.Prelude.{◌≡◌, ◌+◌, ◌++◌, List, length, map};
    ghost use Rattle.ts_num.specs.declared.values.Datum.{Datum};
    ghost use Rattle.ts_model.specs.Chosen.{group_shown};

    ghost Value = { List (List Datum) };

    ghost view = { λ r. r.cells ++ map (group_shown r.places r.aggs) (r.kept ++ r.live) };

    ghost invariant = { λ r. r.len ≡ length r.cells + (length r.kept + length r.live) };
}

impl ResultRows {
    /// No rows. It takes no memory.
    pub fn none(alloc: Global) -> ResultRows
        ensures rows { result ≡ [] }
    {
        ResultRows::of_cells(alloc, CellRows::new(alloc))
    }

    /// The answer of rows with stored cells. It takes no memory.
    pub fn of_cells(alloc: Global, cells: CellRows<Datum>) -> ResultRows
        ensures rows { result ≡ cells }
    {
        let len = cells.len();
        ResultRows {
            cells,
            aggs: Seq::new(alloc),
            places: None,
            kept: Slice::none(alloc),
            live: Seq::new(alloc),
            len,
        }
    }

    /// The rows of groups that show these aggregates, first of those that a store keeps. It takes no
    /// memory.
    pub fn of_groups(
        alloc: Global,
        aggs: Seq<Agg>,
        kept: Slice<Group>,
        live: Seq<Group>,
    ) -> ResultRows
        ensures rows { result ≡ map (cells_by aggs) (kept ++ live) }
    {
        let len = kept.len() + live.items().len();
        ResultRows {
            cells: CellRows::new(alloc),
            aggs,
            places: None,
            kept,
            live,
            len,
        }
    }

    /// The same rows with the cells at these places, in the order of the places. Place 0 is the start of the
    /// bucket, then come the keys, and then the aggregates. A missing cell is NULL. It takes no memory and
    /// reads no row. Fails with the rows themselves, if their cells are stored or chosen already.
    pub fn choose(self, places: Seq<u32>) -> Result<ResultRows, ResultRows>
        ensures chosen { IfOk result (λ rows. rows ≡ map (chosen_cells places) self) }
        ensures same { IfErr result (λ rows. rows ≡ self) }
    {
        if !self.cells.is_empty() || self.places.is_some() {
            return Err(self);
        }
        Ok(ResultRows {
            cells: self.cells,
            aggs: self.aggs,
            places: Some(places),
            kept: self.kept,
            live: self.live,
            len: self.len,
        })
    }

    /// The number of rows.
    pub fn len(&self) -> usize
        ensures len { result ≡ length self.now }
    {
        self.len
    }

    /// Whether there is no row.
    pub fn is_empty(&self) -> bool
        ensures empty { result ≡ (length self.now == 0) }
    {
        self.len() == 0
    }

    /// The rows, in order.
    pub fn iter(&self) -> ResultIter<'_>
        ensures rows { result ≡ self.now }
    {
        ResultIter {
            cells: self.cells.iter(),
            aggs: self.aggs.items(),
            places: &self.places,
            kept: self.kept.iter(),
            live: self.live.items(),
        }
    }
}

/// A row of an answer. Contracts see its cells as `row_cells`.
#[derive(Clone, Copy, Debug)]
pub enum ResultRow<'a> {
    /// Its cells.
    Cells(&'a [Datum]),
    /// What a group shows.
    Group(GroupRow<'a>),
    /// The same, of whose cells only those at these places are shown, in the order of the places.
    Chosen {
        places: &'a [u32],
        row: GroupRow<'a>,
    },
}

impl<'a> ResultRow<'a> {
    /// Appends its cells.
    pub fn put_cells(&self, cells: &mut Vec<Datum>) -> Result<(), NoMemory>
        ensures appended { IfOk result (λ _. cells.new.items ≡ cells.old.items ++ row_cells self.now) }
    {
        match self {
            ResultRow::Cells(row) => {
                cells.extend_from_slice(row)?;
                Ok(())
            }
            ResultRow::Group(row) => row.put_cells(cells),
            ResultRow::Chosen { places, row } => row.put_chosen(places, cells),
        }
    }

    /// The value of the cell at a place: the whole number that it shows. `None` for NULL, for a mean and for a
    /// missing cell.
    #[inline(always)]
    pub fn value_at(&self, place: usize) -> Option<i128>
        ensures value { result ≡ cell_at (row_cells self.now) place }
    {
        match self {
            ResultRow::Cells(row) => cell_value(row, place),
            ResultRow::Group(row) => row.value_at(place),
            ResultRow::Chosen { places, row } => row.chosen_value(places, place),
        }
    }
}

/// The row of a group that shows these aggregates: all of its cells, or those at these places.
#[inline(always)]
fn group_row<'a>(aggs: &'a [Agg], places: &'a Option<Seq<u32>>, group: &'a Group) -> ResultRow<'a>
    ensures { row_cells result ≡ group_shown places.now aggs.now group.now }
{
    let row = GroupRow::of(aggs, group);
    match places {
        None => ResultRow::Group(row),
        Some(places) => ResultRow::Chosen {
            places: places.items(),
            row,
        },
    }
}

/// The remaining rows of an answer. Contracts see them as lists of cells.
#[derive(Drop)]
pub struct ResultIter<'a> {
    cells: cell_rows::Iter<'a, Datum>,
    aggs: &'a [Agg],
    places: &'a Option<Seq<u32>>,
    kept: block_list::Iter<'a, Group>,
    live: &'a [Group],
}

impl<'a> Model for ResultIter<'a> {
    ghost use Rattle.std.specs.Prelude.{◌++◌, List, map};
    ghost use Rattle.ts_num.specs.declared.values.Datum.{Datum};
    ghost use Rattle.ts_model.specs.Chosen.{group_shown};

    ghost Value = { List (List Datum) };

    ghost view = { λ i. i.cells ++ map (group_shown i.places.now i.aggs.now) (i.kept ++ i.live.now) };
}

impl<'a> Iterator for ResultIter<'a> {
    type Item = ResultRow<'a>;

    ghost next_gives = { YieldsFirstBy row_cells (λ i. i) };

    ghost remaining = { item_count (λ i. i) };

    #[inline(always)]
    fn next(&mut self) -> Option<ResultRow<'a>> {
        if let Some(cells) = self.cells.next() {
            return Some(ResultRow::Cells(cells));
        }
        let (aggs, places) = (self.aggs, self.places);
        if let Some(group) = self.kept.next() {
            return Some(group_row(aggs, places, group));
        }
        let (group, live) = self.live.split_first()?;
        self.live = live;
        Some(group_row(aggs, places, group))
    }
}
