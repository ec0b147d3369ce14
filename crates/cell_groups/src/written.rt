//! Result rows of groups in order, each written when its group ends.
ghost use Rattle.std.specs.Prelude.{◌≡◌, ◌++◌, ℕ, List, [], map, Some, false, true, IfOk, IfSome, OnOk};
ghost use Rattle.std.specs.Option.{option_to_list};
ghost use Rattle.std.specs.declared.cmp.Ordering.TheVariants.{Greater};
ghost use Rattle.partial_agg.specs.declared.groups.Group.{Group};
ghost use Rattle.group_fold.specs.Merging.{with_group};
ghost use Rattle.cell_groups.specs.Groups.{HasTallies, cells_at, group_shown, rows_shown};
ghost use Rattle.cell_groups.specs.Written.{AreRows, AreWritten, TakesRow, last_cmp, rows_written};

use crate::cells::RowCells;
use crate::groups::{CellGroup, group_of, take_row};
use crate::orders::order_beside;
use crate::results::{put_group, width_of};
use crate::shapes::Shape;
use crate::stops::Stop;
use cell_rows::CellRows;
use std::alloc::Global;
use std::cmp::Ordering;
use ts_model::Agg;
use ts_num::Datum;
use ts_schema::NoMemory;

/// The result rows of groups in order: the row of each is written when the next group begins.
#[derive(Drop)]
pub struct WrittenGroups<'a> {
    /// The result rows of the groups before the last: their cells, in order.
    pub cells: Vec<Datum>,
    /// The place at which each of these rows ends.
    pub ends: Vec<usize>,
    /// The last group, if there is one.
    pub last: Option<CellGroup<'a>>,
}

impl<'a> WrittenGroups<'a> {
    /// No groups, with room for `rows` result rows.
    pub fn with_room(
        alloc: Global,
        shape: &Shape,
        many: usize,
    ) -> Result<WrittenGroups<'a>, NoMemory>
        ensures none { IfOk result (λ written. AreWritten shape.now [] (rows_written written) written.last) }
        ensures rows { IfOk result AreRows }
    {
        let mut cells = Vec::new(alloc);
        let mut ends = Vec::new(alloc);
        cells.reserve(many.saturating_mul(width_of(shape)))?;
        ends.reserve(many)?;
        Ok(WrittenGroups {
            cells,
            ends,
            last: None,
        })
    }

    /// Adds a row to the last group, or as the next group, in the bucket that starts at `start`. Returns
    /// whether it did: it adds nothing if the row's group comes before the last one.
    pub fn take(
        &mut self,
        alloc: Global,
        shape: &Shape,
        start: i128,
        cells: RowCells<'a>,
    ) -> Result<bool, Stop>
        requires tallies { IfSome self.old.last (HasTallies shape.now.aggs) }
        requires rows { AreRows self.old }
        ensures tallies { OnOk result (IfSome self.new.last (HasTallies shape.now.aggs)) }
        ensures rows { OnOk result (AreRows self.new) }
        ensures taken { (groups : List Group) → AreWritten shape.now groups (rows_written self.old) self.old.last
            → IfOk result (λ taken. taken ≡ true
            → AreWritten shape.now (with_group (cells_at shape.now start cells.entry) groups) (rows_written self.new) self.new.last) }
        ensures left { IfOk result (λ taken. taken ≡ false → last_cmp shape.now self.old.last start cells.entry ≡ Greater) }
    {
        match self.order(shape, start, &cells) {
            Ordering::Less => {
                self.begin(shape, group_of(start, cells))?;
                Ok(true)
            }
            Ordering::Equal => {
                self.add(alloc, shape.aggs.items(), &cells)?;
                Ok(true)
            }
            Ordering::Greater => Ok(false),
        }
    }

    /// How the last group compares with that of a row. Without a last group, the row's group counts as after
    /// it.
    fn order(&self, shape: &Shape, start: i128, cells: &RowCells<'_>) -> Ordering
        ensures { result ≡ last_cmp shape.now self.now.last start cells.now }
    {
        match &self.last {
            None => Ordering::Less,
            Some(group) => order_beside(shape, group, start, cells),
        }
    }

    /// Adds a row to the last group.
    fn add(&mut self, alloc: Global, aggs: &[Agg], cells: &RowCells<'_>) -> Result<(), Stop>
        requires { IfSome self.old.last (HasTallies aggs.now) }
        ensures taken { OnOk result (TakesRow aggs.now cells.now self.old.last self.new.last) }
        ensures tallies { IfSome self.new.last (HasTallies aggs.now) }
        ensures cells { self.new.cells.items ≡ self.old.cells.items }
        ensures ends { self.new.ends.items ≡ self.old.ends.items }
    {
        match &mut self.last {
            None => Ok(()),
            Some(group) => take_row(alloc, aggs, group, cells),
        }
    }

    /// Starts the next group. The last one has ended.
    fn begin(&mut self, shape: &Shape, next: CellGroup<'a>) -> Result<(), NoMemory>
        requires { AreRows self.old }
        ensures are_rows { OnOk result (AreRows self.new) }
        ensures rows { OnOk result (rows_written self.new
            ≡ rows_written self.old ++ map (group_shown shape.now) (option_to_list self.old.last)) }
        ensures last { OnOk result (self.new.last ≡ Some next.entry) }
    {
        self.end(shape)?;
        self.last = Some(next);
        Ok(())
    }

    /// Writes the result row of the last group.
    fn end(&mut self, shape: &Shape) -> Result<(), NoMemory>
        requires { AreRows self.old }
        ensures are_rows { OnOk result (AreRows self.new) }
        ensures rows { OnOk result (rows_written self.new
            ≡ rows_written self.old ++ map (group_shown shape.now) (option_to_list self.old.last)) }
        ensures last { self.new.last ≡ self.old.last }
    {
        match &self.last {
            None => Ok(()),
            Some(group) => put_group(shape, group, &mut self.cells, &mut self.ends),
        }
    }

    /// The result rows of all groups.
    pub fn finish(self, shape: &Shape) -> Result<CellRows<Datum>, NoMemory>
        requires { AreRows self }
        ensures rows { (groups : List Group) → AreWritten shape.now groups (rows_written self.entry) self.entry.last
            → IfOk result (λ rows. rows ≡ rows_shown shape.now groups) }
    {
        let mut written = self;
        written.end(shape)?;
        let WrittenGroups {
            cells,
            ends,
            last: _,
        } = written;
        Ok(CellRows::of(cells, ends))
    }
}
