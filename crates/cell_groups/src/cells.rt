//! The cells of a row, read as values.
ghost use Rattle.std.specs.Prelude.{◌≡◌, drop};
ghost use Rattle.ts_schema.specs.Conditions.{compares};
ghost use Rattle.ts_model.specs.Results.{cell_at, row_cells};
ghost use Rattle.cell_groups.specs.Cells.{cells_pass, passes_test};

use std::marker::Model;
use ts_model::ResultRow;
use ts_schema::{Cmp, Test};

/// The cells of a row of an answer, without the first `skip`. Contracts see them as a list. If a group shows
/// the row, no cell is created: each cell that is requested is read from the group.
#[derive(Drop)]
pub struct RowCells<'a> {
    row: ResultRow<'a>,
    skip: u32,
}

impl<'a> Model for RowCells<'a> {
    ghost use Rattle.std.specs.Prelude.{List, drop};
    ghost use Rattle.ts_num.specs.declared.values.Datum.{Datum};
    ghost use Rattle.ts_model.specs.Results.{row_cells};

    ghost Value = { List Datum };

    ghost view = { λ c. drop c.skip (row_cells c.row) };
}

impl<'a> RowCells<'a> {
    /// The cells of a row except its first `skip`.
    #[inline(always)]
    pub fn of(row: ResultRow<'a>, skip: u32) -> RowCells<'a>
        ensures cells { result ≡ drop skip (row_cells row.entry) }
    {
        RowCells { row, skip }
    }

    /// The value of the cell at a place: the whole number that it shows. `None` for NULL, for a mean and for a
    /// missing cell.
    #[inline(always)]
    #[tactic(auto, using(crate::proofs::CellLaws::cell_behind))]
    pub fn value_at(&self, place: u32) -> Option<i128>
        ensures value { result ≡ cell_at self.now place }
    {
        self.row.value_at(self.skip as usize + place as usize)
    }
}

/// Whether the cells of a row pass every test. The columns of the tests are places among the cells.
#[inline]
pub fn passes(cells: &RowCells<'_>, tests: &[Test]) -> bool
    ensures passes { result ≡ cells_pass tests.now cells.now }
{
    tests.iter().all(|test| passes_one(cells, test))
}

/// Whether the cells of a row pass one test.
fn passes_one(cells: &RowCells<'_>, test: &Test) -> bool
    ensures { result ≡ passes_test cells.now test.now }
{
    holds(test.cmp, cells.value_at(test.col), test.num)
}

/// Whether a comparison of a value with a number is true.
fn holds(cmp: Cmp, value: Option<i128>, num: i64) -> bool
    ensures { result ≡ compares cmp value num }
{
    match (cmp, value) {
        (Cmp::IsNull, None) => true,
        (Cmp::NotNull, Some(_)) => true,
        (Cmp::Eq, Some(v)) => v == i128::from(num),
        (Cmp::Ne, Some(v)) => v != i128::from(num),
        (Cmp::Lt, Some(v)) => v < i128::from(num),
        (Cmp::Le, Some(v)) => v <= i128::from(num),
        (Cmp::Gt, Some(v)) => v > i128::from(num),
        (Cmp::Ge, Some(v)) => v >= i128::from(num),
        _ => false,
    }
}
