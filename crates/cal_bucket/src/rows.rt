//! The times of the rows of an answer.
ghost use Rattle.std.specs.Prelude.{◌≡◌, IsSomeAnd, IsTrue, pos, unwrap_or};
ghost use Rattle.ts_bucket.specs.Bucket.{is_time};
ghost use Rattle.cal_bucket.specs.Rows.{ShowARow, row_shown};

use cell_groups::RowCells;

/// The time in a cell.
#[inline(always)]
fn time_shown(value: Option<i128>) -> i64
    requires { IsSomeAnd value (λ n. IsTrue (is_time n)) }
    ensures value { result ≡ unwrap_or value (pos 0) }
    ensures time { IsTrue (is_time result) }
{
    match value {
        Some(n) => n as i64,
        None => unreachable!(),
    }
}

/// The time of a row, from its cells.
#[inline(always)]
pub(crate) fn time_of(at: u32, cells: &RowCells<'_>) -> i64
    requires { ShowARow at cells.now }
    ensures value { result ≡ (row_shown at cells.now).at }
    ensures time { IsTrue (is_time result) }
{
    time_shown(cells.value_at(at))
}
