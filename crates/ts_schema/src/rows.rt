//! Rows and their order.
ghost use Rattle.std.specs.Prelude.{◌≡◌, None, slice_index_or};
ghost use Rattle.std.specs.Cmp.Lexicographic.{slice_cmp};
ghost use Rattle.ts_schema.specs.Rows.{field_of, row_cmp, value_cmp};

use crate::values::Values;
use std::cmp::Ordering;

/// A row of a hypertable.
#[derive(Drop, Debug, Clone, PartialEq, Eq)]
pub struct Row {
    /// Its time.
    pub at: i64,
    /// The values of its other columns in declared order; NULL is `None`. Copies of the row share them.
    pub vals: Values,
}

/// The value of column `col`: column 0 is the time, the others count from 1. A row that has no such
/// column has NULL there.
#[inline(always)]
pub fn field(row: &Row, col: u32) -> Option<i64>
    ensures value { result ≡ field_of row.now col }
{
    match col {
        0 => Some(row.at),
        _ => value_or_null(&row.vals, col as usize - 1),
    }
}

/// The value at a place, counted from 0; NULL if there is none.
#[inline(always)]
fn value_or_null(vals: &Values, i: usize) -> Option<i64>
    ensures { result ≡ slice_index_or vals.now i None }
{
    if i < vals.len() { vals.get(i) } else { None }
}

/// Rows by time, and then by their other columns, where NULL is greater than every number.
pub fn row_order(a: &Row, b: &Row) -> Ordering
    ensures order { result ≡ row_cmp a.now b.now }
{
    match a.at.cmp(&b.at) {
        Ordering::Less => Ordering::Less,
        Ordering::Equal => order_of_values(&a.vals, &b.vals),
        Ordering::Greater => Ordering::Greater,
    }
}

/// The values of two rows from left to right.
pub fn order_of_values(a: &Values, b: &Values) -> Ordering
    ensures order { result ≡ slice_cmp value_cmp a.now b.now }
{
    for i in 0..a.len().min(b.len()) {
        let order = value_order(a.get(i), b.get(i));
        if order.is_ne() {
            return order;
        }
    }
    a.len().cmp(&b.len())
}

/// Lists of values from left to right.
pub fn values_order(a: &[Option<i64>], b: &[Option<i64>]) -> Ordering
    ensures order { result ≡ slice_cmp value_cmp a.now b.now }
{
    match a {
        [] => if b.is_empty() {
            Ordering::Equal
        } else {
            Ordering::Less
        },
        [x, xs @ ..] => match b {
            [] => Ordering::Greater,
            [y, ys @ ..] => value_order(*x, *y).then(values_order(xs, ys)),
        },
    }
}

/// Values by size; NULL is greater than every number, as PostgreSQL sorts by default ("Sorting Rows (ORDER BY)").
#[inline(always)]
pub fn value_order(a: Option<i64>, b: Option<i64>) -> Ordering
    ensures order { result ≡ value_cmp a b }
{
    match (a, b) {
        (None, None) => Ordering::Equal,
        (None, Some(_)) => Ordering::Greater,
        (Some(_), None) => Ordering::Less,
        (Some(x), Some(y)) => x.cmp(&y),
    }
}
