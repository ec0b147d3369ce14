//! Tests on rows.
ghost use Rattle.std.specs.Prelude.{◌≡◌};
ghost use Rattle.ts_schema.specs.Conditions.{compares, passes_all, passes_one};

use crate::rows::{Row, field};
use crate::sequences::Seq;

/// How a column is compared.
#[derive(Clone, Copy, Debug, PartialEq, Eq)]
pub enum Cmp {
    Eq,
    Ne,
    Lt,
    Le,
    Gt,
    Ge,
    IsNull,
    NotNull,
}

/// One test on a row.
#[derive(Clone, Copy, Debug, PartialEq, Eq)]
pub struct Test {
    /// The column: 0 is the time, the others count from 1.
    pub col: u32,
    /// The comparison.
    pub cmp: Cmp,
    /// The number to compare with; it has no effect if the test is on NULL.
    pub num: i64,
}

/// Whether a row passes every test. A comparison with NULL isn't true.
pub fn passes(row: &Row, tests: &Seq<Test>) -> bool
    ensures tests { result ≡ passes_all row.now tests.now }
{
    tests.items().iter().all(|test| passes_test(row, test))
}

/// Whether a row passes one test.
fn passes_test(row: &Row, test: &Test) -> bool
    ensures { result ≡ passes_one row.now test.now }
{
    holds(test.cmp, field(row, test.col), test.num)
}

/// Whether a comparison of a value with a number is true.
fn holds(cmp: Cmp, value: Option<i64>, num: i64) -> bool
    ensures { result ≡ compares cmp value num }
{
    match (cmp, value) {
        (Cmp::IsNull, None) => true,
        (Cmp::NotNull, Some(_)) => true,
        (Cmp::Eq, Some(v)) => v == num,
        (Cmp::Ne, Some(v)) => v != num,
        (Cmp::Lt, Some(v)) => v < num,
        (Cmp::Le, Some(v)) => v <= num,
        (Cmp::Gt, Some(v)) => v > num,
        (Cmp::Ge, Some(v)) => v >= num,
        _ => false,
    }
}
