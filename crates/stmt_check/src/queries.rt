//! The buckets of an aggregate that tests request, and the chunks below a bound.
ghost use Rattle.std.specs.Prelude.{◌≡◌, ◌<◌, ◌≤ℤ◌, ◌^◌, pos as nonneg, length, IsTrue};
ghost use Rattle.ts_bucket.specs.Bucket.{is_time};
ghost use Rattle.stmt_check.specs.Queries.{below_all, below_of, bound_refusal, bounds_start, drop_test, from_all, from_of, is_bucket_column, starts_of, starts_refusal};
ghost use Rattle.ts_bucket.specs.WholeSpans.{least, greatest};
ghost use Rattle.stmt_check.specs.Results.{Checks, Passes};
ghost use Rattle.stmt_check.specs.Tables.{is_interval};

use crate::actions::ResolveStop;
use crate::refusals::refuse_if;
use stmt_syntax::NamedTest;
use ts_bucket::{MAX_TIME, MIN_TIME, Span, chunk_start};
use ts_catalog::view_column;
use ts_model::ViewDef;
use ts_model::codes::{BAD_TIME, NO_COLUMN};
use ts_schema::{Cmp, Test};

/// The starts that pass all tests, if each test is on the bucket column and bounds it.
pub(crate) fn check_starts(
    pos: u64,
    def: &ViewDef,
    tests: &[NamedTest],
) -> Result<Span, ResolveStop>
    requires { length def.now.names < 2 ^ 32 }
    ensures { Checks (starts_refusal pos def.now tests.now) (starts_of tests.now) result }
{
    for test in tests {
        let bounds = is_first(view_column(def, &test.col)) && is_bound(test.cmp);
        refuse_if(pos, NO_COLUMN, !bounds)?;
    }
    Ok(span_of(tests))
}

/// Whether a column is the bucket column.
fn is_first(column: Option<u32>) -> bool
    ensures { result ≡ is_bucket_column column }
{
    match column {
        Some(number) => number == 0,
        None => false,
    }
}

/// Whether a comparison bounds the start of a bucket.
fn is_bound(cmp: Cmp) -> bool
    ensures { result ≡ bounds_start cmp }
{
    match cmp {
        Cmp::Eq | Cmp::Lt | Cmp::Le | Cmp::Gt | Cmp::Ge => true,
        Cmp::Ne | Cmp::IsNull | Cmp::NotNull => false,
    }
}

/// The starts that pass all tests.
fn span_of(tests: &[NamedTest]) -> Span
    ensures { result ≡ starts_of tests.now }
{
    let lo = start_from(tests);
    let below = start_below(tests);
    Span {
        lo,
        hi: lo.max(below),
    }
}

/// The greatest of the bounds from below.
fn start_from(tests: &[NamedTest]) -> i64
    ensures { result ≡ from_all least tests.now }
{
    let mut lo = i64::MIN;
    for test in tests {
        lo = lo.max(least_start(test.cmp, test.num));
    }
    lo
}

/// The least of the bounds from above.
fn start_below(tests: &[NamedTest]) -> i64
    ensures { result ≡ below_all greatest tests.now }
{
    let mut hi = i64::MAX;
    for test in tests {
        hi = hi.min(end_of_starts(test.cmp, test.num));
    }
    hi
}

/// The least start that passes a test.
fn least_start(cmp: Cmp, num: i64) -> i64
    ensures { result ≡ from_of cmp num }
{
    match cmp {
        Cmp::Eq | Cmp::Ge => num,
        Cmp::Gt => num.saturating_add(1),
        Cmp::Ne | Cmp::Lt | Cmp::Le | Cmp::IsNull | Cmp::NotNull => i64::MIN,
    }
}

/// The number below which starts lie that pass a test.
fn end_of_starts(cmp: Cmp, num: i64) -> i64
    ensures { result ≡ below_of cmp num }
{
    match cmp {
        Cmp::Lt => num,
        Cmp::Eq | Cmp::Le => num.saturating_add(1),
        Cmp::Ne | Cmp::Gt | Cmp::Ge | Cmp::IsNull | Cmp::NotNull => i64::MAX,
    }
}

/// Checks that a bound lies in the range of times.
pub(crate) fn check_bound(pos: u64, bound: Option<i64>) -> Result<(), ResolveStop>
    ensures { Passes (bound_refusal pos bound) result }
{
    match bound {
        None => Ok(()),
        Some(time) => refuse_if(pos, BAD_TIME, !(MIN_TIME <= time && time <= MAX_TIME)),
    }
}

/// The test that the time lies before the chunk that holds `below`.
pub(crate) fn before_chunk(interval: i64, below: i64) -> Test
    requires interval { IsTrue (is_interval interval) }
    requires bound { IsTrue (is_time below) }
    ensures { result ≡ drop_test interval below }
{
    Test {
        col: 0,
        cmp: Cmp::Lt,
        num: chunk_start(interval, below),
    }
}
