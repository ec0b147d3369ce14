//! The plan of a roll-up over the answer of an aggregate.
ghost use Rattle.std.specs.Prelude.{◌≡◌};
ghost use Rattle.hier_agg.specs.Plans as plans;

use ts_bucket::{Span, Width};
use ts_model::Query;
use ts_schema::{Seq, Test};

/// A roll-up over an aggregate. Columns count from 0 in the SELECT list of the aggregate without its bucket:
/// its keys come first, and then its aggregates.
#[derive(Drop, Debug, PartialEq, Eq)]
pub struct UpperPlan {
    /// The number of the aggregate.
    pub view: u32,
    /// The width of the wider buckets.
    pub width: Width,
    /// The key columns, in the order of the statement.
    pub keys: Seq<u32>,
    /// The columns that are added up, in the order of the statement.
    pub cols: Seq<u32>,
    /// The tests that the keys of a row must match.
    pub tests: Seq<Test>,
}

/// The query whose answer a roll-up groups: the aggregate over all its buckets.
pub fn lower_query(plan: &UpperPlan) -> Query
    ensures query { result ≡ plans.lower_query plan.now }
{
    Query::Aggregate {
        view: plan.view,
        starts: Span {
            lo: i64::MIN,
            hi: i64::MAX,
        },
    }
}
