//! Queries and answers.
ghost use Rattle.std.specs.Prelude.{◌≡◌, IfOk};

use crate::results::ResultRows;
use crate::views::Fold;
use ts_bucket::Span;
use ts_schema::{NoMemory, Seq, Test};

/// A question about a history.
#[derive(Drop, Debug, Clone, PartialEq, Eq)]
pub enum Query {
    /// The rows of a hypertable that pass every test.
    Rows { table: u32, tests: Seq<Test> },
    /// The rows of a hypertable, grouped and aggregated.
    Buckets { table: u32, fold: Fold },
    /// What an aggregate shows of the buckets whose starts lie in `starts`.
    Aggregate { view: u32, starts: Span },
}

/// What a query shows. Rows of a hypertable are ordered by time and then by their other columns. Rows of groups
/// are ordered by bucket and then by their keys. NULL comes last. The stale ranges are maximal, rise and don't
/// touch, and don't include their ends. A query over a hypertable has none.
#[derive(Drop, Debug)]
pub struct Answer {
    /// Its rows, in order.
    pub rows: ResultRows,
    /// The stale buckets among those requested, as ranges.
    pub stale: Seq<Span>,
}

impl Query {
    /// A copy of the query.
    pub fn copy(&self) -> Result<Query, NoMemory>
        ensures same { IfOk result (λ copy. copy ≡ self.now) }
    {
        match self {
            Query::Rows { table, tests } => Ok(Query::Rows {
                table: *table,
                tests: tests.copy()?,
            }),
            Query::Buckets { table, fold } => Ok(Query::Buckets {
                table: *table,
                fold: fold.copy()?,
            }),
            Query::Aggregate { view, starts } => Ok(Query::Aggregate {
                view: *view,
                starts: *starts,
            }),
        }
    }
}
