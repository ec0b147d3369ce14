//! What is written in a statement. Words and quoted names are in lower case, and NULL is `None`.
use cell_rows::CellRows;
use ts_num::Fun;
use ts_schema::{Cmp, Column, Name, Seq};

/// A statement.
#[derive(Debug, Drop)]
pub enum Stmt {
    /// `CREATE TABLE`
    Table {
        name: Name,
        cols: Seq<Column>,
    },
    /// `SELECT create_hypertable`: `col` will be the time column, and `interval` is how much time a chunk
    /// spans, in the unit of that column.
    Hyper {
        table: Name,
        col: Name,
        interval: i64,
    },
    /// `CREATE MATERIALIZED VIEW`
    View {
        name: Name,
        /// Whether the aggregate shows materialized buckets only.
        only: bool,
        /// Whether the aggregate is refreshed after its creation: false for `WITH NO DATA` only.
        filled: bool,
        fold: NamedFold,
    },
    /// `ALTER MATERIALIZED VIEW`
    Mode {
        view: Name,
        only: bool,
    },
    /// `INSERT`
    Insert {
        table: Name,
        /// The column list, if one is written.
        cols: Option<Seq<Name>>,
        rows: CellRows<Option<i64>>,
    },
    /// `DELETE`
    Delete {
        table: Name,
        tests: Seq<NamedTest>,
    },
    /// `SELECT drop_chunks`, of the chunks that end at or before the time `below`.
    Drop {
        table: Name,
        below: i64,
    },
    /// `CALL refresh_continuous_aggregate`, over the whole buckets that lie from `lo` up to `hi`, without `hi`
    /// itself. A bound that is `None` leaves that end open.
    Refresh {
        view: Name,
        lo: Option<i64>,
        hi: Option<i64>,
    },
    /// `REFRESH CUT`
    Cut {
        view: Name,
        lo: Option<i64>,
        hi: Option<i64>,
    },
    /// `REFRESH SNAP`, with the number of the refresh if one is written.
    Snap {
        cut: Option<i64>,
    },
    /// `REFRESH FINISH`, with the number of the refresh if one is written.
    Finish {
        cut: Option<i64>,
    },
    /// `BEGIN`
    Begin,
    /// `BEGIN READ ONLY`
    BeginRead,
    /// `COMMIT`
    Commit,
    /// `ROLLBACK`
    Rollback,
    /// `SELECT time_bucket`
    Buckets(NamedFold),
    /// `SELECT calendar_bucket`
    Calendar {
        /// The number of units of a bucket.
        number: i64,
        /// The unit.
        unit: Name,
        /// The rest, with step 1 and offset 0.
        fold: NamedFold,
    },
    /// `SELECT * FROM`
    Rows {
        table: Name,
        tests: Seq<NamedTest>,
    },
}

/// An aggregation by buckets and keys.
#[derive(Debug, Drop, PartialEq, Eq)]
pub struct NamedFold {
    /// The width of a bucket.
    pub step: i64,
    /// The offset of the buckets, 0 if none is written.
    pub shift: i64,
    /// The column of `time_bucket`.
    pub at: Name,
    /// The bucket's name after AS.
    pub name: Option<Name>,
    /// The key columns.
    pub keys: Seq<Name>,
    /// The aggregates.
    pub aggs: Seq<NamedAgg>,
    /// The relation after FROM.
    pub table: Name,
    /// The tests after WHERE.
    pub tests: Seq<NamedTest>,
}

/// An aggregate of a SELECT list.
#[derive(Debug, Drop, PartialEq, Eq)]
pub struct NamedAgg {
    pub fun: Fun,
    /// Its argument: `None` for `count(*)` only.
    pub col: Option<Name>,
    /// Its name after AS.
    pub name: Option<Name>,
}

/// A test after WHERE.
#[derive(Debug, Drop, PartialEq, Eq)]
pub struct NamedTest {
    pub col: Name,
    pub cmp: Cmp,
    /// The number to compare with, 0 for a test on NULL.
    pub num: i64,
}
