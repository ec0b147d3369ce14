//! Continuous aggregates.
ghost use Rattle.std.specs.Prelude.{◌≡◌, IfOk};

use ts_bucket::Width;
use ts_num::Fun;
use ts_schema::{Name, NoMemory, Seq, Test};

/// One aggregate function over a column.
#[derive(Clone, Copy, Debug, PartialEq, Eq)]
pub struct Agg {
    /// The function.
    pub fun: Fun,
    /// The column: 0 is the time, the others count from 1. `count(*)` has column 0.
    pub col: u32,
}

/// How rows are grouped and aggregated.
#[derive(Drop, Debug, Clone, PartialEq, Eq)]
pub struct Fold {
    /// The width of a bucket.
    pub width: Width,
    /// The columns whose values are the keys of a group, in order.
    pub keys: Seq<u32>,
    /// The aggregates, in order.
    pub aggs: Seq<Agg>,
    /// The tests that a row must pass.
    pub tests: Seq<Test>,
}

/// A continuous aggregate.
#[derive(Drop, Debug, Clone, PartialEq, Eq)]
pub struct ViewDef {
    /// Its name, which no other relation has.
    pub name: Name,
    /// The number of its hypertable.
    pub table: u32,
    /// How the rows of the table are grouped and aggregated.
    pub fold: Fold,
    /// The names of its output columns: the bucket, the keys, the aggregates.
    pub names: Seq<Name>,
    /// Whether it shows materialized rows only.
    pub only: bool,
}

impl Fold {
    /// A copy of the grouping.
    pub fn copy(&self) -> Result<Fold, NoMemory>
        ensures same { IfOk result (λ copy. copy ≡ self.now) }
    {
        Ok(Fold {
            width: self.width,
            keys: self.keys.copy()?,
            aggs: self.aggs.copy()?,
            tests: self.tests.copy()?,
        })
    }
}

impl ViewDef {
    /// A copy of the definition.
    pub fn copy(&self) -> Result<ViewDef, NoMemory>
        ensures same { IfOk result (λ copy. copy ≡ self.now) }
    {
        Ok(ViewDef {
            name: self.name.copy()?,
            table: self.table,
            fold: self.fold.copy()?,
            names: self.names.copy()?,
            only: self.only,
        })
    }
}
