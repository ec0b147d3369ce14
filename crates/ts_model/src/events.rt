//! Events, of which a history consists.
ghost use Rattle.std.specs.Prelude.{◌≡◌, IfOk};

use crate::tables::{Hyper, TableDef};
use crate::views::ViewDef;
use ts_bucket::Span;
use ts_schema::{NoMemory, Row, Seq, SharedSlice, Test};

/// One operation of a commit.
#[derive(Drop, Debug, Clone, PartialEq, Eq)]
pub enum Op {
    /// Appends these rows to a hypertable.
    Insert { table: u32, rows: SharedSlice<Row> },
    /// Removes the rows that pass every test from a hypertable.
    Delete { table: u32, tests: Seq<Test> },
}

/// One step of a history.
#[derive(Drop, Debug, Clone, PartialEq, Eq)]
pub enum Event {
    /// A table was created.
    Table(TableDef),
    /// A table became a hypertable.
    Hyper { table: u32, hyper: Hyper },
    /// An aggregate was created.
    View(ViewDef),
    /// An aggregate was set to show materialized rows only, or to show new rows too.
    Mode { view: u32, only: bool },
    /// Operations took effect, in order.
    Commit(Seq<Op>),
    /// A refresh of an aggregate over a span of whole buckets was begun.
    Cut { view: u32, span: Span },
    /// The refresh that event `cut` began was finished, with the rows at position `snap`.
    Built { cut: u64, snap: u64 },
}

impl Op {
    /// A copy of the operation.
    pub fn copy(&self) -> Result<Op, NoMemory>
        ensures same { IfOk result (λ copy. copy ≡ self.now) }
    {
        match self {
            Op::Insert { table, rows } => Ok(Op::Insert {
                table: *table,
                rows: rows.copy()?,
            }),
            Op::Delete { table, tests } => Ok(Op::Delete {
                table: *table,
                tests: tests.copy()?,
            }),
        }
    }
}

impl Event {
    /// A copy of the event.
    pub fn copy(&self) -> Result<Event, NoMemory>
        ensures same { IfOk result (λ copy. copy ≡ self.now) }
    {
        match self {
            Event::Table(def) => Ok(Event::Table(def.copy()?)),
            Event::Hyper { table, hyper } => Ok(Event::Hyper {
                table: *table,
                hyper: *hyper,
            }),
            Event::View(def) => Ok(Event::View(def.copy()?)),
            Event::Mode { view, only } => Ok(Event::Mode {
                view: *view,
                only: *only,
            }),
            Event::Commit(ops) => Ok(Event::Commit(ops.copy()?)),
            Event::Cut { view, span } => Ok(Event::Cut {
                view: *view,
                span: *span,
            }),
            Event::Built { cut, snap } => Ok(Event::Built {
                cut: *cut,
                snap: *snap,
            }),
        }
    }
}
