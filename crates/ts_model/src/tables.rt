//! Tables and hypertables.
ghost use Rattle.std.specs.Prelude.{◌≡◌, IfOk};

use ts_schema::{Column, Name, NoMemory, Seq};

/// The definition of a table.
#[derive(Drop, Debug, Clone, PartialEq, Eq)]
pub struct TableDef {
    /// Its name, which no other relation has.
    pub name: Name,
    /// Its columns in declared order.
    pub cols: Seq<Column>,
}

/// What makes a table a hypertable.
#[derive(Clone, Copy, Debug, PartialEq, Eq)]
pub struct Hyper {
    /// The declared place of the time column, from 0.
    pub at: u32,
    /// How much time a chunk spans.
    pub interval: i64,
}

/// A table, and whether it is a hypertable.
#[derive(Drop, Debug, Clone, PartialEq, Eq)]
pub struct TableInfo {
    /// Its definition.
    pub def: TableDef,
    /// What makes it a hypertable, if it is one.
    pub hyper: Option<Hyper>,
}

impl TableDef {
    /// A copy of the definition.
    pub fn copy(&self) -> Result<TableDef, NoMemory>
        ensures same { IfOk result (λ copy. copy ≡ self.now) }
    {
        Ok(TableDef {
            name: self.name.copy()?,
            cols: self.cols.copy()?,
        })
    }
}

impl TableInfo {
    /// A copy of it.
    pub fn copy(&self) -> Result<TableInfo, NoMemory>
        ensures same { IfOk result (λ copy. copy ≡ self.now) }
    {
        Ok(TableInfo {
            def: self.def.copy()?,
            hyper: self.hyper,
        })
    }
}
