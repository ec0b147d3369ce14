//! The tables and aggregates.
ghost use Rattle.std.specs.Prelude.{◌≡◌, IfOk};

use crate::tables::TableInfo;
use crate::views::ViewDef;
use ts_schema::{NoMemory, Seq};

/// The tables and aggregates. Both are numbered from 0 in the order of their creation.
#[derive(Drop, Debug, Clone, PartialEq, Eq)]
pub struct Roster {
    /// The tables.
    pub tables: Seq<TableInfo>,
    /// The aggregates, each with its present mode.
    pub views: Seq<ViewDef>,
}

impl Roster {
    /// A copy of the roster.
    pub fn copy(&self) -> Result<Roster, NoMemory>
        ensures same { IfOk result (λ copy. copy ≡ self.now) }
    {
        Ok(Roster {
            tables: self.tables.copy()?,
            views: self.views.copy()?,
        })
    }
}
