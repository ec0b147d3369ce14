//! The requests of checked statements.
use ts_model::{Fold, Hyper, Op, Query, Refusal, TableDef, ViewDef};
use ts_schema::{Name, NoMemory};

/// The request of a statement, with its names resolved to numbers.
#[derive(Drop, Debug, Clone, PartialEq, Eq)]
pub enum Action {
    /// Create this table.
    Table(TableDef),
    /// Turn this table into a hypertable.
    Hyper {
        table: u32,
        hyper: Hyper,
    },
    /// Create this aggregate, and refresh it if it is filled at its creation.
    View {
        def: ViewDef,
        filled: bool,
    },
    /// Set the mode of this aggregate.
    Mode {
        view: u32,
        only: bool,
    },
    /// Insert or delete these rows.
    Change(Op),
    /// Refresh this aggregate over a window.
    Refresh {
        view: u32,
        lo: Option<i64>,
        hi: Option<i64>,
    },
    /// Begin a refresh of this aggregate over a window.
    Cut {
        view: u32,
        lo: Option<i64>,
        hi: Option<i64>,
    },
    /// Take a snapshot for a refresh, or for the last one that the session cut.
    Snap {
        cut: Option<i64>,
    },
    /// Finish a refresh, or the last one that the session cut.
    Finish {
        cut: Option<i64>,
    },
    /// Begin a write block.
    Begin,
    /// Begin a read block.
    BeginRead,
    /// End a block and apply its operations.
    Commit,
    /// End a block and discard its operations.
    Rollback,
    /// Answer this query.
    Ask(Query),
    /// Group the rows of a hypertable by buckets of the calendar.
    Calendar {
        table: u32,
        /// The number of units of a bucket, from 1 to 1,200.
        number: u32,
        /// The unit: `day`, `week`, `month` or `year`.
        unit: Name,
        /// The declared place of the time column.
        at: u32,
        /// The grouping, whose width has no effect.
        fold: Fold,
    },
}

/// The result of a check.
#[derive(Drop, Debug, PartialEq, Eq)]
pub enum Checked {
    /// Nothing is refused.
    Ready(Action),
    /// The first refusal.
    Refused(Refusal),
    /// It ran out of memory.
    NoMemory,
}

/// Why a check ended early.
#[derive(Clone, Copy, Debug, PartialEq, Eq)]
pub(crate) enum ResolveStop {
    /// This is refused.
    Refused(Refusal),
    /// It ran out of memory.
    NoMemory,
}

impl From<NoMemory> for ResolveStop {
    ghost use Rattle.std.specs.Prelude.{◌≡◌};
    ghost use Rattle.stmt_check.specs.declared.actions.ResolveStop.TheVariants.{NoMemory};

    ghost from_gives = { λ _ e. e ≡ NoMemory };

    fn from(_refused: NoMemory) -> ResolveStop {
        ResolveStop::NoMemory
    }
}
