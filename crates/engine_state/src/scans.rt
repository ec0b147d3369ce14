//! The rows of a hypertable at one position.
ghost use Rattle.std.specs.Prelude.{◌≡◌, ◌&&◌, ◌∷◌, [], filter, ℤ, IfOk, IsSome, MatchResult, Some};
ghost use Rattle.ts_bucket.specs.Spans.{in_span};
ghost use Rattle.ts_schema.specs.Counts.{raised_by, RaisedUpTo};
ghost use Rattle.ts_model.specs.Reads.{rows_near};
ghost use Rattle.ts_model.specs.Rows.{in_order};
ghost use Rattle.ts_model.specs.History.{History};
ghost use Rattle.ts_model.specs.Roster.{hyper_of, view_of};
ghost use Rattle.engine_state.specs.Scans.{seen_rows, stored_rows};
ghost use Rattle.engine_state.specs.Shown.{IsTableOf, IsViewOf};
ghost use Rattle.engine_state.specs.Stands.{Stands, StandsFor};
ghost use Rattle.engine_state.specs.Tables.{table_at};

use crate::parts::StateParts;
use crate::tables::TableState;
use crate::views::ViewState;
use ts_bucket::Span;
use ts_model::{Hyper, RowsAt, ViewDef};
use ts_schema::{NoMemory, Row, Seq, Steps};

/// A hypertable at a position. A scan reads this table and ignores the number of its argument.
#[derive(Clone, Copy)]
pub(crate) struct TableAt<'a> {
    /// Its state.
    pub table: &'a TableState,
    /// The position.
    pub position: u64,
}

impl RowsAt for TableAt<'_> {
    ghost use Rattle.engine_state.specs.Scans.{seen_rows, stored_rows};

    ghost visible = { λ s t. seen_rows s.position s.table.now };

    ghost stored = { λ s t. stored_rows s.table.now };

    ghost interval = { λ s t. s.table.now.rows.interval };

    fn scan<L>(&self, table: u32, span: Span, steps: &mut Steps<L>) -> Result<Seq<Row>, NoMemory> {
        // The rows are those of one table, so its number isn't used.
        let _named = table;
        self.table.rows().scan(self.position, span, steps)
    }
}

/// The rows of a hypertable at a position whose times lie in a span. A scan also reads other rows, but copies
/// none of them.
#[derive(Clone, Copy)]
pub(crate) struct RowsInSpan<'a> {
    /// The hypertable.
    pub rows: TableAt<'a>,
    /// The span.
    pub times: Span,
}

/// The common part of two spans.
fn both(a: Span, b: Span) -> Span
    ensures { (t : ℤ) → in_span result t ≡ (in_span a t && in_span b t) }
{
    let lo = a.lo.max(b.lo);
    Span {
        lo,
        hi: a.hi.min(b.hi).max(lo),
    }
}

impl RowsAt for RowsInSpan<'_> {
    ghost use Rattle.engine_state.specs.Scans.{stored_rows, timed_rows};

    ghost visible = { λ s t. timed_rows s.times s.rows.position s.rows.table.now };

    ghost stored = { λ s t. stored_rows s.rows.table.now };

    ghost interval = { λ s t. s.rows.table.now.rows.interval };

    fn scan<L>(&self, table: u32, span: Span, steps: &mut Steps<L>) -> Result<Seq<Row>, NoMemory> {
        // The rows are those of one table, so its number isn't used.
        let _named = table;
        let part = both(span, self.times);
        self.rows
            .table
            .rows()
            .scan_part(self.rows.position, span, part, steps)
    }
}

/// An aggregate: its definition, its state, and its table at the position of the state.
#[derive(Clone, Copy)]
pub(crate) struct ViewAt<'a> {
    /// Its definition.
    pub def: &'a ViewDef,
    /// Its state.
    pub state: &'a ViewState,
    /// The rows of its table.
    pub rows: TableAt<'a>,
}

impl StateParts {
    /// What makes the table with this number a hypertable.
    pub(crate) fn hyper(&self, number: u32) -> Hyper
        requires there { IsSome (hyper_of self.now.roster number) }
        ensures hyper { hyper_of self.now.roster number ≡ Some result }
    {
        match self.roster.tables.items().get(number as usize) {
            Some(info) => match info.hyper {
                Some(hyper) => hyper,
                None => unreachable!(),
            },
            None => unreachable!(),
        }
    }

    /// The hypertable with this number at the position of the state.
    pub(crate) fn table_seen(&self, number: u32) -> TableAt<'_>
        requires stands { Stands self.now }
        requires there { IsSome (hyper_of self.now.roster number) }
        ensures table { (h : History) → StandsFor h self.now → IsTableOf h number result.position result.table.now }
        ensures at { table_at self.now.tables number ≡ Some result.table.now }
    {
        TableAt {
            table: self.table(number),
            position: self.position,
        }
    }

    /// The aggregate with this number.
    pub(crate) fn view_seen(&self, number: u32) -> ViewAt<'_>
        requires stands { Stands self.now }
        requires there { IsSome (view_of self.now.roster number) }
        ensures view { (h : History) → StandsFor h self.now
            → IsViewOf h number result.rows.position result.def.now result.state.now result.rows.table.now }
    {
        let def = self.roster.views.get(number as usize);
        ViewAt {
            def,
            state: self.views.get(number as usize),
            rows: self.table_seen(def.table),
        }
    }
}
