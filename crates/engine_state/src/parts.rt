//! The parts of a state.
ghost use Rattle.std.specs.Prelude.{◌≡◌, [], suc, option_copied, IfOk, IsSome, Some};
ghost use Rattle.std.specs.Arc.{arc_value};
ghost use Rattle.ts_model.specs.Roster.{no_relations, roster_after};
ghost use Rattle.engine_state.specs.Tables.{table_at};

use crate::tables::TableState;
use crate::views::ViewState;
use event_check::after_event;
use refresh_list::Refreshes;
use std::alloc::Global;
use std::marker::Model;
use std::sync::Arc;
use ts_model::{Event, Roster};
use ts_schema::{NoMemory, Seq};

/// The parts of a state. They have the same value in contracts as the state.
#[derive(Drop)]
pub(crate) struct StateParts {
    /// The position of the history.
    pub position: u64,
    /// Its tables and aggregates.
    pub roster: Arc<Roster>,
    /// The state of each table, if it is a hypertable.
    pub tables: Seq<Option<TableState>>,
    /// The state of each aggregate.
    pub views: Seq<ViewState>,
    /// The refreshes that were cut.
    pub refreshes: Refreshes,
}

impl Model for StateParts {
    ghost use Rattle.std.specs.Arc.{arc_value};
    ghost use Rattle.engine_state.specs.Stands.{StateValue};

    ghost Value = { StateValue };

    ghost view = { λ s. record {
      position = s.position;
      roster = arc_value s.roster;
      tables = s.tables;
      views = s.views;
      refreshes = s.refreshes;
    } };
}

impl StateParts {
    /// The parts of the state of the empty history.
    pub(crate) fn none(alloc: Global) -> Result<StateParts, NoMemory>
        ensures position { IfOk result (λ parts. parts.position ≡ 0) }
        ensures roster { IfOk result (λ parts. parts.roster ≡ no_relations) }
        ensures tables { IfOk result (λ parts. parts.tables ≡ []) }
        ensures views { IfOk result (λ parts. parts.views ≡ []) }
        ensures refreshes { IfOk result (λ parts. parts.refreshes ≡ []) }
    {
        let roster = Roster {
            tables: Seq::new(alloc),
            views: Seq::new(alloc),
        };
        Ok(StateParts {
            position: 0,
            roster: Arc::new(alloc, roster)?,
            tables: Seq::new(alloc),
            views: Seq::new(alloc),
            refreshes: Refreshes::new(alloc),
        })
    }

    /// The number of the next event. A number over 64 bits is reported as out of memory, since that many events
    /// wouldn't fit.
    pub(crate) fn next_position(&self) -> Result<u64, NoMemory>
        ensures next { IfOk result (λ next. next ≡ suc self.now.position) }
    {
        match self.position.checked_add(1) {
            Some(next) => Ok(next),
            None => Err(NoMemory),
        }
    }

    /// Another owner of the same roster. It only increments a reference count.
    pub(crate) fn same_roster(&self) -> Result<Arc<Roster>, NoMemory>
        ensures same { IfOk result (λ roster. arc_value roster ≡ self.now.roster) }
    {
        Ok(Arc::try_clone(&self.roster)?)
    }

    /// The parts one event later, with the roster after the event and the rest unchanged.
    pub(crate) fn with_roster(&self, alloc: Global, event: &Event) -> Result<StateParts, NoMemory>
        ensures position { IfOk result (λ new. new.position ≡ suc self.now.position) }
        ensures roster { IfOk result (λ new. new.roster ≡ roster_after self.now.roster event.now) }
        ensures tables { IfOk result (λ new. new.tables ≡ self.now.tables) }
        ensures views { IfOk result (λ new. new.views ≡ self.now.views) }
        ensures refreshes { IfOk result (λ new. new.refreshes ≡ self.now.refreshes) }
    {
        let roster = after_event(&self.roster, event)?;
        Ok(StateParts {
            position: self.next_position()?,
            roster: Arc::new(alloc, roster)?,
            tables: self.tables.copy()?,
            views: self.views.copy()?,
            refreshes: self.refreshes.copy()?,
        })
    }

    /// The state of the hypertable with this number.
    pub(crate) fn table(&self, number: u32) -> &TableState
        requires there { IsSome (table_at self.now.tables number) }
        ensures table { table_at self.now.tables number ≡ Some result.now }
    {
        match self.table_if(number) {
            Some(table) => table,
            None => unreachable!(),
        }
    }

    /// The state of the table with this number, if it is a hypertable.
    pub(crate) fn table_if(&self, number: u32) -> Option<&TableState>
        ensures table { option_copied result ≡ table_at self.now.tables number }
    {
        match self.tables.items().get(number as usize) {
            Some(table) => table.as_ref(),
            None => None,
        }
    }
}
