//! The state of a history at a position.
ghost use Rattle.std.specs.Prelude.{◌≡◌, IfOk};

use engine_state::{AfterEvent, State};
use std::alloc::Global;
use std::marker::Model;
use std::sync::Arc;
use ts_model::Committed;
use ts_schema::NoMemory;

/// The state of a history, and the number of rows that its last event moved over all tables.
#[derive(Drop)]
pub(crate) struct StateAt {
    /// The state.
    pub state: Arc<State>,
    /// The number of rows appended.
    pub inserted: u64,
    /// The number of rows removed.
    pub removed: u64,
}

impl Model for StateAt {
    ghost use Rattle.std.specs.Arc.{arc_value};
    ghost use Rattle.engine_core.specs.Values.{MomentValue};

    ghost Value = { MomentValue };

    ghost view = { λ m. record {
      state = arc_value m.state;
      inserted = m.inserted;
      removed = m.removed;
    } };
}

impl StateAt {
    /// The state that an event led to, with its counts.
    pub(crate) fn of(alloc: Global, moved: AfterEvent<State>) -> Result<StateAt, NoMemory>
        ensures moment { IfOk result (λ moment. moment ≡ record {
          state = moved.made;
          inserted = moved.inserted;
          removed = moved.removed;
        }) }
    {
        Ok(StateAt {
            state: Arc::new(alloc, moved.made)?,
            inserted: moved.inserted,
            removed: moved.removed,
        })
    }

    /// The effect of the last event: its number, and the number of rows that it moved.
    pub(crate) fn effect(&self) -> Committed
        ensures effect { result ≡ record {
          pos = self.now.state.position;
          inserted = self.now.inserted;
          removed = self.now.removed;
        } }
    {
        Committed {
            pos: self.state.position(),
            inserted: self.inserted,
            removed: self.removed,
        }
    }
}
