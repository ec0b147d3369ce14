//! The state that an engine prepares for one more event.
ghost use Rattle.std.specs.Prelude.{◌≡◌};
ghost use Rattle.std.specs.Arc.{arc_value};
ghost use Rattle.ts_model.specs.History.{History};
ghost use Rattle.engine_core.specs.Effects.{IsPreparedFor, effect_of};

use crate::state_at::StateAt;
use engine_state::State;
use std::marker::Model;
use std::sync::Arc;
use ts_model::{Committed, Event};

/// An event, and the state of the history with it.
#[derive(Drop)]
pub struct Prepared {
    event: Event,
    moment: StateAt,
}

impl Model for Prepared {
    ghost use Rattle.engine_core.specs.Values.{PreparedValue};

    ghost Value = { PreparedValue };

    ghost view = { λ p. record { event = p.event; moment = p.moment } };
}

impl Prepared {
    pub(crate) fn of(event: Event, moment: StateAt) -> Prepared
        ensures of { result ≡ record { event = event; moment = moment } }
    {
        Prepared { event, moment }
    }

    /// The event and the state.
    pub(crate) fn into_parts(self) -> (Event, Arc<State>)
        ensures event { result.0 ≡ self.event }
        ensures state { arc_value result.1 ≡ self.moment.state }
    {
        (self.event, self.moment.state)
    }

    /// The event.
    pub fn into_event(self) -> Event
        ensures event { result ≡ self.event }
    {
        self.event
    }

    /// The effect of the event: its number, and the numbers of rows that it appends and removes, over all
    /// tables.
    pub fn effect(&self) -> Committed
        ensures effect { (h : History) → IsPreparedFor h self.now → result ≡ effect_of h self.now.event }
    {
        self.moment.effect()
    }
}
