//! A backend inside the lock.
ghost use Rattle.std.specs.Prelude.{◌≡◌};
ghost use Rattle.ts_model.specs.States.{stop_of};
ghost use Rattle.shared_store.specs.Wrapped.{IsKept};

use crate::turns::TurnEnd;
use std::marker::Model;
use std::snapshot::Snapshot;
use ts_model::{Backend, Event};
use turn_lock::Grown;

/// A backend, and its value when it came into the lock.
#[derive(Drop)]
pub struct Kept<B: Backend> {
    pub(crate) backend: B,
    pub(crate) opened: Snapshot<B>,
}

impl<B: Backend> Model for Kept<B> {
    ghost use Rattle.shared_store.specs.Wrapped.{Wrapped, IsKept};

    ghost Value = { Wrapped B };

    ghost view = { λ k. record { backend = k.backend; opened = k.opened } };

    ghost invariant = { λ k. IsKept B.alone B.state B.kin (record { backend = k.backend; opened = k.opened }) };
}

impl<B: Backend> Grown for Kept<B> {
    ghost use Rattle.ts_model.specs.History.{position};
    ghost use Rattle.shared_store.specs.Wrapped.{events_in};

    type Base = Snapshot<B>;

    type Entry = Event;

    ghost base = { λ k. k.opened };

    ghost first = { λ opened. position (B.state opened.value).history };

    ghost events = { events_in B.state };

    ghost closed = { λ k. (B.state k.backend).failed };

    fn position(&self) -> u64 {
        self.backend.position()
    }
}

impl<B: Backend> Kept<B> {
    // The backend.
    pub(crate) fn into_backend(self) -> B
        ensures backend { result ≡ self.backend }
        ensures kept { IsKept B.alone B.state B.kin self }
    {
        let Self { backend, opened: _ } = self;
        backend
    }

    // The position at which the backend has stopped, if it has, and the value of the backend.
    pub(crate) fn turn_end(&self) -> TurnEnd<B>
        ensures stopped { result.stopped ≡ stop_of (B.state self.now.backend) }
        ensures backend { result.backend.value ≡ self.now.backend }
    {
        TurnEnd {
            stopped: self.backend.stopped(),
            backend: Snapshot::of(&self.backend),
        }
    }
}
