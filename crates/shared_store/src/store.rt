//! The shared store.
ghost use Rattle.std.specs.Prelude.{◌≡◌};
ghost use Rattle.shared_store.specs.Stores.{shared_of};

use crate::kept::Kept;
use std::marker::Model;
use ts_model::Backend;
use turn_lock::TurnLock;

/// An access token: shares of the right to the whole, the history that its holder has seen, and the numbers of the
/// events that it appended.
pub type Pass<B> = turn_lock::Pass<Kept<B>>;

/// The lock of a store, which threads share.
pub type StoreLock<B> = TurnLock<Kept<B>>;

/// A backend that nobody else uses, behind a lock: the holders of its passes use it in turn.
#[derive(Drop)]
pub struct SharedStore<B: Backend> {
    pub(crate) lock: StoreLock<B>,
}

impl<B: Backend> Model for SharedStore<B> {
    ghost use Rattle.std.specs.Prelude.{◌≡◌};
    ghost use Rattle.shared_store.specs.Stores.{Shared};

    ghost Value = { Shared B };

    ghost view = { λ s. record { lock = s.lock.lock; opened = s.lock.opened.opened; shares = s.lock.shares } };

    ghost invariant = { λ s. s.lock.opened.backend ≡ s.lock.opened.opened.value };
}

impl<B: Backend> SharedStore<B> {
    /// Its lock.
    pub fn lock(&self) -> &StoreLock<B>
        ensures { shared_of result.now ≡ self.now }
    {
        &self.lock
    }
}
