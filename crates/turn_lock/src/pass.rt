//! Access tokens.
ghost use Rattle.std.specs.Prelude.{◌≡◌, ◌<◌};
ghost use Rattle.turn_lock.specs.Pass.{shares_of, seen_of, base_of, start_of};
ghost use Rattle.turn_lock.specs.Positions.{end_of};

use crate::grown::Grown;
use crate::view::PassState;
use atomic_table::Seat;
use std::marker::Model;

/// A seat at the table of a lock.
pub(crate) type TableSeat<V> = Seat<Option<V>, PassState<<V as Grown>::Base, <V as Grown>::Entry>>;

/// An access token: shares of the right to the whole, the events that its holder has seen, and the positions
/// that it added. A pass that is dropped loses its shares, and then the lock can't be closed any more.
pub struct Pass<V: Grown> {
    pub(crate) seat: TableSeat<V>,
    pub(crate) shares: u32,
    pub(crate) position: u64,
}

impl<V: Grown> Model for Pass<V> {
    ghost use Rattle.std.specs.Prelude.{◌≡◌, ◌<◌};
    ghost use Rattle.turn_lock.specs.Pass.{Carried, start_of};
    ghost use Rattle.turn_lock.specs.Positions.{end_of};

    ghost Value = { Carried V V.Base V.Entry };

    ghost view = { λ p. record { lock = p.seat.table_id; knows = p.seat.me.0; taken = p.seat.me.1 } };

    ghost invariant = { λ p.
        (p.shares ≡ p.seat.me.0.shares) × (0 < p.shares)
        × (p.position ≡ end_of (start_of V.first p.seat.me.0.base) p.seat.me.0.seen) };
}

impl<V: Grown> Pass<V> {
    /// How many shares it has, which is at least one.
    pub fn shares(&self) -> u32
        ensures value { result ≡ shares_of self.now }
        ensures positive { 0 < result }
    {
        self.shares
    }

    /// The position at which the events that it has seen end.
    pub fn position(&self) -> u64
        ensures { result ≡ end_of (start_of V.first (base_of self.now)) (seen_of self.now) }
    {
        self.position
    }

    // The seat, the number of shares, and the position.
    pub(crate) fn into_parts(self) -> (TableSeat<V>, u32, u64)
        ensures lock { result.0.table_id ≡ self.lock }
        ensures me { result.0.me ≡ (self.knows, self.taken) }
        ensures shares { (result.1 ≡ shares_of self) × (0 < result.1) }
        ensures position { result.2 ≡ end_of (start_of V.first (base_of self)) (seen_of self) }
    {
        let Self {
            seat,
            shares,
            position,
        } = self;
        (seat, shares, position)
    }
}

impl<V: Grown> Drop for Pass<V> {
    fn drop(self) {
        let Self {
            seat: _,
            shares: _,
            position: _,
        } = self;
    }
}
