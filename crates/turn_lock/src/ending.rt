//! How a lock ends.
ghost use Rattle.std.specs.Prelude.{◌≡◌, Some, IsPermutation};
ghost use Rattle.turn_lock.specs.Pass.{IsPassOf, IsIdle, shares_of, base_of, seen_of, closed_of, made_of};
ghost use Rattle.turn_lock.specs.Positions.{positions_added};

use crate::grown::Grown;
use crate::lock::{TurnLock, VALUE};
use crate::pass::Pass;

impl<V: Grown> TurnLock<V> {
    /// Returns the value to the holder of all the shares. Its events are those that the pass has seen, and the pass has
    /// added each position after the opening once.
    pub fn close(self, pass: Pass<V>) -> V
        requires lock { IsPassOf self pass }
        requires idle { IsIdle pass }
        requires all { shares_of pass ≡ self.shares }
        ensures base { (V.base result ≡ V.base self.opened) × (base_of pass ≡ Some (V.base result)) }
        ensures seen { V.events result ≡ seen_of pass }
        ensures closed { V.closed result ≡ closed_of pass }
        ensures made { let start = V.first (V.base result) in
            IsPermutation (made_of pass) (positions_added start (V.events self.opened) (V.events result)) }
    {
        let Self { table } = self;
        let (seat, _, _) = pass.into_parts();
        let mut closed = table.close_with(seat);
        let slot = closed.take(VALUE);
        closed.free();
        match slot {
            Some(value) => value,
            None => unreachable!(),
        }
    }
}
