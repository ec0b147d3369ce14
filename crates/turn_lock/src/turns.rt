//! Taking a turn, and ending it.
ghost use Rattle.std.specs.Prelude.{◌≡◌, ◌++◌, Some};
ghost use mathlib.Core.List.{IsPrefix};
ghost use Rattle.turn_lock.specs.Pass.{IsPassOf, IsIdle, IsTurnOf, IsSamePass, StaysClosed, shares_of, base_of, seen_of, closed_of, made_of, found_of, found_closed_of};
ghost use Rattle.turn_lock.specs.Positions.{positions_added};

use crate::grown::Grown;
use crate::held::Held;
use crate::lock::TurnLock;
use crate::pass::Pass;
use std::sync::Wait;
use std::thread::Threads;

impl<V: Grown> TurnLock<V> {
    /// Waits for the turn of the pass, without a limit, and takes the value. Meanwhile it yields the
    /// processor, and during a long turn it sleeps for some microseconds at a time.
    pub fn take<R: Threads + Wait>(&self, rt: &R, pass: &mut Pass<V>) -> Held<V>
        requires lock { IsPassOf self.now pass.old }
        requires idle { IsIdle pass.old }
        ensures lock { IsPassOf self.now pass.new }
        ensures same { IsSamePass pass.old pass.new }
        ensures turn { IsTurnOf pass.new result }
        ensures found { (found_of pass.new ≡ V.events result.value)
            × (found_closed_of pass.new ≡ V.closed result.value) }
        ensures base { base_of pass.old ≡ Some (V.base result.value) }
        ensures begins { IsPrefix (seen_of pass.old) (V.events result.value) }
        ensures stays { StaysClosed (closed_of pass.old) (seen_of pass.old)
            (V.closed result.value) (V.events result.value) }
    {
        let ticket = self.draw(rt, &mut pass.seat);
        let value = self.enter(rt, &mut pass.seat, ticket);
        Held { value, ticket }
    }

    /// Puts the value back, and ends the turn. The pass has then seen its events, and has added the positions of those
    /// from this turn.
    pub fn give(&self, pass: &mut Pass<V>, held: Held<V>)
        requires lock { IsPassOf self.now pass.old }
        requires turn { IsTurnOf pass.old held }
        requires base { base_of pass.old ≡ Some (V.base held.value) }
        requires grown { IsPrefix (found_of pass.old) (V.events held.value) }
        requires stays { StaysClosed (found_closed_of pass.old) (found_of pass.old)
            (V.closed held.value) (V.events held.value) }
        ensures lock { IsPassOf self.now pass.new }
        ensures idle { IsIdle pass.new }
        ensures shares { shares_of pass.new ≡ shares_of pass.old }
        ensures base { base_of pass.new ≡ base_of pass.old }
        ensures seen { seen_of pass.new ≡ V.events held.value }
        ensures closed { closed_of pass.new ≡ V.closed held.value }
        ensures made { let start = V.first (V.base held.value) in
            made_of pass.new ≡ made_of pass.old ++ positions_added start (found_of pass.old) (V.events held.value) }
    {
        let Held { value, ticket } = held;
        let position = value.position();
        self.publish(&mut pass.seat, value, ticket, position);
        pass.position = position;
    }
}
