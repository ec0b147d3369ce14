//! Passes that are split and joined.
ghost use Rattle.std.specs.Prelude.{◌≡◌, ◌+◌, ◌-◌, ◌<◌, ◌++◌, []};
ghost use Rattle.turn_lock.specs.Pass.{IsPassOf, IsIdle, shares_of, base_of, seen_of, closed_of, made_of, with_shares, longer, either, StaysIn, BeginsIn};
ghost use Rattle.turn_lock.specs.Steps.{left_with, given};

use crate::grown::Grown;
use crate::lock::{NEXT, TurnLock};
use crate::lock_rule::{Count, Cut, Cutting, Pair};
use crate::pass::{Pass, TableSeat};
use std::marker::Brand;

impl<V: Grown> TurnLock<V> {
    // Moves shares to a new seat. `C` says for the proof how many.
    fn cut<C: Cutting>(&self, seat: &mut TableSeat<V>, shares: u32) -> TableSeat<V>
        requires lock { seat.old.table_id ≡ self.now.lock }
        requires count { shares ≡ C.count }
        requires some { (0 < shares) × (shares < seat.old.me.0.shares) }
        ensures lock { (seat.new.table_id ≡ seat.old.table_id) × (result.table_id ≡ seat.old.table_id) }
        ensures left { seat.new.me ≡ (left_with shares seat.old.me.0, seat.old.me.1) }
        ensures right { result.me ≡ (given shares seat.old.me.0, []) }
    {
        // The number is only for the contract.
        let _ = shares;
        self.table.shared.split_seat::<Cut<C>>(seat)
    }

    /// Moves shares to a new pass, which has seen as much and has added nothing.
    pub fn split(&self, pass: &mut Pass<V>, shares: u32) -> Pass<V>
        requires lock { IsPassOf self.now pass.old }
        requires shares { (0 < shares) × (shares < shares_of pass.old) }
        ensures kept { pass.new ≡ with_shares (shares_of pass.old - shares) pass.old }
        ensures lock { IsPassOf self.now result }
        ensures idle { IsIdle result }
        ensures shares { shares_of result ≡ shares }
        ensures base { base_of result ≡ base_of pass.old }
        ensures seen { seen_of result ≡ seen_of pass.old }
        ensures closed { closed_of result ≡ closed_of pass.old }
        ensures made { made_of result ≡ [] }
    {
        let seat = self.cut::<Brand>(&mut pass.seat, shares);
        pass.shares -= shares;
        Pass {
            seat,
            shares,
            position: pass.position,
        }
    }

    /// Joins two passes. The result has seen the longer list, which begins with the other, and has added what both
    /// added.
    pub fn join(&self, a: Pass<V>, b: Pass<V>) -> Pass<V>
        requires lock { IsPassOf self.now a × IsPassOf self.now b }
        requires idle { IsIdle a × IsIdle b }
        ensures lock { IsPassOf self.now result }
        ensures idle { IsIdle result }
        ensures shares { shares_of result ≡ shares_of a + shares_of b }
        ensures base { (base_of result ≡ base_of a) × (base_of result ≡ base_of b) }
        ensures seen { seen_of result ≡ longer (seen_of a) (seen_of b) }
        ensures begins { BeginsIn result a × BeginsIn result b }
        ensures closed { closed_of result ≡ either (closed_of a) (closed_of b) }
        ensures stays { StaysIn result a × StaysIn result b }
        ensures made { made_of result ≡ made_of a ++ made_of b }
    {
        let (mut seat, shares, position) = a.into_parts();
        let (other, more, end) = b.into_parts();
        self.table.shared.join_seat::<Pair>(&mut seat, other);
        self.table.shared.load::<Count>(&mut seat, NEXT);
        Pass {
            seat,
            shares: shares + more,
            position: position.max(end),
        }
    }
}
