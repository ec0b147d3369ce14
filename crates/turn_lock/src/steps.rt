//! The single steps of a turn.
ghost use Rattle.std.specs.Prelude.{◌≡◌, ◌+◌, ◌-◌, ◌<◌, ◌^◌, [], ◌∷◌, None, Some, MatchBool};
ghost use mathlib.Core.List.{IsPrefix};
ghost use Rattle.turn_lock.specs.declared.view.Stage.TheVariants.{Idle, Waiting, Turn};
ghost use Rattle.turn_lock.specs.Pass.{found_at, found_closed_at, StaysClosed};
ghost use Rattle.turn_lock.specs.Positions.{end_of};
ghost use Rattle.turn_lock.specs.Steps.{at_stage, published, Found, waiting_with, IsInTurn};

use crate::backoff::{Backoff, back_off};
use crate::grown::Grown;
use crate::lock::{END, NEXT, SERVING, TurnLock, VALUE};
use crate::lock_rule::{Advance, Draw, Look, Post};
use crate::pass::TableSeat;
use std::sync::Wait;
use std::thread;

impl<V: Grown> TurnLock<V> {
    // Takes the ticket if it is still the next one.
    fn try_draw(&self, seat: &mut TableSeat<V>, ticket: u64) -> bool
        requires seat { seat.old.table_id ≡ self.now.lock }
        requires idle { (seat.old.me.0.stage ≡ Idle) × (0 < seat.old.me.0.shares) }
        requires room { ticket + 1 < 2 ^ 64 }
        ensures seat { seat.new.table_id ≡ seat.old.table_id }
        ensures drawn { MatchBool result (seat.new.me ≡ waiting_with ticket seat.old.me) (seat.new.me ≡ seat.old.me) }
    {
        self.table
            .shared
            .compare_exchange::<Draw>(seat, NEXT, ticket, ticket + 1)
            == ticket
    }

    // Takes the next ticket. If there is none left, it tries forever.
    pub(crate) fn draw<R: Wait>(&self, rt: &R, seat: &mut TableSeat<V>) -> u64
        requires seat { seat.old.table_id ≡ self.now.lock }
        requires idle { (seat.old.me.0.stage ≡ Idle) × (0 < seat.old.me.0.shares) }
        ensures seat { seat.new.table_id ≡ seat.old.table_id }
        ensures drawn { seat.new.me ≡ waiting_with result seat.old.me }
        ensures room { result + 1 < 2 ^ 64 }
    {
        for _ in rt.forever() {
            let ticket = self.table.shared.peek(NEXT);
            if ticket < u64::MAX && self.try_draw(seat, ticket) {
                return ticket;
            }
            thread::yield_now();
        }
        unreachable!()
    }

    // Whether the ticket is served. Then the value is out with the pass.
    fn is_served(&self, seat: &mut TableSeat<V>, ticket: u64) -> bool
        requires seat { seat.old.table_id ≡ self.now.lock }
        requires waiting { (seat.old.me.0.stage ≡ Waiting ticket) × (0 < seat.old.me.0.shares) }
        ensures seat { seat.new.table_id ≡ seat.old.table_id }
        ensures found { MatchBool result
            ((v : V) × Found V.base V.events V.closed ticket seat.old.me seat.new.me v) (seat.new.me ≡ seat.old.me) }
    {
        self.table.shared.load::<Look>(seat, SERVING) == ticket
    }

    // Takes the value out of its slot.
    fn fetch(&self, seat: &mut TableSeat<V>) -> V
        requires seat { seat.old.table_id ≡ self.now.lock }
        requires out { (v : V) × (seat.old.me.1 ≡ (0, Some v) ∷ []) }
        ensures seat { seat.new.table_id ≡ seat.old.table_id }
        ensures value { seat.old.me.1 ≡ (0, Some result) ∷ [] }
        ensures taken { seat.new.me ≡ (seat.old.me.0, (0, None) ∷ []) }
    {
        match self.table.shared.exchange(seat, VALUE, None) {
            Some(value) => value,
            None => unreachable!(),
        }
    }

    // Waits until the ticket is served, and takes the value.
    pub(crate) fn enter<R: Wait>(&self, rt: &R, seat: &mut TableSeat<V>, ticket: u64) -> V
        requires seat { seat.old.table_id ≡ self.now.lock }
        requires waiting { (seat.old.me.0.stage ≡ Waiting ticket) × (0 < seat.old.me.0.shares) × (seat.old.me.1 ≡ []) }
        ensures seat { seat.new.table_id ≡ seat.old.table_id }
        ensures turn { seat.new.me ≡
            (at_stage (Turn ticket (V.events result) (V.closed result)) seat.old.me.0, (0, None) ∷ []) }
        ensures base { seat.old.me.0.base ≡ Some (V.base result) }
        ensures begins { IsPrefix seat.old.me.0.seen (V.events result) }
        ensures stays { StaysClosed seat.old.me.0.shut seat.old.me.0.seen (V.closed result) (V.events result) }
    {
        let mut patience = Backoff::new();
        for _ in rt.forever() {
            if self.is_served(seat, ticket) {
                return self.fetch(seat);
            }
            self.pause(rt, &mut patience, ticket);
        }
        unreachable!()
    }

    // Lets other threads run: yields, or sleeps if the current turn is long.
    fn pause<R: Wait>(&self, rt: &R, patience: &mut Backoff, ticket: u64) {
        let serving = self.table.shared.peek(SERVING);
        if patience.ends(serving, ticket) {
            let seen = (serving % 4_294_967_296) as u32;
            self.table
                .shared
                .park_timeout(rt, SERVING, seen, back_off());
        } else {
            thread::yield_now();
        }
    }

    // Puts the value back, publishes the position at which its events end, and serves the next ticket.
    pub(crate) fn publish(&self, seat: &mut TableSeat<V>, value: V, ticket: u64, position: u64)
        requires seat { seat.old.table_id ≡ self.now.lock }
        requires turn { IsInTurn ticket seat.old.me }
        requires base { seat.old.me.0.base ≡ Some (V.base value) }
        requires grown { IsPrefix (found_at seat.old.me.0.stage) (V.events value) }
        requires stays { let stage = seat.old.me.0.stage in
            StaysClosed (found_closed_at stage) (found_at stage) (V.closed value) (V.events value) }
        requires position { position ≡ end_of (V.first (V.base value)) (V.events value) }
        ensures seat { seat.new.table_id ≡ seat.old.table_id }
        ensures published { let start = V.first (V.base value) in let found = found_at seat.old.me.0.stage in
            seat.new.me ≡
            (at_stage Idle (published ticket start found (V.events value) (V.closed value) seat.old.me.0), []) }
    {
        let words = &self.table.shared;
        match words.exchange(seat, VALUE, Some(value)) {
            None => {}
            Some(_) => unreachable!(),
        }
        words.store::<Post>(seat, END, position);
        words.store::<Advance>(seat, SERVING, ticket + 1);
    }
}
