//! A store handle, through which one thread uses the store.
ghost use Rattle.std.specs.Prelude.{◌≡◌, Some};
ghost use Rattle.turn_lock.specs.Pass.{shares_of};
ghost use Rattle.shared_store.specs.Stores.{IsPassOf, shared_of};
ghost use Rattle.shared_store.specs.Desks.{fresh_desk, IsLast};

use crate::store::{Pass, SharedStore, StoreLock};
use crate::turns::{self, TurnEnd};
use std::marker::Model;
use std::sync::Wait;
use std::thread::Threads;
use ts_model::{Backend, Committed, CutDone, Hyper, Op, Outcome, Shown, TableDef, ViewDef};
use ts_schema::{NoMemory, Seq};

/// A store handle for the holder of a pass. It is a store: each call except `position` and `stopped` takes the turn of
/// its pass, and may wait for it. Those two report how the last call left the store, and nothing that others did since.
#[derive(Drop)]
pub struct Desk<'a, B: Backend, R: Threads + Wait> {
    lock: &'a StoreLock<B>,
    rt: &'a R,
    pass: Pass<B>,
    // What the last call left.
    last: Option<TurnEnd<B>>,
}

impl<'a, B: Backend, R: Threads + Wait> Model for Desk<'a, B, R> {
    ghost use Rattle.shared_store.specs.Stores.{shared_of};
    ghost use Rattle.shared_store.specs.Desks.{AtDesk, IsDesk};

    ghost Value = { AtDesk B };

    ghost view = { λ d. record { store = shared_of d.lock.now; pass = d.pass; last = d.last } };

    ghost invariant = { λ d. IsDesk B.state (record { store = shared_of d.lock.now; pass = d.pass; last = d.last }) };
}

impl<B: Backend> SharedStore<B> {
    /// A store handle for the holder of the pass, at the position of the pass. It is for callers that have the whole
    /// store. A worker has only its lock, and calls `desk_at`.
    pub fn desk<'a, R: Threads + Wait>(&'a self, rt: &'a R, pass: Pass<B>) -> Desk<'a, B, R>
        requires { IsPassOf self.now pass }
        ensures { result ≡ fresh_desk self.now pass }
    {
        desk_at(&self.lock, rt, pass)
    }
}

/// A store handle for the holder of the pass, by the lock of its store.
pub fn desk_at<'a, B: Backend, R: Threads + Wait>(
    lock: &'a StoreLock<B>,
    rt: &'a R,
    pass: Pass<B>,
) -> Desk<'a, B, R>
    requires { IsPassOf (shared_of lock.now) pass }
    ensures { result ≡ fresh_desk (shared_of lock.now) pass }
{
    Desk {
        lock,
        rt,
        pass,
        last: None,
    }
}

impl<'a, B: Backend, R: Threads + Wait> Desk<'a, B, R> {
    /// Returns the pass.
    pub fn leave(self) -> Pass<B>
        ensures pass { result ≡ self.entry.pass }
        ensures store { IsPassOf self.entry.store result }
        ensures last { IsLast B.state self.entry self.entry.last }
    {
        let Self {
            lock: _,
            rt: _,
            pass,
            last: _,
        } = self;
        pass
    }
}

impl<'a, B: Backend, R: Threads + Wait> Backend for Desk<'a, B, R> {
    ghost use Rattle.std.specs.Prelude.{false};
    ghost use Rattle.shared_store.specs.Desks.{Place, place_of, desk_state};

    type Shot = B::Shot;

    ghost state = { desk_state B.state };

    ghost alone = { false };

    ghost Kin = { Place B };

    ghost kin = { place_of };

    fn snap(&mut self) -> Result<B::Shot, NoMemory> {
        let mut held = turns::begin(self.lock, self.rt, &mut self.pass);
        let shot = held.value.snap();
        self.last = Some(turns::end(self.lock, &mut self.pass, held));
        shot
    }

    fn make_table(&mut self, def: TableDef) -> Outcome<u64> {
        let mut held = turns::begin(self.lock, self.rt, &mut self.pass);
        let outcome = held.value.make_table(def);
        self.last = Some(turns::end(self.lock, &mut self.pass, held));
        outcome
    }

    fn make_hyper(&mut self, table: u32, hyper: Hyper) -> Outcome<u64> {
        let mut held = turns::begin(self.lock, self.rt, &mut self.pass);
        let outcome = held.value.make_hyper(table, hyper);
        self.last = Some(turns::end(self.lock, &mut self.pass, held));
        outcome
    }

    fn make_view(&mut self, def: ViewDef) -> Outcome<u64> {
        let mut held = turns::begin(self.lock, self.rt, &mut self.pass);
        let outcome = held.value.make_view(def);
        self.last = Some(turns::end(self.lock, &mut self.pass, held));
        outcome
    }

    fn set_mode(&mut self, view: u32, only: bool) -> Outcome<u64> {
        let mut held = turns::begin(self.lock, self.rt, &mut self.pass);
        let outcome = held.value.set_mode(view, only);
        self.last = Some(turns::end(self.lock, &mut self.pass, held));
        outcome
    }

    fn commit(&mut self, ops: Seq<Op>) -> Outcome<Committed> {
        let mut held = turns::begin(self.lock, self.rt, &mut self.pass);
        let outcome = held.value.commit(ops);
        self.last = Some(turns::end(self.lock, &mut self.pass, held));
        outcome
    }

    fn cut(&mut self, view: u32, lo: Option<i64>, hi: Option<i64>) -> Outcome<CutDone> {
        let mut held = turns::begin(self.lock, self.rt, &mut self.pass);
        let outcome = held.value.cut(view, lo, hi);
        self.last = Some(turns::end(self.lock, &mut self.pass, held));
        outcome
    }

    fn finish(&mut self, job: <B::Shot as Shown>::Job) -> Outcome<u64> {
        let mut held = turns::begin(self.lock, self.rt, &mut self.pass);
        let outcome = held.value.finish(job);
        self.last = Some(turns::end(self.lock, &mut self.pass, held));
        outcome
    }

    fn position(&self) -> u64 {
        self.pass.position()
    }

    fn stopped(&self) -> Option<u64> {
        match &self.last {
            Some(left) => left.stopped,
            None => None,
        }
    }
}
