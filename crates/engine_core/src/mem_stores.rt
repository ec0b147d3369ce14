//! A store in memory.
ghost use Rattle.std.specs.Prelude.{◌≡◌, IfOk, None};
ghost use Rattle.engine_core.specs.Histories.{past_from};

use crate::engines::Engine;
use crate::event_calls;
use crate::shots::Shot;
use refresh_build::Job;
use std::alloc::Global;
use ts_model::{Backend, Committed, CutDone, Hyper, Op, Outcome, TableDef, ViewDef};
use ts_schema::{NoMemory, Seq};

/// A store in memory: an engine that only this store changes. It never stops.
#[derive(Drop)]
pub struct MemStore {
    /// The engine.
    pub engine: Engine,
}

impl MemStore {
    /// The store of the empty history.
    pub fn new(alloc: Global) -> Result<MemStore, NoMemory>
        ensures empty { IfOk result (λ store. store.engine.past ≡ past_from None) }
    {
        Ok(MemStore {
            engine: Engine::new(alloc)?,
        })
    }
}

impl Backend for MemStore {
    ghost use Rattle.std.specs.Prelude.{true};
    ghost use Rattle.engine_core.specs.Histories.{history_of};
    ghost use Rattle.engine_core.specs.Stores.{state_of};

    type Shot = Shot;

    ghost state = { λ s. state_of (history_of s.engine.past) };

    ghost alone = { true };

    ghost Kin = { Unit {0} };

    ghost kin = { λ s. tt };

    fn snap(&mut self) -> Result<Shot, NoMemory> {
        self.engine.shot()
    }

    fn make_table(&mut self, def: TableDef) -> Outcome<u64> {
        event_calls::make_table(&mut self.engine, def)
    }

    fn make_hyper(&mut self, table: u32, hyper: Hyper) -> Outcome<u64> {
        event_calls::make_hyper(&mut self.engine, table, hyper)
    }

    fn make_view(&mut self, def: ViewDef) -> Outcome<u64> {
        event_calls::make_view(&mut self.engine, def)
    }

    fn set_mode(&mut self, view: u32, only: bool) -> Outcome<u64> {
        event_calls::set_mode(&mut self.engine, view, only)
    }

    fn commit(&mut self, ops: Seq<Op>) -> Outcome<Committed> {
        event_calls::commit(&mut self.engine, ops)
    }

    fn cut(&mut self, view: u32, lo: Option<i64>, hi: Option<i64>) -> Outcome<CutDone> {
        event_calls::cut(&mut self.engine, view, lo, hi)
    }

    fn finish(&mut self, job: Job) -> Outcome<u64> {
        event_calls::finish(&mut self.engine, job)
    }

    fn position(&self) -> u64 {
        self.engine.length()
    }

    fn stopped(&self) -> Option<u64> {
        None
    }
}
