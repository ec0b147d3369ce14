//! Answers to queries with a queue of operations on top.
ghost use Rattle.std.specs.Prelude.{◌≡◌, IfOk, IsTrue, None};
ghost use Rattle.std.specs.Thread.{IsSync};
ghost use Rattle.ts_schema.specs.Counts.{Ticks};
ghost use Rattle.ts_model.specs.declared.events.Event.TheVariants.{Commit};
ghost use Rattle.ts_model.specs.Allowed.{QueueFits, consistent};
ghost use Rattle.ts_model.specs.Answers.{answer, can_ask, with_queue};
ghost use Rattle.ts_model.specs.History.{History, ◌▸◌};
ghost use Rattle.ts_model.specs.Reads.{reads};
ghost use Rattle.ts_model.specs.Roster.{roster};
ghost use Rattle.engine_state.specs.Afters.{IsNext};
ghost use Rattle.engine_state.specs.Stands.{Stands, StandsFor};

use crate::parts::StateParts;
use crate::states::State;
use std::alloc::Global;
use std::thread::Threads;
use ts_model::{Answer, Op, Query};
use ts_schema::{NoMemory, Seq, Steps};

impl StateParts {
    /// The answer to a query after a commit of these operations.
    fn answer_after<R: Threads + Sync, L>(
        &self,
        rt: &R,
        alloc: Global,
        ops: &Seq<Op>,
        query: &Query,
        steps: &mut Steps<L>,
    ) -> Result<Answer, NoMemory>
        requires next { IsNext self.now (Commit ops.now) None }
        requires asks { IsTrue (can_ask self.now.roster query.now) }
        ensures shown { (h : History) → StandsFor h self.now → IsTrue (consistent h (Commit ops.now))
            → IfOk result (λ found. found ≡ answer query.now (h ▸ Commit ops.now)) }
        ensures read { (h : History) → StandsFor h self.now → IsTrue (consistent h (Commit ops.now))
            → Ticks result (reads query.now (h ▸ Commit ops.now)) steps.old steps.new }
    {
        let _so_far = steps.count();
        let step = self.with_ops(alloc, ops)?;
        step.made.answer(rt, alloc, query, steps)
    }

    /// The answer to a query with a queue of operations on top, which may be empty.
    fn answer_with<R: Threads + Sync, L>(
        &self,
        rt: &R,
        alloc: Global,
        ops: &Seq<Op>,
        query: &Query,
        steps: &mut Steps<L>,
    ) -> Result<Answer, NoMemory>
        requires stands { Stands self.now }
        requires asks { IsTrue (can_ask self.now.roster query.now) }
        requires fits { (h : History) → StandsFor h self.now → QueueFits ops.now h }
        ensures shown { (h : History) → StandsFor h self.now
            → IfOk result (λ found. found ≡ answer query.now (with_queue ops.now h)) }
        ensures read { (h : History) → StandsFor h self.now
            → Ticks result (reads query.now (with_queue ops.now h)) steps.old steps.new }
    {
        if ops.is_empty() {
            self.answer(rt, alloc, query, steps)
        } else {
            self.answer_after(rt, alloc, ops, query, steps)
        }
    }
}

impl State {
    /// The answer that a query would get right after a commit of these operations, or gets now if there are
    /// none. The state itself doesn't change. Counts one step for each stored row that is read, including those
    /// of the operations.
    pub fn answer_with<R: Threads + Sync, L>(
        &self,
        rt: &R,
        ops: &Seq<Op>,
        query: &Query,
        steps: &mut Steps<L>,
    ) -> Result<Answer, NoMemory>
        requires sync { IsSync R.row }
        requires asks { (h : History) → StandsFor h self.now → IsTrue (can_ask (roster h) query.now) }
        requires fits { (h : History) → StandsFor h self.now → QueueFits ops.now h }
        ensures shown { (h : History) → StandsFor h self.now
            → IfOk result (λ found. found ≡ answer query.now (with_queue ops.now h)) }
        ensures read { (h : History) → StandsFor h self.now
            → Ticks result (reads query.now (with_queue ops.now h)) steps.old steps.new }
    {
        self.parts.answer_with(rt, self.alloc, ops, query, steps)
    }
}
