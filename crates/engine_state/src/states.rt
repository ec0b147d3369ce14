//! The state of an engine.
ghost use Rattle.std.specs.Prelude.{◌≡◌, IfOk, IsSome, IsTrue};
ghost use Rattle.std.specs.Option.{ForSome};
ghost use Rattle.ts_bucket.specs.Bucket.{is_time};
ghost use Rattle.ts_model.specs.History.{History, start};
ghost use Rattle.ts_model.specs.Pending.{pending, waiting};
ghost use Rattle.ts_model.specs.Roster.{view_of};
ghost use Rattle.engine_state.specs.Afters.{IsNext};
ghost use Rattle.engine_state.specs.Nexts.{Counts, GoesTo, WindowIs};
ghost use Rattle.engine_state.specs.Stands.{StandsFor};

use crate::after_event::AfterEvent;
use crate::parts::StateParts;
use refresh_build::Job;
use std::alloc::Global;
use std::marker::Model;
use ts_model::{Event, Pending, Roster, Waiting, Window};
use ts_schema::{NoMemory, Seq};

/// The state of an engine, which represents a consistent history.
#[derive(Drop)]
pub struct State {
    pub(crate) alloc: Global,
    pub(crate) parts: StateParts,
}

impl Model for State {
    ghost use Rattle.engine_state.specs.Stands.{StateValue, Stands};

    ghost Value = { StateValue };

    ghost view = { λ s. s.parts };

    ghost invariant = { λ s. Stands s.parts };
}

impl State {
    /// The state of the empty history.
    pub fn new(alloc: Global) -> Result<State, NoMemory>
        ensures stands { IfOk result (StandsFor start) }
    {
        Ok(State {
            alloc,
            parts: StateParts::none(alloc)?,
        })
    }

    /// The position of the history.
    pub fn position(&self) -> u64
        ensures position { result ≡ self.now.position }
    {
        self.parts.position
    }

    /// Its tables and aggregates.
    pub fn roster(&self) -> &Roster
        ensures roster { result.now ≡ self.now.roster }
    {
        &self.parts.roster
    }

    /// Whether the refresh with this number is pending, finished or unknown.
    pub fn pending(&self, cut: u64) -> Pending
        ensures pending { (h : History) → StandsFor h self.now → result ≡ pending h cut }
    {
        self.parts.refreshes.pending(cut)
    }

    /// The pending refreshes, in order of their cuts.
    pub fn waiting(&self) -> Result<Seq<Waiting>, NoMemory>
        ensures waiting { (h : History) → StandsFor h self.now → IfOk result (λ found. found ≡ waiting h) }
    {
        self.parts.refreshes.waiting()
    }

    /// The buckets that a refresh of an aggregate covers, with the window from `lo` on and below `hi`. A
    /// missing start means the first bucket. A missing end means the aggregate's watermark or the end of the
    /// last bucket with a row, whichever is greater.
    pub fn window(&self, view: u32, lo: Option<i64>, hi: Option<i64>) -> Window
        requires view { IsSome (view_of self.now.roster view) }
        requires low { ForSome lo (λ t. IsTrue (is_time t)) }
        requires high { ForSome hi (λ t. IsTrue (is_time t)) }
        ensures window { WindowIs self.now view lo hi result }
    {
        self.parts.window(view, lo, hi)
    }

    /// The state after an event that is consistent with the history. An event that finishes a refresh needs its
    /// job. The state itself doesn't change, and the two share what the event doesn't change. Rows are counted
    /// over all tables.
    pub fn after(&self, event: &Event, job: Option<Job>) -> Result<AfterEvent<State>, NoMemory>
        requires next { IsNext self.now event.now job }
        ensures stands { IfOk result (λ after. GoesTo self.now event.now job after.made) }
        ensures counts { IfOk result (λ after. Counts self.now event.now after.inserted after.removed) }
    {
        let step = self.parts.after(self.alloc, event, &job)?;
        Ok(AfterEvent {
            made: State {
                alloc: self.alloc,
                parts: step.made,
            },
            inserted: step.inserted,
            removed: step.removed,
        })
    }
}
