//! Snapshots of a history.
use crate::events::Op;
use crate::queries::{Answer, Query};
use crate::refreshes::Pending;
use crate::rosters::Roster;
use std::thread::Threads;
use ts_schema::{NoMemory, Seq, Steps};

/// A snapshot of a history. It need not store one: `stands` relates its contents to the histories that it
/// represents, and each clause is true for every such history.
pub trait Shown {
    ghost use Rattle.std.specs.Prelude.{◌≡◌, ℕ, IsTrue, IfOk};
    ghost use Rattle.std.specs.Thread.{IsSync};
    ghost use Rattle.ts_schema.specs.Counts.{Ticks};
    ghost use Rattle.ts_model.specs.declared.events.Event.TheVariants.{Built};
    ghost use Rattle.ts_model.specs.History.{History, position, Begins};
    ghost use Rattle.ts_model.specs.Roster.{roster};
    ghost use Rattle.ts_model.specs.Answers.{answer, can_ask, with_queue};
    ghost use Rattle.ts_model.specs.Allowed.{QueueFits};
    ghost use Rattle.ts_model.specs.Pending.{is_waiting, pending};
    ghost use Rattle.ts_model.specs.Sound.{sound};
    ghost use Rattle.ts_model.specs.Reads.{reads, job_reads};

    /// What a snapshot creates for a pending refresh, and what a store needs to finish it.
    type Job;

    ghost stands: { Self → History → Type 0 };

    ghost fits: { Self.Job → History → Type 0 };

    ghost cut_of: { Self.Job → ℕ };

    ghost snap_of: { Self.Job → ℕ };

    /// The position of the history.
    fn position(&self) -> u64
        ensures { (h : History) → stands self.now h → result ≡ position h };

    /// Its tables and aggregates.
    fn roster(&self) -> &Roster
        ensures { (h : History) → stands self.now h → result.now ≡ roster h };

    /// The outcome of the refresh with this number.
    fn pending(&self, cut: u64) -> Pending
        ensures { (h : History) → stands self.now h → result ≡ pending h cut };

    /// What the query shows. Counts one step for each stored row that it reads.
    fn answer<R: Threads + Sync, L>(
        &self,
        rt: &R,
        query: &Query,
        steps: &mut Steps<L>,
    ) -> Result<Answer, NoMemory>
        requires sync { IsSync R.row }
        requires asks { (h : History) → stands self.now h → IsTrue (can_ask (roster h) query.now) }
        ensures shown { (h : History) → stands self.now h → IfOk result (λ a. a ≡ answer query.now h) }
        ensures read { (h : History) → stands self.now h → Ticks result (reads query.now h) steps.old steps.new };

    /// What the query would show directly after one commit of these operations; without operations, what it
    /// shows. Commits nothing, and leaves the snapshot as it is. Counts one step for each stored row that it
    /// reads, including those of the operations.
    fn answer_with<R: Threads + Sync, L>(
        &self,
        rt: &R,
        ops: &Seq<Op>,
        query: &Query,
        steps: &mut Steps<L>,
    ) -> Result<Answer, NoMemory>
        requires sync { IsSync R.row }
        requires asks { (h : History) → stands self.now h → IsTrue (can_ask (roster h) query.now) }
        requires fits { (h : History) → stands self.now h → QueueFits ops.now h }
        ensures shown { (h : History) → stands self.now h
            → IfOk result (λ a. a ≡ answer query.now (with_queue ops.now h)) }
        ensures read { (h : History) → stands self.now h
            → Ticks result (reads query.now (with_queue ops.now h)) steps.old steps.new };

    /// A job for the pending refresh with this number, from the rows of this snapshot. Counts one step for
    /// each stored row that it reads.
    fn start_job<R: Threads + Sync, L>(
        &self,
        rt: &R,
        cut: u64,
        steps: &mut Steps<L>,
    ) -> Result<Self::Job, NoMemory>
        requires sync { IsSync R.row }
        requires waits { (h : History) → stands self.now h → IsTrue (is_waiting (pending h cut)) }
        ensures job { (h : History) → stands self.now h
            → IfOk result (λ job. fits job h × (cut_of job ≡ cut) × (snap_of job ≡ position h)) }
        ensures read { (h : History) → stands self.now h → Ticks result (job_reads h cut) steps.old steps.new };

    ghost fits_on: { (job : Self.Job) (g h : History) → Begins g h → fits job g → fits job h };

    ghost fits_soundly: { (job : Self.Job) (h : History)
        → fits job h → IsTrue (sound h (Built (cut_of job) (snap_of job))) };
}
