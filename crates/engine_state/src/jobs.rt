//! Jobs for refreshes.
ghost use Rattle.std.specs.Prelude.{◌≡◌, IfOk, IsTrue, Some};
ghost use Rattle.std.specs.Thread.{IsSync};
ghost use Rattle.ts_schema.specs.Counts.{Ticks};
ghost use Rattle.ts_model.specs.declared.events.Event.TheVariants.{Built};
ghost use Rattle.ts_model.specs.Allowed.{consistent};
ghost use Rattle.ts_model.specs.History.{History, position};
ghost use Rattle.ts_model.specs.Pending.{is_waiting, pending};
ghost use Rattle.ts_model.specs.Reads.{job_reads};
ghost use Rattle.refresh_list.specs.Refreshes.{pending_in};
ghost use Rattle.refresh_build.specs.Fitting.{IsJobOf, JobFits};
ghost use Rattle.engine_state.specs.Afters.{IsNextFinish};
ghost use Rattle.engine_state.specs.Shown.{IsRefreshOf};
ghost use Rattle.engine_state.specs.Stands.{Stands, StandsFor};

use crate::parts::StateParts;
use crate::scans::TableAt;
use crate::states::State;
use refresh_build::{Job, Refresh, build, build_ranges};
use std::alloc::Global;
use std::thread::Threads;
use ts_schema::{NoMemory, Steps};

impl StateParts {
    /// The refresh with this number, to be computed from the rows of a position.
    fn refresh(&self, cut: u64, snap: u64) -> Refresh
        requires waits { IsTrue (is_waiting (pending_in self.now.refreshes cut)) }
        ensures snap { result.snap ≡ snap }
        ensures refresh { (h : History) → StandsFor h self.now → IsRefreshOf h cut result }
    {
        match self.refreshes.find_waiting(cut) {
            Some(found) => Refresh {
                view: found.view,
                cut: found.cut,
                snap,
                span: found.span,
            },
            None => unreachable!(),
        }
    }

    /// A job for the pending refresh with this number, from the rows at the position of the state.
    fn start_job<R: Threads + Sync, L>(
        &self,
        rt: &R,
        alloc: Global,
        cut: u64,
        steps: &mut Steps<L>,
    ) -> Result<Job, NoMemory>
        requires stands { Stands self.now }
        requires waits { IsTrue (is_waiting (pending_in self.now.refreshes cut)) }
        ensures job { (h : History) → StandsFor h self.now
            → IfOk result (λ job. JobFits h job × (job.cut ≡ cut) × (job.snap ≡ position h)) }
        ensures read { (h : History) → StandsFor h self.now → Ticks result (job_reads h cut) steps.old steps.new }
    {
        let refresh = self.refresh(cut, self.position);
        let seen = self.view_seen(refresh.view);
        let log = seen.state.log();
        let entries = seen.rows.table.log().entries();
        build(
            rt, alloc, &seen.rows, seen.def, log, entries, refresh, steps,
        )
    }

    /// The job of a finish that was read from a journal: the refresh is recomputed from the rows that its
    /// snapshot saw.
    fn rebuild<R: Threads + Sync>(
        &self,
        rt: &R,
        alloc: Global,
        cut: u64,
        snap: u64,
    ) -> Result<Job, NoMemory>
        requires next { IsNextFinish self.now cut snap }
        ensures job { (h : History) → StandsFor h self.now
            → IsTrue (consistent h (Built cut snap))
            → IfOk result (IsJobOf h cut snap) }
    {
        let refresh = self.refresh(cut, snap);
        let seen = self.view_seen(refresh.view);
        let rows = TableAt {
            table: seen.rows.table,
            position: snap,
        };
        let entries = rows.table.log().entries();
        let log = seen.state.log();
        let spans = log.redone_with(entries, refresh.span, snap)?;
        build_ranges(
            rt,
            alloc,
            &rows,
            seen.def,
            refresh,
            spans,
            &mut Steps::new(()),
        )
    }
}

impl State {
    /// A job for the pending refresh with this number, from the rows of this state. It recomputes the stale
    /// buckets. Counts one step for each stored row that is read.
    pub fn start_job<R: Threads + Sync, L>(
        &self,
        rt: &R,
        cut: u64,
        steps: &mut Steps<L>,
    ) -> Result<Job, NoMemory>
        requires sync { IsSync R.row }
        requires waits { (h : History) → StandsFor h self.now → IsTrue (is_waiting (pending h cut)) }
        ensures job { (h : History) → StandsFor h self.now
            → IfOk result (λ job. JobFits h job × (job.cut ≡ cut) × (job.snap ≡ position h)) }
        ensures read { (h : History) → StandsFor h self.now → Ticks result (job_reads h cut) steps.old steps.new }
    {
        self.parts.start_job(rt, self.alloc, cut, steps)
    }

    /// The job of a finish from a journal that may come next, by the number and the snapshot of its refresh. It
    /// recomputes the stale buckets, and those that were refreshed at a later snapshot.
    pub fn rebuild<R: Threads + Sync>(&self, rt: &R, cut: u64, snap: u64) -> Result<Job, NoMemory>
        requires sync { IsSync R.row }
        requires next { IsNextFinish self.now cut snap }
        ensures job { (h : History) → StandsFor h self.now
            → IsTrue (consistent h (Built cut snap))
            → IfOk result (IsJobOf h cut snap) }
    {
        self.parts.rebuild(rt, self.alloc, cut, snap)
    }
}
