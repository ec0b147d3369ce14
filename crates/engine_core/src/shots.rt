//! Snapshots of an engine.
ghost use Rattle.std.specs.Prelude.{◌≡◌};
ghost use Rattle.std.specs.Arc.{arc_value};

use engine_state::State;
use refresh_build::Job;
use std::marker::Model;
use std::sync::Arc;
use std::thread::Threads;
use ts_model::{Answer, Op, Pending, Query, Roster, Shown};
use ts_schema::{NoMemory, Seq, Steps};

/// A snapshot: one more owner of an engine's state. It holds no list of events.
#[derive(Drop)]
pub struct Shot {
    state: Arc<State>,
}

impl Model for Shot {
    ghost use Rattle.std.specs.Arc.{arc_value};
    ghost use Rattle.engine_state.specs.Stands.{StateValue};

    ghost Value = { StateValue };

    ghost view = { λ s. arc_value s.state };
}

impl Shot {
    pub(crate) fn of(state: Arc<State>) -> Shot
        ensures of { result ≡ arc_value state }
    {
        Shot { state }
    }
}

impl Shown for Shot {
    ghost use Rattle.engine_state.specs.Stands.{StandsFor};
    ghost use Rattle.refresh_build.specs.Fitting.{JobFits};
    ghost use Rattle.refresh_build.proofs.FittingLaws.{job_fits_on, job_sound};

    type Job = Job;

    ghost stands = { λ s h. StandsFor h s };

    ghost fits = { λ job h. JobFits h job };

    ghost cut_of = { λ job. job.cut };

    ghost snap_of = { λ job. job.snap };

    fn position(&self) -> u64 {
        self.state.position()
    }

    fn roster(&self) -> &Roster {
        self.state.roster()
    }

    fn pending(&self, cut: u64) -> Pending {
        self.state.pending(cut)
    }

    fn answer<R: Threads + Sync, L>(
        &self,
        rt: &R,
        query: &Query,
        steps: &mut Steps<L>,
    ) -> Result<Answer, NoMemory> {
        self.state.answer(rt, query, steps)
    }

    fn answer_with<R: Threads + Sync, L>(
        &self,
        rt: &R,
        ops: &Seq<Op>,
        query: &Query,
        steps: &mut Steps<L>,
    ) -> Result<Answer, NoMemory> {
        self.state.answer_with(rt, ops, query, steps)
    }

    fn start_job<R: Threads + Sync, L>(
        &self,
        rt: &R,
        cut: u64,
        steps: &mut Steps<L>,
    ) -> Result<Job, NoMemory> {
        self.state.start_job(rt, cut, steps)
    }

    ghost fits_on = { job_fits_on };

    ghost fits_soundly = { job_sound };
}
