//! Refreshes: their three phases, each with one read position.
ghost use Rattle.std.specs.Prelude.{◌≡◌, ◌<◌, ◌^◌, Ok, IsSome, IsTrue, IfOk};
ghost use Rattle.std.specs.Option.{ForSome};
ghost use Rattle.std.specs.Thread.{IsSync};
ghost use Rattle.ts_bucket.specs.Bucket.{is_time};
ghost use Rattle.ts_model.specs.History.{History};
ghost use Rattle.ts_model.specs.Roster.{roster, view_of};
ghost use Rattle.ts_sessions.specs.Sessions.{FitsSnapped, SnapEnds, TakenAs, Tries};
ghost use Rattle.ts_sessions.specs.Step.{cuts_refresh, finishes_refresh};

use crate::call_outcomes::{Attempt, outcome_of};
use crate::refusals::at;
use std::thread::Threads;
use ts_model::{Backend, CutDone, Gate, Pending, Refusal, Shown, codes};
use ts_schema::{NoMemory, Steps};

/// The outcome of a snapshot for a refresh.
#[derive(Drop)]
pub enum SnapOutcome<J> {
    /// The snapshot was taken at this position, and this is the job of the refresh.
    Taken { at: u64, job: J },
    /// The refresh isn't pending.
    Refused(Refusal),
}

/// A refresh that a statement requests.
#[derive(Drop)]
pub struct RefreshRequest {
    /// The number of its aggregate.
    pub view: u32,
    /// The start of its window; without it, the first bucket.
    pub lo: Option<i64>,
    /// The end of its window; without it, the last bucket that exists.
    pub hi: Option<i64>,
    /// The start of the first bucket of its aggregate.
    pub min: i64,
}

/// Cuts a refresh of the whole buckets of a window.
#[tactic(auto, using(crate::proofs::CallWalks::called_tries))]
pub fn cut<B: Backend>(
    backend: &mut B,
    view: u32,
    lo: Option<i64>,
    hi: Option<i64>,
) -> Result<Attempt<CutDone>, NoMemory>
    requires view { IsSome (view_of (roster (B.state backend.old).history) view) }
    requires low { ForSome lo (λ t. IsTrue (is_time t)) }
    requires high { ForSome hi (λ t. IsTrue (is_time t)) }
    ensures tries { Tries B.alone (B.state backend.old) (cuts_refresh view lo hi) result (B.state backend.new) }
    ensures kin { B.kin backend.new ≡ B.kin backend.old }
{
    let outcome = backend.cut(view, lo, hi);
    outcome_of(outcome, backend.position())
}

/// Takes a snapshot for the refresh with this number, and computes its job. It checks again whether the refresh is
/// pending: another session may have finished it.
#[tactic(auto, using(crate::proofs::NameCheckWalks::looked_only, crate::proofs::StateLaws::looked_reports))]
pub fn take_snapshot<R: Threads + Sync, B: Backend, L>(
    rt: &R,
    backend: &mut B,
    cut: u64,
    steps: &mut Steps<L>,
) -> Result<SnapOutcome<<B::Shot as Shown>::Job>, NoMemory>
    requires sync { IsSync R.row }
    requires counts { steps.old < 2 ^ 64 }
    ensures snaps { SnapEnds B.alone (B.state backend.old) cut result (B.state backend.new) steps.old steps.new }
    ensures fits { IfOk result (FitsSnapped B.Shot.Shown cut (B.state backend.new).history) }
    ensures kin { B.kin backend.new ≡ B.kin backend.old }
{
    let shot = backend.snap()?;
    snapshot_of(rt, &shot, cut, steps)
}

/// Returns the outcome of this snapshot for the refresh with this number, with its job.
#[tactic(auto, using(crate::proofs::NameCheckWalks::taken_waiting, crate::proofs::NameCheckWalks::taken_finished, crate::proofs::NameCheckWalks::taken_unknown))]
pub fn snapshot_of<R: Threads + Sync, T: Shown, L>(
    rt: &R,
    shot: &T,
    cut: u64,
    steps: &mut Steps<L>,
) -> Result<SnapOutcome<T::Job>, NoMemory>
    requires sync { IsSync R.row }
    requires counts { steps.old < 2 ^ 64 }
    ensures taken { (h : History) → T.stands shot.now h → TakenAs h cut result steps.old steps.new }
    ensures fits { (h : History) → T.stands shot.now h → IfOk result (FitsSnapped T.Shown cut h) }
{
    match shot.pending(cut) {
        Pending::Waiting(_) => {
            let job = shot.start_job(rt, cut, steps)?;
            Ok(SnapOutcome::Taken {
                at: shot.position(),
                job,
            })
        }
        Pending::Finished(finish) => Ok(SnapOutcome::Refused(at(
            codes::NO_REFRESH,
            shot.position(),
            finish,
        ))),
        Pending::Unknown => Ok(SnapOutcome::Refused(at(codes::NO_REFRESH, shot.position(), 0))),
    }
}

/// Finishes the refresh of the job. Directly before, it calls the worker hook `gate` with the number of the session.
/// The job is gone after every outcome.
#[tactic(auto, using(crate::proofs::CallWalks::called_tries))]
pub fn finish<B: Backend, G: Gate>(
    backend: &mut B,
    gate: &G,
    session: u32,
    job: <B::Shot as Shown>::Job,
) -> Result<Attempt<u64>, NoMemory>
    requires fits { B.Shot.fits job (B.state backend.old).history }
    ensures tries { Tries B.alone (B.state backend.old) (finishes_refresh (B.Shot.cut_of job) (B.Shot.snap_of job))
        result (B.state backend.new) }
    ensures kin { B.kin backend.new ≡ B.kin backend.old }
{
    gate.between(session);
    let outcome = backend.finish(job);
    outcome_of(outcome, backend.position())
}
