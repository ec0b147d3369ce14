//! Performs store calls, and pairs each outcome with what the statement does next.
ghost use Rattle.std.specs.Prelude.{◌≡◌, None, IsTrue, OnOk};
ghost use Rattle.ts_model.specs.declared.events.Event.TheVariants.{View};
ghost use Rattle.ts_model.specs.Sound.{sound};
ghost use Rattle.ts_sessions.specs.declared.calls.CallOutcome.TheVariants.{Number};
ghost use Rattle.ts_sessions.specs.declared.deeds.ChangeLine.TheVariants as lines;
ghost use Rattle.ts_sessions.specs.declared.deeds.Deed.TheVariants as deeds;
ghost use Rattle.ts_sessions.specs.Calls.{MeetsTo};
ghost use Rattle.ts_sessions.specs.Deeds.{DeedFits, IsLostBy, event_of, making_of};
ghost use Rattle.ts_sessions.specs.Procedures.{tries};
ghost use Rattle.ts_sessions.specs.Sessions.{Tries};

use crate::call_outcomes::{Attempt, outcome_of};
use crate::deeds::{AfterCut, AfterLook, ChangeLine, Deed, FinishSource, RelationChange};
use crate::events::{commit, new_view, whole_refresh};
use crate::refreshes::{RefreshRequest, cut, finish};
use result_text::Said;
use ts_model::{Backend, Committed, CutDone, Gate, Refusal, Shown, ViewDef};
use ts_schema::NoMemory;

/// The outcome of a store call, with what the statement needs to continue.
#[derive(Drop)]
pub enum CallOutcome<T> {
    /// The event with this number was made and has this line, or the store refused it.
    Number {
        line: ChangeLine,
        came: Result<u64, Refusal>,
    },
    /// Operations took effect, or the store refused them.
    Commit {
        leaves: bool,
        came: Result<Committed, Refusal>,
    },
    /// An aggregate was made, and its refresh is requested.
    Found {
        asked: RefreshRequest,
    },
    /// A refresh was cut, or the store refused it.
    Cut {
        asked: RefreshRequest,
        then: AfterCut,
        came: Result<CutDone, Refusal>,
    },
    /// The event with this number finished a refresh, or the store refused it.
    Finish {
        finishing: FinishSource,
        came: Result<u64, Refusal>,
    },
    /// A snapshot was taken.
    Look {
        then: AfterLook,
        shot: T,
    },
}

/// A store call that was performed.
#[derive(Drop)]
pub(crate) struct Meeting<T> {
    /// A line of the reply that comes before all later ones.
    pub said: Option<Said>,
    /// Its outcome.
    pub outcome: CallOutcome<T>,
    /// Whether the disk failed at its event.
    pub failed: bool,
}

/// Performs a store call.
pub(crate) fn call<B: Backend, G: Gate>(
    backend: &mut B,
    gate: &G,
    session: u32,
    deed: Deed<B::Shot>,
) -> Result<Meeting<B::Shot>, NoMemory>
where
    <B::Shot as Shown>::Job: Drop,
    requires fits { DeedFits B.Shot.Shown deed (B.state backend.old) }
    ensures meets { MeetsTo B.Shot.Shown B.alone (B.state backend.old) deed result (B.state backend.new) }
    ensures lost { OnOk result (IsLostBy deed (B.state backend.new)) }
    ensures kin { B.kin backend.new ≡ B.kin backend.old }
{
    match deed {
        Deed::Make(making) => {
            let line = making.line();
            let tried = make_one(backend, making)?;
            let failed = tried.has_disk_fault();
            let came = tried.into_result();
            Ok(Meeting {
                said: None,
                outcome: CallOutcome::Number { line, came },
                failed,
            })
        }
        Deed::Commit { ops, leaves } => {
            let tried = commit(backend, ops)?;
            let failed = tried.has_disk_fault();
            let came = tried.into_result();
            Ok(Meeting {
                said: None,
                outcome: CallOutcome::Commit { leaves, came },
                failed,
            })
        }
        Deed::View { def, filled } => make_view(backend, def, filled),
        Deed::Cut { asked, then } => {
            let tried = cut(backend, asked.view, asked.lo, asked.hi)?;
            let failed = tried.has_disk_fault();
            let came = tried.into_result();
            Ok(Meeting {
                said: None,
                outcome: CallOutcome::Cut { asked, then, came },
                failed,
            })
        }
        Deed::Finish { job, finishing } => {
            let tried = finish(backend, gate, session, job)?;
            let failed = tried.has_disk_fault();
            let came = tried.into_result();
            Ok(Meeting {
                said: None,
                outcome: CallOutcome::Finish { finishing, came },
                failed,
            })
        }
        Deed::Look(then) => {
            let shot = backend.snap()?;
            Ok(Meeting {
                said: None,
                outcome: CallOutcome::Look { then, shot },
                failed: false,
            })
        }
    }
}

/// Makes an aggregate. If it is to be filled, finds its number for the refresh that follows.
fn make_view<B: Backend>(
    backend: &mut B,
    def: ViewDef,
    filled: bool,
) -> Result<Meeting<B::Shot>, NoMemory>
where
    <B::Shot as Shown>::Job: Drop,
    requires { IsTrue (sound (B.state backend.old).history (View def)) }
    ensures meets { MeetsTo B.Shot.Shown B.alone (B.state backend.old) (deeds.View def filled) result
        (B.state backend.new) }
    ensures kin { B.kin backend.new ≡ B.kin backend.old }
{
    let new = new_view(&def)?;
    let outcome = backend.make_view(def);
    let tried = outcome_of(outcome, backend.position())?;
    let failed = tried.has_disk_fault();
    match tried.into_result() {
        Ok(made) => match filled {
            true => {
                let shot = backend.snap()?;
                let asked = whole_refresh(&shot, &new);
                Ok(Meeting {
                    said: Some(Said::View(made)),
                    outcome: CallOutcome::Found { asked },
                    failed,
                })
            }
            false => Ok(view_meeting(Ok(made), failed)),
        },
        Err(refusal) => Ok(view_meeting(Err(refusal), failed)),
    }
}

/// The outcome of a call that made an aggregate, or was refused, and ends its statement.
fn view_meeting<T: Drop>(came: Result<u64, Refusal>, failed: bool) -> Meeting<T>
    ensures { result ≡ record { said = None; outcome = Number lines.View came; failed = failed } }
{
    Meeting {
        said: None,
        outcome: CallOutcome::Number {
            line: ChangeLine::View,
            came,
        },
        failed,
    }
}

/// Makes a table, or sets one property of a relation.
#[tactic(auto, using(crate::proofs::CallWalks::called_tries))]
fn make_one<B: Backend>(backend: &mut B, making: RelationChange) -> Result<Attempt<u64>, NoMemory>
    requires { IsTrue (sound (B.state backend.old).history (event_of making)) }
    ensures tries { Tries B.alone (B.state backend.old) (tries (making_of making)) result (B.state backend.new) }
    ensures kin { B.kin backend.new ≡ B.kin backend.old }
{
    match making {
        RelationChange::Table(def) => {
            let outcome = backend.make_table(def);
            outcome_of(outcome, backend.position())
        }
        RelationChange::Hyper { table, hyper } => {
            let outcome = backend.make_hyper(table, hyper);
            outcome_of(outcome, backend.position())
        }
        RelationChange::Mode { view, only } => {
            let outcome = backend.set_mode(view, only);
            outcome_of(outcome, backend.position())
        }
    }
}
