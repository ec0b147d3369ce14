//! Commits of operations, and new aggregates.
ghost use Rattle.std.specs.Prelude.{◌≡◌, ◌<◌, ◌^◌, ◌∷◌, [], length, None, IsTrue, IfOk};
ghost use Rattle.ts_bucket.specs.Bucket.{first_of};
ghost use Rattle.ts_model.specs.declared.events.Event.TheVariants.{Commit};
ghost use Rattle.ts_model.specs.History.{History};
ghost use Rattle.ts_model.specs.Sound.{sound};
ghost use Rattle.ts_model.specs.Calls.{act_of_commit};
ghost use Rattle.ts_sessions.specs.Procedures.{tries};
ghost use Rattle.ts_sessions.specs.Sessions.{Tries};
ghost use Rattle.ts_sessions.specs.Sound.{StandsForAllowed, number_at, number_from};

use crate::call_outcomes::{Attempt, outcome_of};
use crate::refreshes::RefreshRequest;
use std::alloc::Global;
use ts_bucket::{Width, first};
use ts_model::{Backend, Committed, Op, Shown, ViewDef};
use ts_schema::{Name, NoMemory, Seq};

/// Commits operations as one event.
#[tactic(auto, using(crate::proofs::CallWalks::called_tries))]
pub(crate) fn commit<B: Backend>(
    backend: &mut B,
    ops: Seq<Op>,
) -> Result<Attempt<Committed>, NoMemory>
    requires { IsTrue (sound (B.state backend.old).history (Commit ops)) }
    ensures tries { Tries B.alone (B.state backend.old) (tries (act_of_commit ops)) result (B.state backend.new) }
    ensures kin { B.kin backend.new ≡ B.kin backend.old }
{
    let outcome = backend.commit(ops);
    outcome_of(outcome, backend.position())
}

/// Returns a list of one operation.
pub(crate) fn alone(alloc: Global, op: Op) -> Result<Seq<Op>, NoMemory>
    ensures { IfOk result (λ ops. ops ≡ op ∷ []) }
{
    let mut ops = Seq::new(alloc);
    ops.push(op)?;
    Ok(ops)
}

/// What the first refresh of a new aggregate needs of it.
#[derive(Drop)]
pub struct NewView {
    /// Its name.
    pub name: Name,
    /// Its width.
    pub width: Width,
}

/// Returns what the first refresh of an aggregate with this definition needs.
pub fn new_view(def: &ViewDef) -> Result<NewView, NoMemory>
    ensures name { IfOk result (λ v. v.name ≡ def.now.name) }
    ensures width { IfOk result (λ v. v.width ≡ def.now.fold.width) }
{
    Ok(NewView {
        name: def.name.copy()?,
        width: def.fold.width,
    })
}

/// Returns a request to refresh all buckets of a new aggregate, which this snapshot shows.
pub fn whole_refresh<T: Shown>(shot: &T, new: &NewView) -> RefreshRequest
    requires { StandsForAllowed T.stands shot.now [] }
    ensures { (h : History) → T.stands shot.now h → result
        ≡ record { view = number_at h new.now.name; lo = None; hi = None; min = first_of new.now.width } }
{
    all_of(
        view_number(shot.roster().views.items(), &new.name),
        &new.width,
    )
}

/// Returns a request to refresh all buckets of the aggregate with this number and width.
fn all_of(view: u32, width: &Width) -> RefreshRequest
    ensures { result ≡ record { view = view; lo = None; hi = None; min = first_of width.now } }
{
    RefreshRequest {
        view,
        lo: None,
        hi: None,
        min: first(*width),
    }
}

/// Returns the number of the aggregate with this name, or how many aggregates exist if none has it.
fn view_number(views: &[ViewDef], name: &Name) -> u32
    requires { length views.now < 2 ^ 32 }
    ensures { result ≡ number_from name.now 0 views.now }
{
    let mut number = 0;
    let mut left = views;
    while let [view, rest @ ..] = left {
        if view.name == *name {
            return number;
        }
        number += 1;
        left = rest;
    }
    number
}
