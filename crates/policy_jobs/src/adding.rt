//! Why a new policy is refused.
ghost use Rattle.std.specs.Prelude.{◌≡◌, ◌+ℤ◌, ◌-ℤ◌, int_le, option_copied};
ghost use Rattle.ts_catalog.specs.Relations.{CanBeNumbered};
ghost use Rattle.stmt_check.specs.Refusals.{hypertable_refusal, view_refusal};
ghost use Rattle.policy_jobs.specs.Adding.{adding_refusal as refusal_of, fits_step as fits, has_offsets, is_from, is_offset as offset_is, is_wide as wide, relation_refusal as refusal_of_relation, view_found as found_view};

use crate::jobs::Job;
use ts_catalog::{Found, find};
use ts_model::{Refusal, Roster, ViewDef, codes};

/// The greatest number of policies in a session.
pub(crate) const MOST_POLICIES: usize = 64;

/// The greatest offset and the greatest interval, 2 ^ 50.
const LONGEST: i64 = 1_125_899_906_842_624;

/// The refusal of a policy at a position, in a session that has this many policies, or `None`.
pub(crate) fn adding_refusal(
    pos: u64,
    roster: &Roster,
    many: usize,
    job: &Job,
    every: i64,
) -> Option<Refusal>
    requires { CanBeNumbered roster.now }
    ensures { result ≡ refusal_of pos roster.now many job.now every }
{
    if let Some(refusal) = relation_refusal(pos, roster, job) {
        return Some(refusal);
    }
    if !(has_bounds(job) && is_between(1, every) && fits_step(roster, job)) {
        return Some(refusal(pos, codes::BAD_POLICY, 0));
    }
    if many >= MOST_POLICIES {
        return Some(refusal(pos, codes::TOO_MANY_POLICIES, MOST_POLICIES as u64 + 1));
    }
    None
}

/// A refusal at a position.
fn refusal(pos: u64, code: u8, mark: u64) -> Refusal
    ensures { result ≡ record { code = code; pos = pos; mark = mark } }
{
    Refusal { code, pos, mark }
}

/// The refusal of the relation of a policy, or `None`.
fn relation_refusal(pos: u64, roster: &Roster, job: &Job) -> Option<Refusal>
    requires { CanBeNumbered roster.now }
    ensures { result ≡ refusal_of_relation pos roster.now job.now }
{
    match job {
        Job::Refresh { view, .. } => no_view(pos, find(roster, view)),
        Job::Drop { table, .. } => no_hypertable(pos, find(roster, table)),
    }
}

/// The refusal of a relation that was found, if it isn't an aggregate.
fn no_view(pos: u64, found: Found) -> Option<Refusal>
    ensures { result ≡ view_refusal pos found }
{
    match found {
        Found::None => Some(refusal(pos, codes::NO_RELATION, 0)),
        Found::Plain(_) | Found::Hyper(_) => Some(refusal(pos, codes::NOT_AGGREGATE, 0)),
        Found::View(_) => None,
    }
}

/// The refusal of a relation that was found, if it isn't a hypertable.
fn no_hypertable(pos: u64, found: Found) -> Option<Refusal>
    ensures { result ≡ hypertable_refusal pos found }
{
    match found {
        Found::None => Some(refusal(pos, codes::NO_RELATION, 0)),
        Found::Plain(_) | Found::View(_) => Some(refusal(pos, codes::NOT_HYPERTABLE, 0)),
        Found::Hyper(_) => None,
    }
}

/// Whether the offsets of a policy are within bounds.
fn has_bounds(job: &Job) -> bool
    ensures { result ≡ has_offsets job.now }
{
    match job {
        Job::Refresh { from, to, .. } => is_offset(*from) && is_offset(*to),
        Job::Drop { after, .. } => is_between(0, *after),
    }
}

/// Whether an offset is NULL, or within bounds.
fn is_offset(offset: Option<i64>) -> bool
    ensures { result ≡ offset_is offset }
{
    match offset {
        None => true,
        Some(offset) => is_between(0, offset),
    }
}

/// Whether a number is at least `least` and at most the greatest offset.
fn is_between(least: i64, number: i64) -> bool
    ensures { result ≡ is_from least number }
{
    least <= number && number <= LONGEST
}

/// Whether the window of a policy is wide enough for the step of its aggregate.
fn fits_step(roster: &Roster, job: &Job) -> bool
    requires { CanBeNumbered roster.now }
    ensures { result ≡ fits roster.now job.now }
{
    match job {
        Job::Refresh { view, from, to } => is_wide(
            view_found(roster, find(roster, view)),
            *from,
            *to,
        ),
        Job::Drop { .. } => true,
    }
}

/// The aggregate that was found.
fn view_found(roster: &Roster, found: Found) -> Option<&ViewDef>
    ensures { option_copied result ≡ found_view roster.now found }
{
    match found {
        Found::View(number) => roster.views.items().get(number as usize),
        Found::None | Found::Plain(_) | Found::Hyper(_) => None,
    }
}

/// Whether the width of a window with two ends is at least twice the step of an aggregate.
fn is_wide(def: Option<&ViewDef>, from: Option<i64>, to: Option<i64>) -> bool
    ensures { result ≡ wide (option_copied def.entry) from to }
{
    match (def, from, to) {
        (Some(def), Some(from), Some(to)) => is_twice(def.fold.width.step, from, to),
        (None, _, _) | (_, None, _) | (_, _, None) => true,
    }
}

/// Whether the width of a window between two offsets is at least twice a step.
fn is_twice(step: i64, from: i64, to: i64) -> bool
    ensures { result ≡ int_le (step +ℤ step) (from -ℤ to) }
{
    step as i128 + step as i128 <= from as i128 - to as i128
}
