//! The policies of a session: which of them are due at a time, and the statements that they run.
ghost use Rattle.std.specs.Prelude.{◌≡◌, ◌+ℤ◌, ◌++◌, int_lt, not, true, IfOk, OnOk, Some};
ghost use Rattle.std.specs.List.{AllByRecursion, list_any};
ghost use Rattle.ts_bucket.specs.Bucket.{is_time};
ghost use Rattle.policy_jobs.specs.Policies.{due_text, due_texts as texts_due, end_of, end_text, is_due, refresh_text, retention_text, policies_after_tick, ticked_one};
ghost use Rattle.policy_jobs.specs.Policies as spec;
ghost use Rattle.policy_jobs.specs.Adding.{AreKept, has_offsets};
ghost use Rattle.policy_jobs.specs.Runs.{IsRunnable};

use crate::jobs::Job;
use std::alloc::Global;
use ts_bucket::MIN_TIME;
use ts_num::put_int;
use ts_schema::{Name, NoMemory, Seq};

/// A policy.
#[derive(Drop, Debug, PartialEq, Eq)]
pub struct Policy {
    /// The job that it does.
    pub job: Job,
    /// The least interval between two runs.
    pub every: i64,
    /// The time of its last run, if it ever ran.
    pub ran: Option<i64>,
}

impl Policy {
    /// Whether the policy is due at a time: it never ran, or its last run is at least its interval ago.
    pub fn is_due(&self, now: i64) -> bool
        ensures due { result ≡ is_due now self.now }
    {
        match self.ran {
            None => true,
            Some(last) => is_back(now, self.every, last),
        }
    }

    /// Marks the policy as run at a time, if it is due then.
    fn mark(&mut self, now: i64)
        ensures ran { self.new ≡ ticked_one now self.old }
    {
        if self.is_due(now) {
            self.ran = Some(now);
        }
    }

    /// The statement that the policy runs at a time.
    pub fn text(&self, alloc: Global, now: i64) -> Result<Seq<u8>, NoMemory>
        ensures text { IfOk result (λ text. text ≡ due_text now self.now.job) }
        ensures runnable { is_time now ≡ true → has_offsets self.now.job ≡ true → IfOk result IsRunnable }
    {
        match &self.job {
            Job::Refresh { view, from, to } => {
                // Reading a name proves that it is one.
                let _name = view.bytes();
                refresh_at(alloc, now, view, *from, *to)
            }
            Job::Drop { table, after } => {
                // Reading a name proves that it is one.
                let _name = table.bytes();
                retention_at(alloc, now, table, *after)
            }
        }
    }
}

/// Whether a time is at least this interval after another.
fn is_back(now: i64, every: i64, last: i64) -> bool
    ensures { result ≡ spec.is_back now every (Some last) }
{
    every as i128 <= now as i128 - last as i128
}

/// The statements of the policies that are due at a time, in the order in which they were added.
pub fn due_texts(alloc: Global, policies: &[Policy], now: i64) -> Result<Seq<Seq<u8>>, NoMemory>
    ensures texts { IfOk result (λ texts. texts ≡ texts_due now policies.now) }
    ensures runnable { is_time now ≡ true → AreKept policies.now
        → IfOk result (λ texts. AllByRecursion IsRunnable texts) }
{
    let mut texts = Seq::new(alloc);
    for policy in policies {
        if policy.is_due(now) {
            texts.push(policy.text(alloc, now)?)?;
        }
    }
    Ok(texts)
}

/// Whether none is due at a time.
pub(crate) fn is_idle(policies: &[Policy], now: i64) -> bool
    ensures { result ≡ not (list_any (is_due now) policies.now) }
{
    for policy in policies {
        if policy.is_due(now) {
            return false;
        }
    }
    true
}

/// The earliest time at which one of them is due, or the greatest number of 64 bits if there is no policy.
pub(crate) fn first_due(policies: &[Policy]) -> i128
    ensures { result ≡ spec.first_due policies.now }
{
    match policies {
        [] => i64::MAX as i128,
        [policy, rest @ ..] => due_after(policy.every, policy.ran).min(first_due(rest)),
    }
}

/// The earliest time at which a policy is due, by its interval and its last run.
fn due_after(every: i64, ran: Option<i64>) -> i128
    ensures { result ≡ spec.due_after every ran }
{
    match ran {
        None => i64::MIN as i128,
        Some(last) => sum_of(last, every),
    }
}

/// The sum of two numbers.
fn sum_of(a: i64, b: i64) -> i128
    ensures { result ≡ a +ℤ b }
{
    a as i128 + b as i128
}

/// Whether a time is less than a number.
pub(crate) fn is_before(now: i64, from: i128) -> bool
    ensures { result ≡ int_lt now from }
{
    (now as i128) < from
}

/// Marks the policies that are due at a time as run then.
pub fn mark_due(policies: &mut [Policy], now: i64)
    ensures ran { policies.new ≡ policies_after_tick now policies.old }
{
    for policy in policies.iter_mut() {
        policy.mark(now);
    }
}

/// `CALL refresh_continuous_aggregate` for the window of a refresh policy at a time.
fn refresh_at(
    alloc: Global,
    now: i64,
    view: &Name,
    from: Option<i64>,
    to: Option<i64>,
) -> Result<Seq<u8>, NoMemory>
    ensures { IfOk result (λ text. text ≡ refresh_text now view.now from to) }
{
    let mut text = Vec::from_slice(alloc, b"CALL refresh_continuous_aggregate('")?;
    text.extend_from_slice(view.bytes())?;
    text.extend_from_slice(b"', ")?;
    put_end(now, from, &mut text)?;
    text.extend_from_slice(b", ")?;
    put_end(now, to, &mut text)?;
    text.extend_from_slice(b")")?;
    Ok(Seq::of(text))
}

/// `SELECT drop_chunks` for a retention policy at a time.
fn retention_at(alloc: Global, now: i64, table: &Name, after: i64) -> Result<Seq<u8>, NoMemory>
    ensures { IfOk result (λ text. text ≡ retention_text now table.now after) }
{
    let mut text = Vec::from_slice(alloc, b"SELECT drop_chunks('")?;
    text.extend_from_slice(table.bytes())?;
    text.extend_from_slice(b"', ")?;
    put_int(end_at(now, after), &mut text)?;
    text.extend_from_slice(b")")?;
    Ok(Seq::of(text))
}

/// Appends an end of a window.
fn put_end(now: i64, offset: Option<i64>, out: &mut Vec<u8>) -> Result<(), NoMemory>
    ensures { OnOk result (out.new.items ≡ out.old.items ++ end_text now offset) }
{
    match offset {
        None => out.extend_from_slice(b"NULL")?,
        Some(before) => put_int(end_at(now, before), out)?,
    }
    Ok(())
}

/// The time this long before another, but at least the lowest time.
fn end_at(now: i64, before: i64) -> i128
    ensures { result ≡ end_of now before }
{
    (MIN_TIME as i128).max(now as i128 - before as i128)
}
