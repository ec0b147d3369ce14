//! The replies of all sessions, judged over a history.
ghost use Rattle.std.specs.Prelude.{◌≡◌, ◌≤◌, All, IfOk, IsTrue, OnOk};
ghost use Rattle.std.specs.List.{list_all};
ghost use Rattle.std.specs.Thread.{IsSync};
ghost use Rattle.ts_model.specs.Allowed.{all_allowed};
ghost use Rattle.ts_model.specs.History.{History, base_position, position};
ghost use Rattle.transcript.specs.Shape.{is_sound_talk};
ghost use Rattle.audit.specs.SessionReplays.{IsHeard, talks_of};
ghost use Rattle.audit.specs.Judged.{JudgesTalks};

use crate::lines::Place;
use crate::session_replay::SessionReplay;
use audit_past::Past;
use std::alloc::Global;
use std::thread::Threads;
use transcript::SessionTranscript;
use ts_model::Shown;
use ts_schema::{NoMemory, Seq, Steps};

/// How many positions one session is judged for before the next one follows. The states of nearby positions are close
/// together in memory, and share most of their parts.
const STRIDE: u64 = 64;

/// The verdict on the replies of all sessions.
#[derive(Drop)]
pub(crate) enum JudgedSessions {
    /// They are explained, and name events with these numbers.
    Explained(Seq<u64>),
    /// This reply is the first that isn't explained.
    Unexplained(Place),
}

/// Judges the replies of sessions over a history. The first read of each session is at `start` or later. The
/// replays alternate between the sessions, a stride of positions at a time. The first failure is reported in the
/// order of the sessions.
pub(crate) fn judge_sessions<R: Threads + Sync, T: Shown + Drop, P: Past<Shot = T>, L>(
    rt: &R,
    alloc: Global,
    past: &P,
    start: u64,
    talks: &[SessionTranscript],
    steps: &mut Steps<L>,
) -> Result<JudgedSessions, NoMemory>
where
    T::Job: Drop,
    requires sync { IsSync R.row }
    requires sound { IsTrue (list_all is_sound_talk talks.now) }
    requires allowed { IsTrue (all_allowed (P.all past.now)) }
    requires known { P.from past.now ≤ start }
    requires based { base_position (P.all past.now) ≤ start }
    requires within { start ≤ position (P.all past.now) }
    ensures judged { IfOk result (JudgesTalks (P.all past.now) start talks.now) }
{
    let mut hearings = begin(alloc, start, talks)?;
    judge_in_parallel(rt, alloc, past, start, &mut hearings, steps)?;
    judge_in_order(rt, alloc, past, start, &mut hearings, steps)
}

/// The replays of all sessions, before the first reply.
fn begin<T: Shown + Drop>(
    alloc: Global,
    start: u64,
    talks: &[SessionTranscript],
) -> Result<Vec<SessionReplay<'_, T>>, NoMemory>
where
    T::Job: Drop,
    requires sound { IsTrue (list_all is_sound_talk talks.now) }
    ensures talks { IfOk result (λ hearings. talks_of hearings.items ≡ talks.now) }
    ensures heard { (all : History) → start ≤ position all
        → IfOk result (λ hearings. All (IsHeard T.Shown all start) hearings.items) }
{
    let mut hearings = Vec::with_capacity(alloc, talks.len())?;
    for talk in talks {
        hearings.push(SessionReplay::new(alloc, start, talk)?)?;
    }
    Ok(hearings)
}

/// Judges most of the replies of all sessions: a stride of positions of each session, then the next stride.
fn judge_in_parallel<R: Threads + Sync, T: Shown + Drop, P: Past<Shot = T>, L>(
    rt: &R,
    alloc: Global,
    past: &P,
    start: u64,
    hearings: &mut Vec<SessionReplay<'_, T>>,
    steps: &mut Steps<L>,
) -> Result<(), NoMemory>
where
    T::Job: Drop,
    requires sync { IsSync R.row }
    requires allowed { IsTrue (all_allowed (P.all past.now)) }
    requires known { P.from past.now ≤ start }
    requires based { base_position (P.all past.now) ≤ start }
    requires heard { All (IsHeard T.Shown (P.all past.now) start) hearings.old.items }
    ensures heard { OnOk result (All (IsHeard T.Shown (P.all past.now) start) hearings.new.items) }
    ensures talks { OnOk result (talks_of hearings.new.items ≡ talks_of hearings.old.items) }
{
    let strides = past.length().saturating_sub(start) / STRIDE;
    for stride in 0..strides {
        let until = start.saturating_add(stride.saturating_mul(STRIDE));
        judge_each(rt, alloc, past, start, until, hearings, steps)?;
    }
    Ok(())
}

/// Judges replies of each session until it has reached a position.
fn judge_each<R: Threads + Sync, T: Shown + Drop, P: Past<Shot = T>, L>(
    rt: &R,
    alloc: Global,
    past: &P,
    start: u64,
    until: u64,
    hearings: &mut Vec<SessionReplay<'_, T>>,
    steps: &mut Steps<L>,
) -> Result<(), NoMemory>
where
    T::Job: Drop,
    requires sync { IsSync R.row }
    requires allowed { IsTrue (all_allowed (P.all past.now)) }
    requires known { P.from past.now ≤ start }
    requires based { base_position (P.all past.now) ≤ start }
    requires heard { All (IsHeard T.Shown (P.all past.now) start) hearings.old.items }
    ensures heard { OnOk result (All (IsHeard T.Shown (P.all past.now) start) hearings.new.items) }
    ensures talks { OnOk result (talks_of hearings.new.items ≡ talks_of hearings.old.items) }
{
    for hearing in hearings.iter_mut() {
        hearing.judge_next(rt, alloc, past, start, Some(until), steps)?;
    }
    Ok(())
}

/// Judges the remaining replies, session by session, up to the first that isn't explained.
fn judge_in_order<R: Threads + Sync, T: Shown + Drop, P: Past<Shot = T>, L>(
    rt: &R,
    alloc: Global,
    past: &P,
    start: u64,
    hearings: &mut Vec<SessionReplay<'_, T>>,
    steps: &mut Steps<L>,
) -> Result<JudgedSessions, NoMemory>
where
    T::Job: Drop,
    requires sync { IsSync R.row }
    requires allowed { IsTrue (all_allowed (P.all past.now)) }
    requires known { P.from past.now ≤ start }
    requires based { base_position (P.all past.now) ≤ start }
    requires heard { All (IsHeard T.Shown (P.all past.now) start) hearings.old.items }
    ensures judged { IfOk result (JudgesTalks (P.all past.now) start (talks_of hearings.old.items)) }
{
    let mut named = Vec::new(alloc);
    for (session, hearing) in hearings.iter_mut().enumerate() {
        if !hearing.judge_next(rt, alloc, past, start, None, steps)? {
            return Ok(JudgedSessions::Unexplained(Place {
                session: session as u64,
                reply: hearing.heard as u64,
            }));
        }
        named.extend_from_slice(hearing.teller.named.as_slice())?;
    }
    Ok(JudgedSessions::Explained(Seq::of(named)))
}
