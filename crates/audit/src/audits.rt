//! The audit of a transcript.
ghost use Rattle.std.specs.Prelude.{◌≡◌, length, sum_by, IfOk, IsTrue, None};
ghost use Rattle.std.specs.Thread.{IsSync};
ghost use Rattle.ts_model.specs.Allowed.{all_allowed};
ghost use Rattle.ts_model.specs.History.{position};
ghost use Rattle.engine_core.specs.Histories.{history_of};
ghost use Rattle.transcript.specs.Shape.{is_sound};
ghost use Rattle.audit.specs.Answers.{Answers, Judges};
ghost use Rattle.audit.specs.Explained.{IsWithin};
ghost use Rattle.audit.specs.Lines.{first_policy};

use crate::answers::Audit;
use crate::judgement::{JudgedSessions, judge_sessions};
use crate::known_history::KnownHistory;
use crate::lines::first_policy;
use crate::numbers::first_lost;
use engine_core::{Timeline, begun_at, end_of};
use std::alloc::Global;
use std::mem::forget;
use std::thread::Threads;
use transcript::{ReadTranscript, SessionTranscript, Transcript, read_transcript};
use ts_model::{Event, Image};
use ts_schema::{NoMemory, Steps};

/// Answers whether a history explains the transcript in `text`, and if not, where it fails. The history begins with an
/// image, if one is given, and continues with these events. Each event is allowed after those before it. The call never
/// frees the transcript and the states of the history. An audit is the last thing that a program does, and freeing them
/// would take a sixth of its time.
pub fn audit<R: Threads + Sync>(
    rt: &R,
    alloc: Global,
    base: &Option<Image>,
    events: &[Event],
    text: &[u8],
) -> Audit
    requires sync { IsSync R.row }
    requires allowed { IsTrue (all_allowed (history_of (record { base = base.now; events = events.now }))) }
    ensures answers { Answers (history_of (record { base = base.now; events = events.now })) text.now result }
{
    match read_transcript(alloc, text) {
        ReadTranscript::Transcript(transcript) => {
            let judged = judge(rt, alloc, base, events, &transcript);
            forget(transcript);
            match judged {
                Ok(audit) => audit,
                Err(NoMemory) => Audit::NoMemory,
            }
        }
        ReadTranscript::BadText => Audit::BadText,
        ReadTranscript::NoMemory => Audit::NoMemory,
    }
}

/// The answer for a transcript.
fn judge<R: Threads + Sync>(
    rt: &R,
    alloc: Global,
    base: &Option<Image>,
    events: &[Event],
    transcript: &Transcript,
) -> Result<Audit, NoMemory>
    requires sync { IsSync R.row }
    requires allowed { IsTrue (all_allowed (history_of (record { base = base.now; events = events.now }))) }
    requires sound { IsTrue (is_sound transcript.now) }
    ensures judged { IfOk result
        (Judges (history_of (record { base = base.now; events = events.now })) transcript.now) }
{
    let end = end_of(base, events);
    if transcript.start < begun_at(base) || transcript.start > end {
        return Ok(Audit::Early(end));
    }
    match first_policy(alloc, transcript.sessions.items())? {
        Some(place) => Ok(Audit::Policy {
            session: place.session,
            reply: place.reply,
        }),
        None => judge_replies(rt, alloc, base, events, transcript, end),
    }
}

/// The answer for a transcript whose start is a position of the history and which has no statement on policies.
/// `end` is the last position of the history.
fn judge_replies<R: Threads + Sync>(
    rt: &R,
    alloc: Global,
    base: &Option<Image>,
    events: &[Event],
    transcript: &Transcript,
    end: u64,
) -> Result<Audit, NoMemory>
    requires sync { IsSync R.row }
    requires allowed { IsTrue (all_allowed (history_of (record { base = base.now; events = events.now }))) }
    requires sound { IsTrue (is_sound transcript.now) }
    requires within { IsWithin (history_of (record { base = base.now; events = events.now })) transcript.now.start }
    requires no_policy { first_policy transcript.now.sessions ≡ None }
    requires end { end ≡ position (history_of (record { base = base.now; events = events.now })) }
    ensures judged { IfOk result
        (Judges (history_of (record { base = base.now; events = events.now })) transcript.now) }
{
    let start = transcript.start;
    let talks = transcript.sessions.items();
    let steps = &mut Steps::new(());
    let known = KnownHistory {
        timeline: Timeline::of(rt, alloc, base, events, start, steps)?,
    };
    let judged = judge_sessions(rt, alloc, &known, start, talks, steps)?;
    forget(known);
    match judged {
        JudgedSessions::Unexplained(place) => Ok(Audit::No {
            session: place.session,
            reply: place.reply,
        }),
        JudgedSessions::Explained(numbers) => match first_lost(numbers, start, end) {
            Some(position) => Ok(Audit::Lost(position)),
            None => Ok(Audit::Yes(reply_count(talks)?)),
        },
    }
}

/// The number of replies.
fn reply_count(talks: &[SessionTranscript]) -> Result<u64, NoMemory>
    ensures count { IfOk result (λ count. count ≡ sum_by (λ talk. length talk.replies) talks.now) }
{
    let mut count: u64 = 0;
    for talk in talks {
        count = count
            .checked_add(talk.replies.len() as u64)
            .ok_or(NoMemory)?;
    }
    Ok(count)
}
