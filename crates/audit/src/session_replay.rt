//! The replies of a session, judged in parts over a history.
ghost use Rattle.std.specs.Prelude.{◌≡◌, ◌≤◌, false, IfOk, IsTrue, None, OnOk};
ghost use Rattle.std.specs.Thread.{IsSync};
ghost use Rattle.ts_model.specs.Allowed.{all_allowed};
ghost use Rattle.ts_model.specs.History.{History, base_position, position};
ghost use Rattle.transcript.specs.Shape.{is_sound_talk};
ghost use Rattle.audit.specs.SessionReplays.{HearsAll, IsHeard};

use crate::replayed_session::{ReplayedSession, name_of};
use audit_past::Past;
use std::alloc::Global;
use std::thread::Threads;
use transcript::SessionTranscript;
use ts_model::Shown;
use ts_schema::{NoMemory, Steps};

/// The replies of a session, and how many of them are judged.
#[derive(Drop)]
pub(crate) struct SessionReplay<'a, T: Shown>
where
    T::Job: Drop,
{
    /// The lines and replies of the session.
    pub talk: &'a SessionTranscript,
    /// The session after the explained replies. After a reply that isn't explained it may be in any state.
    pub teller: ReplayedSession<T>,
    /// How many of its replies are explained.
    pub heard: usize,
    /// Whether the next one isn't.
    pub stopped: bool,
}

impl<'a, T: Shown + Drop> SessionReplay<'a, T>
where
    T::Job: Drop,
{
    /// A replay before its first reply. The session's first read is at `start` or later.
    pub(crate) fn new(
        alloc: Global,
        start: u64,
        talk: &'a SessionTranscript,
    ) -> Result<SessionReplay<'a, T>, NoMemory>
        requires sound { IsTrue (is_sound_talk talk.now) }
        ensures talk { IfOk result (λ hearing. hearing.talk.now ≡ talk.now) }
        ensures heard { (all : History) → start ≤ position all → IfOk result (IsHeard T.Shown all start) }
    {
        Ok(SessionReplay {
            talk,
            teller: ReplayedSession::new(alloc, name_of(alloc, talk)?, start),
            heard: 0,
            stopped: false,
        })
    }

    /// Judges more replies, until the session has reached a position, if one is given. Returns whether all are
    /// explained.
    pub(crate) fn judge_next<R: Threads + Sync, P: Past<Shot = T>, L>(
        &mut self,
        rt: &R,
        alloc: Global,
        past: &P,
        start: u64,
        until: Option<u64>,
        steps: &mut Steps<L>,
    ) -> Result<bool, NoMemory>
        requires sync { IsSync R.row }
        requires allowed { IsTrue (all_allowed (P.all past.now)) }
        requires known { P.from past.now ≤ start }
        requires based { base_position (P.all past.now) ≤ start }
        requires heard { IsHeard T.Shown (P.all past.now) start self.old }
        ensures heard { OnOk result (IsHeard T.Shown (P.all past.now) start self.new) }
        ensures whole { until ≡ None → IfOk result (HearsAll T.Shown (P.all past.now) start self.new) }
        ensures talk { self.new.talk.now ≡ self.old.talk.now }
    {
        if self.stopped {
            return Ok(false);
        }
        let talk = self.talk;
        for place in self.heard..talk.replies.len() {
            if self.teller.has_reached(until) {
                return Ok(false);
            }
            if !self
                .teller
                .replay_line(rt, alloc, past, talk.replies.get(place), steps)?
            {
                self.stopped = true;
                return Ok(false);
            }
            self.heard = place + 1;
        }
        Ok(true)
    }
}
