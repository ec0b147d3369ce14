//! A session whose replies are judged in order over a history.
ghost use Rattle.std.specs.Prelude.{◌≡◌, ◌≤◌, ℕ, [], false, length, IfOk, IsTrue, None};
ghost use Rattle.std.specs.Thread.{IsSync};
ghost use Rattle.ts_model.specs.Allowed.{all_allowed};
ghost use Rattle.ts_model.specs.History.{History, base_position, position};
ghost use Rattle.stmt_syntax.specs.Limits.{longest_line};
ghost use Rattle.transcript.specs.Shape.{is_sound_talk};
ghost use Rattle.ts_sessions.specs.Held.{HoldsOf, places_in};
ghost use Rattle.ts_sessions.specs.Places.{no_places};
ghost use Rattle.audit_past.specs.ReplaySteps.{state_of};
ghost use Rattle.audit.specs.ReplayedSessions.{GoesBehind, IsAt, RetellsTo};

use crate::lines::line_of;
use audit_looks::looks_of_reply;
use audit_past::{Past, ReplayPoint, ReplayedLine, replay};
use std::alloc::Global;
use std::thread::Threads;
use transcript::{Exchange, SessionTranscript};
use ts_model::Shown;
use ts_schema::{Name, NoMemory, Steps};
use ts_sessions::Session;

/// The greatest number of bytes that the texts of a write block's queue have.
const MOST_QUEUED: u64 = 67_108_864;

/// A session whose replies are being judged, after the replies so far.
#[derive(Drop)]
pub(crate) struct ReplayedSession<T: Shown>
where
    T::Job: Drop,
{
    /// The session.
    pub session: Session<T>,
    /// The position of its last printed read or event.
    pub at: u64,
    /// The numbers of the events that its replies name.
    pub named: Vec<u64>,
}

/// The name of a session.
pub(crate) fn name_of(alloc: Global, talk: &SessionTranscript) -> Result<Name, NoMemory>
    requires sound { IsTrue (is_sound_talk talk.now) }
    ensures name { IfOk result (λ name. name ≡ talk.now.name) }
{
    match Name::read(alloc, talk.name.items())? {
        Some(name) => Ok(name),
        None => unreachable!(),
    }
}

impl<T: Shown + Drop> ReplayedSession<T>
where
    T::Job: Drop,
{
    /// A session before its first line.
    pub(crate) fn new(alloc: Global, name: Name, start: u64) -> ReplayedSession<T>
        ensures name { result.session.name ≡ name }
        ensures places { places_in result.session ≡ no_places }
        ensures at { result.at ≡ start }
        ensures none { result.named.items ≡ [] }
        ensures holds { (all : History) → HoldsOf T.Shown result.session (state_of all) }
    {
        ReplayedSession {
            session: Session::new(alloc, name, 0),
            at: start,
            named: Vec::new(alloc),
        }
    }

    /// Whether it has reached a position, if one is given.
    #[inline]
    pub(crate) fn has_reached(&self, position: Option<u64>) -> bool
        ensures { position ≡ None → result ≡ false }
    {
        match position {
            None => false,
            Some(position) => position <= self.at,
        }
    }

    /// Judges one more reply. If it isn't explained, any session state may be left.
    pub(crate) fn replay_line<R: Threads + Sync, P: Past<Shot = T>, L>(
        &mut self,
        rt: &R,
        alloc: Global,
        past: &P,
        exchange: &Exchange,
        steps: &mut Steps<L>,
    ) -> Result<bool, NoMemory>
        requires sync { IsSync R.row }
        requires short { length exchange.now.line ≤ longest_line }
        requires allowed { IsTrue (all_allowed (P.all past.now)) }
        requires known { P.from past.now ≤ self.old.at }
        requires based { base_position (P.all past.now) ≤ self.old.at }
        requires within { self.old.at ≤ position (P.all past.now) }
        requires holds { HoldsOf T.Shown self.old.session (state_of (P.all past.now)) }
        ensures retold { IfOk result (λ told. RetellsTo (P.all past.now) exchange.now self.old told self.new) }
        ensures at { (start : ℕ) → IsAt T.Shown (P.all past.now) start self.old.session.name self.old
            → IfOk result (λ told. IsTrue told → IsAt T.Shown (P.all past.now) start self.old.session.name self.new) }
    {
        let line = line_of(exchange);
        let bytes = line.text.len() as u64;
        if self.session.queued() > MOST_QUEUED - bytes {
            return Err(NoMemory);
        }
        let reply = exchange.reply.items();
        let looks = looks_of_reply(alloc, self.session.name.bytes(), reply)?;
        let told = replay(
            rt,
            alloc,
            &mut self.session,
            past,
            ReplayPoint {
                at: self.at,
                looks: looks.as_slice(),
            },
            line.text,
            line.skip,
            steps,
        )?;
        match told {
            Some(told) => self.follow(told, reply),
            None => Ok(false),
        }
    }

    /// Continues after a line with this outcome, if its text is the reply. Returns whether it is.
    fn follow(&mut self, told: ReplayedLine, reply: &[u8]) -> Result<bool, NoMemory>
        ensures behind { IfOk result (λ same. GoesBehind told reply.now self.old same self.new) }
        ensures session { self.new.session ≡ self.old.session }
    {
        if told.reply.text.items() != reply {
            return Ok(false);
        }
        self.named.extend_from_slice(told.reply.events.items())?;
        self.at = told.last;
        Ok(true)
    }
}
