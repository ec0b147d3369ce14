//! Replays a line of a session over a history: its reply, and how it changes its session.
ghost use Rattle.std.specs.Prelude.{◌≡◌, ◌+◌, ◌<◌, ◌≤◌, ◌^◌, length, None, IsTrue, OnErr};
ghost use Rattle.std.specs.Thread.{IsSync};
ghost use Rattle.ts_model.specs.Allowed.{all_allowed};
ghost use Rattle.ts_model.specs.History.{position as position_of};
ghost use Rattle.stmt_syntax.specs.Limits.{longest_line};
ghost use Rattle.ts_sessions.specs.Held.{Carries, HoldsOf, most_queued, places_in, waiting_bytes};
ghost use Rattle.ts_sessions.specs.Replies.{reply_to};
ghost use Rattle.ts_sessions.specs.Sessions.{ChangeFits, HoldsAfter};
ghost use Rattle.audit_past.specs.ReplaySteps.{LineTells, ReachesTo, RepliesTo, state_of};

use crate::deed_replays::StatementOutcome;
use crate::history_view::{Past, ReplayPoint};
use crate::statements::{refuse_at, replay_statement};
use std::alloc::Global;
use std::thread::Threads;
use stmt_reader::{ReadStmt, read_stmt};
use ts_model::{Shown, codes};
use ts_schema::{NoMemory, Steps};
use ts_sessions::{Reply, Session, kind_of, text_refusal, write_reply};

/// The outcome of a replayed line.
#[derive(Drop, Debug, PartialEq, Eq)]
pub struct ReplayedLine {
    /// Its reply.
    pub reply: Reply,
    /// The position of its last printed read or event.
    pub last: u64,
}

/// Replays a line over a history, and changes the session as the line says. `point` holds the session's last read
/// position or event, and the read positions that the reply prints. A read that prints none is at the end of the
/// history. `text` is the line before its comment. Its statement begins after the first `skip` bytes. `None`: the
/// history doesn't explain the line. Its event isn't the history's next one, or a read has no position.
///
/// After `None` and `NoMemory` no clause says which session state is left. What it holds still fits the history,
/// and its name and its number are unchanged.
pub fn replay<T: Shown + Drop, R: Threads + Sync, P: Past<Shot = T>, L>(
    rt: &R,
    alloc: Global,
    session: &mut Session<T>,
    past: &P,
    point: ReplayPoint<'_>,
    text: &[u8],
    skip: u32,
    steps: &mut Steps<L>,
) -> Result<Option<ReplayedLine>, NoMemory>
where
    T::Job: Drop,
    requires sync { IsSync R.row }
    requires short { length text.now ≤ longest_line }
    requires within { skip ≤ length text.now }
    requires room { waiting_bytes session.old + length text.now ≤ most_queued }
    requires allowed { IsTrue (all_allowed (P.all past.now)) }
    requires known { P.from past.now ≤ point.at }
    requires reached { point.at ≤ position_of (P.all past.now) }
    requires holds { HoldsOf T.Shown session.old (state_of (P.all past.now)) }
    ensures told { LineTells (P.all past.now) point.entry.at (reply_to (places_in session.old) text.now skip)
        point.entry.looks.now session.old.name (places_in session.new) result }
    ensures name { session.new.name ≡ session.old.name }
    ensures number { session.new.number ≡ session.old.number }
    ensures holds { HoldsOf T.Shown session.new (state_of (P.all past.now)) }
    ensures queued { waiting_bytes session.new ≤ waiting_bytes session.old + length text.now }
{
    let _so_far = steps.count();
    match replay_line(rt, alloc, session, past, point, text, skip, steps)? {
        None => Ok(None),
        Some(reached) => {
            let line = replay_reply(alloc, session, reached)?;
            Ok(Some(line))
        }
    }
}

/// Writes the reply to a line, and changes the session. If it runs out of memory, the session stays as it is.
fn replay_reply<T: Shown + Drop>(
    alloc: Global,
    session: &mut Session<T>,
    reached: StatementOutcome<T>,
) -> Result<ReplayedLine, NoMemory>
where
    T::Job: Drop,
    requires { ChangeFits reached.completion.change (places_in session.old).block }
    ensures replies { RepliesTo session.old.name reached (places_in session.old) (places_in session.new) result }
    ensures kept { OnErr result (Carries session.old session.new) }
    ensures name { session.new.name ≡ session.old.name }
    ensures number { session.new.number ≡ session.old.number }
    ensures holds { HoldsAfter T.Shown reached.completion.change session.old session.new }
{
    let StatementOutcome { completion, last } = reached;
    let reply = write_reply(alloc, &session.name, completion.said.items())?;
    session.settle(completion.change)?;
    Ok(ReplayedLine { reply, last })
}

/// Replays the statement of a line, if the session's block allows it.
fn replay_line<T: Shown + Drop, R: Threads + Sync, P: Past<Shot = T>, L>(
    rt: &R,
    alloc: Global,
    session: &Session<T>,
    past: &P,
    point: ReplayPoint<'_>,
    text: &[u8],
    skip: u32,
    steps: &mut Steps<L>,
) -> Result<Option<StatementOutcome<T>>, NoMemory>
where
    T::Job: Drop,
    requires sync { IsSync R.row }
    requires counts { steps.old < 2 ^ 64 }
    requires short { length text.now ≤ longest_line }
    requires within { skip ≤ length text.now }
    requires allowed { IsTrue (all_allowed (P.all past.now)) }
    requires known { P.from past.now ≤ point.at }
    requires reached { point.at ≤ position_of (P.all past.now) }
    requires holds { HoldsOf T.Shown session.now (state_of (P.all past.now)) }
    ensures { ReachesTo T.Shown (length text.now) (P.all past.now) point.entry.at
        (reply_to (places_in session.now) text.now skip) point.entry.looks.now (places_in session.now) result }
{
    match read_stmt(alloc, text, skip) {
        ReadStmt::Stmt(stmt) => match session.block.barrier(kind_of(&stmt)) {
            Some(refusal) => refuse_at(alloc, refusal, point.at),
            None => {
                let bytes = text.len() as u64;
                replay_statement(rt, alloc, session, past, point, &stmt, bytes, steps)
            }
        },
        ReadStmt::NoToken(place) => refuse_at(
            alloc,
            text_refusal(codes::NO_TOKEN, place),
            point.at,
        ),
        ReadStmt::Syntax(place) => refuse_at(alloc, text_refusal(codes::SYNTAX, place), point.at),
        ReadStmt::BadNumber(place) => refuse_at(
            alloc,
            text_refusal(codes::BAD_NUMBER, place),
            point.at,
        ),
        ReadStmt::NoMemory => Err(NoMemory),
    }
}
