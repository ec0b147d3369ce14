//! The lines of a transcript, as sessions execute them.
ghost use Rattle.std.specs.Prelude.{◌≡◌, ◌≤◌, All, length, IfOk, IsTrue};
ghost use Rattle.stmt_syntax.specs.Limits.{longest_line};
ghost use Rattle.transcript.specs.Shape.{is_sound_talk};
ghost use Rattle.audit.specs.Lines.{asks_policies, first_policy, line_of as line_said, policy_among};
ghost use Rattle.audit.specs.Short.{AreShort, AreShortTalks};

use policy_jobs::{PolicyRead, read_policy};
use std::alloc::Global;
use stmt_tokens::{LineKind, split_line};
use transcript::{Exchange, SessionTranscript};
use ts_schema::NoMemory;

/// The part of a line that a session executes.
#[derive(Clone, Copy)]
pub(crate) struct Line<'a> {
    /// The bytes before the comment.
    pub text: &'a [u8],
    /// How many bytes precede the statement.
    pub skip: u32,
}

/// The place of a line in a transcript.
#[derive(Clone, Copy, Debug, PartialEq, Eq)]
pub struct Place {
    /// The index of its session, from 0.
    pub session: u64,
    /// Its index among the lines of the session, from 0.
    pub reply: u64,
}

/// The part of an exchange's line that its session executes.
#[tactic(auto, using(stmt_tokens::proofs::StatementLines::statement_line))]
pub(crate) fn line_of(exchange: &Exchange) -> Line<'_>
    requires short { length exchange.now.line ≤ longest_line }
    ensures line { record { text = result.text.now; skip = result.skip } ≡ line_said exchange.now }
    ensures short { length result.text.now ≤ longest_line }
    ensures within { result.skip ≤ length result.text.now }
{
    let line = exchange.line.items();
    match split_line(line) {
        LineKind::Blank => Line { text: &[], skip: 0 },
        LineKind::NotAscii => Line { text: &[], skip: 0 },
        LineKind::NoSession => Line { text: &[], skip: 0 },
        LineKind::Stmt { skip, end, .. } => Line {
            text: &line[..end as usize],
            skip,
        },
    }
}

/// Whether the line of an exchange begins as a statement on policies.
fn asks_policies(alloc: Global, exchange: &Exchange) -> Result<bool, NoMemory>
    requires short { length exchange.now.line ≤ longest_line }
    ensures asks { IfOk result (λ asks. asks ≡ asks_policies (line_said exchange.now)) }
{
    let line = line_of(exchange);
    match read_policy(alloc, line.text, line.skip) {
        PolicyRead::Stmt(_) => Ok(true),
        PolicyRead::Fault(_) => Ok(true),
        PolicyRead::Other => Ok(false),
        PolicyRead::NoMemory => Err(NoMemory),
    }
}

/// The index of the first line of a session that begins as a statement on policies.
fn policy_among(alloc: Global, exchanges: &[Exchange]) -> Result<Option<u64>, NoMemory>
    requires short { AreShort exchanges.now }
    ensures first { IfOk result (λ first. first ≡ policy_among exchanges.now) }
{
    for (place, exchange) in exchanges.iter().enumerate() {
        if asks_policies(alloc, exchange)? {
            return Ok(Some(place as u64));
        }
    }
    Ok(None)
}

/// The first line of all sessions that begins as a statement on policies.
pub(crate) fn first_policy(
    alloc: Global,
    talks: &[SessionTranscript],
) -> Result<Option<Place>, NoMemory>
    requires short { AreShortTalks talks.now }
    ensures first { IfOk result (λ first. first ≡ first_policy talks.now) }
{
    for (session, talk) in talks.iter().enumerate() {
        if let Some(reply) = policy_among(alloc, talk.replies.items())? {
            return Ok(Some(Place {
                session: session as u64,
                reply,
            }));
        }
    }
    Ok(None)
}
