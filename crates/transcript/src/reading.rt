//! A transcript read from its text.
ghost use Rattle.std.specs.Prelude.{◌≡◌, IfOk, option_map, option_and_then};
ghost use Rattle.serde_json.specs.Find.{as_array};
ghost use Rattle.serde_json.specs.View.{view};
ghost use Rattle.transcript.specs.Reading.{Reads, Answers, AnswersSound, exchange_in, exchanges_in, talk_in, talks_in, transcript_in};

use crate::members::{items_in, text_in, two_members};
use crate::shape::is_sound;
use crate::transcripts::{Exchange, SessionTranscript, Transcript as Kept};
use serde_json::Value;
use std::alloc::Global;
use ts_schema::{NoMemory, Seq};

/// The result of reading a text.
#[derive(Drop, Debug)]
pub enum ReadTranscript {
    /// The transcript that the text represents.
    Transcript(Kept),
    /// The text isn't JSON, or its value isn't that of a transcript.
    BadText,
    /// Out of memory.
    NoMemory,
}

/// Reads a transcript: a JSON text of an object with the members `sessions` and `start` only, in which every
/// session has the members `name` and `replies`, and every reply `line` and `reply`. The last of equal keys
/// counts. `start` is a number of 64 bits without a point or an exponent.
///
/// A session has a name of 1 to 16 bytes: a letter from `a` to `z`, and then such letters, digits and `_`. No name
/// comes twice. Each of its lines is one in which that session speaks, by the rules for the lines of an input: no
/// line feed, at most 65,536 bytes, and ASCII up to its comment. It may have a comment.
///
/// Besides the text, it takes about 24 bytes of memory for each byte of a text of short replies.
pub fn read_transcript(alloc: Global, text: &[u8]) -> ReadTranscript
    ensures read { Reads text.now result }
{
    match Value::from_slice(alloc, text) {
        Ok(value) => sound_transcript(alloc, value),
        Err(error) if error.is_memory() => ReadTranscript::NoMemory,
        Err(_) => ReadTranscript::BadText,
    }
}

/// The sound transcript that a value represents.
fn sound_transcript(alloc: Global, value: Value) -> ReadTranscript
    ensures answers { Answers (view value) result }
{
    match transcript_in(alloc, value) {
        Ok(Some(transcript)) => if_sound(alloc, transcript),
        Ok(None) => ReadTranscript::BadText,
        Err(NoMemory) => ReadTranscript::NoMemory,
    }
}

/// The transcript, if it is sound.
fn if_sound(alloc: Global, transcript: Kept) -> ReadTranscript
    ensures answers { AnswersSound transcript result }
{
    match is_sound(alloc, &transcript) {
        Ok(true) => ReadTranscript::Transcript(transcript),
        Ok(false) => ReadTranscript::BadText,
        Err(NoMemory) => ReadTranscript::NoMemory,
    }
}

/// The transcript that a value represents.
fn transcript_in(alloc: Global, value: Value) -> Result<Option<Kept>, NoMemory>
    ensures read { IfOk result (λ read. read ≡ transcript_in (view value)) }
{
    let Some((sessions, start)) = two_members(value, "sessions", "start") else {
        return Ok(None);
    };
    let Some(start) = start.as_u64() else {
        return Ok(None);
    };
    let Some(sessions) = sessions_in(alloc, sessions)? else {
        return Ok(None);
    };
    Ok(Some(Kept { start, sessions }))
}

#[tactic(auto, using(crate::proofs::Values::talk_before, crate::proofs::Values::no_talk, crate::proofs::Values::first_talk))]
/// The sessions that an array represents.
fn sessions_in(alloc: Global, value: Value) -> Result<Option<Seq<SessionTranscript>>, NoMemory>
    ensures read { IfOk result (λ read. read ≡ option_and_then talks_in (as_array (view value))) }
{
    let Some(items) = items_in(value) else {
        return Ok(None);
    };
    let mut talks = Seq::new(alloc);
    for item in items {
        let Some(talk) = session_in(alloc, item)? else {
            return Ok(None);
        };
        talks.push(talk)?;
    }
    Ok(Some(talks))
}

/// The session that a value represents.
fn session_in(alloc: Global, value: Value) -> Result<Option<SessionTranscript>, NoMemory>
    ensures read { IfOk result (λ read. read ≡ talk_in (view value)) }
{
    let Some((name, replies)) = two_members(value, "name", "replies") else {
        return Ok(None);
    };
    let Some(name) = text_in(name) else {
        return Ok(None);
    };
    let Some(replies) = exchanges_in(alloc, replies)? else {
        return Ok(None);
    };
    Ok(Some(SessionTranscript {
        name: Seq::of(name),
        replies,
    }))
}

#[tactic(auto, using(crate::proofs::Values::exchange_before, crate::proofs::Values::no_exchange, crate::proofs::Values::first_exchange))]
/// The exchanges that an array represents.
fn exchanges_in(alloc: Global, value: Value) -> Result<Option<Seq<Exchange>>, NoMemory>
    ensures read { IfOk result
        (λ read. read ≡ option_and_then exchanges_in (as_array (view value))) }
{
    let Some(items) = items_in(value) else {
        return Ok(None);
    };
    let mut exchanges = Seq::new(alloc);
    for item in items {
        let Some(exchange) = exchange_in(item) else {
            return Ok(None);
        };
        exchanges.push(exchange)?;
    }
    Ok(Some(exchanges))
}

/// The exchange that a value represents.
fn exchange_in(value: Value) -> Option<Exchange>
    ensures read { result ≡ exchange_in (view value) }
{
    let (line, reply) = two_members(value, "line", "reply")?;
    let line = text_in(line)?;
    let reply = text_in(reply)?;
    Some(Exchange {
        line: Seq::of(line),
        reply: Seq::of(reply),
    })
}
