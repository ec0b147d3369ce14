//! Whether a transcript's names and lines are valid.
ghost use Rattle.std.specs.Prelude.{◌≡◌, ◌≤◌, IfOk, length, map, suc};
ghost use Rattle.std.specs.List.{list_all};
ghost use Rattle.stmt_syntax.specs.Limits.{longest_line};
ghost use Rattle.stmt_tokens.specs.Lines.{begins_session, continues_session, line_kind, session_name};
ghost use Rattle.transcript.specs.Shape.{is_session_name, is_one_line, speaks_in, is_line_of, is_sound_talk, are_apart, is_sound};

use crate::transcripts::{Exchange, SessionTranscript, Transcript};
use std::alloc::Global;
use std::collections::BTreeSet;
use stmt_tokens::{LineKind, split_line};
use ts_io::LINE_LIMIT;
use ts_schema::NoMemory;

/// Whether every session has its own valid name and only lines of that session.
pub(crate) fn is_sound(alloc: Global, transcript: &Transcript) -> Result<bool, NoMemory>
    ensures sound { IfOk result (λ sound. sound ≡ is_sound transcript.now) }
{
    let talks = transcript.sessions.items();
    if !are_sound(talks) {
        return Ok(false);
    }
    are_apart(alloc, talks)
}

fn are_sound(talks: &[SessionTranscript]) -> bool
    ensures { result ≡ list_all is_sound_talk talks.now }
{
    talks.iter().all(|talk| is_sound_session(talk))
}

/// Whether no name comes twice.
fn are_apart(alloc: Global, talks: &[SessionTranscript]) -> Result<bool, NoMemory>
    ensures apart { IfOk result (λ apart. apart ≡ are_apart (map (λ s. s.name) talks.now)) }
{
    let mut later = BTreeSet::new(alloc);
    let mut left = talks;
    while let Some((talk, rest)) = left.split_last() {
        if !later.insert(talk.name.items())? {
            return Ok(false);
        }
        left = rest;
    }
    Ok(true)
}

fn is_sound_session(talk: &SessionTranscript) -> bool
    ensures { result ≡ is_sound_talk talk.now }
{
    is_session_name(talk.name.items()) && are_lines_of(talk.name.items(), talk.replies.items())
}

fn are_lines_of(name: &[u8], exchanges: &[Exchange]) -> bool
    ensures { result ≡ list_all (λ e. is_line_of name.now e.line) exchanges.now }
{
    exchanges
        .iter()
        .all(|exchange| is_line_of(name, exchange.line.items()))
}

/// Whether the text is a letter, then letters, digits and `_`, 1 to 16 bytes in all.
fn is_session_name(name: &[u8]) -> bool
    ensures { result ≡ is_session_name name.now }
{
    match name {
        [] => false,
        [head, tail @ ..] => begins_session(*head) && go_on(tail) && tail.len() <= 15,
    }
}

fn go_on(bytes: &[u8]) -> bool
    ensures { result ≡ list_all continues_session bytes.now }
{
    bytes.iter().all(|byte| continues_session(*byte))
}

fn begins_session(byte: u8) -> bool
    ensures { result ≡ begins_session byte }
{
    byte.is_ascii_lowercase()
}

fn continues_session(byte: u8) -> bool
    ensures { result ≡ continues_session byte }
{
    matches!(byte, b'a'..=b'z' | b'0'..=b'9' | b'_')
}

/// Whether the text is one line in which the session `name` speaks, by the rules for the lines of an input.
fn is_line_of(name: &[u8], line: &[u8]) -> bool
    ensures { result ≡ is_line_of name.now line.now }
{
    line.len() <= LINE_LIMIT && is_one_line(line) && speaks_in(name, line)
}

fn is_one_line(text: &[u8]) -> bool
    ensures { result ≡ is_one_line text.now }
{
    text.iter().all(|byte| *byte != b'\n')
}

/// Whether the session `name` speaks in the line.
fn speaks_in(name: &[u8], line: &[u8]) -> bool
    requires short { length line.now ≤ longest_line }
    ensures { result ≡ speaks_in name.now line.now (line_kind line.now) }
{
    match split_line(line) {
        LineKind::Blank => false,
        LineKind::NotAscii => false,
        LineKind::NoSession => false,
        LineKind::Stmt { name_len, skip, .. } => session_name(line, name_len, skip) == name,
    }
}

/// The name of the session that speaks in a line. It comes before the colon, which is the last of the bytes to
/// skip.
fn session_name(line: &[u8], name_len: u32, skip: u32) -> &[u8]
    requires colon { suc name_len ≤ skip }
    requires within { skip ≤ length line.now }
    ensures name { result.now ≡ session_name line.now name_len skip }
{
    let colon = skip as usize - 1;
    &line[colon - name_len as usize..colon]
}
