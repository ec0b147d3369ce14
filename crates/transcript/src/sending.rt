//! Sends the text of a transcript to a sink piece by piece. It needs no memory, so it can't run out of memory once a
//! byte is written.
ghost use Rattle.std.specs.Prelude.{◌≡◌, ◌++◌, codes, false, is_err, OnErr, OnOk};
ghost use Rattle.std.specs.Io.KnownBytes.{Appends};
ghost use Rattle.serde_json.specs.Written.{comma_if, compact_text, items_text};
ghost use Rattle.ts_io.specs.Faults.{Counted};
ghost use Rattle.ts_io.specs.Whole.{AppendsPart};
ghost use Rattle.transcript.specs.Pieces.{start_text, talk_head};
ghost use Rattle.transcript.specs.Sending.{Sends};
ghost use Rattle.transcript.specs.Text.{exchange_data, exchanges_data, talk_data, talks_data, transcript_text};

use crate::pieces::{Piece, comma, send_pieces};
use crate::send_buffer::{Page, flush, send};
use crate::transcripts::{Exchange, SessionTranscript, Transcript};
use itoa::Buffer;
use ts_io::{Sink, WriteFault};

/// Writes the text of a transcript: the compact JSON text of its value and a line feed. After a fault, a prefix of
/// the text was written.
pub fn send_transcript<K: Sink>(transcript: &Transcript, sink: &mut K) -> Result<(), WriteFault>
    ensures all { OnOk result
        (Appends (K.written sink.old) (K.written sink.new) (transcript_text transcript.now)) }
    ensures part { OnErr result
        (AppendsPart (K.written sink.old) (K.written sink.new) (transcript_text transcript.now)) }
    ensures counted { Counted (K.faults sink.old) (K.faults sink.new) (is_err result) }
{
    let mut page = Page::new();
    match send_whole(transcript, &mut page, sink) {
        Ok(()) => flush(&mut page, sink),
        Err(fault) => Err(fault),
    }
}

/// Sends the text of a transcript.
fn send_whole<K: Sink>(
    transcript: &Transcript,
    page: &mut Page,
    sink: &mut K,
) -> Result<(), WriteFault>
    ensures sent { Sends result (K.written sink.old) (K.written sink.new) page.old.items page.new.items
        (transcript_text transcript.now) }
    ensures counted { Counted (K.faults sink.old) (K.faults sink.new) (is_err result) }
{
    match send(b"{\"sessions\":[", page, sink) {
        Ok(()) => send_after_head(transcript, page, sink),
        Err(fault) => Err(fault),
    }
}

/// Sends the text of a transcript after its first bracket.
fn send_after_head<K: Sink>(
    transcript: &Transcript,
    page: &mut Page,
    sink: &mut K,
) -> Result<(), WriteFault>
    ensures sent { Sends result (K.written sink.old) (K.written sink.new) page.old.items page.new.items
        (items_text false (talks_data transcript.now.sessions) ++ start_text transcript.now.start) }
    ensures counted { Counted (K.faults sink.old) (K.faults sink.new) (is_err result) }
{
    match send_sessions(transcript.sessions.items(), page, sink) {
        Ok(()) => send_start(transcript.start, page, sink),
        Err(fault) => Err(fault),
    }
}

/// Sends the last member of a transcript, and the end of the text.
fn send_start<K: Sink>(start: u64, page: &mut Page, sink: &mut K) -> Result<(), WriteFault>
    ensures sent { Sends result (K.written sink.old) (K.written sink.new) page.old.items page.new.items
        (start_text start) }
    ensures counted { Counted (K.faults sink.old) (K.faults sink.new) (is_err result) }
{
    let mut digits = Buffer::new();
    let number = digits.format(start).as_bytes();
    let pieces = [
        Piece::Plain(b",\"start\":"),
        Piece::Plain(number),
        Piece::Plain(b"}\n"),
    ];
    send_pieces(&pieces, page, sink)
}

/// Sends the sessions with commas between them, and the closing bracket.
fn send_sessions<K: Sink>(
    talks: &[SessionTranscript],
    page: &mut Page,
    sink: &mut K,
) -> Result<(), WriteFault>
    ensures sent { Sends result (K.written sink.old) (K.written sink.new) page.old.items page.new.items
        (items_text false (talks_data talks.now)) }
    ensures counted { Counted (K.faults sink.old) (K.faults sink.new) (is_err result) }
{
    let mut later = false;
    let mut left = talks;
    while let Some((talk, rest)) = left.split_first() {
        match send_session(later, talk, page, sink) {
            Ok(()) => {}
            Err(fault) => return Err(fault),
        }
        later = true;
        left = rest;
    }
    send(b"]", page, sink)
}

/// Sends a session, with a comma before it if another comes before.
fn send_session<K: Sink>(
    later: bool,
    talk: &SessionTranscript,
    page: &mut Page,
    sink: &mut K,
) -> Result<(), WriteFault>
    ensures sent { Sends result (K.written sink.old) (K.written sink.new) page.old.items page.new.items
        (comma_if later ++ compact_text (talk_data talk.now)) }
    ensures counted { Counted (K.faults sink.old) (K.faults sink.new) (is_err result) }
{
    match send_session_head(later, talk.name.items(), page, sink) {
        Ok(()) => send_session_rest(talk.replies.items(), page, sink),
        Err(fault) => Err(fault),
    }
}

/// Sends a session up to its first exchange.
fn send_session_head<K: Sink>(
    later: bool,
    name: &[u8],
    page: &mut Page,
    sink: &mut K,
) -> Result<(), WriteFault>
    ensures sent { Sends result (K.written sink.old) (K.written sink.new) page.old.items page.new.items
        (talk_head later name.now) }
    ensures counted { Counted (K.faults sink.old) (K.faults sink.new) (is_err result) }
{
    let pieces = [
        Piece::Plain(comma(later)),
        Piece::Plain(b"{\"name\":\""),
        Piece::Escaped(name),
        Piece::Plain(b"\",\"replies\":["),
    ];
    send_pieces(&pieces, page, sink)
}

/// Sends the exchanges of a session, and its end.
fn send_session_rest<K: Sink>(
    exchanges: &[Exchange],
    page: &mut Page,
    sink: &mut K,
) -> Result<(), WriteFault>
    ensures sent { Sends result (K.written sink.old) (K.written sink.new) page.old.items page.new.items
        (items_text false (exchanges_data exchanges.now) ++ codes "}") }
    ensures counted { Counted (K.faults sink.old) (K.faults sink.new) (is_err result) }
{
    match send_exchanges(exchanges, page, sink) {
        Ok(()) => send(b"}", page, sink),
        Err(fault) => Err(fault),
    }
}

/// Sends the exchanges with commas between them, and the closing bracket.
fn send_exchanges<K: Sink>(
    exchanges: &[Exchange],
    page: &mut Page,
    sink: &mut K,
) -> Result<(), WriteFault>
    ensures sent { Sends result (K.written sink.old) (K.written sink.new) page.old.items page.new.items
        (items_text false (exchanges_data exchanges.now)) }
    ensures counted { Counted (K.faults sink.old) (K.faults sink.new) (is_err result) }
{
    let mut later = false;
    let mut left = exchanges;
    while let Some((exchange, rest)) = left.split_first() {
        match send_exchange(later, exchange, page, sink) {
            Ok(()) => {}
            Err(fault) => return Err(fault),
        }
        later = true;
        left = rest;
    }
    send(b"]", page, sink)
}

/// Sends an exchange, with a comma before it if another comes before.
fn send_exchange<K: Sink>(
    later: bool,
    exchange: &Exchange,
    page: &mut Page,
    sink: &mut K,
) -> Result<(), WriteFault>
    ensures sent { Sends result (K.written sink.old) (K.written sink.new) page.old.items page.new.items
        (comma_if later ++ compact_text (exchange_data exchange.now)) }
    ensures counted { Counted (K.faults sink.old) (K.faults sink.new) (is_err result) }
{
    let pieces = [
        Piece::Plain(comma(later)),
        Piece::Plain(b"{\"line\":\""),
        Piece::Escaped(exchange.line.items()),
        Piece::Plain(b"\",\"reply\":\""),
        Piece::Escaped(exchange.reply.items()),
        Piece::Plain(b"\"}"),
    ];
    send_pieces(&pieces, page, sink)
}
