//! Whether every text of a transcript is ASCII.
ghost use Rattle.std.specs.Prelude.{◌≡◌};
ghost use Rattle.std.specs.List.{list_all};
ghost use Rattle.transcript.specs.Ascii.{is_ascii_exchange, is_ascii_talk, is_ascii_text, is_ascii_transcript};

use crate::transcripts::{Exchange, SessionTranscript, Transcript};

/// Whether every name, line and reply is ASCII.
pub fn is_ascii(transcript: &Transcript) -> bool
    ensures { result ≡ is_ascii_transcript transcript.now }
{
    transcript
        .sessions
        .items()
        .iter()
        .all(|talk| is_ascii_session(talk))
}

fn is_ascii_session(talk: &SessionTranscript) -> bool
    ensures { result ≡ is_ascii_talk talk.now }
{
    is_ascii_text(talk.name.items()) && are_ascii(talk.replies.items())
}

fn are_ascii(exchanges: &[Exchange]) -> bool
    ensures { result ≡ list_all is_ascii_exchange exchanges.now }
{
    exchanges.iter().all(|exchange| is_ascii_exchange(exchange))
}

fn is_ascii_exchange(exchange: &Exchange) -> bool
    ensures { result ≡ is_ascii_exchange exchange.now }
{
    is_ascii_text(exchange.line.items()) && is_ascii_text(exchange.reply.items())
}

fn is_ascii_text(bytes: &[u8]) -> bool
    ensures { result ≡ is_ascii_text bytes.now }
{
    bytes.iter().all(|byte| byte.is_ascii())
}
