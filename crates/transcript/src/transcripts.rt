//! The parts of a transcript.
use ts_schema::Seq;

/// An exchange: a line and its reply.
#[derive(Drop, Debug)]
pub struct Exchange {
    /// The line up to its comment, without its line end.
    pub line: Seq<u8>,
    /// The whole text of the reply.
    pub reply: Seq<u8>,
}

/// The exchanges of one session.
#[derive(Drop, Debug)]
pub struct SessionTranscript {
    /// The name of the session.
    pub name: Seq<u8>,
    /// Its lines with their replies, in order.
    pub replies: Seq<Exchange>,
}

/// The exchanges of all sessions of a run.
#[derive(Drop, Debug)]
pub struct Transcript {
    /// The position at which the run began.
    pub start: u64,
    /// The sessions, in order.
    pub sessions: Seq<SessionTranscript>,
}
