//! Transcripts of a parallel run: each line of each session with its reply, as one JSON text. The crate writes it in
//! pieces and reads it back.
//!
//! - `transcripts`: the parts of a transcript.
//! - `shape`, `ascii`: whether its names and lines are valid, and whether its texts are ASCII.
//! - `reading`: a transcript read from its text.
//! - `members`: the parts of a JSON value.
//! - `sending`: sends the text of a transcript to a sink.
//! - `pieces`, `escapes`: the pieces of that text, and its strings.
//! - `send_buffer`: a text written in pages.
//! - `laws`: laws of a transcript, its text, and the lines of an input.
#![tactic(auto)]

mod ascii;
mod escapes;
mod laws;
mod members;
mod pieces;
mod reading;
mod send_buffer;
mod sending;
mod shape;
mod transcripts;

pub use ascii::is_ascii;
pub use laws::{lines_law, text_law};
pub use reading::{ReadTranscript, read_transcript};
pub use sending::send_transcript;
pub use transcripts::{Exchange, SessionTranscript, Transcript};
