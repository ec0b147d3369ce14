//! The texts of refusals.
ghost use Rattle.std.specs.Prelude.{◌≡◌, ◌++◌, decimal, OnErr, OnOk};
ghost use Rattle.result_text.specs.Refusals.{entry_of, finish_text, number_text, position_text, refusal_text, tail_text};

use crate::pieces::Text;
use ts_model::{Refusal, codes};
use ts_schema::NoMemory;

/// The end of a refusal's reply.
#[derive(Clone, Copy, Debug, PartialEq, Eq)]
pub enum Tail {
    /// Nothing.
    Bare,
    /// A place in the line.
    Place,
    /// The read position.
    Position,
    /// The read position, and the event that finished the refresh.
    Finish,
    /// The read position, and a count.
    Count,
    /// The read position, and a number of bytes.
    Bytes,
}

/// The parts of a refusal's text that depend on its number.
#[derive(Clone, Copy)]
struct Entry {
    /// Its word.
    word: &'static [u8],
    /// Its end.
    tail: Tail,
}

/// Appends a refusal as a line: `FAULT`, its number, its word and its tail. This is for callers without
/// sessions; the program calls `put_reply`, which writes the session's name first.
pub fn put_refusal(refusal: &Refusal, out: &mut Vec<u8>) -> Result<(), NoMemory>
    ensures appended { OnOk result (out.new.items ≡ out.old.items ++ refusal_text refusal.now) }
    ensures kept { OnErr result (out.new.items ≡ out.old.items) }
{
    let mut text = Text::behind(out);
    let written = put_refusal_line(&mut text, refusal);
    text.finish(written, out)
}

/// Appends a refusal as a line.
pub(crate) fn put_refusal_line(text: &mut Text, refusal: &Refusal) -> Result<(), NoMemory>
    ensures written { OnOk result (text.new.after ≡ text.old.after ++ refusal_text refusal.now) }
    ensures kept { text.new.before ≡ text.old.before }
{
    text.bytes(b"FAULT ")?;
    put_number(text, refusal.code)?;
    text.bytes(b" ")?;
    let entry = entry_for(refusal.code);
    text.bytes(entry.word)?;
    put_tail(text, entry.tail, refusal)?;
    text.bytes(b"\n")
}

/// Appends the number of a refusal, with two digits.
fn put_number(text: &mut Text, code: u8) -> Result<(), NoMemory>
    ensures written { OnOk result (text.new.after ≡ text.old.after ++ number_text code) }
    ensures kept { text.new.before ≡ text.old.before }
{
    text.bytes(b"E")?;
    text.number(u64::from(code / 10))?;
    text.number(u64::from(code % 10))
}

/// Appends the tail of a refusal.
fn put_tail(text: &mut Text, tail: Tail, refusal: &Refusal) -> Result<(), NoMemory>
    ensures written { OnOk result (text.new.after ≡ text.old.after ++ tail_text tail refusal.now) }
    ensures kept { text.new.before ≡ text.old.before }
{
    match tail {
        Tail::Bare => Ok(()),
        Tail::Place => put_marked(text, b" at ", refusal.mark),
        Tail::Position => put_position(text, refusal.pos),
        Tail::Finish => {
            put_position(text, refusal.pos)?;
            put_finish(text, refusal.mark)
        }
        Tail::Count => {
            put_position(text, refusal.pos)?;
            put_marked(text, b" count ", refusal.mark)
        }
        Tail::Bytes => {
            put_position(text, refusal.pos)?;
            put_marked(text, b" bytes ", refusal.mark)
        }
    }
}

/// Appends a word and a number.
pub(crate) fn put_marked(text: &mut Text, word: &[u8], mark: u64) -> Result<(), NoMemory>
    ensures written { OnOk result (text.new.after ≡ text.old.after ++ (word.now ++ decimal mark)) }
    ensures kept { text.new.before ≡ text.old.before }
{
    text.bytes(word)?;
    text.number(mark)
}

/// Appends the read position.
fn put_position(text: &mut Text, pos: u64) -> Result<(), NoMemory>
    ensures written { OnOk result (text.new.after ≡ text.old.after ++ position_text pos) }
    ensures kept { text.new.before ≡ text.old.before }
{
    put_marked(text, b" @", pos)
}

/// Appends the event that finished a refresh, if it was finished.
fn put_finish(text: &mut Text, finish: u64) -> Result<(), NoMemory>
    ensures written { OnOk result (text.new.after ≡ text.old.after ++ finish_text finish) }
    ensures kept { text.new.before ≡ text.old.before }
{
    match finish {
        0 => Ok(()),
        _ => put_marked(text, b" finished ", finish),
    }
}

/// Returns the entry with this word and tail.
fn entry_named(word: &'static [u8], tail: Tail) -> Entry
    ensures word { result.word.now ≡ word.now }
    ensures tail { result.tail ≡ tail }
{
    Entry { word, tail }
}

/// Returns the entry of a refusal by its number.
fn entry_for(code: u8) -> Entry
    ensures word { result.word.now ≡ (entry_of code).word }
    ensures tail { result.tail ≡ (entry_of code).tail }
{
    match code {
        codes::LINE_LONG => entry_named(b"line_long", Tail::Bare),
        codes::NOT_ASCII => entry_named(b"not_ascii", Tail::Bare),
        codes::NO_SESSION => entry_named(b"no_session", Tail::Bare),
        codes::NO_TOKEN => entry_named(b"no_token", Tail::Place),
        codes::SYNTAX => entry_named(b"syntax", Tail::Place),
        codes::NO_RELATION => entry_named(b"no_relation", Tail::Position),
        codes::NAME_TAKEN => entry_named(b"name_taken", Tail::Position),
        codes::NO_COLUMN => entry_named(b"no_column", Tail::Position),
        codes::BAD_TIME => entry_named(b"bad_time", Tail::Position),
        codes::BAD_NUMBER => entry_named(b"bad_number", Tail::Place),
        codes::VALUE_COUNT => entry_named(b"value_count", Tail::Position),
        codes::NULL_VALUE => entry_named(b"null_value", Tail::Position),
        codes::NOT_HYPERTABLE => entry_named(b"not_hypertable", Tail::Position),
        codes::BAD_WIDTH => entry_named(b"bad_width", Tail::Position),
        codes::NO_BUCKET => entry_named(b"no_bucket", Tail::Position),
        codes::IN_WRITE_BLOCK => entry_named(b"in_write_block", Tail::Bare),
        codes::IN_READ_BLOCK => entry_named(b"in_read_block", Tail::Bare),
        codes::NO_BLOCK => entry_named(b"no_block", Tail::Bare),
        codes::NO_REFRESH => entry_named(b"no_refresh", Tail::Finish),
        codes::NO_SNAPSHOT => entry_named(b"no_snapshot", Tail::Position),
        codes::TOO_MANY => entry_named(b"too_many", Tail::Count),
        codes::NOT_AGGREGATE => entry_named(b"not_aggregate", Tail::Position),
        codes::TOO_MANY_SESSIONS => entry_named(b"too_many_sessions", Tail::Bare),
        codes::STOPPED => entry_named(b"stopped", Tail::Position),
        codes::IMAGE_LONG => entry_named(b"image_long", Tail::Bytes),
        codes::BAD_POLICY => entry_named(b"bad_policy", Tail::Position),
        codes::TOO_MANY_POLICIES => entry_named(b"too_many_policies", Tail::Count),
        codes::BAD_ROLLUP => entry_named(b"bad_rollup", Tail::Position),
        codes::BAD_UNIT => entry_named(b"bad_unit", Tail::Position),
        codes::HISTORY_FULL => entry_named(b"history_full", Tail::Position),
        _ => entry_named(b"unnamed", Tail::Bare),
    }
}
