//! The texts of replies.
ghost use Rattle.std.specs.Prelude.{◌≡◌, ◌++◌, codes, decimal, OnErr, OnOk};
ghost use Rattle.result_text.specs.Replies.{line_fault_text, refresh_head, reply_text, said_text};
ghost use Rattle.result_text.specs.Spans.{span_end};

use crate::answers::put_answer_lines;
use crate::pieces::Text;
use crate::refusals::{put_marked, put_refusal_line};
use crate::spans::put_span_end;
use ts_bucket::Span;
use ts_model::{Answer, Committed, Refusal};
use ts_schema::{Name, NoMemory};

/// The contents of a line of a reply. Positions are those of a history, and numbers those of events. `cut` is
/// the number of a refresh, and `pos` the number of the event that finished it. `snap` is the position of its
/// snapshot, and `span` the half-open range of its buckets. `min` is the start of the first bucket of the
/// aggregate, or of its roll-up: a range that begins there is printed with `min`.
#[derive(Drop, Debug)]
pub enum Said {
    /// A table was created, by the event with this number.
    Table(u64),
    /// A table became a hypertable.
    Hypertable(u64),
    /// An aggregate was created.
    View(u64),
    /// An aggregate was set to a mode.
    Mode(u64),
    /// Operations took effect.
    Commit(Committed),
    /// An operation was queued until its block ends.
    Queued,
    /// A refresh was cut, computed and finished.
    Refresh {
        cut: u64,
        pos: u64,
        snap: u64,
        span: Span,
        min: i64,
    },
    /// There was nothing to refresh at this position.
    Nothing(u64),
    /// A refresh was cut.
    Cut {
        cut: u64,
        span: Span,
        min: i64,
    },
    /// A snapshot was taken for a refresh.
    Snap {
        cut: u64,
        snap: u64,
    },
    /// A refresh was finished.
    Finish {
        cut: u64,
        pos: u64,
        snap: u64,
    },
    /// A write block begins.
    Begin,
    /// A read block begins at this position.
    BeginRead(u64),
    /// A write block without operations ends.
    CommitEmpty,
    /// A write block is rolled back.
    Rollback,
    /// A read block ends.
    End,
    /// A query was answered at a position. `queue` is the number of queued operations, if in a write block.
    Answered {
        answer: Answer,
        pos: u64,
        queue: Option<u64>,
        min: i64,
    },
    /// A policy was added, with this number in its session, counted from 1, at this position.
    Policy {
        number: u64,
        pos: u64,
    },
    /// A tick at this time, at which `due` policies are due.
    Tick {
        time: i64,
        due: u64,
    },
    /// The statement is refused.
    Fault(Refusal),
}

/// Appends a line of a reply, after the name of its session.
pub fn put_reply(session: &Name, said: &Said, out: &mut Vec<u8>) -> Result<(), NoMemory>
    ensures appended { OnOk result (out.new.items ≡ out.old.items ++ reply_text session.now said.now) }
    ensures kept { OnErr result (out.new.items ≡ out.old.items) }
{
    let mut text = Text::behind(out);
    let written = put_reply_line(&mut text, session, said);
    text.finish(written, out)
}

/// Appends a reply of a session as lines.
fn put_reply_line(text: &mut Text, session: &Name, said: &Said) -> Result<(), NoMemory>
    ensures written { OnOk result (text.new.after ≡ text.old.after ++ reply_text session.now said.now) }
    ensures kept { text.new.before ≡ text.old.before }
{
    text.bytes(session.bytes())?;
    text.bytes(b": ")?;
    put_said(text, said)
}

/// Appends the refusal of a line that has no session, by the line's number.
pub fn put_line_fault(line: u64, refusal: &Refusal, out: &mut Vec<u8>) -> Result<(), NoMemory>
    ensures appended { OnOk result (out.new.items ≡ out.old.items ++ line_fault_text line refusal.now) }
    ensures kept { OnErr result (out.new.items ≡ out.old.items) }
{
    let mut text = Text::behind(out);
    let written = put_fault_line(&mut text, line, refusal);
    text.finish(written, out)
}

/// Appends the refusal of a line, by its number.
fn put_fault_line(text: &mut Text, line: u64, refusal: &Refusal) -> Result<(), NoMemory>
    ensures written { OnOk result (text.new.after ≡ text.old.after ++ line_fault_text line refusal.now) }
    ensures kept { text.new.before ≡ text.old.before }
{
    text.bytes(b"line ")?;
    text.number(line)?;
    text.bytes(b": ")?;
    put_refusal_line(text, refusal)
}

/// Appends the contents of a reply.
fn put_said(text: &mut Text, said: &Said) -> Result<(), NoMemory>
    ensures written { OnOk result (text.new.after ≡ text.old.after ++ said_text said.now) }
    ensures kept { text.new.before ≡ text.old.before }
{
    match said {
        Said::Table(pos) => put_at(text, b"TABLE @", *pos),
        Said::Hypertable(pos) => put_at(text, b"HYPERTABLE @", *pos),
        Said::View(pos) => put_at(text, b"VIEW @", *pos),
        Said::Mode(pos) => put_at(text, b"MODE @", *pos),
        Said::Commit(done) => put_commit(text, *done),
        Said::Queued => text.bytes(b"QUEUED\n"),
        Said::Refresh {
            cut,
            pos,
            snap,
            span,
            min,
        } => { put_refresh(text, *cut, *pos, *snap, *min, *span) }
        Said::Nothing(pos) => put_at(text, b"NOTHING @", *pos),
        Said::Cut { cut, span, min } => put_cut(text, *cut, *min, *span),
        Said::Snap { cut, snap } => put_snap(text, *cut, *snap),
        Said::Finish { cut, pos, snap } => put_finish(text, *cut, *pos, *snap),
        Said::Begin => text.bytes(b"BEGIN\n"),
        Said::BeginRead(pos) => put_at(text, b"BEGIN @", *pos),
        Said::CommitEmpty => text.bytes(b"COMMIT EMPTY\n"),
        Said::Rollback => text.bytes(b"ROLLBACK\n"),
        Said::End => text.bytes(b"END\n"),
        Said::Answered {
            answer,
            pos,
            queue,
            min,
        } => put_answer_lines(text, answer, *pos, *queue, *min),
        Said::Policy { number, pos } => put_policy(text, *number, *pos),
        Said::Tick { time, due } => put_tick(text, *time, *due),
        Said::Fault(refusal) => put_refusal_line(text, refusal),
    }
}

/// Appends words and a position that end a line.
fn put_at(text: &mut Text, words: &[u8], pos: u64) -> Result<(), NoMemory>
    ensures written { OnOk result (text.new.after ≡ text.old.after ++ (words.now ++ decimal pos ++ codes "\n")) }
    ensures kept { text.new.before ≡ text.old.before }
{
    text.bytes(words)?;
    text.number(pos)?;
    text.bytes(b"\n")
}

/// Appends what a commit did.
fn put_commit(text: &mut Text, done: Committed) -> Result<(), NoMemory>
    ensures written { OnOk result (text.new.after ≡ text.old.after ++ said_text (Said.Commit done)) }
    ensures kept { text.new.before ≡ text.old.before }
{
    text.bytes(b"COMMIT @")?;
    text.number(done.pos)?;
    text.bytes(b" +")?;
    text.number(done.inserted)?;
    text.bytes(b" -")?;
    text.number(done.removed)?;
    text.bytes(b"\n")
}

/// Appends what a refresh did: its cut, the event that finished it, its snapshot, and its range.
#[tactic(auto, using(crate::proofs::Appending::two_pieces))]
fn put_refresh(
    text: &mut Text,
    cut: u64,
    pos: u64,
    snap: u64,
    min: i64,
    span: Span,
) -> Result<(), NoMemory>
    ensures written { OnOk result (text.new.after ≡ text.old.after ++ said_text (Said.Refresh cut pos snap span min)) }
    ensures kept { text.new.before ≡ text.old.before }
{
    put_refresh_head(text, cut, pos, snap)?;
    put_span_end(text, min, span)
}

/// Appends a refresh by its cut, the event that finished it and its snapshot.
fn put_refresh_head(text: &mut Text, cut: u64, pos: u64, snap: u64) -> Result<(), NoMemory>
    ensures written { OnOk result (text.new.after ≡ text.old.after ++ refresh_head cut pos snap) }
    ensures kept { text.new.before ≡ text.old.before }
{
    text.bytes(b"REFRESH ")?;
    text.number(cut)?;
    text.bytes(b" @")?;
    text.number(pos)?;
    text.bytes(b" snap ")?;
    text.number(snap)
}

/// Appends what a cut did.
#[tactic(auto, using(crate::proofs::Appending::two_pieces))]
fn put_cut(text: &mut Text, cut: u64, min: i64, span: Span) -> Result<(), NoMemory>
    ensures written { OnOk result (text.new.after ≡ text.old.after ++ said_text (Said.Cut cut span min)) }
    ensures kept { text.new.before ≡ text.old.before }
{
    put_marked(text, b"CUT ", cut)?;
    put_span_end(text, min, span)
}

/// Appends that a snapshot was taken.
fn put_snap(text: &mut Text, cut: u64, snap: u64) -> Result<(), NoMemory>
    ensures written { OnOk result (text.new.after ≡ text.old.after ++ said_text (Said.Snap cut snap)) }
    ensures kept { text.new.before ≡ text.old.before }
{
    text.bytes(b"SNAP ")?;
    text.number(cut)?;
    put_at(text, b" @", snap)
}

/// Appends that a refresh was finished.
fn put_finish(text: &mut Text, cut: u64, pos: u64, snap: u64) -> Result<(), NoMemory>
    ensures written { OnOk result (text.new.after ≡ text.old.after ++ said_text (Said.Finish cut pos snap)) }
    ensures kept { text.new.before ≡ text.old.before }
{
    text.bytes(b"FINISH ")?;
    text.number(cut)?;
    text.bytes(b" @")?;
    text.number(pos)?;
    put_at(text, b" snap ", snap)
}

/// Appends that a policy was added.
fn put_policy(text: &mut Text, number: u64, pos: u64) -> Result<(), NoMemory>
    ensures written { OnOk result (text.new.after ≡ text.old.after ++ said_text (Said.Policy number pos)) }
    ensures kept { text.new.before ≡ text.old.before }
{
    text.bytes(b"POLICY ")?;
    text.number(number)?;
    put_at(text, b" @", pos)
}

/// Appends the time, and the number of due policies.
fn put_tick(text: &mut Text, time: i64, due: u64) -> Result<(), NoMemory>
    ensures written { OnOk result (text.new.after ≡ text.old.after ++ said_text (Said.Tick time due)) }
    ensures kept { text.new.before ≡ text.old.before }
{
    text.bytes(b"TICK ")?;
    text.push_signed(i128::from(time))?;
    text.bytes(b" due ")?;
    text.number(due)?;
    text.bytes(b"\n")
}
