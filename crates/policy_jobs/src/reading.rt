//! Reads a statement on policies.
ghost use Rattle.std.specs.Prelude.{◌≡◌, ◌≤◌, ◌&&◌, length, true, Ok};
ghost use Rattle.stmt_reader.specs.Cursor.{ahead};
ghost use Rattle.stmt_syntax.specs.Limits.{longest_line};
ghost use Rattle.stmt_reader.specs.Reading.{Gives, semicolon};
ghost use Rattle.stmt_tokens.specs.Streams.{heads, stream, tail};
ghost use Rattle.stmt_tokens.specs.Words.{is_keyword};
ghost use Rattle.stmt_tokens.specs.declared.keywords.Keyword.TheVariants.{Select};
ghost use Rattle.policy_jobs.specs.Answers.{Answers, Judges, ReadsByTheGrammar};
ghost use Rattle.policy_jobs.specs.Reading as spec;
ghost use Rattle.policy_jobs.specs.Reading.{statement};
ghost use Rattle.policy_jobs.specs.Words.{adds, begins};

use crate::jobs::Job;
use crate::statements::PolicyStmt;
use std::alloc::Global;
use stmt_reader::{Fault, ReadError, Reader};
use stmt_tokens::{Keyword, Mark};

/// The words of the grammar.
const TICK: &[u8] = b"tick";

const ADD_REFRESH: &[u8] = b"add_continuous_aggregate_policy";

const ADD_RETENTION: &[u8] = b"add_retention_policy";

const START_OFFSET: &[u8] = b"start_offset";

const END_OFFSET: &[u8] = b"end_offset";

const SCHEDULE_INTERVAL: &[u8] = b"schedule_interval";

const DROP_AFTER: &[u8] = b"drop_after";

/// The result of reading a text as a statement on policies.
#[derive(Drop, Debug)]
pub enum PolicyRead {
    /// This statement.
    Stmt(PolicyStmt),
    /// It begins as a statement on policies, and this is its first fault.
    Fault(Fault),
    /// It doesn't begin as a statement on policies.
    Other,
    /// Out of memory.
    NoMemory,
}

/// Reads the statement on policies in a text after its first `skip` bytes. The text is a line before its comment.
pub fn read_policy(alloc: Global, text: &[u8], skip: u32) -> PolicyRead
    requires short { length text.now ≤ longest_line }
    requires within { skip ≤ length text.now }

    // What reading from left to right returns, if the text begins as a statement on policies.
    ensures exact { Answers result (begins (stream text.now skip)) (statement (stream text.now skip)) }

    // What the grammar says.
    ensures judged { Judges (stream text.now skip) result }
{
    answer(alloc, text, skip)
}

#[tactic(auto, unfolding(crate::specs::Words::begins))]
fn answer(alloc: Global, text: &[u8], skip: u32) -> PolicyRead
    requires short { length text.now ≤ longest_line }
    requires within { skip ≤ length text.now }
    ensures exact { Answers result (begins (stream text.now skip)) (statement (stream text.now skip)) }
{
    let mut reader = Reader::new(alloc, text, skip as usize);
    if reader.is_at_word(TICK) {
        return statement_at(&mut reader);
    }
    if !takes_to_addition(&mut reader) {
        return PolicyRead::Other;
    }
    statement_at(&mut Reader::new(alloc, text, skip as usize))
}

/// Skips `SELECT`, if it comes next, and returns whether the name of a call that adds a policy follows.
fn takes_to_addition(reader: &mut Reader<'_>) -> bool
    ensures { result ≡ (heads (is_keyword Select) (ahead reader.old) && heads adds (tail (ahead reader.old))) }
{
    reader.takes_keyword(Keyword::Select)
        && (reader.is_at_word(ADD_REFRESH) || reader.is_at_word(ADD_RETENTION))
}

/// The statement that comes next, which begins as one on policies.
fn statement_at(reader: &mut Reader<'_>) -> PolicyRead
    ensures { Answers result true (statement (ahead reader.old)) }
{
    match read_statement(reader) {
        Ok(stmt) => PolicyRead::Stmt(stmt),
        Err(ReadError::Memory) => PolicyRead::NoMemory,
        Err(ReadError::Fault(fault)) => PolicyRead::Fault(fault),
    }
}

/// A whole statement, with one `;` or none at its end.
#[tactic(auto, unfolding(crate::specs::Reading::statement, stmt_reader::specs::Reading::bind))]
fn read_statement(reader: &mut Reader<'_>) -> Result<PolicyStmt, ReadError>
    ensures { Gives result (spec.statement (ahead reader.old)) (ahead reader.new) }
{
    let stmt = read_form(reader)?;
    skip_semicolon(reader);
    reader.end()?;
    Ok(stmt)
}

/// `[;]`
#[tactic(auto, unfolding(stmt_reader::specs::Reading::semicolon, stmt_reader::specs::Reading::takes))]
fn skip_semicolon(reader: &mut Reader<'_>)
    ensures { semicolon (ahead reader.old) ≡ Ok (tt, ahead reader.new) }
{
    reader.takes_mark(Mark::Semicolon);
}

/// One of the three forms.
#[tactic(auto, unfolding(crate::specs::Reading::form, stmt_reader::specs::Reading::bind, stmt_reader::specs::Reading::takes))]
fn read_form(reader: &mut Reader<'_>) -> Result<PolicyStmt, ReadError>
    ensures { Gives result (spec.form (ahead reader.old)) (ahead reader.new) }
{
    if reader.takes_word(TICK) {
        return read_tick(reader);
    }
    reader.keyword(Keyword::Select)?;
    read_select(reader)
}

/// What follows `TICK`.
#[tactic(auto, unfolding(crate::specs::Reading::tick_rest, stmt_reader::specs::Reading::bind))]
fn read_tick(reader: &mut Reader<'_>) -> Result<PolicyStmt, ReadError>
    ensures { Gives result (spec.tick_rest (ahead reader.old)) (ahead reader.new) }
{
    Ok(PolicyStmt::Tick(reader.number()?))
}

/// What follows `SELECT`.
#[tactic(auto, unfolding(crate::specs::Reading::select_rest, stmt_reader::specs::Reading::bind, stmt_reader::specs::Reading::takes))]
fn read_select(reader: &mut Reader<'_>) -> Result<PolicyStmt, ReadError>
    ensures { Gives result (spec.select_rest (ahead reader.old)) (ahead reader.new) }
{
    if reader.takes_word(ADD_REFRESH) {
        return read_refresh(reader);
    }
    reader.word(ADD_RETENTION)?;
    read_retention(reader)
}

/// `( 'n' , start_offset => bound , end_offset => bound , schedule_interval => num )`
#[tactic(auto, unfolding(crate::specs::Reading::refresh_rest, stmt_reader::specs::Reading::bind))]
fn read_refresh(reader: &mut Reader<'_>) -> Result<PolicyStmt, ReadError>
    ensures { Gives result (spec.refresh_rest (ahead reader.old)) (ahead reader.new) }
{
    reader.mark(Mark::Open)?;
    let view = reader.read_quoted()?;
    reader.mark(Mark::Comma)?;
    reader.word(START_OFFSET)?;
    reader.mark(Mark::Arrow)?;
    let from = reader.value()?;
    reader.mark(Mark::Comma)?;
    reader.word(END_OFFSET)?;
    reader.mark(Mark::Arrow)?;
    let to = reader.value()?;
    reader.mark(Mark::Comma)?;
    reader.word(SCHEDULE_INTERVAL)?;
    reader.mark(Mark::Arrow)?;
    let every = reader.number()?;
    reader.mark(Mark::Close)?;
    let job = Job::Refresh { view, from, to };
    Ok(PolicyStmt::Add { job, every })
}

/// `( 'n' , drop_after => num [, schedule_interval => num] )`
#[tactic(auto, unfolding(crate::specs::Reading::retention_rest, stmt_reader::specs::Reading::bind))]
fn read_retention(reader: &mut Reader<'_>) -> Result<PolicyStmt, ReadError>
    ensures { Gives result (spec.retention_rest (ahead reader.old)) (ahead reader.new) }
{
    reader.mark(Mark::Open)?;
    let table = reader.read_quoted()?;
    reader.mark(Mark::Comma)?;
    reader.word(DROP_AFTER)?;
    reader.mark(Mark::Arrow)?;
    let after = reader.number()?;
    let every = read_interval(reader)?;
    reader.mark(Mark::Close)?;
    let job = Job::Drop { table, after };
    Ok(PolicyStmt::Add { job, every })
}

/// `[, schedule_interval => num]`
#[tactic(auto, unfolding(crate::specs::Reading::interval, stmt_reader::specs::Reading::takes))]
fn read_interval(reader: &mut Reader<'_>) -> Result<i64, ReadError>
    ensures { Gives result (spec.interval (ahead reader.old)) (ahead reader.new) }
{
    if reader.takes_mark(Mark::Comma) {
        return read_interval_rest(reader);
    }
    Ok(1)
}

/// `schedule_interval => num`
#[tactic(auto, unfolding(crate::specs::Reading::interval_rest, stmt_reader::specs::Reading::bind))]
fn read_interval_rest(reader: &mut Reader<'_>) -> Result<i64, ReadError>
    ensures { Gives result (spec.interval_rest (ahead reader.old)) (ahead reader.new) }
{
    reader.word(SCHEDULE_INTERVAL)?;
    reader.mark(Mark::Arrow)?;
    reader.number()
}

/// States the law that reading a text returns what the grammar says: its statement if it is one, or the first fault. It
/// does nothing: its clause is the law.
pub fn policy_reading_law()
    ensures { ReadsByTheGrammar }
{}
