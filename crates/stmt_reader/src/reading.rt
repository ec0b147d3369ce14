//! Reading the statement of a line.
ghost use Rattle.std.specs.Prelude.{◌≡◌, ◌≤◌, length};
ghost use Rattle.stmt_syntax.specs.Limits.{longest_line};
ghost use Rattle.stmt_tokens.specs.Streams.{stream};
ghost use Rattle.stmt_reader.specs.Answers.{Answers};
ghost use Rattle.stmt_reader.specs.Reading.{statement};
ghost use Rattle.stmt_reader.specs.Refusals.{Judges, OneReading, ReadsByTheGrammar};
ghost use Rattle.stmt_syntax.specs.Written.{IsWritten};
ghost use Rattle.stmt_reader.specs.Texts.{OfStatement, StatementsAreWritten};

use crate::faults::{Fault, ReadError};
use crate::reader::Reader;
use std::alloc::Global;
use stmt_syntax::Stmt;

/// The statement of a text, or why the text isn't one, at the least place of the line. Places count from 1.
#[derive(Debug, Drop)]
pub enum ReadStmt {
    /// The statement.
    Stmt(Stmt),
    /// No token begins at this place.
    NoToken(u32),
    /// The tokens up to the one at this place begin no statement, or the text ends at this place and the
    /// statement isn't complete.
    Syntax(u32),
    /// The number at this place isn't an i64.
    BadNumber(u32),
    /// An allocation failed.
    NoMemory,
}

/// The statement that is in a text after its first `skip` bytes. The text is a line before its comment.
pub fn read_stmt(alloc: Global, text: &[u8], skip: u32) -> ReadStmt
    requires short { length text.now ≤ longest_line }
    requires within { skip ≤ length text.now }

    // The result is that of reading from left to right.
    ensures exact { Answers result (statement (stream text.now skip)) }

    // It is what the grammar says: the statement, or otherwise the first error.
    ensures judged { Judges (stream text.now skip) result }

    // A statement is whole, and no longer than its text.
    ensures written { OfStatement (IsWritten (length text.now)) result }
{
    answer(alloc, text, skip)
}

fn answer(alloc: Global, text: &[u8], skip: u32) -> ReadStmt
    requires short { length text.now ≤ longest_line }
    requires within { skip ≤ length text.now }
    ensures exact { Answers result (statement (stream text.now skip)) }
{
    match Reader::new(alloc, text, skip as usize).statement() {
        Ok(stmt) => ReadStmt::Stmt(stmt),
        Err(ReadError::Memory) => ReadStmt::NoMemory,
        Err(ReadError::Fault(Fault::NoToken(place))) => ReadStmt::NoToken(place),
        Err(ReadError::Fault(Fault::Syntax(place))) => ReadStmt::Syntax(place),
        Err(ReadError::Fault(Fault::BadNumber(place))) => ReadStmt::BadNumber(place),
    }
}

/// States that the result of reading each text is what the grammar says of it: its statement, or otherwise the
/// first error. Does nothing.
pub fn reading_law()
    ensures { ReadsByTheGrammar }
{}

/// States that the tokens of a statement have one meaning. Does nothing.
pub fn one_reading_law()
    ensures { OneReading }
{}

/// States that every statement of a text is whole and no longer than the text. Does nothing.
pub fn statements_are_written_law()
    ensures { StatementsAreWritten }
{}
