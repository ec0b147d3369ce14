//! Sorts the lines of an input.
ghost use Rattle.std.specs.Prelude.{◌≡◌, ◌≢◌, ◌+◌, ◌≤◌, ℕ, List, false, length, take, drop, IsTrue, IfOk, OnOk};
ghost use Rattle.std.specs.List.{All, AllPairs, list_any};
ghost use Rattle.ts_schema.specs.Names.{is_name};
ghost use Rattle.ts_io.specs.declared.limits.TheConstants.{INPUT_LIMIT};
ghost use Rattle.ts_model.specs.Roster.{same_name};
ghost use Rattle.ts_model.specs.Limits.{most_sessions};
ghost use Rattle.par_lines.specs.Sorted.{sorts, sorts_as, sorted_lines};
ghost use Rattle.par_lines.specs.Places.{line_at, sorted_of, AreNumbered, IsLineWithin, IsWithin};

use crate::line_ends::first_line_len;
use crate::names::{name_in, name_of};
use crate::sessions::{LinePlace, SessionLines, place_of};
use result_text::{Said, put_line_fault, put_reply};
use std::alloc::Global;
use stmt_tokens::{LineKind, split_line};
use ts_io::LINE_LIMIT;
use ts_model::codes;
use ts_model::limits::MOST_SESSIONS;
use ts_schema::NoMemory;
use ts_sessions::bare;

/// The lines of an input, sorted.
#[derive(Drop, Debug)]
pub struct SortedLines {
    /// The refusals of lines that no session answers, in order.
    pub refusals: Vec<u8>,
    /// The sessions in order of appearance.
    pub sessions: Vec<SessionLines>,
}

/// Sorts the lines of an input by their sessions.
pub fn sort_lines(alloc: Global, input: &[u8]) -> Result<SortedLines, NoMemory>
    requires short { length input.now ≤ INPUT_LIMIT }
    ensures sorted { IfOk result (λ lines. sorted_of input.now lines ≡ sorted_lines input.now) }
    ensures few { IfOk result (λ lines. length lines.sessions.items ≤ most_sessions) }
    ensures named { IfOk result (λ lines. All (λ session. IsTrue (is_name session.name)) lines.sessions.items) }
    ensures apart { IfOk result (λ lines. AllPairs (λ one other. one.name ≢ other.name) lines.sessions.items) }
    ensures numbered { IfOk result (λ lines. AreNumbered lines.sessions.items) }
    ensures within { IfOk result (λ lines. All (IsWithin (length input.now)) lines.sessions.items) }
{
    let mut lines = SortedLines {
        refusals: Vec::new(alloc),
        sessions: Vec::new(alloc),
    };
    let mut from = 0;
    let mut number = 1;
    while from < input.len() {
        let len = first_line_len(&input[from..]);
        lines.add(alloc, number, input, from, len)?;
        from += len + 1;
        number += 1;
    }
    Ok(lines)
}

impl SortedLines {
    /// Adds the line with a number, which has `len` bytes of the input from `from` on.
    fn add(
        &mut self,
        alloc: Global,
        number: u64,
        input: &[u8],
        from: usize,
        len: usize,
    ) -> Result<(), NoMemory>
        requires input { length input.now ≤ INPUT_LIMIT }
        requires inside { from + len ≤ length input.now }
        ensures sorted { OnOk result (sorted_of input.now self.new
            ≡ sorts number (take len (drop from input.now)) (sorted_of input.now self.old)) }
        ensures numbered { OnOk result (AreNumbered self.old.sessions.items → AreNumbered self.new.sessions.items) }
        ensures within { OnOk result (All (IsWithin from) self.old.sessions.items
            → All (IsWithin (from + len)) self.new.sessions.items) }
    {
        let line = &input[from..from + len];
        if len > LINE_LIMIT {
            return put_line_fault(number, &bare(codes::LINE_LONG), &mut self.refusals);
        }
        match split_line(line) {
            LineKind::Blank => Ok(()),
            LineKind::NotAscii => {
                put_line_fault(number, &bare(codes::NOT_ASCII), &mut self.refusals)
            }
            LineKind::NoSession => {
                put_line_fault(number, &bare(codes::NO_SESSION), &mut self.refusals)
            }
            LineKind::Stmt {
                name_len,
                skip,
                end,
            } => {
                let place = LinePlace {
                    from: from as u32,
                    len: end,
                    skip,
                };
                self.add_to(alloc, name_in(line, name_len, skip), place)
            }
        }
    }

    /// Adds a line to the session `name`.
    fn add_to(&mut self, alloc: Global, name: &[u8], line: LinePlace) -> Result<(), NoMemory>
        requires name { IsTrue (is_name name.now) }
        ensures sorted { OnOk result ((input : List ℕ) → sorted_of input self.new
            ≡ sorts_as name.now (line_at input line) (sorted_of input self.old)) }
        ensures numbered { OnOk result (AreNumbered self.old.sessions.items → AreNumbered self.new.sessions.items) }
        ensures within { OnOk result ((n : ℕ) → IsLineWithin n line
            → All (IsWithin line.from) self.old.sessions.items → All (IsWithin n) self.new.sessions.items) }
    {
        match place_of(&self.sessions, name) {
            Some(place) => {
                let session = &mut self.sessions[place];
                session.lines.push(line)?;
                Ok(())
            }
            None => self.add_new(alloc, name, line),
        }
    }

    /// Adds the first line of a session, unless there are too many sessions.
    fn add_new(&mut self, alloc: Global, name: &[u8], line: LinePlace) -> Result<(), NoMemory>
        requires name { IsTrue (is_name name.now) }
        requires absent { list_any (λ session. same_name session.name name.now) self.old.sessions.items ≡ false }
        ensures sorted { OnOk result ((input : List ℕ) → sorted_of input self.new
            ≡ sorts_as name.now (line_at input line) (sorted_of input self.old)) }
        ensures numbered { OnOk result (AreNumbered self.old.sessions.items → AreNumbered self.new.sessions.items) }
        ensures within { OnOk result ((n : ℕ) → IsLineWithin n line
            → All (IsWithin line.from) self.old.sessions.items → All (IsWithin n) self.new.sessions.items) }
    {
        let name = name_of(alloc, name)?;
        if self.sessions.len() < MOST_SESSIONS {
            let number = self.sessions.len() as u32;
            let lines = vec![in alloc; line]?;
            self.sessions.push(SessionLines {
                name,
                number,
                lines,
            })?;
            Ok(())
        } else {
            let refusal = Said::Fault(bare(codes::TOO_MANY_SESSIONS));
            put_reply(&name, &refusal, &mut self.refusals)
        }
    }
}
