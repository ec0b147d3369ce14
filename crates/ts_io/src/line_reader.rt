//! A reader of lines, which holds a bounded number of bytes at a time.
ghost use Rattle.std.specs.Prelude.{◌≡◌, ◌≢◌, ℕ, ◌+◌, ◌-◌, ◌<◌, ◌≤◌, List, [], Option, true, false, length, take, drop, nat_lt, vec_len, vec_capacity, IfOk, IfSome, MatchOption};
ghost use Rattle.std.specs.Bool.{OnTrue};
ghost use Rattle.std.specs.Io.KnownBytes.{Consumes, IsAtEnd, prepend_known};
ghost use Rattle.ts_io.specs.Faults.{Counted};
ghost use Rattle.ts_io.specs.Source.{Fills, is_end, is_failed};
ghost use Rattle.ts_io.specs.Lines.{ended_lines, IsFirstEnd};
ghost use Rattle.ts_io.specs.Reader.{Follows, ReadsLine, Spends, SpendsAlike, goes_on, is_read_fault, SpendsHeld, IsFresh, FollowsAtStart};
ghost use Rattle.ts_io.specs.declared.limits.TheConstants.{INPUT_LIMIT};
ghost use Rattle.ts_io.specs.declared.pieces.TheConstants.{PIECE};

use crate::limits::{INPUT_LIMIT, LINE_LIMIT};
use crate::line_ends::first_end_after;
use crate::pieces::{PIECE, read_into};
use crate::sources::{Got, Source};
use std::alloc::Global;
use std::marker::Model;
use ts_schema::NoMemory;

/// The greatest number of bytes that a reader of lines holds.
pub const HELD_LIMIT: usize = LINE_LIMIT + PIECE;

/// The result of a reader of lines.
#[derive(Clone, Copy, Debug, PartialEq, Eq)]
pub enum LineEnd {
    /// The next line, which `Lines::line` returns.
    Line,
    /// The next line ends within the limit of the input and has more than 65,536 bytes. It is skipped.
    LineLong,
    /// The input ended, and no line is left.
    End,
    /// The source returned a byte beyond the limit of the input, and no line that ends within it is left.
    InputLong,
    /// A read failed, and the source's count of faults rose.
    ReadFault,
}

/// A reader of lines. A line ends with the byte LF, and bytes after the last one form a line if there are any.
/// At most 67,108,864 bytes of the input are read as lines.
#[derive(Drop)]
pub struct Lines {
    /// The bytes read. Those before `start` were returned, and the others are held.
    bytes: Vec<u8>,
    start: usize,
    /// The place in `bytes` of the line returned last.
    line_from: usize,
    line_to: usize,
    /// The number of bytes, from those held on, within the limit of the input. One more may be held.
    allowed: usize,
    is_open: bool,
    /// Whether the source has reported its end. Then no byte is held.
    at_end: bool,
    /// The buffer of one read.
    piece: Vec<u8>,
}

impl Model for Lines {
    ghost use Rattle.std.specs.Prelude.{◌≡◌, ◌+◌, ◌≤◌, true, drop, slice_range, vec_len, vec_capacity};
    ghost use Rattle.ts_io.specs.declared.limits.TheConstants.{INPUT_LIMIT};
    ghost use Rattle.ts_io.specs.declared.pieces.TheConstants.{PIECE};
    ghost use Rattle.ts_io.specs.declared.line_reader.TheConstants.{HELD_LIMIT};
    ghost use Rattle.ts_io.specs.Reader.{Reading};

    ghost Value = { Reading };

    ghost view = { λ s. record {
      held = drop s.start s.bytes.items;
      allowed = s.allowed;
      line = slice_range s.bytes.items s.line_from s.line_to;
      is_open = s.is_open;
      at_end = s.at_end;
    } };

    ghost invariant = { λ s. (s.start ≤ vec_len s.bytes) × (s.line_from ≤ s.line_to) × (s.line_to ≤ vec_len s.bytes)
        × (vec_len s.piece ≡ PIECE) × (vec_len s.bytes ≤ s.start + s.allowed + 1) × (s.allowed ≤ INPUT_LIMIT)
        × (vec_len s.bytes ≤ HELD_LIMIT) × (HELD_LIMIT ≤ vec_capacity s.bytes)
        × (s.at_end ≡ true → vec_len s.bytes ≤ s.start) };
}

impl Lines {
    /// A reader that has read nothing yet. Allocates all the memory that the reader ever needs.
    pub fn new(alloc: Global) -> Result<Lines, NoMemory>
        ensures fresh { IfOk result IsFresh }
        ensures follows { IfOk result FollowsAtStart }
    {
        Ok(Lines {
            bytes: Vec::with_capacity(alloc, HELD_LIMIT)?,
            start: 0,
            line_from: 0,
            line_to: 0,
            allowed: INPUT_LIMIT,
            is_open: true,
            at_end: false,
            piece: vec![in alloc; 0; PIECE]?,
        })
    }

    /// The line that the last call of `next` found, if it returned `Line`. It includes a CR before the LF, but
    /// not the LF. After another result these bytes have no meaning.
    pub fn line(&self) -> &[u8]
        ensures line { result.now ≡ self.now.line }
    {
        &self.bytes[self.line_from..self.line_to]
    }

    /// Finds the next line. Reads from the source only if no whole line is held and the source hasn't reported
    /// its end. Takes no memory. Each call must have the same source, which hasn't reported its end before the
    /// first. After `End`, `InputLong` or `ReadFault` there is no other line, and the caller must not call this
    /// again.
    pub fn next<S: Source>(&mut self, source: &mut S) -> LineEnd
        requires is_open { self.old.is_open ≡ true }
        requires follows { Follows self.old (S.ended source.old) (S.left source.old) }
        ensures line { ReadsLine result self.old.allowed (prepend_known self.old.held (S.left source.old))
            self.new.allowed (prepend_known self.new.held (S.left source.new)) self.new.line }
        ensures spends { Spends result self.old.allowed self.new.allowed self.new.line }
        ensures alike { SpendsAlike self.old.allowed (prepend_known self.old.held (S.left source.old))
            self.new.allowed (prepend_known self.new.held (S.left source.new)) }
        ensures is_open { self.new.is_open ≡ goes_on result }
        ensures asks_late { ended_lines (take self.old.allowed self.old.held) ≢ [] → source.new ≡ source.old }
        ensures bounded { length self.new.held ≤ HELD_LIMIT }
        ensures follows { Follows self.new (S.ended source.new) (S.left source.new) }
        ensures counted { Counted (S.faults source.old) (S.faults source.new) (is_read_fault result) }
    {
        match self.first_end(0) {
            Some(n) => self.give(n),
            None if self.is_at_end() => self.stop(LineEnd::End),
            None => self.read_line(source),
        }
    }

    /// Reads until the next line ends, if no whole line is held.
    fn read_line<S: Source>(&mut self, source: &mut S) -> LineEnd
        requires is_open { self.old.is_open ≡ true }
        requires none { ended_lines (take self.old.allowed self.old.held) ≡ [] }
        requires untold { S.ended source.old ≡ false }
        requires more { self.old.at_end ≡ false }
        ensures line { ReadsLine result self.old.allowed (prepend_known self.old.held (S.left source.old))
            self.new.allowed (prepend_known self.new.held (S.left source.new)) self.new.line }
        ensures spends { Spends result self.old.allowed self.new.allowed self.new.line }
        ensures alike { SpendsAlike self.old.allowed (prepend_known self.old.held (S.left source.old))
            self.new.allowed (prepend_known self.new.held (S.left source.new)) }
        ensures is_open { self.new.is_open ≡ goes_on result }
        ensures bounded { length self.new.held ≤ HELD_LIMIT }
        ensures follows { Follows self.new (S.ended source.new) (S.left source.new) }
        ensures counted { Counted (S.faults source.old) (S.faults source.new) (is_read_fault result) }
    {
        while self.buffered().len() <= LINE_LIMIT {
            if self.is_over() {
                return self.stop(LineEnd::InputLong);
            }
            let searched = self.buffered().len();
            match self.ask(source) {
                Got::Bytes(0) => return self.give_last(),
                Got::Bytes(_) => match self.first_end(searched) {
                    Some(n) => return self.give(n),
                    None => {}
                },
                Got::Failed => return self.stop(LineEnd::ReadFault),
            }
        }
        self.skip_line(source)
    }

    /// Skips the next line up to its end. The bytes held are already more than a line may have.
    fn skip_line<S: Source>(&mut self, source: &mut S) -> LineEnd
        requires is_open { self.old.is_open ≡ true }
        requires none { ended_lines (take self.old.allowed self.old.held) ≡ [] }
        requires long { LINE_LIMIT < length self.old.held }
        requires untold { S.ended source.old ≡ false }
        requires more { self.old.at_end ≡ false }
        ensures line { ReadsLine result self.old.allowed (prepend_known self.old.held (S.left source.old))
            self.new.allowed (prepend_known self.new.held (S.left source.new)) self.new.line }
        ensures spends { Spends result self.old.allowed self.new.allowed self.new.line }
        ensures alike { SpendsAlike self.old.allowed (prepend_known self.old.held (S.left source.old))
            self.new.allowed (prepend_known self.new.held (S.left source.new)) }
        ensures is_open { self.new.is_open ≡ goes_on result }
        ensures bounded { length self.new.held ≤ HELD_LIMIT }
        ensures follows { Follows self.new (S.ended source.new) (S.left source.new) }
        ensures counted { Counted (S.faults source.old) (S.faults source.new) (is_read_fault result) }
    {
        while !self.is_over() {
            let skipped = self.buffered().len();
            self.advance(0, skipped);
            match self.ask(source) {
                Got::Bytes(0) => {
                    self.note_end();
                    return LineEnd::LineLong;
                }
                Got::Bytes(_) => match self.first_end(0) {
                    Some(n) => {
                        self.advance(0, n + 1);
                        return LineEnd::LineLong;
                    }
                    None => {}
                },
                Got::Failed => return self.stop(LineEnd::ReadFault),
            }
        }
        self.stop(LineEnd::InputLong)
    }

    /// Returns the line that ends at place `n` of the bytes held, or skips it if it is too long.
    fn give(&mut self, n: usize) -> LineEnd
        requires is_open { self.old.is_open ≡ true }
        requires end { IsFirstEnd (take self.old.allowed self.old.held) n }
        requires small { n < INPUT_LIMIT }
        ensures line { (start left : Option (List ℕ)) → Consumes start (prepend_known self.old.held left) []
            → ReadsLine result self.old.allowed start self.new.allowed
            (prepend_known self.new.held left) self.new.line }
        ensures spends { Spends result self.old.allowed self.new.allowed self.new.line }
        ensures alike { SpendsHeld self.old self.new }
        ensures is_open { self.new.is_open ≡ goes_on result }
        ensures at_end { self.new.at_end ≡ self.old.at_end }
        ensures not_failed { is_read_fault result ≡ false }
        ensures bounded { length self.new.held ≤ HELD_LIMIT }
    {
        self.advance(n, n + 1);
        if n > LINE_LIMIT {
            LineEnd::LineLong
        } else {
            LineEnd::Line
        }
    }

    /// Returns the bytes held as the last line, if there are any, at the end of the input.
    fn give_last(&mut self) -> LineEnd
        requires is_open { self.old.is_open ≡ true }
        requires none { ended_lines self.old.held ≡ [] }
        requires allowed { length self.old.held ≤ self.old.allowed }
        requires short { length self.old.held ≤ LINE_LIMIT }
        ensures line { (start left : Option (List ℕ)) → IsAtEnd left
            → Consumes start (prepend_known self.old.held left) []
            → ReadsLine result self.old.allowed start self.new.allowed
            (prepend_known self.new.held left) self.new.line }
        ensures spends { Spends result self.old.allowed self.new.allowed self.new.line }
        ensures alike { SpendsHeld self.old self.new }
        ensures is_open { self.new.is_open ≡ goes_on result }
        ensures at_end { self.new.at_end ≡ true }
        ensures not_failed { is_read_fault result ≡ false }
        ensures bounded { length self.new.held ≤ HELD_LIMIT }
    {
        let last = self.buffered().len();
        self.advance(last, last);
        self.note_end();
        if last == 0 {
            return self.stop(LineEnd::End);
        }
        LineEnd::Line
    }

    /// Records and returns that there is no other line.
    fn stop(&mut self, end: LineEnd) -> LineEnd
        ensures end { result ≡ end }
        ensures closed { self.new ≡ record self.old { is_open = false } }
        ensures bounded { length self.new.held ≤ HELD_LIMIT }
    {
        self.is_open = false;
        end
    }

    /// Notes that the source has reported its end, if no byte is held.
    fn note_end(&mut self)
        requires empty { length self.old.held ≡ 0 }
        ensures noted { self.new ≡ record self.old { at_end = true } }
        ensures bounded { length self.new.held ≤ HELD_LIMIT }
    {
        self.at_end = true;
    }

    /// Whether the source has reported its end.
    fn is_at_end(&self) -> bool
        ensures at_end { result ≡ self.now.at_end }
        ensures empty { OnTrue result (self.now.held ≡ []) }
    {
        self.at_end
    }

    /// The bytes read and not yet returned.
    fn buffered(&self) -> &[u8]
        ensures { result.now ≡ self.now.held }
    {
        &self.bytes[self.start..]
    }

    /// Whether a byte beyond the limit of the input is held.
    fn is_over(&self) -> bool
        ensures over { result ≡ nat_lt self.now.allowed (length self.now.held) }
        ensures by_one { length self.now.held ≤ self.now.allowed + 1 }
    {
        self.buffered().len() > self.allowed
    }

    /// The place of the first line end within the limit of the input, if none is among the first `searched`
    /// bytes held.
    fn first_end(&self, searched: usize) -> Option<usize>
        requires held { searched ≤ length self.now.held }
        requires allowed { searched ≤ self.now.allowed }
        requires none { ended_lines (take searched self.now.held) ≡ [] }
        ensures end { MatchOption result (ended_lines (take self.now.allowed self.now.held) ≡ [])
            (IsFirstEnd (take self.now.allowed self.now.held)) }
        ensures small { IfSome result (λ n. n < INPUT_LIMIT) }
    {
        let held = self.buffered();
        first_end_after(&held[..self.allowed.min(held.len())], searched)
    }

    /// Returns the first `line` bytes held as the line, and moves past the first `past`.
    fn advance(&mut self, line: usize, past: usize)
        requires within { line ≤ past }
        requires held { past ≤ length self.old.held }
        requires allowed { past ≤ self.old.allowed }
        ensures line { self.new.line ≡ take line self.old.held }
        ensures held { self.new.held ≡ drop past self.old.held }
        ensures allowed { self.new.allowed ≡ self.old.allowed - past }
        ensures is_open { self.new.is_open ≡ self.old.is_open }
        ensures at_end { self.new.at_end ≡ self.old.at_end }
        ensures bounded { length self.new.held ≤ HELD_LIMIT }
    {
        self.line_from = self.start;
        self.line_to = self.start + line;
        self.start += past;
        self.allowed -= past;
    }

    /// Appends one read to the bytes held, at most one byte beyond the limit of the input.
    fn ask<S: Source>(&mut self, source: &mut S) -> Got
        requires allowed { length self.old.held ≤ self.old.allowed }
        requires short { length self.old.held ≤ LINE_LIMIT }
        requires untold { S.ended source.old ≡ false }
        requires more { self.old.at_end ≡ false }
        ensures filled { Fills (S.left source.old) (S.left source.new) result self.old.held self.new.held }
        ensures allowed { self.new.allowed ≡ self.old.allowed }
        ensures is_open { self.new.is_open ≡ self.old.is_open }
        ensures bounded { length self.new.held ≤ HELD_LIMIT }
        ensures at_end { self.new.at_end ≡ false }
        ensures ended { S.ended source.new ≡ is_end result }
        ensures counted { Counted (S.faults source.old) (S.faults source.new) (is_failed result) }
    {
        drop_front(&mut self.bytes, self.start);
        self.start = 0;
        self.line_from = 0;
        self.line_to = 0;
        let room = (self.allowed + 1 - self.bytes.len()).min(PIECE);
        read_into(source, self.piece.as_mut_slice(), room, &mut self.bytes)
    }
}

/// Removes the first `n` bytes.
fn drop_front(bytes: &mut Vec<u8>, n: usize)
    requires { n ≤ vec_len bytes.old }
    ensures items { bytes.new.items ≡ drop n bytes.old.items }
    ensures capacity { vec_capacity bytes.new ≡ vec_capacity bytes.old }
{
    bytes.rotate_left(n);
    bytes.truncate(bytes.len() - n);
}
