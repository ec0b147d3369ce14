//! Reads rows, with their values in blocks.
ghost use Rattle.std.specs.Prelude.{◌≡◌, ◌∷◌, ◌++◌, [], IfOk, IfSome, OnOk, Ok, drop, length};
ghost use Rattle.cell_rows.specs.Parts.{AreParts, parts};
ghost use Rattle.event_codec.specs.Blocks.{seen_as, timed_rows};
ghost use Rattle.event_codec.specs.Reading.{Gives, few_of, items, many_of, read_map, row_at, value_at};

use crate::errors::ReadError;
use crate::fields::Field;
use crate::numbers::signed_in_front;
use crate::reader::Reader;
use std::alloc::Global;
use std::sync::Arc;
use ts_bucket::{MAX_TIME, MIN_TIME};
use ts_schema::{NoMemory, Row, Seq, SharedSlice, ValueBlock, Values};

/// The place of the count of a row's values, after its time.
const COUNT_AT: usize = 8;

/// The greatest number of rows whose values are in one block.
const MANY: u32 = 1024;

/// The greatest number of rows, at most `count`, that these bytes can hold.
fn most_rows(count: u32, bytes: &[u8]) -> usize {
    (count as usize).min(bytes.len() / (COUNT_AT + 1))
}

/// The number of values of `rows` rows, if each has as many as the first row of these bytes. It is less if the
/// bytes can't hold that many.
fn most_values(rows: usize, bytes: &[u8]) -> usize {
    let each = bytes.get(COUNT_AT).copied().unwrap_or(0);
    rows.saturating_mul(usize::from(each)).min(bytes.len())
}

/// An empty list with room for `room` items.
fn with_room<T>(alloc: Global, room: usize) -> Result<Vec<T>, NoMemory>
    ensures { IfOk result (λ list. list.items ≡ []) }
{
    Ok(Vec::with_capacity(alloc, room)?)
}

/// Appends the time of a row, and the place at which its values end.
#[inline(always)]
fn push_row(
    at: i64,
    end: usize,
    times: &mut Vec<i64>,
    ends: &mut Vec<usize>,
) -> Result<(), NoMemory>
    ensures time { OnOk result (times.new.items ≡ times.old.items ++ at ∷ []) }
    ensures end { OnOk result (ends.new.items ≡ ends.old.items ++ end ∷ []) }
{
    times.push(at)?;
    ends.push(end)?;
    Ok(())
}

/// Appends the rows with these times, whose values end at these places of a list. The rows share the list.
fn push_rows(
    into: &mut Vec<Row>,
    alloc: Global,
    times: &[i64],
    values: ValueBlock,
    ends: &[usize],
) -> Result<(), NoMemory>
    requires parts { AreParts 0 ends.now values }
    ensures { OnOk result (into.new.items ≡ into.old.items ++ timed_rows times.now (parts 0 ends.now values)) }
{
    let block = Arc::new(alloc, values)?;
    let mut from = 0;
    for (at, end) in times.iter().zip(ends.iter()) {
        let vals = Values::part(&block, from, *end)?;
        into.push(Row { at: *at, vals })?;
        from = *end;
    }
    Ok(())
}

/// The value in front, and the bytes after it. It may return none although there is one.
#[inline(always)]
fn value_in_front(bytes: &[u8]) -> Option<(Option<i64>, &[u8])>
    ensures { IfSome result (λ x. value_at bytes.now ≡ Ok (x.0, x.1.now)) }
{
    let [told, body @ ..] = bytes else {
        return None;
    };
    if *told == 0 {
        return Some((None, body));
    }
    if *told != 1 {
        return None;
    }
    let (number, rest) = signed_in_front(body)?;
    Some((Some(number), rest))
}

impl Reader<'_> {
    /// NULL, or a number.
    #[inline(always)]
    fn value(&mut self) -> Result<Option<i64>, ReadError>
        ensures { Gives result (value_at self.old) self.new }
    {
        if let Some((value, rest)) = value_in_front(self.rest()) {
            self.pass_to(rest);
            return Ok(value);
        }
        <Option<i64> as Field>::read(self)
    }

    /// Appends `count` values to others.
    fn values_into(&mut self, count: u32, into: &mut ValueBlock) -> Result<(), ReadError>
        ensures read { let vals = drop (length into.old) into.new in
            Gives (seen_as (λ _. vals) result) (items count value_at self.old) self.new }
        ensures behind { OnOk result (into.new ≡ into.old ++ drop (length into.old) into.new) }
    {
        for _ in 0..count {
            into.push(self.value()?)?;
        }
        Ok(())
    }

    /// Appends the values of a row, which follow their count, to others.
    fn few_into(&mut self, into: &mut ValueBlock) -> Result<(), ReadError>
        ensures read { let vals = drop (length into.old) into.new in
            Gives (seen_as (λ _. vals) result) (few_of value_at self.old) self.new }
        ensures behind { OnOk result (into.new ≡ into.old ++ drop (length into.old) into.new) }
    {
        let count = self.byte()?;
        self.values_into(u32::from(count), into)
    }

    /// Reads the time of a row, and appends its values to others.
    #[tactic(auto, unfolding(crate::specs::Reading::row_at))]
    pub(crate) fn row_into(&mut self, into: &mut ValueBlock) -> Result<i64, ReadError>
        ensures read { let vals = drop (length into.old) into.new in
            Gives (seen_as (λ at. record { at = at; vals = vals }) result) (row_at self.old) self.new }
        ensures behind { OnOk result (into.new ≡ into.old ++ drop (length into.old) into.new) }
    {
        let at = self.between(MIN_TIME, MAX_TIME)?;
        self.few_into(into)?;
        Ok(at)
    }

    /// Appends `count` rows to others. They share a block of values.
    fn piece_into(&mut self, count: u32, into: &mut Vec<Row>) -> Result<(), ReadError>
        ensures { let all = read_map (λ rows. into.old.items ++ rows) (items count row_at) self.old in
            Gives (seen_as (λ _. into.new.items) result) all self.new }
    {
        let room = most_rows(count, self.rest());
        let mut times = with_room(self.alloc(), room)?;
        let mut ends = with_room(self.alloc(), room)?;
        let mut values = ValueBlock::with_capacity(self.alloc(), most_values(room, self.rest()))?;
        for _ in 0..count {
            let at = self.row_into(&mut values)?;
            push_row(at, values.len(), &mut times, &mut ends)?;
        }
        push_rows(
            into,
            self.alloc(),
            times.as_slice(),
            values,
            ends.as_slice(),
        )?;
        Ok(())
    }

    /// Reads `count` rows.
    fn row_list(&mut self, count: u32) -> Result<Vec<Row>, ReadError>
        ensures { Gives (seen_as (λ rows. rows.items) result) (items count row_at self.old) self.new }
    {
        let mut rows = with_room(self.alloc(), most_rows(count, self.rest()))?;
        let mut left = count;
        'pieces: while left > 0 {
            let piece = left.min(MANY);
            self.piece_into(piece, &mut rows)?;
            left -= piece;
        }
        Ok(rows)
    }

    /// Reads a count of four bytes and that many rows, which share blocks of values.
    pub(crate) fn rows(&mut self) -> Result<SharedSlice<Row>, ReadError>
        ensures { Gives result (many_of row_at self.old) self.new }
    {
        let count = self.four()?;
        let rows = self.row_list(count)?;
        Ok(SharedSlice::of(self.alloc(), Seq::of(rows))?)
    }
}
