//! Rows of values, read from the bytes of a text. Their tokens aren't kept. If no row is found, the reader of
//! tokens reports the error.
ghost use Rattle.std.specs.Prelude.{◌≡◌, ◌≤◌, length, true, Ok, IfOk, IfSome};
ghost use Rattle.stmt_tokens.specs.Streams.{heads, tail, size, stream};
ghost use Rattle.stmt_tokens.specs.Words.{is_mark};
ghost use Rattle.stmt_reader.specs.Reading as spec;
ghost use Rattle.stmt_reader.specs.declared.phrases.Separator.TheVariants as separators;

use cell_rows::CellRows;
use stmt_tokens::{Mark, NextToken, lone_mark_at, look, short_number_at};
use ts_schema::NoMemory;

/// A value of a row, and the byte after it.
#[derive(Clone, Copy, Debug)]
struct Value {
    value: Option<i64>,
    end: usize,
}

/// The value that comes after the first `skip` bytes of a text.
#[inline]
fn value_behind(text: &[u8], skip: usize) -> Option<Value>
    requires within { skip ≤ length text.now }
    ensures read { IfSome result (λ v. spec.value (stream text.now skip) ≡ Ok (v.value, stream text.now v.end)) }
    ensures within { IfSome result (λ v. v.end ≤ length text.now) }
{
    if let Some(number) = short_number_at(text, skip) {
        return Some(Value {
            value: Some(number.value),
            end: number.end,
        });
    }
    let NextToken::Token { token, end, .. } = look(text, skip) else {
        return None;
    };
    let value = token.value()?;
    Some(Value { value, end })
}

/// The byte after this mark, if it comes after the first `skip` bytes of a text.
#[inline]
fn mark_behind(text: &[u8], skip: usize, mark: Mark) -> Option<usize>
    requires within { skip ≤ length text.now }
    ensures here { IfSome result (λ _. heads (is_mark mark) (stream text.now skip) ≡ true) }
    ensures behind { IfSome result (λ end. stream text.now end ≡ tail (stream text.now skip)) }
    ensures within { IfSome result (λ end. end ≤ length text.now) }
{
    let Some(found) = lone_mark_at(text, skip) else {
        return mark_behind_blanks(text, skip, mark);
    };
    if !found.mark.is(mark) {
        return None;
    }
    Some(found.end)
}

/// The same for every mark, after any blanks. It is a separate function because few marks need it.
#[inline(never)]
fn mark_behind_blanks(text: &[u8], skip: usize, mark: Mark) -> Option<usize>
    requires within { skip ≤ length text.now }
    ensures here { IfSome result (λ _. heads (is_mark mark) (stream text.now skip) ≡ true) }
    ensures behind { IfSome result (λ end. stream text.now end ≡ tail (stream text.now skip)) }
    ensures within { IfSome result (λ end. end ≤ length text.now) }
{
    let NextToken::Token { token, end, .. } = look(text, skip) else {
        return None;
    };
    if !token.is_mark(mark) {
        return None;
    }
    Some(end)
}

/// The byte after the row that follows the first `skip` bytes of a text, if there is a row. Replaces `values`
/// with the values of the row.
pub(crate) fn row_behind(
    text: &[u8],
    skip: usize,
    values: &mut Vec<Option<i64>>,
) -> Result<Option<usize>, NoMemory>
    requires within { skip ≤ length text.now }
    ensures read { IfOk result (λ found. IfSome found (λ end.
        spec.row (stream text.now skip) ≡ Ok (values.new.items, stream text.now end))) }
    ensures within { IfOk result (λ found. IfSome found (λ end. end ≤ length text.now)) }
{
    values.clear();
    let Some(begin) = mark_behind(text, skip, Mark::Open) else {
        return Ok(None);
    };
    let mut at = begin;
    while let Some(Value { value, end }) = value_behind(text, at) {
        values.push(value)?;
        match mark_behind(text, end, Mark::Comma) {
            Some(next) => at = next,
            None => return Ok(mark_behind(text, end, Mark::Close)),
        }
    }
    Ok(None)
}

/// Reads one more row each time a comma and a row come next, each in turn into the memory of `values`. Returns
/// the byte at which they end.
pub(crate) fn rows_behind(
    text: &[u8],
    skip: usize,
    rows: &mut CellRows<Option<i64>>,
    values: &mut Vec<Option<i64>>,
) -> Result<usize, NoMemory>
    requires within { skip ≤ length text.now }
    ensures read { IfOk result (λ end.
        spec.more (spec.parts separators.Comma) spec.row rows.new (stream text.now end)
        ≡ spec.more (spec.parts separators.Comma) spec.row rows.old (stream text.now skip)) }
    ensures forward { IfOk result (λ end. size (stream text.now end) ≤ size (stream text.now skip)) }
    ensures within { IfOk result (λ end. end ≤ length text.now) }
{
    let mut at = skip;
    while let Some(begin) = mark_behind(text, at, Mark::Comma) {
        let Some(end) = row_behind(text, begin, values)? else {
            return Ok(at);
        };
        rows.push(values.as_slice())?;
        at = end;
    }
    Ok(at)
}
