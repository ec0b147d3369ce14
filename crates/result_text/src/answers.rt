//! The texts of answers.
ghost use Rattle.std.specs.Prelude.{◌≡◌, ◌++◌, codes, map, OnErr, OnOk};
ghost use Rattle.ts_num.specs.Aggregates.{shown_or_null};
ghost use Rattle.ts_num.specs.Texts.{datum_text};
ghost use Rattle.ts_model.specs.Chosen.{cell_or_null, chosen_cells};
ghost use Rattle.ts_model.specs.Groups.{shown_each};
ghost use Rattle.ts_model.specs.Results.{group_cells, row_cells};
ghost use Rattle.result_text.specs.Answers.{answer_counts, answer_head, answer_lines, answer_place, answer_text, cells_text, more_cells, queue_text, queued_answer_text, rows_text, stale_text};

use crate::pieces::Text;
use crate::spans::put_span;
use partial_agg::Partial;
use ts_bucket::Span;
use ts_model::{Agg, Answer, GroupRow, ResultRow, ResultRows};
use ts_num::Datum;
use ts_schema::NoMemory;

/// Appends an answer at a position: a line with its counts, a line for each row and one for each stale
/// range. `min` is the start of the first bucket.
pub fn put_answer(answer: &Answer, pos: u64, min: i64, out: &mut Vec<u8>) -> Result<(), NoMemory>
    ensures appended { OnOk result (out.new.items ≡ out.old.items ++ answer_text answer.now pos min) }
    ensures kept { OnErr result (out.new.items ≡ out.old.items) }
{
    let mut text = Text::behind(out);
    let written = put_answer_lines(&mut text, answer, pos, None, min);
    text.finish(written, out)
}

/// Appends an answer in a write block: like `put_answer`, and the first line says that `queue` operations are
/// queued. This is for callers without sessions; the program calls `put_reply`, which writes the session's name
/// first.
pub fn put_queued_answer(
    answer: &Answer,
    pos: u64,
    queue: u64,
    min: i64,
    out: &mut Vec<u8>,
) -> Result<(), NoMemory>
    ensures appended { OnOk result (out.new.items ≡ out.old.items ++ queued_answer_text answer.now pos queue min) }
    ensures kept { OnErr result (out.new.items ≡ out.old.items) }
{
    let mut text = Text::behind(out);
    let written = put_answer_lines(&mut text, answer, pos, Some(queue), min);
    text.finish(written, out)
}

/// Appends an answer as lines.
#[tactic(auto, using(crate::proofs::Appending::three_pieces))]
pub(crate) fn put_answer_lines(
    text: &mut Text,
    answer: &Answer,
    pos: u64,
    queue: Option<u64>,
    min: i64,
) -> Result<(), NoMemory>
    ensures written { OnOk result (text.new.after ≡ text.old.after ++ answer_lines answer.now pos queue min) }
    ensures kept { text.new.before ≡ text.old.before }
{
    put_head(
        text,
        pos,
        queue,
        answer.rows.len() as u64,
        answer.stale.len() as u64,
    )?;
    put_rows(text, &answer.rows)?;
    put_stale(text, min, answer.stale.items())
}

/// Appends the head of an answer.
#[tactic(auto, using(crate::proofs::Appending::two_pieces))]
fn put_head(
    text: &mut Text,
    pos: u64,
    queue: Option<u64>,
    rows: u64,
    stale: u64,
) -> Result<(), NoMemory>
    ensures written { OnOk result (text.new.after ≡ text.old.after ++ answer_head pos queue rows stale) }
    ensures kept { text.new.before ≡ text.old.before }
{
    put_place(text, pos, queue)?;
    put_counts(text, rows, stale)
}

/// Appends the position of an answer, and the number of queued operations.
fn put_place(text: &mut Text, pos: u64, queue: Option<u64>) -> Result<(), NoMemory>
    ensures written { OnOk result (text.new.after ≡ text.old.after ++ answer_place pos queue) }
    ensures kept { text.new.before ≡ text.old.before }
{
    text.bytes(b"ANSWER @")?;
    text.number(pos)?;
    put_queue(text, queue)
}

/// Appends the numbers of its rows and of its stale ranges.
fn put_counts(text: &mut Text, rows: u64, stale: u64) -> Result<(), NoMemory>
    ensures written { OnOk result (text.new.after ≡ text.old.after ++ answer_counts rows stale) }
    ensures kept { text.new.before ≡ text.old.before }
{
    text.bytes(b" rows ")?;
    text.number(rows)?;
    text.bytes(b" stale ")?;
    text.number(stale)?;
    text.bytes(b"\n")
}

/// Appends the number of queued operations, in a write block.
fn put_queue(text: &mut Text, queue: Option<u64>) -> Result<(), NoMemory>
    ensures written { OnOk result (text.new.after ≡ text.old.after ++ queue_text queue) }
    ensures kept { text.new.before ≡ text.old.before }
{
    match queue {
        None => Ok(()),
        Some(queue) => {
            text.bytes(b" queue ")?;
            text.number(queue)
        }
    }
}

/// Appends a line for each row.
fn put_rows(text: &mut Text, rows: &ResultRows) -> Result<(), NoMemory>
    ensures written { OnOk result (text.new.after ≡ text.old.after ++ rows_text rows.now) }
    ensures kept { text.new.before ≡ text.old.before }
{
    for row in rows.iter() {
        put_row(text, row)?;
    }
    Ok(())
}

/// Appends a row as a line.
fn put_row(text: &mut Text, row: ResultRow<'_>) -> Result<(), NoMemory>
    ensures written { OnOk result (text.new.after ≡ text.old.after ++ (cells_text (row_cells row.entry) ++ codes "\n")) }
    ensures kept { text.new.before ≡ text.old.before }
{
    put_row_cells(text, row)?;
    text.bytes(b"\n")
}

/// Appends the cells of a row.
fn put_row_cells(text: &mut Text, row: ResultRow<'_>) -> Result<(), NoMemory>
    ensures written { OnOk result (text.new.after ≡ text.old.after ++ cells_text (row_cells row.entry)) }
    ensures kept { text.new.before ≡ text.old.before }
{
    match row {
        ResultRow::Cells(cells) => put_cells(text, cells),
        ResultRow::Group(row) => put_group(text, &row),
        ResultRow::Chosen { places, row } => put_chosen(text, places, &row),
    }
}

/// Appends cells.
fn put_cells(text: &mut Text, cells: &[Datum]) -> Result<(), NoMemory>
    ensures written { OnOk result (text.new.after ≡ text.old.after ++ cells_text cells.now) }
    ensures kept { text.new.before ≡ text.old.before }
{
    match cells {
        [] => Ok(()),
        [first, more @ ..] => {
            text.datum(first)?;
            put_more(text, more)
        }
    }
}

/// Appends the cells of a row after its first.
fn put_more(text: &mut Text, more: &[Datum]) -> Result<(), NoMemory>
    ensures written { OnOk result (text.new.after ≡ text.old.after ++ more_cells more.now) }
    ensures kept { text.new.before ≡ text.old.before }
{
    for datum in more {
        text.bytes(b"|")?;
        text.datum(datum)?;
    }
    Ok(())
}

/// Appends the cells of a group, without building them.
#[tactic(auto, using(crate::proofs::Appending::cells_in_two))]
fn put_group(text: &mut Text, row: &GroupRow<'_>) -> Result<(), NoMemory>
    ensures written { OnOk result (text.new.after ≡ text.old.after ++ cells_text (group_cells row.now)) }
    ensures kept { text.new.before ≡ text.old.before }
{
    text.push_signed(i128::from(row.start))?;
    put_keys(text, row.keys)?;
    put_parts(text, row.aggs, row.parts)
}

/// Appends the keys of a group.
fn put_keys(text: &mut Text, keys: &[Option<i64>]) -> Result<(), NoMemory>
    ensures written { OnOk result (text.new.after ≡ text.old.after ++ more_cells (map shown_or_null keys.now)) }
    ensures kept { text.new.before ≡ text.old.before }
{
    for key in keys {
        text.bytes(b"|")?;
        put_key(text, *key)?;
    }
    Ok(())
}

/// Appends a number, or NULL if it is missing.
fn put_key(text: &mut Text, key: Option<i64>) -> Result<(), NoMemory>
    ensures written { OnOk result (text.new.after ≡ text.old.after ++ datum_text (shown_or_null key)) }
    ensures kept { text.new.before ≡ text.old.before }
{
    match key {
        Some(key) => text.push_signed(i128::from(key)),
        None => text.datum(&Datum::Null),
    }
}

/// Appends what each aggregate of a group shows of its part.
fn put_parts(text: &mut Text, aggs: &[Agg], parts: &[Partial]) -> Result<(), NoMemory>
    ensures written { OnOk result (text.new.after ≡ text.old.after ++ more_cells (shown_each aggs.now parts.now)) }
    ensures kept { text.new.before ≡ text.old.before }
{
    let mut aggs_left = aggs;
    let mut parts_left = parts;
    while let [agg, more_aggs @ ..] = aggs_left {
        let [part, more_parts @ ..] = parts_left else {
            return Ok(());
        };
        text.bytes(b"|")?;
        text.datum(&part.finish(agg.fun))?;
        aggs_left = more_aggs;
        parts_left = more_parts;
    }
    Ok(())
}

/// Appends the cells at these places of a group's row, without building them.
fn put_chosen(text: &mut Text, places: &[u32], row: &GroupRow<'_>) -> Result<(), NoMemory>
    ensures written { OnOk result (text.new.after
        ≡ text.old.after ++ cells_text (chosen_cells places.now (group_cells row.now))) }
    ensures kept { text.new.before ≡ text.old.before }
{
    match places {
        [] => Ok(()),
        [first, more @ ..] => {
            put_cell(text, *first, row)?;
            put_more_chosen(text, more, row)
        }
    }
}

/// Appends those at these places after the first.
fn put_more_chosen(text: &mut Text, more: &[u32], row: &GroupRow<'_>) -> Result<(), NoMemory>
    ensures written { OnOk result (text.new.after
        ≡ text.old.after ++ more_cells (chosen_cells more.now (group_cells row.now))) }
    ensures kept { text.new.before ≡ text.old.before }
{
    for place in more {
        text.bytes(b"|")?;
        put_cell(text, *place, row)?;
    }
    Ok(())
}

/// Appends the cell at a place of a group's row.
#[inline]
fn put_cell(text: &mut Text, place: u32, row: &GroupRow<'_>) -> Result<(), NoMemory>
    ensures written { OnOk result (text.new.after
        ≡ text.old.after ++ datum_text (cell_or_null (group_cells row.now) place)) }
    ensures kept { text.new.before ≡ text.old.before }
{
    text.datum(&row.cell(place as usize))
}

/// Appends a line for each stale range.
pub(crate) fn put_stale(text: &mut Text, min: i64, stale: &[Span]) -> Result<(), NoMemory>
    ensures written { OnOk result (text.new.after ≡ text.old.after ++ stale_text min stale.now) }
    ensures kept { text.new.before ≡ text.old.before }
{
    for span in stale {
        text.bytes(b"stale ")?;
        put_span(text, min, *span)?;
        text.bytes(b"\n")?;
    }
    Ok(())
}
