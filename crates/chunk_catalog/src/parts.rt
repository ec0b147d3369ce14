//! New rows by the chunks that hold their times.
ghost use Rattle.std.specs.Ordering.{int_eq};
ghost use Rattle.std.specs.Prelude.{◌≡◌, ◌<◌, ◌+◌, ◌-◌, ◌^◌, ◌++◌, length, drop, map, slice_index_or, true, IfOk};
ghost use Rattle.ts_bucket.specs.Bucket.{is_time};
ghost use Rattle.ts_schema.specs.declared.rows.Row.{Row};
ghost use Rattle.seg_rows.specs.Versions.{newborn, AsOften, HasMore};
ghost use Rattle.chunk_catalog.specs.Chunks.{HaveTimes};
ghost use Rattle.ts_bucket.specs.Chunks.{IsInterval, chunk_start};
ghost use Rattle.chunk_catalog.specs.Places.{in_chunk};
ghost use Rattle.chunk_catalog.specs.Parts.{AreIn, IsStart, placed_rows};

use crate::trees::Tree;
use seg_rows::{Segment, copied_rows};
use std::alloc::Global;
use ts_schema::{NoMemory, Row, Seq, SharedSlice};

/// Rows of one chunk, with its start.
#[derive(Drop)]
struct Part {
    start: i64,
    rows: SharedSlice<Row>,
}

/// A tree with rows inserted at a position, each in the chunk that holds its time. Rows in the order of their
/// times are shared with their list.
pub fn put_rows(
    alloc: Global,
    tree: &Tree,
    interval: i64,
    rows: SharedSlice<Row>,
    pos: u64,
) -> Result<Tree, NoMemory>
    requires interval { IsInterval interval }
    requires times { HaveTimes rows }
    requires countable { length tree.now.0 + length rows < 2 ^ 64 }
    ensures versions { IfOk result (λ new. HasMore (placed_rows interval pos rows) tree.now.0 new.0) }
{
    let mut left = rows_by_time(alloc, rows)?;
    let mut tree = tree.copy()?;
    while left.len() > 0 {
        let part = last_part(interval, &mut left)?;
        tree = put_part(alloc, &tree, part, pos)?;
    }
    Ok(tree)
}

/// The same rows in the order of their times: the rows themselves if they are in order, and otherwise copies.
fn rows_by_time(alloc: Global, rows: SharedSlice<Row>) -> Result<SharedSlice<Row>, NoMemory>
    ensures rows { IfOk result (λ sorted. AsOften sorted rows) }
{
    if rows.items().is_sorted_by_key(|row| row.at) {
        return Ok(rows);
    }
    let sorted = sorted_rows(copied_rows(alloc, rows.items())?)?;
    SharedSlice::of(alloc, Seq::of(sorted))
}

/// Sorts rows by their times.
fn sorted_rows(rows: Seq<Row>) -> Result<Vec<Row>, NoMemory>
    ensures rows { IfOk result (λ sorted. AsOften sorted.items rows) }
{
    let mut items = rows.into_items();
    items.sort_by_key(|row| row.at)?;
    Ok(items)
}

/// A tree with the rows of one chunk, inserted at a position.
fn put_part(alloc: Global, tree: &Tree, part: Part, pos: u64) -> Result<Tree, NoMemory>
    requires some { 0 < length part.rows }
    requires countable { length tree.now.0 + length part.rows < 2 ^ 64 }
    ensures versions { IfOk result (λ new. HasMore (in_chunk part.start (map (newborn pos) part.rows)) tree.now.0 new.0) }
{
    let segment = Segment::seal(alloc, part.rows, pos)?;
    tree.with(alloc, part.start, segment)
}

/// Removes and returns the last rows that are in one chunk.
fn last_part(interval: i64, rows: &mut SharedSlice<Row>) -> Result<Part, NoMemory>
    requires interval { IsInterval interval }
    requires times { HaveTimes rows.old }
    requires some { 0 < length rows.old }
    ensures split { IfOk result (λ part. rows.old ≡ rows.new ++ part.rows) }
    ensures here { IfOk result (λ part. AreIn interval part.start part.rows) }
    ensures some { IfOk result (λ part. 0 < length part.rows) }
{
    let items = rows.items();
    let start = chunk_of(interval, &items[items.len() - 1]);
    let from = part_begin(interval, start, items);
    let part = Part {
        start,
        rows: rows.part_of(from, rows.len())?,
    };
    *rows = rows.part_of(0, from)?;
    Ok(part)
}

/// The place of the first of the last rows that are all in one chunk, which has this start.
fn part_begin(interval: i64, start: i64, rows: &[Row]) -> usize
    requires interval { IsInterval interval }
    requires times { HaveTimes rows.now }
    requires some { 0 < length rows.now }
    requires start { IsStart interval start }
    requires last { (row : Row) → chunk_start interval (slice_index_or rows.now (length rows.now - 1) row).at ≡ start }
    ensures within { result < length rows.now }
    ensures here { AreIn interval start (drop result rows.now) }
{
    let mut from = rows.len() - 1;
    while from > 0 && is_in(interval, start, &rows[from - 1]) {
        from -= 1;
    }
    from
}

/// Whether the chunk with this start holds the time of a row. It needs no division.
fn is_in(interval: i64, start: i64, row: &Row) -> bool
    requires interval { IsInterval interval }
    requires start { IsStart interval start }
    ensures { result ≡ int_eq start (chunk_start interval row.now.at) }
{
    start <= row.at && row.at < start + interval
}

/// The start of the chunk that holds the time of a row.
fn chunk_of(interval: i64, row: &Row) -> i64
    requires interval { IsInterval interval }
    requires time { is_time row.now.at ≡ true }
    ensures start { result ≡ chunk_start interval row.now.at }
    ensures some { IsStart interval result }
{
    ts_bucket::chunk_start(interval, row.at)
}
