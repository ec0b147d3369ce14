//! What a position sees of a segment.
ghost use Rattle.std.specs.Prelude.{◌≡◌, true, ◌++◌, ◌∷◌, [], cond, length, OnOk, OnErr, IfOk};
ghost use Rattle.ts_bucket.specs.Spans.{in_span};
ghost use Rattle.ts_schema.specs.Counts.{raised_by, RaisedUpTo};
ghost use Rattle.seg_rows.specs.Hulls.{hull_of, misses};
ghost use Rattle.seg_rows.specs.Lives.{Covers, versions_of, with_life};
ghost use Rattle.seg_rows.specs.Versions.{latest_at, later_time, rows_at, shown_at, visible_at, GainsFirst};

use crate::lives::{Life, Lives};
use ts_bucket::{Hull, Span, meets};
use ts_schema::{NoMemory, Row, Seq, Steps};

/// Appends the rows of the span that are visible at a position, if the rows have this hull. Ticks once per
/// version. If the hull misses the span, no row is read.
pub fn scan_span<L>(
    rows: &[Row],
    lives: &Lives,
    hull: Option<Hull>,
    pos: u64,
    span: Span,
    out: &mut Seq<Row>,
    steps: &mut Steps<L>,
) -> Result<(), NoMemory>
    requires covers { Covers (length rows.now) lives.now }
    requires hull { hull ≡ hull_of rows.now }
    ensures rows { OnOk result (out.new ≡ out.old ++ rows_at pos span (versions_of rows.now lives.now)) }
    ensures part { OnErr result (GainsFirst (rows_at pos span (versions_of rows.now lives.now)) out.old out.new) }
    ensures ticks { OnOk result (steps.new ≡ raised_by (length rows.now) steps.old) }
    ensures at_most { OnErr result (RaisedUpTo (length rows.now) steps.old steps.new) }
{
    if is_missed(span, hull) {
        tick_times(rows.len(), steps);
        return Ok(());
    }
    scan_rows(rows, lives, pos, span, out, steps)
}

/// Whether a span and a hull have no number in common.
fn is_missed(span: Span, hull: Option<Hull>) -> bool
    ensures { result ≡ misses span hull }
{
    match hull {
        None => true,
        Some(hull) => !meets(hull, span),
    }
}

/// Ticks this many times.
fn tick_times<L>(times: usize, count: &mut Steps<L>)
    ensures { count.new ≡ raised_by times count.old }
{
    let _so_far = count.count();
    for _ in 0..times {
        count.tick();
    }
}

/// Appends the rows of the span that are visible at a position. Ticks once per version.
fn scan_rows<L>(
    rows: &[Row],
    lives: &Lives,
    pos: u64,
    span: Span,
    out: &mut Seq<Row>,
    steps: &mut Steps<L>,
) -> Result<(), NoMemory>
    requires covers { Covers (length rows.now) lives.now }
    ensures rows { OnOk result (out.new ≡ out.old ++ rows_at pos span (versions_of rows.now lives.now)) }
    ensures part { OnErr result (GainsFirst (rows_at pos span (versions_of rows.now lives.now)) out.old out.new) }
    ensures ticks { OnOk result (steps.new ≡ raised_by (length rows.now) steps.old) }
    ensures at_most { OnErr result (RaisedUpTo (length rows.now) steps.old steps.new) }
{
    let _so_far = steps.count();
    for (i, row) in rows.iter().enumerate() {
        steps.tick();
        // The time is tested first, since it rules out most rows that aren't shown.
        if span_holds(span, row) {
            push_if(lives.at(i, rows.len()).is_visible(pos), row, out)?;
        }
    }
    Ok(())
}

/// Whether a span holds the time of a row.
fn span_holds(span: Span, row: &Row) -> bool
    ensures { result ≡ in_span span row.now.at }
{
    span.lo <= row.at && row.at < span.hi
}

/// Appends a copy of a row if it is shown.
fn push_if(shown: bool, row: &Row, out: &mut Seq<Row>) -> Result<(), NoMemory>
    ensures pushed { OnOk result (out.new ≡ out.old ++ cond shown (row.now ∷ []) []) }
    ensures kept { OnErr result (out.new ≡ out.old) }
{
    if shown {
        out.push(copy_of(row)?)?;
    }
    Ok(())
}

/// A copy of the row.
pub fn copy_of(row: &Row) -> Result<Row, NoMemory>
    ensures same { IfOk result (λ copy. copy ≡ row.now) }
{
    Ok(Row {
        at: row.at,
        vals: row.vals.copy()?,
    })
}

/// The greatest time that is visible at a position.
pub fn last_time(rows: &[Row], lives: &Lives, pos: u64) -> Option<i64>
    requires covers { Covers (length rows.now) lives.now }
    ensures last { result ≡ latest_at pos (versions_of rows.now lives.now) }
{
    let mut last = None;
    for (i, row) in rows.iter().enumerate() {
        last = later(last, seen_time(row, lives.at(i, rows.len()), pos));
    }
    last
}

/// The time of a version, if it is visible at a position.
fn seen_time(row: &Row, life: Life, pos: u64) -> Option<i64>
    ensures { result ≡ cond (visible_at pos (with_life row.now life)) (Some row.now.at) None }
{
    if life.is_visible(pos) {
        Some(row.at)
    } else {
        None
    }
}

/// The greater of two times. If one is missing, it is the other.
pub fn later(a: Option<i64>, b: Option<i64>) -> Option<i64>
    ensures later { result ≡ later_time a b }
{
    match (a, b) {
        (None, other) => other,
        (Some(x), None) => Some(x),
        (Some(x), Some(y)) => Some(x.max(y)),
    }
}

/// Whether a time is no later than another one.
pub fn is_no_later(time: Option<i64>, best: Option<i64>) -> bool
    ensures no_later { result ≡ true → later_time best time ≡ best }
{
    match (time, best) {
        (None, _) => true,
        (Some(_), None) => false,
        (Some(x), Some(y)) => x <= y,
    }
}
