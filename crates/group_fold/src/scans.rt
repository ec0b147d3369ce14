//! The rows of spans, in pieces.
ghost use Rattle.std.specs.Prelude.{◌≡◌, ◌++◌, IfOk, OnOk};
ghost use Rattle.ts_schema.specs.Counts.{Ticks};
ghost use Rattle.ts_model.specs.Rows.{in_order};
ghost use Rattle.group_fold.specs.Grouping.{all_rows};
ghost use Rattle.group_fold.specs.Spans.{AreApart, near_each, rows_in};

use std::alloc::Global;
use ts_bucket::Span;
use ts_model::RowsAt;
use ts_schema::{NoMemory, Row, Seq, SharedSlice, Steps};

/// The greatest number of rows of a piece.
const PIECE: usize = 4096;

/// The rows of a table whose times lie in these spans, in pieces.
pub(crate) fn scan_spans<W: RowsAt, L>(
    alloc: Global,
    rows: &W,
    table: u32,
    spans: &[Span],
    steps: &mut Steps<L>,
) -> Result<Seq<SharedSlice<Row>>, NoMemory>
    requires apart { AreApart spans.now }
    ensures rows { IfOk result (λ pieces. in_order (all_rows pieces)
        ≡ in_order (rows_in spans.now (W.visible rows.now table))) }
    ensures read { Ticks result
        (near_each (W.interval rows.now table) (W.stored rows.now table) spans.now)
        steps.old steps.new }
{
    let _so_far = steps.count();
    let mut pieces = Seq::new(alloc);
    let mut left = spans;
    while let [span, rest @ ..] = left {
        let found = rows.scan(table, *span, steps)?;
        cut(alloc, found, &mut pieces)?;
        left = rest;
    }
    Ok(pieces)
}

/// Cuts rows into pieces, from the first row on. Each piece is a part of the list that was found.
fn cut(alloc: Global, found: Seq<Row>, pieces: &mut Seq<SharedSlice<Row>>) -> Result<(), NoMemory>
    ensures rows { OnOk result (all_rows pieces.new ≡ all_rows pieces.old ++ found) }
{
    let whole = SharedSlice::of(alloc, found)?;
    let count = whole.len();
    let mut from = 0;
    while count - from > PIECE {
        pieces.push(whole.part_of(from, from + PIECE)?)?;
        from += PIECE;
    }
    pieces.push(whole.part_of(from, count)?)?;
    Ok(())
}
