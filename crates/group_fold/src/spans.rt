//! The groups of the rows of some spans.
ghost use Rattle.std.specs.Prelude.{◌≡◌, IfOk};
ghost use Rattle.ts_bucket.specs.Bucket.{IsWidth};
ghost use Rattle.ts_schema.specs.Counts.{Ticks};
ghost use Rattle.ts_model.specs.Groups.{groups_of};
ghost use Rattle.group_fold.specs.Spans.{AreApart, HaveTimes, near_each, rows_in};

use crate::pieces::fold_pieces;
use crate::scans::scan_spans;
use partial_agg::Group;
use std::alloc::Global;
use std::thread::Threads;
use ts_bucket::Span;
use ts_model::{Fold, RowsAt};
use ts_schema::{NoMemory, Seq, Steps};

/// The groups of the rows of a table whose times lie in these spans. No two spans may hold the same number.
/// Scans each span once, and counts one step for each stored row in the chunks that meet the span.
pub fn fold_spans<R: Threads + Sync, W: RowsAt, L>(
    rt: &R,
    alloc: Global,
    rows: &W,
    table: u32,
    plan: &Fold,
    spans: &[Span],
    steps: &mut Steps<L>,
) -> Result<Seq<Group>, NoMemory>
    requires apart { AreApart spans.now }
    requires times { HaveTimes (W.visible rows.now table) }
    ensures groups { IfOk result (λ groups. groups
        ≡ groups_of plan.now (rows_in spans.now (W.visible rows.now table))) }
    ensures bounds { IsWidth plan.now.width }
    ensures read { Ticks result
        (near_each (W.interval rows.now table) (W.stored rows.now table) spans.now)
        steps.old steps.new }
{
    let _so_far = steps.count();
    // Reading a width tells the prover that it keeps its bounds.
    let _step = plan.width.step;
    let pieces = scan_spans(alloc, rows, table, spans, steps)?;
    fold_pieces(rt, alloc, plan, &pieces)
}
