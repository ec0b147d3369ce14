//! Materialized and live groups together.
ghost use Rattle.std.specs.Prelude.{◌≡◌, ℤ, Option, IfOk};
ghost use Rattle.ts_bucket.specs.Spans.{SpanValue};
ghost use Rattle.ts_bucket.specs.WholeSpans.{IsWholeSpan};
ghost use Rattle.ts_schema.specs.Counts.{Ticks};
ghost use Rattle.ts_model.specs.Rows.{in_order};
ghost use Rattle.group_fold.specs.Spans.{HaveTimes};
ghost use Rattle.realtime_union.specs.Live.{IsLiveSpan, live_groups, live_reads, union_rows};

use block_list::Slice;
use group_fold::fold_spans;
use partial_agg::Group;
use std::alloc::Global;
use std::thread::Threads;
use ts_bucket::Span;
use ts_model::{ResultRows, RowsAt, ViewDef};
use ts_schema::{NoMemory, Seq, Steps};

/// The result rows of an aggregate for the requested buckets. First come those of its materialized groups
/// `kept`, which lie below its mark. Then come those of the rows in the live buckets, from one scan of the span
/// that `live_span` returns. An aggregate that shows only materialized rows needs no scan. Counts one step for
/// each stored row in the chunks that meet a bucket of the scan. Creates no cell: the materialized groups are
/// shared.
pub fn union_rows<R: Threads + Sync, W: RowsAt, L>(
    rt: &R,
    alloc: Global,
    rows: &W,
    def: &ViewDef,
    kept: Slice<Group>,
    live: Span,
    steps: &mut Steps<L>,
) -> Result<ResultRows, NoMemory>
    requires whole { IsWholeSpan def.now.fold.width live }
    requires times { HaveTimes (W.visible rows.now def.now.table) }
    ensures rows { IfOk result (λ shown. (mark : Option ℤ) (starts : SpanValue)
        → IsLiveSpan def.now.fold.width mark starts live
        → shown ≡ union_rows def.now kept mark starts (in_order (W.visible rows.now def.now.table))) }
    ensures read { Ticks result
        (live_reads def.now (W.interval rows.now def.now.table) (W.stored rows.now def.now.table) live)
        steps.old steps.new }
{
    let _so_far = steps.count();
    let live = live_of(rt, alloc, rows, def, live, steps)?;
    let aggs = def.fold.aggs.copy()?;
    Ok(ResultRows::of_groups(alloc, aggs, kept, live))
}

/// The groups of the live buckets, or none if only materialized rows are shown.
fn live_of<R: Threads + Sync, W: RowsAt, L>(
    rt: &R,
    alloc: Global,
    rows: &W,
    def: &ViewDef,
    live: Span,
    steps: &mut Steps<L>,
) -> Result<Seq<Group>, NoMemory>
    requires whole { IsWholeSpan def.now.fold.width live }
    requires times { HaveTimes (W.visible rows.now def.now.table) }
    ensures groups { IfOk result (λ groups. (mark : Option ℤ) (starts : SpanValue)
        → IsLiveSpan def.now.fold.width mark starts live
        → groups ≡ live_groups def.now mark starts (in_order (W.visible rows.now def.now.table))) }
    ensures read { Ticks result
        (live_reads def.now (W.interval rows.now def.now.table) (W.stored rows.now def.now.table) live)
        steps.old steps.new }
{
    let _so_far = steps.count();
    if def.only {
        return Ok(Seq::new(alloc));
    }
    fold_spans(rt, alloc, rows, def.table, &def.fold, &[live], steps)
}
