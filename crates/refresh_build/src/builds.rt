//! Jobs computed from rows.
ghost use Rattle.std.specs.Prelude.{◌≡◌, IfOk, List};
ghost use Rattle.std.specs.List.{AllByRecursion};
ghost use Rattle.ts_bucket.specs.Ranges.{AreRanges, IsWholeRange};
ghost use Rattle.ts_bucket.specs.WholeSpans.{IsWholeSpan};
ghost use Rattle.ts_bucket.specs.declared.spans.Span.{Span};
ghost use Rattle.ts_schema.specs.Counts.{Ticks};
ghost use Rattle.mat_log.specs.Feeding.{AreWithin, is_dirty_with};
ghost use Rattle.group_fold.specs.Spans.{AreApart, HaveTimes, near_each};
ghost use Rattle.refresh_build.specs.Jobs.{IsFor, IsMadeOf};

use crate::jobs::{Job, Refresh};
use crate::tops::end_of;
use block_list::BlockList;
use group_fold::fold_spans;
use inval_log::Entry;
use mat_log::MatLog;
use mat_rows::MatRows;
use std::alloc::Global;
use std::thread::Threads;
use ts_bucket::Span;
use ts_model::{RowsAt, ViewDef};
use ts_schema::{NoMemory, Seq, Steps};

/// The job of a refresh. It recomputes the buckets of its span that have no last refresh, or something pending
/// once the entries were fed. Scans each range once, and counts one step for each stored row in the chunks that
/// meet it.
pub fn build<R: Threads + Sync, W: RowsAt, L>(
    rt: &R,
    alloc: Global,
    rows: &W,
    def: &ViewDef,
    log: &MatLog,
    entries: &BlockList<Entry>,
    refresh: Refresh,
    steps: &mut Steps<L>,
) -> Result<Job, NoMemory>
    requires whole { IsWholeSpan log.now.width refresh.span }
    requires width { log.now.width ≡ def.now.fold.width }
    requires within { AreWithin entries.now.items log.now }
    requires times { HaveTimes (W.visible rows.now def.now.table) }
    ensures ranges { IfOk result (λ job.
        AreRanges def.now.fold.width refresh.span (is_dirty_with log.now entries.now.items) job.spans) }
    ensures refresh { IfOk result (λ job. IsFor refresh job.spans job) }
    ensures made { IfOk result (IsMadeOf def.now.fold (W.visible rows.now def.now.table)) }
    ensures read { (spans : List Span)
        → AreRanges def.now.fold.width refresh.span (is_dirty_with log.now entries.now.items) spans
        → Ticks result (near_each (W.interval rows.now def.now.table) (W.stored rows.now def.now.table) spans)
        steps.old steps.new }
{
    let _so_far = steps.count();
    let spans = log.dirty_with(entries, refresh.span)?;
    build_ranges(rt, alloc, rows, def, refresh, spans, steps)
}

/// A job of a refresh that recomputes these ranges of whole buckets, no two of which hold the same bucket.
/// Scans each range once, and counts one step for each stored row in the chunks that meet it.
pub fn build_ranges<R: Threads + Sync, W: RowsAt, L>(
    rt: &R,
    alloc: Global,
    rows: &W,
    def: &ViewDef,
    refresh: Refresh,
    spans: Seq<Span>,
    steps: &mut Steps<L>,
) -> Result<Job, NoMemory>
    requires whole { AllByRecursion (IsWholeRange def.now.fold.width) spans }
    requires apart { AreApart spans }
    requires times { HaveTimes (W.visible rows.now def.now.table) }
    ensures refresh { IfOk result (IsFor refresh spans) }
    ensures made { IfOk result (IsMadeOf def.now.fold (W.visible rows.now def.now.table)) }
    ensures read { Ticks result
        (near_each (W.interval rows.now def.now.table) (W.stored rows.now def.now.table) spans)
        steps.old steps.new }
{
    let _so_far = steps.count();
    let width = def.fold.width;
    let found = fold_spans(rt, alloc, rows, def.table, &def.fold, spans.items(), steps)?;
    let top = end_of(width, found.items());
    let groups = MatRows::of(alloc, found)?;
    Ok(Job {
        view: refresh.view,
        cut: refresh.cut,
        snap: refresh.snap,
        span: refresh.span,
        spans,
        groups,
        top,
    })
}
