//! The answer of a grouping over a whole hypertable.
ghost use Rattle.std.specs.Prelude.{◌≡◌, IfOk, map};
ghost use Rattle.ts_schema.specs.Counts.{Ticks};
ghost use Rattle.ts_model.specs.Groups.{cells_of};
ghost use Rattle.ts_model.specs.Rows.{in_order};
ghost use Rattle.ts_model.specs.Scratch.{fold_rows};
ghost use Rattle.group_fold.specs.Spans.{HaveTimes};
ghost use Rattle.realtime_union.specs.Live.{all_times};
ghost use Rattle.realtime_union.specs.Whole.{all_reads};

use block_list::Slice;
use group_fold::fold_spans;
use partial_agg::Group;
use std::alloc::Global;
use std::thread::Threads;
use ts_bucket::{MAX_TIME, MIN_TIME, Span};
use ts_model::{Fold, ResultRows, RowsAt};
use ts_schema::{NoMemory, Seq, Steps};

/// The result rows of a grouping over all rows of a hypertable, from one scan of all times. Counts one step for
/// each stored row in a chunk that holds a time.
pub fn folded_rows<R: Threads + Sync, W: RowsAt, L>(
    rt: &R,
    alloc: Global,
    rows: &W,
    table: u32,
    plan: &Fold,
    steps: &mut Steps<L>,
) -> Result<ResultRows, NoMemory>
    requires times { HaveTimes (W.visible rows.now table) }
    ensures rows { IfOk result (λ shown. shown ≡ fold_rows plan.now (in_order (W.visible rows.now table))) }
    ensures read { Ticks result (all_reads (W.interval rows.now table) (W.stored rows.now table)) steps.old steps.new }
{
    let _so_far = steps.count();
    let groups = all_groups(rt, alloc, rows, table, plan, steps)?;
    let aggs = plan.aggs.copy()?;
    Ok(ResultRows::of_groups(alloc, aggs, Slice::none(alloc), groups))
}

/// The groups of all rows.
fn all_groups<R: Threads + Sync, W: RowsAt, L>(
    rt: &R,
    alloc: Global,
    rows: &W,
    table: u32,
    plan: &Fold,
    steps: &mut Steps<L>,
) -> Result<Seq<Group>, NoMemory>
    requires times { HaveTimes (W.visible rows.now table) }
    ensures shown { IfOk result (λ groups. map (cells_of plan.now) groups
        ≡ fold_rows plan.now (in_order (W.visible rows.now table))) }
    ensures read { Ticks result (all_reads (W.interval rows.now table) (W.stored rows.now table)) steps.old steps.new }
{
    fold_spans(rt, alloc, rows, table, plan, &[whole_time()], steps)
}

/// All times.
pub(crate) fn whole_time() -> Span
    ensures { result ≡ all_times }
{
    Span {
        lo: MIN_TIME,
        hi: MAX_TIME + 1,
    }
}
