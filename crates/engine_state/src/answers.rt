//! Answers of queries.
ghost use Rattle.std.specs.Prelude.{◌≡◌, [], length, IfOk, IsSome, IsTrue};
ghost use Rattle.std.specs.Option.{ForSome};
ghost use Rattle.std.specs.Thread.{IsSync};
ghost use Rattle.ts_bucket.specs.Chunks.{IsInterval};
ghost use Rattle.ts_bucket.specs.WholeSpans.{IsMark};
ghost use Rattle.ts_schema.specs.Counts.{Ticks};
ghost use Rattle.mat_log.specs.Feeding.{AreWithin};
ghost use Rattle.ts_model.specs.declared.queries.Query.TheVariants.{Aggregate, Buckets, Rows};
ghost use Rattle.ts_model.specs.Answers.{answer, can_ask};
ghost use Rattle.ts_model.specs.History.{History};
ghost use Rattle.ts_model.specs.Reads.{reads};
ghost use Rattle.ts_model.specs.Roster.{hyper_of, roster, view_of};
ghost use Rattle.ts_model.specs.Rows.{in_order};
ghost use Rattle.ts_model.specs.Scratch.{fold_rows};
ghost use Rattle.group_fold.specs.Spans.{HaveTimes};
ghost use Rattle.realtime_union.specs.Laws.{ChunksAreNear};
ghost use Rattle.realtime_union.specs.Live.{union_rows};
ghost use Rattle.realtime_union.specs.Whole.{passing_rows};
ghost use Rattle.engine_state.specs.Scans.{seen_rows, stored_rows};
ghost use Rattle.engine_state.specs.Shown.{IsShown, view_reads};
ghost use Rattle.engine_state.specs.Stands.{Stands, StandsFor};

use crate::parts::StateParts;
use crate::scans::{RowsInSpan, TableAt};
use crate::states::State;
use crate::views::ViewState;
use block_list::Slice;
use chunk_catalog::passing_span;
use partial_agg::Group;
use realtime_union::{folded_rows, live_span, passing_rows, union_rows};
use std::alloc::Global;
use std::thread::Threads;
use ts_bucket::Span;
use ts_model::{Answer, Fold, Query, ResultRows, ViewDef};
use ts_schema::{NoMemory, Seq, Steps, Test};

/// The rows of a hypertable that match every test, with all their columns; `at` is the place of the time
/// column. Rows filtered out by their times are read but not copied.
fn filter_rows<L>(
    alloc: Global,
    rows: &TableAt<'_>,
    table: u32,
    at: u32,
    tests: &Seq<Test>,
    steps: &mut Steps<L>,
) -> Result<ResultRows, NoMemory>
    requires interval { IsInterval rows.now.table.now.rows.interval }
    requires times { HaveTimes (seen_rows rows.now.position rows.now.table.now) }
    requires stored { HaveTimes (stored_rows rows.now.table.now) }
    ensures rows { IfOk result (λ shown. shown
        ≡ passing_rows at tests.now (seen_rows rows.now.position rows.now.table.now)) }
    ensures read { Ticks result (length (stored_rows rows.now.table.now)) steps.old steps.new }
{
    let timed = RowsInSpan {
        rows: *rows,
        times: passing_span(tests.items()),
    };
    passing_rows(alloc, &timed, table, at, tests, steps)
}

/// The result rows of a grouping over a hypertable.
fn group_rows<R: Threads + Sync, L>(
    rt: &R,
    alloc: Global,
    rows: &TableAt<'_>,
    table: u32,
    fold: &Fold,
    steps: &mut Steps<L>,
) -> Result<ResultRows, NoMemory>
    requires interval { IsInterval rows.now.table.now.rows.interval }
    requires times { HaveTimes (seen_rows rows.now.position rows.now.table.now) }
    requires stored { HaveTimes (stored_rows rows.now.table.now) }
    ensures rows { IfOk result (λ shown. shown
        ≡ fold_rows fold.now (in_order (seen_rows rows.now.position rows.now.table.now))) }
    ensures read { Ticks result (length (stored_rows rows.now.table.now)) steps.old steps.new }
{
    folded_rows(rt, alloc, rows, table, fold, steps)
}

/// The answer of an aggregate for the requested buckets, given their materialized groups and its watermark.
fn aggregate_rows<R: Threads + Sync, L>(
    rt: &R,
    alloc: Global,
    rows: &TableAt<'_>,
    def: &ViewDef,
    kept: Slice<Group>,
    mark: Option<i64>,
    starts: Span,
    steps: &mut Steps<L>,
) -> Result<ResultRows, NoMemory>
    requires times { HaveTimes (seen_rows rows.now.position rows.now.table.now) }
    requires near { ChunksAreNear rows.now.table.now.rows.interval (stored_rows rows.now.table.now) }
    ensures rows { IfOk result (λ shown. shown
        ≡ union_rows def.now kept mark starts (in_order (seen_rows rows.now.position rows.now.table.now))) }
    ensures read { Ticks result (view_reads def.now mark starts rows.now.table.now) steps.old steps.new }
{
    let live = live_span(def.fold.width, starts, mark);
    union_rows(rt, alloc, rows, def, kept, live, steps)
}

/// The answer to a query of the rows of a hypertable.
fn rows_answer<L>(
    alloc: Global,
    rows: &TableAt<'_>,
    table: u32,
    at: u32,
    tests: &Seq<Test>,
    steps: &mut Steps<L>,
) -> Result<Answer, NoMemory>
    requires interval { IsInterval rows.now.table.now.rows.interval }
    requires times { HaveTimes (seen_rows rows.now.position rows.now.table.now) }
    requires stored { HaveTimes (stored_rows rows.now.table.now) }
    ensures rows { IfOk result (λ found. found.rows
        ≡ passing_rows at tests.now (seen_rows rows.now.position rows.now.table.now)) }
    ensures stale { IfOk result (λ found. found.stale ≡ []) }
    ensures read { Ticks result (length (stored_rows rows.now.table.now)) steps.old steps.new }
{
    let shown = filter_rows(alloc, rows, table, at, tests, steps)?;
    Ok(Answer {
        rows: shown,
        stale: Seq::new(alloc),
    })
}

/// The answer to a query of a grouping over a hypertable.
fn buckets_answer<R: Threads + Sync, L>(
    rt: &R,
    alloc: Global,
    rows: &TableAt<'_>,
    table: u32,
    fold: &Fold,
    steps: &mut Steps<L>,
) -> Result<Answer, NoMemory>
    requires interval { IsInterval rows.now.table.now.rows.interval }
    requires times { HaveTimes (seen_rows rows.now.position rows.now.table.now) }
    requires stored { HaveTimes (stored_rows rows.now.table.now) }
    ensures rows { IfOk result (λ found. found.rows
        ≡ fold_rows fold.now (in_order (seen_rows rows.now.position rows.now.table.now))) }
    ensures stale { IfOk result (λ found. found.stale ≡ []) }
    ensures read { Ticks result (length (stored_rows rows.now.table.now)) steps.old steps.new }
{
    let shown = group_rows(rt, alloc, rows, table, fold, steps)?;
    Ok(Answer {
        rows: shown,
        stale: Seq::new(alloc),
    })
}

/// The answer to a query of an aggregate.
fn view_answer<R: Threads + Sync, L>(
    rt: &R,
    alloc: Global,
    rows: &TableAt<'_>,
    def: &ViewDef,
    view: &ViewState,
    starts: Span,
    steps: &mut Steps<L>,
) -> Result<Answer, NoMemory>
    requires width { view.now.log.width ≡ def.now.fold.width }
    requires mark { ForSome view.now.mark (IsMark view.now.log.width) }
    requires within { AreWithin rows.now.table.now.log.entries view.now.log }
    requires times { HaveTimes (seen_rows rows.now.position rows.now.table.now) }
    requires near { ChunksAreNear rows.now.table.now.rows.interval (stored_rows rows.now.table.now) }
    ensures shown { IfOk result (IsShown def.now view.now rows.now.table.now.log.entries starts
        (seen_rows rows.now.position rows.now.table.now)) }
    ensures read { Ticks result (view_reads def.now view.now.mark starts rows.now.table.now) steps.old steps.new }
{
    let _so_far = steps.count();
    let mark = view.mark();
    let kept = view.groups().slice(starts)?;
    let entries = rows.table.log().entries();
    let stale = view.log().stale_with(entries, starts, mark)?;
    let shown = aggregate_rows(rt, alloc, rows, def, kept, mark, starts, steps)?;
    Ok(Answer { rows: shown, stale })
}

impl StateParts {
    /// The rows of a hypertable that match every test.
    fn rows_shown<L>(
        &self,
        alloc: Global,
        table: u32,
        tests: &Seq<Test>,
        steps: &mut Steps<L>,
    ) -> Result<Answer, NoMemory>
        requires stands { Stands self.now }
        requires asks { IsSome (hyper_of self.now.roster table) }
        ensures shown { (h : History) → StandsFor h self.now
            → IfOk result (λ found. found ≡ answer (Rows table tests.now) h) }
        ensures read { (h : History) → StandsFor h self.now
            → Ticks result (reads (Rows table tests.now) h) steps.old steps.new }
    {
        let at = self.hyper(table).at;
        let rows = self.table_seen(table);
        rows_answer(alloc, &rows, table, at, tests, steps)
    }

    /// The answer to a grouping over a hypertable.
    fn buckets_shown<R: Threads + Sync, L>(
        &self,
        rt: &R,
        alloc: Global,
        table: u32,
        fold: &Fold,
        steps: &mut Steps<L>,
    ) -> Result<Answer, NoMemory>
        requires stands { Stands self.now }
        requires asks { IsSome (hyper_of self.now.roster table) }
        ensures shown { (h : History) → StandsFor h self.now
            → IfOk result (λ found. found ≡ answer (Buckets table fold.now) h) }
        ensures read { (h : History) → StandsFor h self.now
            → Ticks result (reads (Buckets table fold.now) h) steps.old steps.new }
    {
        let rows = self.table_seen(table);
        buckets_answer(rt, alloc, &rows, table, fold, steps)
    }

    /// The answer of an aggregate for the requested buckets.
    fn view_shown<R: Threads + Sync, L>(
        &self,
        rt: &R,
        alloc: Global,
        view: u32,
        starts: Span,
        steps: &mut Steps<L>,
    ) -> Result<Answer, NoMemory>
        requires stands { Stands self.now }
        requires asks { IsSome (view_of self.now.roster view) }
        ensures shown { (h : History) → StandsFor h self.now
            → IfOk result (λ found. found ≡ answer (Aggregate view starts) h) }
        ensures read { (h : History) → StandsFor h self.now
            → Ticks result (reads (Aggregate view starts) h) steps.old steps.new }
    {
        let seen = self.view_seen(view);
        view_answer(rt, alloc, &seen.rows, seen.def, seen.state, starts, steps)
    }

    /// The answer to a query. Counts one step for each stored row that it reads.
    pub(crate) fn answer<R: Threads + Sync, L>(
        &self,
        rt: &R,
        alloc: Global,
        query: &Query,
        steps: &mut Steps<L>,
    ) -> Result<Answer, NoMemory>
        requires stands { Stands self.now }
        requires asks { IsTrue (can_ask self.now.roster query.now) }
        ensures shown { (h : History) → StandsFor h self.now → IfOk result (λ found. found ≡ answer query.now h) }
        ensures read { (h : History) → StandsFor h self.now → Ticks result (reads query.now h) steps.old steps.new }
    {
        match query {
            Query::Rows { table, tests } => self.rows_shown(alloc, *table, tests, steps),
            Query::Buckets { table, fold } => self.buckets_shown(rt, alloc, *table, fold, steps),
            Query::Aggregate { view, starts } => self.view_shown(rt, alloc, *view, *starts, steps),
        }
    }
}

impl State {
    /// The answer to a query. Counts one step for each stored row that it reads.
    pub fn answer<R: Threads + Sync, L>(
        &self,
        rt: &R,
        query: &Query,
        steps: &mut Steps<L>,
    ) -> Result<Answer, NoMemory>
        requires sync { IsSync R.row }
        requires asks { (h : History) → StandsFor h self.now → IsTrue (can_ask (roster h) query.now) }
        ensures shown { (h : History) → StandsFor h self.now → IfOk result (λ found. found ≡ answer query.now h) }
        ensures read { (h : History) → StandsFor h self.now → Ticks result (reads query.now h) steps.old steps.new }
    {
        self.parts.answer(rt, self.alloc, query, steps)
    }
}
