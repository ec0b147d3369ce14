//! Hypertables of a history that begins with an image.
ghost use Rattle.std.specs.Prelude.{◌≡◌, ◌≤◌, ◌∷◌, ◌++◌, [], cond, length, List, IfOk, None, Some, true};
ghost use Rattle.std.specs.List.{list_all};
ghost use Rattle.base_image.specs.Held.{is_timed};
ghost use Rattle.ts_schema.specs.declared.rows.Row.{Row as RowValue};
ghost use Rattle.row_versions.specs.Tables.{IsUpTo};
ghost use Rattle.ts_bucket.specs.Chunks.{IsInterval};
ghost use Rattle.coverage.specs.Notes.{number_of};
ghost use Rattle.ts_model.specs.History.{resumed};
ghost use Rattle.ts_model.specs.Refreshes.{is_over, lasts_end, threshold, waiting_end};
ghost use Rattle.ts_model.specs.Roster.{table_of, view_of};
ghost use Rattle.ts_model.specs.Saved.{appended_over, last_hi};
ghost use Rattle.ts_model.specs.Valid.{image_roster, valid};
ghost use Rattle.engine_state.specs.Lists.{Each};
ghost use Rattle.engine_state.specs.Resumed.{HasLog, IsHeld, ResumedAt};
ghost use Rattle.engine_state.specs.Tables.{TableIs};

use crate::tables::TableState;
use inval_log::InvalLog;
use row_versions::Table;
use std::alloc::Global;
use ts_model::{Event, Image, Roster, SavedLast, SavedView, TableInfo, ViewDef, Waiting};
use ts_num::greater;
use ts_schema::{NoMemory, Seq};

/// The rows of a table after one more commit of an image. All these commits have the same position.
fn with_inserts(held: &Table, table: u32, event: &Event) -> Result<Table, NoMemory>
    requires inserts { is_timed event.now ≡ true }
    requires up_to { IsUpTo 0 held.now.versions }
    ensures interval { IfOk result (λ new. new.interval ≡ held.now.interval) }
    ensures held { (rows : List RowValue) → IsHeld rows held.now
        → IfOk result (IsHeld (rows ++ appended_over table (event.now ∷ []))) }
{
    match event {
        Event::Commit(ops) => Ok(held.apply(ops, table, 0)?.table),
        Event::Table(_) => held.copy(),
        Event::Hyper { .. } => held.copy(),
        Event::View(_) => held.copy(),
        Event::Mode { .. } => held.copy(),
        Event::Cut { .. } => held.copy(),
        Event::Built { .. } => held.copy(),
    }
}

/// The rows that the commits of an image hold for a table. They have the first position, so every position sees
/// them.
fn held_rows(alloc: Global, interval: i64, table: u32, rows: &[Event]) -> Result<Table, NoMemory>
    requires interval { IsInterval interval }
    requires inserts { list_all is_timed rows.now ≡ true }
    ensures interval { IfOk result (λ held. held.interval ≡ interval) }
    ensures held { IfOk result (IsHeld (appended_over table rows.now)) }
{
    let mut held = Table::new(alloc, interval);
    for event in rows {
        held = with_inserts(&held, table, event)?;
    }
    Ok(held)
}

/// The end of a range.
fn end_of(last: &SavedLast) -> Option<i64>
    ensures { result ≡ Some last.now.span.hi }
{
    Some(last.span.hi)
}

/// The greatest end of these ranges.
fn last_end(lasts: &[SavedLast]) -> Option<i64>
    ensures { result ≡ last_hi lasts.now }
{
    let mut end = None;
    for last in lasts {
        end = greater(end, end_of(last));
    }
    end
}

/// The greatest end of what was last refreshed of an aggregate over a table.
fn lasts_end(table: u32, defs: &[ViewDef], views: &[SavedView]) -> Option<i64>
    ensures { result ≡ lasts_end table defs.now views.now }
{
    match defs {
        [] => None,
        [def, more_defs @ ..] => match views {
            [] => None,
            [view, more_views @ ..] => {
                let end = end_if(def.table == table, view.lasts.items());
                greater(end, lasts_end(table, more_defs, more_views))
            }
        },
    }
}

/// The greatest end of these ranges, if they count.
fn end_if(counts: bool, lasts: &[SavedLast]) -> Option<i64>
    ensures { result ≡ cond counts (last_hi lasts.now) None }
{
    if counts { last_end(lasts) } else { None }
}

/// The end of the span of a pending refresh, if it is of an aggregate over a table.
fn waiting_over(table: u32, roster: &Roster, waiting: &Waiting) -> Option<i64>
    ensures { result ≡ cond (is_over table (view_of roster.now waiting.now.view)) (Some waiting.now.span.hi) None }
{
    match roster.views.items().get(waiting.view as usize) {
        Some(def) if def.table == table => Some(waiting.span.hi),
        _ => None,
    }
}

/// The greatest end of a span of these refreshes of an aggregate over a table.
fn waiting_end(table: u32, roster: &Roster, waiting: &[Waiting]) -> Option<i64>
    ensures { result ≡ waiting_end table roster.now waiting.now }
{
    let mut end = None;
    for refresh in waiting {
        end = greater(end, waiting_over(table, roster, refresh));
    }
    end
}

/// The empty log with a threshold, if there is one.
fn empty_log(alloc: Global, threshold: Option<i64>) -> InvalLog
    ensures threshold { result.threshold ≡ number_of threshold }
    ensures entries { result.entries ≡ [] }
{
    let mut log = InvalLog::new(alloc);
    if let Some(hi) = threshold {
        log.raise(hi);
    }
    log
}

/// The state of a table of the history that begins with an image, if it is a hypertable.
fn table_from_image(
    alloc: Global,
    table: u32,
    info: &TableInfo,
    roster: &Roster,
    image: &Image,
) -> Result<Option<TableState>, NoMemory>
    requires valid { valid image.now ≡ true }
    requires roster { roster.now ≡ image_roster image.now }
    requires there { table_of roster.now table ≡ Some info.now }
    ensures state { IfOk result (TableIs (resumed image.now) table info.now.hyper) }
    ensures log { IfOk result (HasLog (number_of (threshold table (resumed image.now)))) }
{
    let Some(hyper) = info.hyper else {
        return Ok(None);
    };
    let rows = held_rows(alloc, hyper.interval, table, image.rows.items())?;
    let lasts = lasts_end(table, roster.views.items(), image.views.items());
    let waiting = waiting_end(table, roster, image.waiting.items());
    let log = empty_log(alloc, greater(lasts, waiting));
    Ok(Some(TableState::of(alloc, rows, log)?))
}

/// The states of the tables of the history that begins with an image.
pub(crate) fn tables_from_image(
    alloc: Global,
    roster: &Roster,
    image: &Image,
) -> Result<Seq<Option<TableState>>, NoMemory>
    requires valid { valid image.now ≡ true }
    requires roster { roster.now ≡ image_roster image.now }
    requires few { length roster.now.tables ≤ 64 }
    ensures tables { IfOk result (Each (ResumedAt image.now) roster.now.tables) }
{
    let mut tables = Seq::new(alloc);
    for table in 0..roster.tables.len() {
        let info = roster.tables.get(table);
        tables.push(table_from_image(alloc, table as u32, info, roster, image)?)?;
    }
    Ok(tables)
}
