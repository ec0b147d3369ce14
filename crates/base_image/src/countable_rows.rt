//! Checks the rows of an image: whether there is one commit per table, and the rows are below watermarks.
ghost use Rattle.std.specs.Prelude.{◌≡◌, ◌&&◌, ◌∷◌, [], is_some, not, true};
ghost use Rattle.std.specs.List.{list_all};
ghost use Rattle.ts_bucket.specs.Bucket.{is_time};
ghost use Rattle.ts_bucket.specs.Ranges.{lies_in};
ghost use Rattle.ts_schema.specs.Conditions.{passes_all};
ghost use Rattle.ts_model.specs.Rows.{in_order};
ghost use Rattle.ts_model.specs.Saved.{appended_by, appended_over, pos_in};
ghost use Rattle.ts_model.specs.Valid.{hold_rows, row_marked};
ghost use Rattle.base_image.specs.Held.{after_table, is_held, is_timed, next_table, op_held, op_timed};
ghost use Rattle.base_image.specs.Rising.{are_rising, spans_of};

use crate::group_checks::is_below;
use crate::orders::rows_stand;
use crate::searches::{has_last, is_inside};
use event_check::op_is_fit;
use ts_bucket::bucket;
use ts_model::{Event, Fold, Op, Roster, SavedView, ViewDef};
use ts_schema::{Row, passes};

/// Whether an operation inserts rows in order, into a table from number `low` on.
fn op_is_countable(roster: &Roster, low: usize, op: &Op) -> bool
    ensures { result ≡ op_held roster.now low op.now }
{
    match op {
        Op::Insert { table, rows } => {
            low <= *table as usize && op_is_fit(roster, op) && rows_stand(rows.items())
        }
        Op::Delete { .. } => false,
    }
}

/// Whether an event is a commit of one such operation.
fn event_is_countable(roster: &Roster, low: usize, event: &Event) -> bool
    ensures { result ≡ is_held roster.now low event.now }
{
    match event {
        Event::Commit(ops) => match ops.items() {
            [op] => op_is_countable(roster, low, op),
            _ => false,
        },
        Event::Table(_) => false,
        Event::Hyper { .. } => false,
        Event::View(_) => false,
        Event::Mode { .. } => false,
        Event::Cut { .. } => false,
        Event::Built { .. } => false,
    }
}

/// The number after that of the table of an operation.
fn after_table(op: &Op) -> usize
    ensures { result ≡ after_table op.now }
{
    match op {
        Op::Insert { table, .. } => *table as usize + 1,
        Op::Delete { table, .. } => *table as usize + 1,
    }
}

/// The number after that of the table of a commit of one operation.
fn next_table(event: &Event) -> usize
    ensures { result ≡ next_table event.now }
{
    match event {
        Event::Commit(ops) => match ops.items() {
            [op] => after_table(op),
            _ => 0,
        },
        Event::Table(_) => 0,
        Event::Hyper { .. } => 0,
        Event::View(_) => 0,
        Event::Mode { .. } => 0,
        Event::Cut { .. } => 0,
        Event::Built { .. } => 0,
    }
}

/// Whether events are one commit of one insert for each table with rows, in order.
pub fn rows_are_held(roster: &Roster, events: &[Event]) -> bool
    ensures { result ≡ hold_rows roster.now 0 events.now }
{
    let mut low = 0usize;
    let mut left = events;
    while let [event, rest @ ..] = left {
        if !event_is_countable(roster, low, event) {
            return false;
        }
        low = next_table(event);
        left = rest;
    }
    true
}

/// The rows that an operation appends to a table.
fn rows_by(table: u32, op: &Op) -> &[Row]
    requires timed { op_timed op.now ≡ true }
    ensures rows { result.now ≡ appended_by table op.now }
    ensures times { list_all (λ row. is_time row.at) result.now ≡ true }
{
    match op {
        Op::Insert { table: into, rows } => { if *into == table { rows.items() } else { &[] } }
        Op::Delete { .. } => &[],
    }
}

/// The rows that a commit of one operation appends to a table.
fn rows_into(table: u32, event: &Event) -> &[Row]
    requires timed { is_timed event.now ≡ true }
    ensures rows { result.now ≡ appended_over table (event.now ∷ []) }
    ensures times { list_all (λ row. is_time row.at) result.now ≡ true }
{
    match event {
        Event::Commit(ops) => match ops.items() {
            [op] => rows_by(table, op),
            _ => &[],
        },
        Event::Table(_) => &[],
        Event::Hyper { .. } => &[],
        Event::View(_) => &[],
        Event::Mode { .. } => &[],
        Event::Cut { .. } => &[],
        Event::Built { .. } => &[],
    }
}

/// Whether a row passes every test, and its bucket has a last refresh and isn't dirty.
fn is_clean(fold: &Fold, view: &SavedView, row: &Row, start: i64) -> bool
    requires lasts { are_rising (spans_of view.now.lasts) ≡ true }
    requires dirty { are_rising view.now.dirty ≡ true }
    ensures { result ≡ (passes_all row.now fold.now.tests && is_some (pos_in view.now.lasts start)
        && not (lies_in view.now.dirty start)) }
{
    let lasts = view.lasts.items();
    let dirty = view.dirty.items();
    passes(row, &fold.tests) && has_last(lasts, start) && !is_inside(dirty, start)
}

/// Whether a row is below the watermark, if it passes every test and its bucket has a last refresh and isn't
/// dirty.
fn row_is_marked(fold: &Fold, view: &SavedView, row: &Row) -> bool
    requires time { is_time row.now.at ≡ true }
    requires lasts { are_rising (spans_of view.now.lasts) ≡ true }
    requires dirty { are_rising view.now.dirty ≡ true }
    ensures { result ≡ row_marked fold.now view.now row.now }
{
    let start = bucket(fold.width, row.at);
    is_below(start, view.mark) || !is_clean(fold, view, row, start)
}

/// The same for each of these rows.
fn rows_are_marked(fold: &Fold, view: &SavedView, rows: &[Row]) -> bool
    requires times { list_all (λ row. is_time row.at) rows.now ≡ true }
    requires lasts { are_rising (spans_of view.now.lasts) ≡ true }
    requires dirty { are_rising view.now.dirty ≡ true }
    ensures { result ≡ list_all (row_marked fold.now view.now) rows.now }
{
    let mut left = rows;
    while let [row, rest @ ..] = left {
        if !row_is_marked(fold, view, row) {
            return false;
        }
        left = rest;
    }
    true
}

/// The same for each row that a commit appends to the table of an aggregate.
fn commit_is_marked(def: &ViewDef, view: &SavedView, event: &Event) -> bool
    requires timed { is_timed event.now ≡ true }
    requires lasts { are_rising (spans_of view.now.lasts) ≡ true }
    requires dirty { are_rising view.now.dirty ≡ true }
    ensures { result ≡ list_all (row_marked def.now.fold view.now) (appended_over def.now.table (event.now ∷ [])) }
{
    rows_are_marked(&def.fold, view, rows_into(def.table, event))
}

/// The same for each row that these commits append to it.
fn commits_are_marked(def: &ViewDef, view: &SavedView, events: &[Event]) -> bool
    requires timed { list_all is_timed events.now ≡ true }
    requires lasts { are_rising (spans_of view.now.lasts) ≡ true }
    requires dirty { are_rising view.now.dirty ≡ true }
    ensures { result ≡ list_all (λ event. list_all (row_marked def.now.fold view.now)
        (appended_over def.now.table (event ∷ []))) events.now }
{
    let mut left = events;
    while let [event, rest @ ..] = left {
        if !commit_is_marked(def, view, event) {
            return false;
        }
        left = rest;
    }
    true
}

/// The same for each row of the table of an aggregate.
pub fn table_is_marked(def: &ViewDef, view: &SavedView, events: &[Event]) -> bool
    requires timed { list_all is_timed events.now ≡ true }
    requires lasts { are_rising (spans_of view.now.lasts) ≡ true }
    requires dirty { are_rising view.now.dirty ≡ true }
    ensures { result ≡ list_all (row_marked def.now.fold view.now)
        (in_order (appended_over def.now.table events.now)) }
{
    commits_are_marked(def, view, events)
}
