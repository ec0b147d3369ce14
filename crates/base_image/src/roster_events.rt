//! The events that create a roster, and the commits that hold rows.
ghost use Rattle.std.specs.Prelude.{◌≡◌, ◌≤◌, ◌∷◌, ◌++◌, length, map, IfOk};
ghost use Rattle.ts_model.specs.declared.events.Event.TheVariants.{Table, View};
ghost use Rattle.image_laws.specs.Images.{held_events, hyper_events, roster_events, table_events};

use std::alloc::Global;
use ts_model::{Event, Hyper, Op, Roster, TableInfo, ViewDef};
use ts_schema::{NoMemory, Row, Seq, SharedSlice};

/// Appends the event that turns a table into a hypertable, if it is one.
fn push_hyper(events: &mut Seq<Event>, table: u32, hyper: Option<Hyper>) -> Result<(), NoMemory>
    ensures pushed { IfOk result (λ _. events.new ≡ events.old ++ hyper_events table hyper) }
{
    match hyper {
        None => Ok(()),
        Some(hyper) => events.push(Event::Hyper { table, hyper }),
    }
}

/// Appends the event that creates a table, and the one that turns it into a hypertable, if it is one.
fn push_table(events: &mut Seq<Event>, table: u32, info: &TableInfo) -> Result<(), NoMemory>
    ensures pushed { IfOk result (λ _.
        events.new ≡ events.old ++ Table info.now.def ∷ hyper_events table info.now.hyper) }
{
    events.push(Event::Table(info.def.copy()?))?;
    push_hyper(events, table, info.hyper)
}

/// Appends the events that create these tables.
fn push_tables(events: &mut Seq<Event>, tables: &[TableInfo]) -> Result<(), NoMemory>
    requires few { length tables.now ≤ 64 }
    ensures pushed { IfOk result (λ _. events.new ≡ events.old ++ table_events 0 tables.now) }
{
    let mut table = 0u32;
    let mut left = tables;
    while let [info, rest @ ..] = left {
        push_table(events, table, info)?;
        table += 1;
        left = rest;
    }
    Ok(())
}

/// Appends the events that create these aggregates.
fn push_views(events: &mut Seq<Event>, views: &[ViewDef]) -> Result<(), NoMemory>
    ensures pushed { IfOk result (λ _. events.new ≡ events.old ++ map View views.now) }
{
    for def in views {
        events.push(Event::View(def.copy()?))?;
    }
    Ok(())
}

/// Returns the events that create a roster.
pub fn roster_events(alloc: Global, roster: &Roster) -> Result<Seq<Event>, NoMemory>
    requires few { length roster.now.tables ≤ 64 }
    ensures made { IfOk result (λ events. events ≡ roster_events roster.now) }
{
    let mut events = Seq::new(alloc);
    push_tables(&mut events, roster.tables.items())?;
    push_views(&mut events, roster.views.items())?;
    Ok(events)
}

/// Appends a commit of these rows of a table, if there are any.
pub fn push_held(
    events: &mut Seq<Event>,
    alloc: Global,
    table: u32,
    rows: Seq<Row>,
) -> Result<(), NoMemory>
    ensures pushed { IfOk result (λ _. events.new ≡ events.old ++ held_events table rows) }
{
    if rows.is_empty() {
        return Ok(());
    }
    let rows = SharedSlice::of(alloc, rows)?;
    let mut ops = Seq::new(alloc);
    ops.push(Op::Insert { table, rows })?;
    events.push(Event::Commit(ops))
}
