//! The roster after one more event.
ghost use Rattle.std.specs.Prelude.{◌≡◌, IfOk};
ghost use Rattle.ts_model.specs.Roster.{change_at, made_hyper, roster_after, set_only};

use ts_model::{Event, Hyper, Roster, TableInfo, ViewDef};
use ts_schema::{NoMemory, Seq};

/// Turns a table into a hypertable, unless it is one.
fn make_hyper(tables: &mut Seq<TableInfo>, table: usize, hyper: Hyper) -> Result<(), NoMemory>
    ensures { IfOk result (λ _. tables.new ≡ change_at tables.old table (made_hyper hyper)) }
{
    if table < tables.len() {
        let mut info = tables.get(table).copy()?;
        info.hyper = Some(info.hyper.unwrap_or(hyper));
        tables.set(table, info);
    }
    Ok(())
}

/// Sets an aggregate to a mode.
fn set_mode(views: &mut Seq<ViewDef>, view: usize, only: bool) -> Result<(), NoMemory>
    ensures { IfOk result (λ _. views.new ≡ change_at views.old view (set_only only)) }
{
    if view < views.len() {
        let mut def = views.get(view).copy()?;
        def.only = only;
        views.set(view, def);
    }
    Ok(())
}

/// The roster after one more event.
pub fn after_event(before: &Roster, event: &Event) -> Result<Roster, NoMemory>
    ensures { IfOk result (λ found. found ≡ roster_after before.now event.now) }
{
    let Roster {
        mut tables,
        mut views,
    } = before.copy()?;
    match event {
        Event::Table(def) => tables.push(TableInfo {
            def: def.copy()?,
            hyper: None,
        })?,
        Event::Hyper { table, hyper } => make_hyper(&mut tables, *table as usize, *hyper)?,
        Event::View(def) => views.push(def.copy()?)?,
        Event::Mode { view, only } => set_mode(&mut views, *view as usize, *only)?,
        Event::Commit(_) | Event::Cut { .. } | Event::Built { .. } => {}
    }
    Ok(Roster { tables, views })
}
