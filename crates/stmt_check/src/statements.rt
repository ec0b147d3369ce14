//! The check of a statement.
ghost use Rattle.std.specs.Prelude.{◌≡◌};
ghost use Rattle.stmt_syntax.specs.declared.statements.Stmt.TheVariants as stmts;
ghost use Rattle.stmt_check.specs.Check.{IsChecked, IsNumbered, interval_of, time_of, Resolves};

use crate::actions::{Action, Checked, ResolveStop};
use crate::folds::{check_calendar, check_fold, check_tests, names_of_outputs};
use crate::inserts::check_rows;
use crate::queries::{before_chunk, check_bound, check_starts};
use crate::relations::{
    QueryTarget, aggregate, hypertable, new_name, plain_table, queryable, table_info, view_def,
};
use crate::tables::{check_columns, check_hyper};
use cell_rows::CellRows;
use std::alloc::Global;
use stmt_syntax::{NamedFold, NamedTest, Stmt};
use ts_model::{Hyper, Op, Query, Roster, TableDef, ViewDef};
use ts_schema::{Column, Name, Seq};

/// Checks the names and values of a statement against a roster. Returns its request, or the first refusal,
/// which carries the read position `pos`. Doesn't check the block of a session, or conditions that only show
/// when the statement runs, such as those of `E15` and `E19`. Refuses a query of an aggregate in wider buckets
/// as `E13`; `hier_agg` reads such a query.
pub fn check(alloc: Global, stmt: &Stmt, roster: &Roster, pos: u64) -> Checked
    requires { IsNumbered roster.now }
    ensures checked { IsChecked pos roster.now stmt.now result }
{
    match resolve(alloc, pos, roster, stmt) {
        Ok(action) => Checked::Ready(action),
        Err(ResolveStop::Refused(refusal)) => Checked::Refused(refusal),
        Err(ResolveStop::NoMemory) => Checked::NoMemory,
    }
}

/// The request of a statement, or why the check stops.
fn resolve(alloc: Global, pos: u64, roster: &Roster, stmt: &Stmt) -> Result<Action, ResolveStop>
    requires { IsNumbered roster.now }
    ensures { Resolves pos roster.now stmt.now result }
{
    match stmt {
        Stmt::Table { name, cols } => table(pos, roster, name, cols),
        Stmt::Hyper {
            table,
            col,
            interval,
        } => hyper(pos, roster, table, col, *interval),
        Stmt::View {
            name,
            only,
            filled,
            fold,
        } => view(alloc, pos, roster, name, *only, *filled, fold),
        Stmt::Mode { view, only } => mode(pos, roster, view, *only),
        Stmt::Insert { table, cols, rows } => insert(alloc, pos, roster, table, cols, rows),
        Stmt::Delete { table, tests } => delete(alloc, pos, roster, table, tests.items()),
        Stmt::Drop { table, below } => drop_chunks(alloc, pos, roster, table, *below),
        Stmt::Refresh { view, lo, hi } => refresh(pos, roster, view, *lo, *hi),
        Stmt::Cut { view, lo, hi } => cut(pos, roster, view, *lo, *hi),
        Stmt::Snap { cut } => Ok(Action::Snap { cut: *cut }),
        Stmt::Finish { cut } => Ok(Action::Finish { cut: *cut }),
        Stmt::Begin => Ok(Action::Begin),
        Stmt::BeginRead => Ok(Action::BeginRead),
        Stmt::Commit => Ok(Action::Commit),
        Stmt::Rollback => Ok(Action::Rollback),
        Stmt::Buckets(fold) => buckets(alloc, pos, roster, fold),
        Stmt::Calendar { number, unit, fold } => calendar(alloc, pos, roster, *number, unit, fold),
        Stmt::Rows { table, tests } => rows(alloc, pos, roster, table, tests.items()),
    }
}

/// CREATE TABLE.
fn table(pos: u64, roster: &Roster, name: &Name, cols: &Seq<Column>) -> Result<Action, ResolveStop>
    requires { IsNumbered roster.now }
    ensures { Resolves pos roster.now (stmts.Table name.now cols.now) result }
{
    new_name(pos, roster, name, roster.tables.len())?;
    check_columns(pos, cols.items())?;
    Ok(Action::Table(TableDef {
        name: name.copy()?,
        cols: cols.copy()?,
    }))
}

/// SELECT create_hypertable.
fn hyper(
    pos: u64,
    roster: &Roster,
    name: &Name,
    col: &Name,
    interval: i64,
) -> Result<Action, ResolveStop>
    requires { IsNumbered roster.now }
    ensures { Resolves pos roster.now (stmts.Hyper name.now col.now interval) result }
{
    let table = plain_table(pos, roster, name)?;
    let info = table_info(roster, table);
    let at = check_hyper(pos, info.def.cols.items(), col, interval)?;
    Ok(Action::Hyper {
        table,
        hyper: Hyper { at, interval },
    })
}

/// CREATE MATERIALIZED VIEW.
fn view(
    alloc: Global,
    pos: u64,
    roster: &Roster,
    name: &Name,
    only: bool,
    filled: bool,
    fold: &NamedFold,
) -> Result<Action, ResolveStop>
    requires { IsNumbered roster.now }
    ensures { Resolves pos roster.now (stmts.View name.now only filled fold.now) result }
{
    new_name(pos, roster, name, roster.views.len())?;
    let table = hypertable(pos, roster, &fold.table)?;
    let resolved = check_fold(alloc, pos, true, table_info(roster, table), fold)?;
    let def = ViewDef {
        name: name.copy()?,
        table,
        fold: resolved,
        names: names_of_outputs(alloc, fold)?,
        only,
    };
    Ok(Action::View { def, filled })
}

/// ALTER MATERIALIZED VIEW.
fn mode(pos: u64, roster: &Roster, name: &Name, only: bool) -> Result<Action, ResolveStop>
    requires { IsNumbered roster.now }
    ensures { Resolves pos roster.now (stmts.Mode name.now only) result }
{
    let view = aggregate(pos, roster, name)?;
    Ok(Action::Mode { view, only })
}

/// INSERT.
fn insert(
    alloc: Global,
    pos: u64,
    roster: &Roster,
    name: &Name,
    cols: &Option<Seq<Name>>,
    rows: &CellRows<Option<i64>>,
) -> Result<Action, ResolveStop>
    requires { IsNumbered roster.now }
    ensures { Resolves pos roster.now (stmts.Insert name.now cols.now rows.now) result }
{
    let table = hypertable(pos, roster, name)?;
    let info = table_info(roster, table);
    let at = place_of_time(&info.hyper);
    let rows = check_rows(alloc, pos, at, info.def.cols.items(), cols, rows)?;
    Ok(Action::Change(Op::Insert { table, rows }))
}

/// DELETE.
fn delete(
    alloc: Global,
    pos: u64,
    roster: &Roster,
    name: &Name,
    tests: &[NamedTest],
) -> Result<Action, ResolveStop>
    requires { IsNumbered roster.now }
    ensures { Resolves pos roster.now (stmts.Delete name.now tests.now) result }
{
    let table = hypertable(pos, roster, name)?;
    let tests = check_tests(alloc, pos, table_info(roster, table), tests)?;
    Ok(Action::Change(Op::Delete { table, tests }))
}

/// SELECT drop_chunks.
fn drop_chunks(
    alloc: Global,
    pos: u64,
    roster: &Roster,
    name: &Name,
    below: i64,
) -> Result<Action, ResolveStop>
    requires { IsNumbered roster.now }
    ensures { Resolves pos roster.now (stmts.Drop name.now below) result }
{
    let table = hypertable(pos, roster, name)?;
    check_bound(pos, Some(below))?;
    let mut tests = Seq::new(alloc);
    tests.push(before_chunk(chunk_interval(&table_info(roster, table).hyper), below))?;
    Ok(Action::Change(Op::Delete { table, tests }))
}

/// CALL refresh_continuous_aggregate.
fn refresh(
    pos: u64,
    roster: &Roster,
    name: &Name,
    lo: Option<i64>,
    hi: Option<i64>,
) -> Result<Action, ResolveStop>
    requires { IsNumbered roster.now }
    ensures { Resolves pos roster.now (stmts.Refresh name.now lo hi) result }
{
    let view = aggregate(pos, roster, name)?;
    check_bound(pos, lo)?;
    check_bound(pos, hi)?;
    Ok(Action::Refresh { view, lo, hi })
}

/// REFRESH CUT.
fn cut(
    pos: u64,
    roster: &Roster,
    name: &Name,
    lo: Option<i64>,
    hi: Option<i64>,
) -> Result<Action, ResolveStop>
    requires { IsNumbered roster.now }
    ensures { Resolves pos roster.now (stmts.Cut name.now lo hi) result }
{
    let view = aggregate(pos, roster, name)?;
    check_bound(pos, lo)?;
    check_bound(pos, hi)?;
    Ok(Action::Cut { view, lo, hi })
}

/// A fold over a hypertable.
fn buckets(
    alloc: Global,
    pos: u64,
    roster: &Roster,
    fold: &NamedFold,
) -> Result<Action, ResolveStop>
    requires { IsNumbered roster.now }
    ensures { Resolves pos roster.now (stmts.Buckets fold.now) result }
{
    let table = hypertable(pos, roster, &fold.table)?;
    let fold = check_fold(alloc, pos, false, table_info(roster, table), fold)?;
    Ok(Action::Ask(Query::Buckets { table, fold }))
}

/// A fold by buckets of the calendar over a hypertable.
fn calendar(
    alloc: Global,
    pos: u64,
    roster: &Roster,
    number: i64,
    unit: &Name,
    fold: &NamedFold,
) -> Result<Action, ResolveStop>
    requires { IsNumbered roster.now }
    ensures { Resolves pos roster.now (stmts.Calendar number unit.now fold.now) result }
{
    let table = hypertable(pos, roster, &fold.table)?;
    let info = table_info(roster, table);
    let (number, fold) = check_calendar(alloc, pos, info, number, unit, fold)?;
    Ok(Action::Calendar {
        table,
        number,
        unit: unit.copy()?,
        at: place_of_time(&info.hyper),
        fold,
    })
}

/// SELECT *.
fn rows(
    alloc: Global,
    pos: u64,
    roster: &Roster,
    name: &Name,
    tests: &[NamedTest],
) -> Result<Action, ResolveStop>
    requires { IsNumbered roster.now }
    ensures { Resolves pos roster.now (stmts.Rows name.now tests.now) result }
{
    match queryable(pos, roster, name)? {
        QueryTarget::Table(table) => {
            let tests = check_tests(alloc, pos, table_info(roster, table), tests)?;
            Ok(Action::Ask(Query::Rows { table, tests }))
        }
        QueryTarget::View(view) => {
            let starts = check_starts(pos, view_def(roster, view), tests)?;
            Ok(Action::Ask(Query::Aggregate { view, starts }))
        }
    }
}

/// The declared place of a hypertable's time column.
fn place_of_time(hyper: &Option<Hyper>) -> u32
    ensures { result ≡ time_of hyper.now }
{
    match hyper {
        Some(hyper) => hyper.at,
        None => 0,
    }
}

/// The interval of a hypertable's chunks.
fn chunk_interval(hyper: &Option<Hyper>) -> i64
    ensures { result ≡ interval_of hyper.now }
{
    match hyper {
        Some(hyper) => hyper.interval,
        None => 1,
    }
}
