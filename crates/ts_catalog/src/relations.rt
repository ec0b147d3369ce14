//! Relations by their names.
ghost use Rattle.std.specs.Prelude.{◌≡◌, ◌<◌, ◌^◌, length};
ghost use Rattle.ts_catalog.specs.Relations.{CanBeNumbered, IsThere, found_in, or_else, table_from, table_kind, view_from};

use ts_model::{Roster, TableInfo, ViewDef};
use ts_schema::Name;

/// What a name refers to. The number of a table or of an aggregate is its place in the roster's list of them,
/// counted from 0.
#[derive(Clone, Copy, Debug, PartialEq, Eq)]
pub enum Found {
    /// No relation has this name.
    None,
    /// A table that isn't a hypertable.
    Plain(u32),
    /// A hypertable.
    Hyper(u32),
    /// A continuous aggregate.
    View(u32),
}

/// What a name refers to in a roster.
#[tactic(auto, using(crate::proofs::Numbers::found_is_there))]
pub fn find(roster: &Roster, name: &Name) -> Found
    requires { CanBeNumbered roster.now }
    ensures found { result ≡ found_in roster.now name.now }
    ensures there { IsThere roster.now name.now result }
{
    first_found(
        find_table(roster.tables.items(), name),
        find_view(roster.views.items(), name),
    )
}

/// The table that was found, or otherwise the aggregate that was found.
fn first_found(table: Found, view: Found) -> Found
    ensures { result ≡ or_else table view }
{
    match table {
        Found::None => view,
        found => found,
    }
}

/// The first of these tables with this name.
fn find_table(tables: &[TableInfo], name: &Name) -> Found
    requires { length tables.now < 2 ^ 32 }
    ensures { result ≡ table_from name.now 0 tables.now }
{
    let mut number = 0;
    let mut left = tables;
    while let [table, rest @ ..] = left {
        if table.def.name == *name {
            return kind_of(table, number);
        }
        number += 1;
        left = rest;
    }
    Found::None
}

/// The kind of the table with this number.
fn kind_of(table: &TableInfo, number: u32) -> Found
    ensures { result ≡ table_kind table.now number }
{
    match table.hyper {
        Some(_) => Found::Hyper(number),
        None => Found::Plain(number),
    }
}

/// The first of these aggregates with this name.
fn find_view(views: &[ViewDef], name: &Name) -> Found
    requires { length views.now < 2 ^ 32 }
    ensures { result ≡ view_from name.now 0 views.now }
{
    let mut number = 0;
    let mut left = views;
    while let [view, rest @ ..] = left {
        if view.name == *name {
            return Found::View(number);
        }
        number += 1;
        left = rest;
    }
    Found::None
}
