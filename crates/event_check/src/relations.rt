//! Tables and aggregates by their numbers, and whether a name is taken.
ghost use Rattle.std.specs.Prelude.{◌≡◌, option_copied};
ghost use Rattle.std.specs.List.{list_any};
ghost use Rattle.ts_model.specs.Roster.{hyper_of, is_taken, same_name, table_of, view_of};

use ts_model::{Hyper, Roster, TableInfo, ViewDef};
use ts_schema::{Name, Seq};

/// The aggregate with this number.
pub fn view_in(roster: &Roster, view: u32) -> Option<&ViewDef>
    ensures { option_copied result ≡ view_of roster.now view }
{
    roster.views.items().get(view as usize)
}

/// The table with this number.
pub fn table_in(roster: &Roster, table: u32) -> Option<&TableInfo>
    ensures { option_copied result ≡ table_of roster.now table }
{
    roster.tables.items().get(table as usize)
}

/// What makes a table a hypertable, if it is one.
pub(crate) fn hyper_in(roster: &Roster, table: u32) -> Option<Hyper>
    ensures { result ≡ hyper_of roster.now table }
{
    match table_in(roster, table) {
        Some(info) => info.hyper,
        None => None,
    }
}

/// Whether one of these tables has this name.
fn names_table(tables: &Seq<TableInfo>, name: &Name) -> bool
    ensures { result ≡ list_any (λ info. same_name info.def.name name.now) tables.now }
{
    tables.items().iter().any(|info| info.def.name == *name)
}

/// Whether one of these aggregates has this name.
fn names_view(views: &Seq<ViewDef>, name: &Name) -> bool
    ensures { result ≡ list_any (λ def. same_name def.name name.now) views.now }
{
    views.items().iter().any(|def| def.name == *name)
}

/// Whether a table or an aggregate has this name.
#[tactic(auto, using(crate::proofs::Places::some_place))]
pub(crate) fn is_named(roster: &Roster, name: &Name) -> bool
    ensures { result ≡ is_taken roster.now name.now }
{
    let of_table = names_table(&roster.tables, name);
    let of_view = names_view(&roster.views, name);
    of_table || of_view
}
