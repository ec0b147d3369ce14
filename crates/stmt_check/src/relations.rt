//! The relation that a statement names.
ghost use Rattle.std.specs.Prelude.{◌≡◌, ◌<◌, ◌^◌, length, slice_index_or, IfOk, IsTrue};
ghost use Rattle.ts_catalog.specs.Relations.{found_in};
ghost use Rattle.stmt_check.specs.Check.{IsNumbered, interval_of, no_table, no_view};
ghost use Rattle.stmt_check.specs.Refusals.{name_refusal, finds_nothing};
ghost use Rattle.stmt_check.specs.Queried.{Finds, IsInRoster, FindsHypertable, FindsPlain, FindsView};
ghost use Rattle.stmt_check.specs.Tables.{is_interval};
ghost use Rattle.stmt_check.specs.Results.{Passes};

use crate::actions::ResolveStop;
use crate::refusals::{refuse_if, refuse_marked};
use ts_catalog::{Found, find};
use ts_model::codes::{NAME_TAKEN, NO_RELATION, NOT_AGGREGATE, NOT_HYPERTABLE, TOO_MANY};
use ts_model::limits::MOST_RELATIONS;
use ts_model::{Refusal, Roster, TableInfo, ViewDef};
use ts_schema::Name;

/// The refusal with this number.
fn stop(pos: u64, code: u8) -> ResolveStop
    ensures { result ≡ ResolveStop.Refused (record { code = code; pos = pos; mark = 0 }) }
{
    ResolveStop::Refused(Refusal { code, pos, mark: 0 })
}

/// Checks that a new relation has a new name, and that there are fewer than 64 of its kind.
pub(crate) fn new_name(
    pos: u64,
    roster: &Roster,
    name: &Name,
    there: usize,
) -> Result<(), ResolveStop>
    requires { IsNumbered roster.now }
    ensures { Passes (name_refusal pos roster.now name.now there) result }
{
    refuse_if(pos, NAME_TAKEN, !is_nothing(find(roster, name)))?;
    refuse_marked(
        pos,
        TOO_MANY,
        MOST_RELATIONS as u64 + 1,
        there >= MOST_RELATIONS,
    )
}

/// Whether nothing was found.
fn is_nothing(found: Found) -> bool
    ensures { result ≡ finds_nothing found }
{
    match found {
        Found::None => true,
        Found::Plain(_) | Found::Hyper(_) | Found::View(_) => false,
    }
}

/// The number of the hypertable with this name.
pub(crate) fn hypertable(pos: u64, roster: &Roster, name: &Name) -> Result<u32, ResolveStop>
    requires { IsNumbered roster.now }
    ensures number { FindsHypertable pos (found_in roster.now name.now) result }
    ensures there { IfOk result (λ n. n < length roster.now.tables) }
{
    match find(roster, name) {
        Found::None => Err(stop(pos, NO_RELATION)),
        Found::Plain(_) | Found::View(_) => Err(stop(pos, NOT_HYPERTABLE)),
        Found::Hyper(number) => Ok(number),
    }
}

/// The number of the plain table with this name.
pub(crate) fn plain_table(pos: u64, roster: &Roster, name: &Name) -> Result<u32, ResolveStop>
    requires { IsNumbered roster.now }
    ensures number { FindsPlain pos (found_in roster.now name.now) result }
    ensures there { IfOk result (λ n. n < length roster.now.tables) }
{
    match find(roster, name) {
        Found::None => Err(stop(pos, NO_RELATION)),
        Found::Plain(number) => Ok(number),
        Found::Hyper(_) => Err(stop(pos, NAME_TAKEN)),
        Found::View(_) => Err(stop(pos, NOT_HYPERTABLE)),
    }
}

/// The number of the aggregate with this name.
pub(crate) fn aggregate(pos: u64, roster: &Roster, name: &Name) -> Result<u32, ResolveStop>
    requires { IsNumbered roster.now }
    ensures number { FindsView pos (found_in roster.now name.now) result }
    ensures there { IfOk result (λ n. n < length roster.now.views) }
{
    match find(roster, name) {
        Found::None => Err(stop(pos, NO_RELATION)),
        Found::Plain(_) | Found::Hyper(_) => Err(stop(pos, NOT_AGGREGATE)),
        Found::View(number) => Ok(number),
    }
}

/// A relation that can be queried by name.
#[derive(Clone, Copy, Debug, PartialEq, Eq)]
pub(crate) enum QueryTarget {
    /// The hypertable with this number.
    Table(u32),
    /// The aggregate with this number.
    View(u32),
}

/// The hypertable or the aggregate with this name.
pub(crate) fn queryable(pos: u64, roster: &Roster, name: &Name) -> Result<QueryTarget, ResolveStop>
    requires { IsNumbered roster.now }
    ensures found { Finds pos (found_in roster.now name.now) result }
    ensures there { IfOk result (IsInRoster roster.now) }
{
    match find(roster, name) {
        Found::None => Err(stop(pos, NO_RELATION)),
        Found::Plain(_) => Err(stop(pos, NOT_HYPERTABLE)),
        Found::Hyper(number) => Ok(QueryTarget::Table(number)),
        Found::View(number) => Ok(QueryTarget::View(number)),
    }
}

/// The table with this number.
pub(crate) fn table_info(roster: &Roster, number: u32) -> &TableInfo
    requires there { number < length roster.now.tables }
    requires numbered { IsNumbered roster.now }
    ensures table { result.now ≡ slice_index_or roster.now.tables number no_table }
    ensures columns { length result.now.def.cols < 2 ^ 32 }
    ensures interval { IsTrue (is_interval (interval_of result.now.hyper)) }
{
    roster.tables.get(number as usize)
}

/// The aggregate with this number.
pub(crate) fn view_def(roster: &Roster, number: u32) -> &ViewDef
    requires there { number < length roster.now.views }
    requires numbered { IsNumbered roster.now }
    ensures view { result.now ≡ slice_index_or roster.now.views number no_view }
    ensures names { length result.now.names < 2 ^ 32 }
{
    roster.views.get(number as usize)
}
