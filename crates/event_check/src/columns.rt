//! Names that are all different, and the columns of a table.
ghost use Rattle.std.specs.Prelude.{◌≡◌, map, option_copied};
ghost use Rattle.std.specs.List.{list_any};
ghost use Rattle.ts_model.specs.Roster.{same_name};
ghost use Rattle.ts_model.specs.Sound.{are_names, columns_fit, hyper_fits};

use crate::laws::name_law;
use ts_model::limits::{MOST_COLUMNS, MOST_INTERVAL};
use ts_model::{Hyper, TableInfo};
use ts_schema::{Column, Name, Seq};

/// Whether this is one of these names.
fn is_one_of(name: &Name, names: &[Name]) -> bool
    ensures { result ≡ list_any (same_name name.now) names.now }
{
    match names {
        [] => false,
        [other, more @ ..] => *name == *other || is_one_of(name, more),
    }
}

/// Whether no two of these names are the same.
pub(crate) fn names_apart(names: &[Name]) -> bool
    ensures { result ≡ are_names names.now }
{
    match names {
        [] => true,
        [name, more @ ..] => {
            name_law(name);
            !is_one_of(name, more) && names_apart(more)
        }
    }
}

/// Whether a column has this name.
fn names_column(name: &Name, cols: &[Column]) -> bool
    ensures { result ≡ list_any (same_name name.now) (map (λ c. c.name) cols.now) }
{
    match cols {
        [] => false,
        [col, more @ ..] => *name == col.name || names_column(name, more),
    }
}

/// Whether no two columns have the same name.
fn columns_apart(cols: &[Column]) -> bool
    ensures { result ≡ are_names (map (λ c. c.name) cols.now) }
{
    match cols {
        [] => true,
        [col, more @ ..] => {
            name_law(&col.name);
            !names_column(&col.name, more) && columns_apart(more)
        }
    }
}

/// Whether a table may have these columns.
pub(crate) fn columns_are_fit(cols: &Seq<Column>) -> bool
    ensures { result ≡ columns_fit cols.now }
{
    let some = 0 < cols.len();
    let few = cols.len() <= MOST_COLUMNS;
    some && few && columns_apart(cols.items())
}

/// Whether a table may become this hypertable.
pub(crate) fn hyper_is_fit(hyper: Hyper, info: Option<&TableInfo>) -> bool
    ensures { result ≡ hyper_fits hyper (option_copied info.entry) }
{
    match info {
        None => false,
        Some(info) => {
            let there = (hyper.at as usize) < info.def.cols.len();
            let positive = 0 < hyper.interval;
            let short = hyper.interval <= MOST_INTERVAL;
            there && positive && short
        }
    }
}
