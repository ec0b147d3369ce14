//! Folds and aggregates over the columns of a table.
ghost use Rattle.std.specs.Prelude.{◌≡◌, nat_lt, option_copied};
ghost use Rattle.std.specs.List.{list_all};
ghost use Rattle.event_check.specs.Outputs.{outputs_fit};
ghost use Rattle.ts_model.specs.Roster.{of_table};
ghost use Rattle.ts_model.specs.Sound.{agg_fits, fold_fits, is_count_all, view_fits};

use crate::columns::names_apart;
use crate::conditions::tests_are_fit;
use crate::laws::{name_law, width_law};
use ts_model::limits::MOST_COLUMNS;
use ts_model::{Agg, Fold, Hyper, TableDef, TableInfo, ViewDef};
use ts_num::Fun;
use ts_schema::Seq;

fn counts_all(fun: Fun) -> bool
    ensures { result ≡ is_count_all fun }
{
    match fun {
        Fun::CountAll => true,
        Fun::Count => false,
        Fun::Sum => false,
        Fun::Min => false,
        Fun::Max => false,
        Fun::Avg => false,
    }
}

fn agg_is_fit(columns: usize, agg: &Agg) -> bool
    ensures { result ≡ agg_fits columns agg.now }
{
    let there = (agg.col as usize) < columns;
    let plain = !counts_all(agg.fun) || agg.col == 0;
    there && plain
}

/// Whether these keys are on the first columns.
fn keys_are_fit(columns: usize, keys: &Seq<u32>) -> bool
    ensures { result ≡ list_all (λ k. nat_lt k columns) keys.now }
{
    keys.items().iter().all(|key| (*key as usize) < columns)
}

fn aggs_are_fit(columns: usize, aggs: &Seq<Agg>) -> bool
    ensures { result ≡ list_all (agg_fits columns) aggs.now }
{
    aggs.items().iter().all(|agg| agg_is_fit(columns, agg))
}

/// Whether a fold is over the first columns.
fn fold_is_fit(columns: usize, fold: &Fold) -> bool
    ensures { result ≡ fold_fits columns fold.now }
{
    let keys = keys_are_fit(columns, &fold.keys);
    let aggs = aggs_are_fit(columns, &fold.aggs);
    let tests = tests_are_fit(columns, &fold.tests);
    keys && aggs && tests
}

/// Whether an aggregate has at least one function, at most 16 output columns, and as many different
/// names.
fn outputs_are_fit(def: &ViewDef) -> bool
    ensures { result ≡ outputs_fit def.now }
{
    let keys = def.fold.keys.len();
    let aggs = def.fold.aggs.len();
    if aggs == 0 || keys >= MOST_COLUMNS || aggs >= MOST_COLUMNS {
        return false;
    }
    let outputs = 1 + keys + aggs;
    let few = outputs <= MOST_COLUMNS;
    let named = def.names.len() == outputs;
    few && named && names_apart(def.names.items())
}

fn view_is_fit(def: &ViewDef, table: &TableDef, _hyper: Hyper) -> bool
    ensures { result ≡ view_fits def.now table.now _hyper }
{
    name_law(&def.name);
    width_law(def.fold.width);
    let outputs = outputs_are_fit(def);
    outputs && fold_is_fit(table.cols.len(), &def.fold)
}

/// Whether an aggregate may be over a table.
pub(crate) fn view_is_fit_in(def: &ViewDef, info: Option<&TableInfo>) -> bool
    ensures { result ≡ of_table (view_fits def.now) (option_copied info.entry) }
{
    match info {
        None => false,
        Some(info) => match info.hyper {
            None => false,
            Some(hyper) => view_is_fit(def, &info.def, hyper),
        },
    }
}
