//! Rows for a hypertable.
ghost use Rattle.std.specs.Prelude.{◌≡◌, ◌+◌, ◌<◌, ◌^◌, [], ◌∷◌, drop, option_copied, remove, IfSome, MatchOption};
ghost use Rattle.std.specs.List.{list_all};
ghost use Rattle.ts_model.specs.Roster.{of_table};
ghost use Rattle.ts_model.specs.Sound.{row_fits, rows_fit, value_fits, values_fit};

use crate::laws::word_law;
use ts_bucket::{MAX_TIME, MIN_TIME};
use ts_model::{Hyper, TableDef, TableInfo};
use ts_schema::{Column, Row, Values};

#[inline(always)]
fn value_is_fit(col: &Column, value: Option<i64>) -> bool
    ensures { result ≡ value_fits col.now value }
{
    match value {
        None => !col.must,
        Some(number) => {
            word_law(number);
            true
        }
    }
}

/// The value at a place, counted from 0, if there is one.
#[inline(always)]
fn value_at(vals: &Values, place: usize) -> Option<Option<i64>>
    ensures value { MatchOption result (drop place vals.now ≡ [])
        (λ value. drop place vals.now ≡ value ∷ drop (place + 1) vals.now) }
    ensures within { IfSome result (λ _. place + 1 < 2 ^ 64) }
{
    if place < vals.len() {
        Some(vals.get(place))
    } else {
        None
    }
}

/// Whether there is no value at a place or later.
#[inline(always)]
fn none_from(vals: &Values, place: usize) -> bool
    ensures { result ≡ values_fit [] (drop place vals.now) }
{
    match value_at(vals, place) {
        None => true,
        Some(_) => false,
    }
}

/// Whether the values from a place on fit columns.
#[inline(always)]
fn values_are_fit(cols: &[Column], vals: &Values, place: usize) -> bool
    ensures { result ≡ values_fit cols.now (drop place vals.now) }
{
    match cols {
        [] => none_from(vals, place),
        [col, more_cols @ ..] => match value_at(vals, place) {
            None => false,
            Some(value) => value_is_fit(col, value) && values_are_fit(more_cols, vals, place + 1),
        },
    }
}

/// Whether the values from a place on fit the columns, except the column at another place.
#[inline(always)]
fn others_are_fit(at: usize, cols: &[Column], vals: &Values, place: usize) -> bool
    ensures { result ≡ values_fit (remove cols.now at) (drop place vals.now) }
{
    match cols {
        [] => none_from(vals, place),
        [col, more_cols @ ..] => {
            if at == 0 {
                return values_are_fit(more_cols, vals, place);
            }
            match value_at(vals, place) {
                None => false,
                Some(value) => value_is_fit(col, value)
                    && others_are_fit(at - 1, more_cols, vals, place + 1),
            }
        }
    }
}

#[inline(always)]
fn row_is_fit(def: &TableDef, hyper: Hyper, row: &Row) -> bool
    ensures { result ≡ row_fits def.now hyper row.now }
{
    let timed = MIN_TIME <= row.at && row.at <= MAX_TIME;
    let values = others_are_fit(hyper.at as usize, def.cols.items(), &row.vals, 0);
    timed && values
}

fn each_row_is_fit(def: &TableDef, hyper: Hyper, rows: &[Row]) -> bool
    ensures { result ≡ list_all (row_fits def.now hyper) rows.now }
{
    rows.iter().all(|row| row_is_fit(def, hyper, row))
}

fn rows_are_fit(def: &TableDef, hyper: Hyper, rows: &[Row]) -> bool
    ensures { result ≡ rows_fit def.now hyper rows.now }
{
    let some = 0 < rows.len();
    let each = each_row_is_fit(def, hyper, rows);
    some && each
}

/// Whether there is a row, and all may be inserted into a table.
pub(crate) fn rows_are_fit_in(rows: &[Row], info: Option<&TableInfo>) -> bool
    ensures { result ≡ of_table (λ def hyper. rows_fit def hyper rows.now) (option_copied info.entry) }
{
    match info {
        None => false,
        Some(info) => match info.hyper {
            None => false,
            Some(hyper) => rows_are_fit(&info.def, hyper, rows),
        },
    }
}
