//! Columns by their names.
ghost use Rattle.std.specs.Prelude.{◌≡◌, ◌<◌, ◌^◌, length};
ghost use Rattle.ts_catalog.specs.Columns.{column_from, column_of, hyper_number, place_from, view_column_of};

use ts_model::{TableInfo, ViewDef};
use ts_schema::{Column, Name};

/// The number of a table's column with this name. In a hypertable column 0 is the time, and the others count
/// from 1 in declared order. In a plain table columns count from 0 in declared order.
pub fn column(info: &TableInfo, name: &Name) -> Option<u32>
    requires { length info.now.def.cols < 2 ^ 32 }
    ensures column { result ≡ column_of info.now name.now }
{
    let place = column_place(info.def.cols.items(), name)?;
    Some(match info.hyper {
        Some(hyper) => number_of_place(hyper.at, place),
        None => place,
    })
}

/// The number of a hypertable's column by its declared place and that of the time column.
fn number_of_place(at: u32, place: u32) -> u32
    ensures { result ≡ hyper_number at place }
{
    if place == at {
        0
    } else if place < at {
        place + 1
    } else {
        place
    }
}

/// The declared place of the first of these columns with this name.
pub fn column_place(columns: &[Column], name: &Name) -> Option<u32>
    requires { length columns.now < 2 ^ 32 }
    ensures column { result ≡ column_from name.now 0 columns.now }
{
    let mut place = 0;
    let mut left = columns;
    while let [column, rest @ ..] = left {
        if column.name == *name {
            return Some(place);
        }
        place += 1;
        left = rest;
    }
    None
}

/// The place of an aggregate's output column with this name, counted from 0 for the bucket.
pub fn view_column(def: &ViewDef, name: &Name) -> Option<u32>
    requires { length def.now.names < 2 ^ 32 }
    ensures column { result ≡ view_column_of def.now name.now }
{
    name_place(def.names.items(), name)
}

/// The place of the first of these names that equals this one.
pub fn name_place(names: &[Name], name: &Name) -> Option<u32>
    requires { length names.now < 2 ^ 32 }
    ensures place { result ≡ place_from name.now 0 names.now }
{
    let mut place = 0;
    let mut left = names;
    while let [first, rest @ ..] = left {
        if *first == *name {
            return Some(place);
        }
        place += 1;
        left = rest;
    }
    None
}
