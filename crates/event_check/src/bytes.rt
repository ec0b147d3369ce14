//! The bytes that an event and its parts take in a journal, or the last count of 64 bits if they are more.
ghost use Rattle.std.specs.Prelude.{◌≡◌, ◌-◌, ◌^◌, ◌*◌, ◌+◌, min, sum_by};
ghost use Rattle.ts_model.specs.declared.events.Event.TheVariants.{Table, View};
ghost use Rattle.ts_model.specs.Bytes.{event_bytes, fold_bytes, name_bytes, op_bytes, row_bytes, value_bytes};

use ts_model::{Event, Fold, Op, TableDef, ViewDef};
use ts_schema::{Column, Name, Row, Values};

/// The bytes of this many items with `each` bytes each.
fn bytes_each(count: usize, each: u64) -> u64
    ensures { result ≡ min (count * each) (2 ^ 64 - 1) }
{
    (count as u64).saturating_mul(each)
}

fn bytes_of_name(name: &Name) -> u64
    ensures { result ≡ min (name_bytes name.now) (2 ^ 64 - 1) }
{
    (name.bytes().len() as u64).saturating_add(1)
}

fn bytes_of_names(names: &[Name]) -> u64
    ensures { result ≡ min (sum_by name_bytes names.now) (2 ^ 64 - 1) }
{
    let mut total = 0u64;
    for name in names {
        total = total.saturating_add(bytes_of_name(name));
    }
    total
}

fn bytes_of_columns(cols: &[Column]) -> u64
    ensures { result ≡ min (sum_by (λ c. name_bytes c.name + 1) cols.now) (2 ^ 64 - 1) }
{
    let mut total = 0u64;
    for col in cols {
        total = total.saturating_add(bytes_of_name(&col.name).saturating_add(1));
    }
    total
}

/// The bytes that a value takes, or NULL.
#[inline(always)]
pub fn bytes_of_value(value: Option<i64>) -> u64
    ensures { result ≡ value_bytes value }
{
    match value {
        None => 1,
        Some(_) => 9,
    }
}

/// The bytes that values take.
pub fn bytes_of_values(vals: &[Option<i64>]) -> u64
    ensures { result ≡ min (sum_by value_bytes vals.now) (2 ^ 64 - 1) }
{
    let mut total = 0u64;
    for value in vals {
        total = total.saturating_add(bytes_of_value(*value));
    }
    total
}

/// The bytes that the values of a row take.
#[inline(always)]
fn bytes_of_others(vals: &Values) -> u64
    ensures { result ≡ min (sum_by value_bytes vals.now) (2 ^ 64 - 1) }
{
    let mut total = 0u64;
    for i in 0..vals.len() {
        total = total.saturating_add(bytes_of_value(vals.get(i)));
    }
    total
}

#[inline(always)]
fn bytes_of_row(row: &Row) -> u64
    ensures { result ≡ min (row_bytes row.now) (2 ^ 64 - 1) }
{
    bytes_of_others(&row.vals).saturating_add(9)
}

/// The bytes that rows take.
pub fn bytes_of_rows(rows: &[Row]) -> u64
    ensures { result ≡ min (sum_by row_bytes rows.now) (2 ^ 64 - 1) }
{
    let mut total = 0u64;
    for row in rows {
        total = total.saturating_add(bytes_of_row(row));
    }
    total
}

fn bytes_of_op(op: &Op) -> u64
    ensures { result ≡ min (op_bytes op.now) (2 ^ 64 - 1) }
{
    match op {
        Op::Insert { rows, .. } => bytes_of_rows(rows.items()).saturating_add(9),
        Op::Delete { tests, .. } => bytes_each(tests.len(), 13).saturating_add(9),
    }
}

fn bytes_of_ops(ops: &[Op]) -> u64
    ensures { result ≡ min (sum_by op_bytes ops.now) (2 ^ 64 - 1) }
{
    let mut total = 0u64;
    for op in ops {
        total = total.saturating_add(bytes_of_op(op));
    }
    total
}

fn bytes_of_fold(fold: &Fold) -> u64
    ensures { result ≡ min (fold_bytes fold.now) (2 ^ 64 - 1) }
{
    let keys = bytes_each(fold.keys.len(), 4);
    let aggs = bytes_each(fold.aggs.len(), 5);
    let tests = bytes_each(fold.tests.len(), 13);
    keys.saturating_add(aggs)
        .saturating_add(tests)
        .saturating_add(22)
}

fn bytes_of_table(def: &TableDef) -> u64
    ensures { result ≡ min (event_bytes (Table def.now)) (2 ^ 64 - 1) }
{
    bytes_of_name(&def.name)
        .saturating_add(bytes_of_columns(def.cols.items()))
        .saturating_add(2)
}

fn bytes_of_view(def: &ViewDef) -> u64
    ensures { result ≡ min (event_bytes (View def.now)) (2 ^ 64 - 1) }
{
    bytes_of_name(&def.name)
        .saturating_add(bytes_of_fold(&def.fold))
        .saturating_add(bytes_of_names(def.names.items()))
        .saturating_add(7)
}

/// The bytes that an event takes.
pub fn bytes_of(event: &Event) -> u64
    ensures { result ≡ min (event_bytes event.now) (2 ^ 64 - 1) }
{
    match event {
        Event::Table(def) => bytes_of_table(def),
        Event::Hyper { .. } => 17,
        Event::View(def) => bytes_of_view(def),
        Event::Mode { .. } => 6,
        Event::Commit(ops) => bytes_of_ops(ops.items()).saturating_add(5),
        Event::Cut { .. } => 21,
        Event::Built { .. } => 17,
    }
}
