//! The rows of an INSERT.
ghost use Rattle.std.specs.Prelude.{◌≡◌, ◌<◌, ◌^◌, ◌==◌, ◌||◌, [], ◌++◌, length, map, slice_index_or, None, IfOk};
ghost use Rattle.std.specs.List.{flat_map};
ghost use Rattle.ts_catalog.specs.Columns.{place_from};
ghost use Rattle.stmt_check.specs.Results.{Checks, Passes};
ghost use Rattle.stmt_check.specs.Rows.{blank_column, leaves_out, list_refusal, list_refusal_of, other_places, others_of, value_at, place_in, row_of, row_refusal, rows_of, rows_refusal, rule_of, rules_from, shape_of, time_place, value_refusal, value_rules, values_refusal, ChecksRows};
ghost use Rattle.stmt_check.specs.Tables.{is_among};

use crate::actions::ResolveStop;
use crate::limits::MAX_ROWS;
use crate::refusals::{present, refuse_if, refuse_marked};
use cell_rows::CellRows;
use std::alloc::Global;
use std::sync::Arc;
use ts_bucket::{MAX_TIME, MIN_TIME};
use ts_catalog::column_place;
use ts_model::codes::{BAD_TIME, NAME_TAKEN, NO_COLUMN, NULL_VALUE, TOO_MANY, VALUE_COUNT};
use ts_schema::{Column, Name, NoMemory, Row, Seq, SharedSlice, ValueBlock, Values};

/// The condition of a value.
#[derive(Clone, Copy, Debug, PartialEq, Eq)]
pub(crate) struct Rule {
    /// Whether it is a time.
    time: bool,
    /// Whether it must not be NULL.
    must: bool,
}

/// The columns that the values of an INSERT's rows are for.
#[derive(Drop, Debug)]
pub(crate) struct Shape {
    /// The rule of each value.
    rules: Seq<Rule>,
    /// Whether a column that must not be NULL is omitted.
    left_out: bool,
    /// The number of rows.
    count: u64,
    /// The place of the time.
    time: Option<usize>,
    /// The places of the other columns' values, in declared order.
    others: Seq<Option<usize>>,
}

/// The rows of an INSERT.
pub(crate) fn check_rows(
    alloc: Global,
    pos: u64,
    at: u32,
    columns: &[Column],
    names: &Option<Seq<Name>>,
    rows: &CellRows<Option<i64>>,
) -> Result<SharedSlice<Row>, ResolveStop>
    requires { length columns.now < 2 ^ 32 }
    ensures { ChecksRows pos at columns.now names.now rows.now result }
{
    check_list(pos, columns, names)?;
    let shape = shape_for(alloc, at, columns, names, rows.len() as u64)?;
    check_each(alloc, pos, &shape, rows)
}

/// Checks that the column list names no column twice, and that each exists.
fn check_list(pos: u64, columns: &[Column], names: &Option<Seq<Name>>) -> Result<(), ResolveStop>
    requires { length columns.now < 2 ^ 32 }
    ensures { Passes (list_refusal_of pos columns.now names.now) result }
{
    match names {
        None => Ok(()),
        Some(names) => check_names(pos, columns, names.items()),
    }
}

/// Checks that no column is named twice, and that each exists.
#[tactic(auto, using(crate::proofs::Steps::list_step))]
fn check_names(pos: u64, columns: &[Column], names: &[Name]) -> Result<(), ResolveStop>
    requires { length columns.now < 2 ^ 32 }
    ensures { Passes (list_refusal pos columns.now [] names.now) result }
{
    for (place, name) in names.iter().enumerate() {
        refuse_if(pos, NAME_TAKEN, has_name(&names[..place], name))?;
        present(pos, NO_COLUMN, column_place(columns, name))?;
    }
    Ok(())
}

/// Whether a name is among these.
pub(crate) fn has_name(names: &[Name], name: &Name) -> bool
    ensures { result ≡ is_among name.now names.now }
{
    names.iter().any(|other| *other == *name)
}

/// The columns that the values are for.
fn shape_for(
    alloc: Global,
    at: u32,
    columns: &[Column],
    names: &Option<Seq<Name>>,
    count: u64,
) -> Result<Shape, NoMemory>
    requires { length columns.now < 2 ^ 32 }
    ensures { IfOk result (λ s. s ≡ shape_of at columns.now names.now count) }
{
    Ok(Shape {
        rules: rules(alloc, at, columns, names)?,
        left_out: leaves_one_out(at, columns, names),
        count,
        time: place_of_time(at, columns, names),
        others: places_of_others(alloc, at, columns, names)?,
    })
}

/// The rule of each value.
fn rules(
    alloc: Global,
    at: u32,
    columns: &[Column],
    names: &Option<Seq<Name>>,
) -> Result<Seq<Rule>, NoMemory>
    requires { length columns.now < 2 ^ 32 }
    ensures { IfOk result (λ r. r ≡ value_rules at columns.now names.now) }
{
    match names {
        None => rules_in_order(alloc, at, columns),
        Some(names) => rules_listed(alloc, at, columns, names.items()),
    }
}

/// The rules of all columns in declared order.
fn rules_in_order(alloc: Global, at: u32, columns: &[Column]) -> Result<Seq<Rule>, NoMemory>
    ensures { IfOk result (λ r. r ≡ rules_from at 0 columns.now) }
{
    let mut rules = Seq::new(alloc);
    for (place, column) in columns.iter().enumerate() {
        rules.push(rule_for(at as usize, column.must, place))?;
    }
    Ok(rules)
}

/// The rules of the columns with these names.
fn rules_listed(
    alloc: Global,
    at: u32,
    columns: &[Column],
    names: &[Name],
) -> Result<Seq<Rule>, NoMemory>
    requires { length columns.now < 2 ^ 32 }
    ensures { IfOk result (λ r. r ≡ map (rule_of at columns.now) names.now) }
{
    let mut rules = Seq::new(alloc);
    for name in names {
        rules.push(rule_named(at, columns, name))?;
    }
    Ok(rules)
}

/// The rule of the column at a place.
fn rule_for(at: usize, must: bool, place: usize) -> Rule
    ensures { result ≡ record { time = at == place; must = must || at == place } }
{
    Rule {
        time: at == place,
        must: must || at == place,
    }
}

/// The rule of the column with a name.
fn rule_named(at: u32, columns: &[Column], name: &Name) -> Rule
    requires { length columns.now < 2 ^ 32 }
    ensures { result ≡ rule_of at columns.now name.now }
{
    let place = column_place(columns, name).unwrap_or(0) as usize;
    rule_for(at as usize, must_at(columns, place), place)
}

/// Whether the column at a place must not be NULL.
fn must_at(columns: &[Column], place: usize) -> bool
    ensures { result ≡ (slice_index_or columns.now place blank_column).must }
{
    if place < columns.len() {
        columns[place].must
    } else {
        false
    }
}

/// Whether a column that must not be NULL is omitted.
fn leaves_one_out(at: u32, columns: &[Column], names: &Option<Seq<Name>>) -> bool
    ensures { result ≡ leaves_out at names.now 0 columns.now }
{
    for (place, column) in columns.iter().enumerate() {
        if (column.must || at as usize == place) && place_of(names, place, column).is_none() {
            return true;
        }
    }
    false
}

/// The place of a column's value among those of a row.
fn place_of(names: &Option<Seq<Name>>, place: usize, column: &Column) -> Option<usize>
    ensures { result ≡ place_in names.now place column.now }
{
    match names {
        None => Some(place),
        Some(names) => place_among(names.items(), &column.name),
    }
}

/// The place of the first of these names that equals this one.
fn place_among(names: &[Name], name: &Name) -> Option<usize>
    ensures { result ≡ place_from name.now 0 names.now }
{
    for (place, other) in names.iter().enumerate() {
        if *other == *name {
            return Some(place);
        }
    }
    None
}

/// The place of the time.
fn place_of_time(at: u32, columns: &[Column], names: &Option<Seq<Name>>) -> Option<usize>
    ensures { result ≡ time_place at names.now 0 columns.now }
{
    for (place, column) in columns.iter().enumerate() {
        if at as usize == place {
            return place_of(names, place, column);
        }
    }
    None
}

/// The places of the other columns' values, in declared order.
fn places_of_others(
    alloc: Global,
    at: u32,
    columns: &[Column],
    names: &Option<Seq<Name>>,
) -> Result<Seq<Option<usize>>, NoMemory>
    ensures { IfOk result (λ places. places ≡ other_places at names.now 0 columns.now) }
{
    let mut places = Seq::new(alloc);
    for (place, column) in columns.iter().enumerate() {
        if at as usize != place {
            places.push(place_of(names, place, column))?;
        }
    }
    Ok(places)
}

/// The rows, after each is checked in order.
fn check_each(
    alloc: Global,
    pos: u64,
    shape: &Shape,
    rows: &CellRows<Option<i64>>,
) -> Result<SharedSlice<Row>, ResolveStop>
    ensures { Checks (rows_refusal pos shape.now 0 rows.now) (rows_of shape.now rows.now) result }
{
    for (place, values) in rows.iter().enumerate() {
        check_row(pos, shape, place, values)?;
    }
    Ok(make_rows(alloc, shape, rows)?)
}

/// Checks that a row has one value per listed column, and that each meets its rule.
fn check_row(
    pos: u64,
    shape: &Shape,
    place: usize,
    values: &[Option<i64>],
) -> Result<(), ResolveStop>
    ensures { Passes (row_refusal pos shape.now place values.now) result }
{
    refuse_marked(pos, TOO_MANY, shape.count, place >= MAX_ROWS)?;
    refuse_if(pos, VALUE_COUNT, values.len() != shape.rules.len())?;
    refuse_if(pos, NULL_VALUE, shape.left_out)?;
    check_values(pos, shape.rules.items(), values)
}

/// Checks that each value meets its rule.
fn check_values(pos: u64, rules: &[Rule], values: &[Option<i64>]) -> Result<(), ResolveStop>
    ensures { Passes (values_refusal pos rules.now values.now) result }
{
    for (rule, value) in rules.iter().zip(values) {
        check_value(pos, *rule, *value)?;
    }
    Ok(())
}

/// Checks that a time is in the range of times, and that NULL is there only if it is allowed.
fn check_value(pos: u64, rule: Rule, value: Option<i64>) -> Result<(), ResolveStop>
    ensures { Passes (value_refusal pos rule value) result }
{
    match value {
        None => refuse_if(pos, NULL_VALUE, rule.must),
        Some(number) => refuse_if(
            pos,
            BAD_TIME,
            rule.time && !(MIN_TIME <= number && number <= MAX_TIME),
        ),
    }
}

/// The rows of these values. The values of all rows share one block.
fn make_rows(
    alloc: Global,
    shape: &Shape,
    rows: &CellRows<Option<i64>>,
) -> Result<SharedSlice<Row>, NoMemory>
    ensures { IfOk result (λ made. made ≡ rows_of shape.now rows.now) }
{
    let block = Arc::new(alloc, other_values(alloc, shape, rows)?)?;
    // Reading the length tells the prover that it fits 64 bits, and so does the place after a row's values in
    // the block.
    let _total = block.len();
    let mut made = Vec::with_capacity(alloc, rows.len())?;
    let mut from = 0;
    for values in rows.iter() {
        let to = from + shape.others.len();
        made.push(Row {
            at: value_at(values, shape.time).unwrap_or(0),
            vals: Values::part(&block, from, to)?,
        })?;
        from = to;
    }
    SharedSlice::of(alloc, Seq::of(made))
}

/// The values of all columns except the time, in declared order, row by row.
fn other_values(
    alloc: Global,
    shape: &Shape,
    rows: &CellRows<Option<i64>>,
) -> Result<ValueBlock, NoMemory>
    ensures { IfOk result (λ others. others ≡ flat_map (others_of shape.now) rows.now) }
{
    let count = rows.len().saturating_mul(shape.others.len());
    let mut others = ValueBlock::with_capacity(alloc, count)?;
    for values in rows.iter() {
        append_others(shape.others.items(), values, &mut others)?;
    }
    Ok(others)
}

/// Appends the values at these places.
fn append_others(
    places: &[Option<usize>],
    values: &[Option<i64>],
    others: &mut ValueBlock,
) -> Result<(), NoMemory>
    ensures { IfOk result (λ _. others.new ≡ others.old ++ map (value_at values.now) places.now) }
{
    for place in places {
        others.push(value_at(values, *place))?;
    }
    Ok(())
}

/// The value at a place, or NULL if a column is omitted.
fn value_at(values: &[Option<i64>], place: Option<usize>) -> Option<i64>
    ensures { result ≡ value_at values.now place }
{
    match place {
        Some(place) if place < values.len() => values[place],
        _ => None,
    }
}
