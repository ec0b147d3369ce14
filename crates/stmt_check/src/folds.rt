//! Tests and folds over a hypertable.
ghost use Rattle.std.specs.Prelude.{◌≡◌, ◌<◌, ◌+◌, ◌^◌, ◌&&◌, ◌++◌, length, map, unwrap_or, IfOk, IsTrue};
ghost use Rattle.ts_schema.specs.Names.{is_name};
ghost use Rattle.ts_num.specs.declared.values.Fun.{Fun};
ghost use Rattle.stmt_check.specs.Folds.{aggregate_name, argument_of, argument_refusal, columns_before, is_aggregate, fold_of, fold_refusal, function_name, head_name, rest_of, rest_refusal, is_key, is_step, is_taken, is_time_column, key_refusal, number_or_zero, output_count, output_names, tests_of, tests_refusal, ChecksWidth, ChecksKeys, ChecksAggregate, ChecksAggregates, calendar_of, calendar_refusal, is_unit, unit_count, units_refusal};
ghost use Rattle.stmt_check.specs.Results.{Checks};
ghost use Rattle.stmt_check.specs.Tables.{is_among};

use crate::actions::ResolveStop;
use crate::refusals::{present, refuse_if, refuse_marked};
use std::alloc::Global;
use stmt_syntax::{NamedAgg, NamedFold, NamedTest};
use ts_bucket::{MOST_STEP, Width, width};
use ts_catalog::column;
use ts_model::codes::{BAD_UNIT, BAD_WIDTH, NAME_TAKEN, NO_COLUMN, TOO_MANY};
use ts_model::limits::MOST_COLUMNS;
use ts_model::{Agg, Fold, Refusal, TableInfo};
use ts_num::Fun;
use ts_schema::{Name, NoMemory, Seq, Test};

/// The name of a bucket's column if no other is given.
const BUCKET_NAME: &[u8] = b"time_bucket";

/// The name of the column of a bucket of the calendar if no other is given.
const CALENDAR_NAME: &[u8] = b"calendar_bucket";

/// The tests with the numbers of their columns.
pub(crate) fn check_tests(
    alloc: Global,
    pos: u64,
    info: &TableInfo,
    tests: &[NamedTest],
) -> Result<Seq<Test>, ResolveStop>
    requires { length info.now.def.cols < 2 ^ 32 }
    ensures { Checks (tests_refusal pos info.now tests.now) (tests_of info.now tests.now) result }
{
    let mut numbered = Seq::new(alloc);
    for test in tests {
        let col = present(pos, NO_COLUMN, column(info, &test.col))?;
        numbered.push(Test {
            col,
            cmp: test.cmp,
            num: test.num,
        })?;
    }
    Ok(numbered)
}

/// The part of a fold after its head, with the numbers of its columns.
#[derive(Drop)]
pub(crate) struct FoldTail {
    keys: Seq<u32>,
    aggs: Seq<Agg>,
    tests: Seq<Test>,
}

/// The fold with the numbers of its columns; `distinct` if its output names must differ.
pub(crate) fn check_fold(
    alloc: Global,
    pos: u64,
    distinct: bool,
    info: &TableInfo,
    fold: &NamedFold,
) -> Result<Fold, ResolveStop>
    requires { length info.now.def.cols < 2 ^ 32 }
    ensures { Checks (fold_refusal pos distinct info.now fold.now) (fold_of info.now fold.now) result }
{
    let width = check_width(pos, info, fold)?;
    let FoldTail { keys, aggs, tests } = check_rest(
        alloc,
        pos,
        distinct,
        name_of_head(BUCKET_NAME, fold),
        info,
        fold,
    )?;
    Ok(Fold {
        width,
        keys,
        aggs,
        tests,
    })
}

/// The fold by buckets of the calendar with the numbers of its columns, and the number of units of a bucket.
pub(crate) fn check_calendar(
    alloc: Global,
    pos: u64,
    info: &TableInfo,
    number: i64,
    unit: &Name,
    fold: &NamedFold,
) -> Result<(u32, Fold), ResolveStop>
    requires { length info.now.def.cols < 2 ^ 32 }
    ensures { Checks (calendar_refusal pos info.now number unit.now fold.now)
        (unwrap_or (unit_count number) 0, calendar_of info.now fold.now) result }
{
    let number = check_units(pos, info, number, unit, fold)?;
    let FoldTail { keys, aggs, tests } = check_rest(
        alloc,
        pos,
        false,
        name_of_head(CALENDAR_NAME, fold),
        info,
        fold,
    )?;
    let fold = Fold {
        width: Width { step: 1, shift: 0 },
        keys,
        aggs,
        tests,
    };
    Ok((number, fold))
}

/// The number of units of a bucket of the calendar, if the unit is valid and the column is the time column.
fn check_units(
    pos: u64,
    info: &TableInfo,
    number: i64,
    unit: &Name,
    fold: &NamedFold,
) -> Result<u32, ResolveStop>
    requires { length info.now.def.cols < 2 ^ 32 }
    ensures { Checks (units_refusal pos info.now number unit.now fold.now) (unwrap_or (unit_count number) 0) result }
{
    let count = present(pos, BAD_UNIT, unit_count(number))?;
    refuse_if(pos, BAD_UNIT, !is_unit(unit.bytes()))?;
    refuse_if(pos, NO_COLUMN, !is_time(column(info, &fold.at)))?;
    Ok(count)
}

/// The number of units of a bucket of the calendar, if it is in range.
fn unit_count(number: i64) -> Option<u32>
    ensures { result ≡ unit_count number }
{
    if 1 <= number && number <= 1_200 {
        Some(number as u32)
    } else {
        None
    }
}

/// Whether a word is a unit of the calendar.
fn is_unit(word: &[u8]) -> bool
    ensures { result ≡ is_unit word.now }
{
    word == b"day".as_slice()
        || word == b"week".as_slice()
        || word == b"month".as_slice()
        || word == b"year".as_slice()
}

/// The rest of a fold after its head, whose column has this name.
pub(crate) fn check_rest(
    alloc: Global,
    pos: u64,
    distinct: bool,
    head: &[u8],
    info: &TableInfo,
    fold: &NamedFold,
) -> Result<FoldTail, ResolveStop>
    requires { length info.now.def.cols < 2 ^ 32 }
    ensures { Checks (rest_refusal pos distinct head.now info.now fold.now) (rest_of info.now fold.now) result }
{
    let keys = check_keys(alloc, pos, distinct, head, info, fold)?;
    let aggs = check_aggregates(alloc, pos, distinct, head, info, fold)?;
    let tests = check_tests(alloc, pos, info, fold.tests.items())?;
    Ok(FoldTail { keys, aggs, tests })
}

/// The width, if it is in range and the column is the time column.
fn check_width(pos: u64, info: &TableInfo, fold: &NamedFold) -> Result<Width, ResolveStop>
    requires { length info.now.def.cols < 2 ^ 32 }
    ensures { ChecksWidth pos info.now fold.now result }
{
    refuse_if(pos, BAD_WIDTH, !is_step_in_range(fold.step))?;
    refuse_if(pos, NO_COLUMN, !is_time(column(info, &fold.at)))?;
    match width(fold.step, fold.shift) {
        Some(width) => Ok(width),
        None => Err(ResolveStop::Refused(Refusal {
            code: BAD_WIDTH,
            pos,
            mark: 0,
        })),
    }
}

/// Whether a step is in range.
fn is_step_in_range(step: i64) -> bool
    ensures { result ≡ is_step step }
{
    0 < step && step <= MOST_STEP
}

/// Whether a column is the time column.
fn is_time(column: Option<u32>) -> bool
    ensures { result ≡ is_time_column column }
{
    match column {
        Some(number) => number == 0,
        None => false,
    }
}

/// The numbers of the keys' columns.
#[tactic(auto, using(crate::proofs::Steps::keys_step))]
fn check_keys(
    alloc: Global,
    pos: u64,
    distinct: bool,
    head: &[u8],
    info: &TableInfo,
    fold: &NamedFold,
) -> Result<Seq<u32>, ResolveStop>
    requires { length info.now.def.cols < 2 ^ 32 }
    ensures { ChecksKeys pos distinct head.now info.now fold.now result }
{
    let keys = fold.keys.items();
    let count = count_columns(fold);
    let mut numbers = Seq::new(alloc);
    for (place, key) in keys.iter().enumerate() {
        let taken = is_bucket_or_key(head, &keys[..place], key.bytes());
        let number = check_key(
            pos,
            distinct && taken,
            count,
            info,
            columns_up_to(place, 0),
            key,
        )?;
        numbers.push(number)?;
    }
    Ok(numbers)
}

/// The number of a key's column, after `others` columns. `repeats` is whether its name must differ and is
/// taken.
fn check_key(
    pos: u64,
    repeats: bool,
    count: u64,
    info: &TableInfo,
    others: u64,
    key: &Name,
) -> Result<u32, ResolveStop>
    requires { length info.now.def.cols < 2 ^ 32 }
    ensures { Checks (key_refusal pos count info.now others repeats key.now) (number_or_zero info.now key.now) result }
{
    refuse_if(pos, NAME_TAKEN, repeats)?;
    let number = present(pos, NO_COLUMN, column(info, key))?;
    refuse_marked(pos, TOO_MANY, count, others >= MOST_COLUMNS as u64)?;
    Ok(number)
}

/// The aggregates with the numbers of their columns.
#[tactic(auto, using(crate::proofs::Steps::aggregates_step))]
fn check_aggregates(
    alloc: Global,
    pos: u64,
    distinct: bool,
    head: &[u8],
    info: &TableInfo,
    fold: &NamedFold,
) -> Result<Seq<Agg>, ResolveStop>
    requires { length info.now.def.cols < 2 ^ 32 }
    ensures { ChecksAggregates pos distinct head.now info.now fold.now result }
{
    let aggs = fold.aggs.items();
    let keys = fold.keys.items();
    let count = count_columns(fold);
    let mut numbered = Seq::new(alloc);
    for (place, agg) in aggs.iter().enumerate() {
        let taken = is_output(head, keys, &aggs[..place], name_of_aggregate(agg));
        let others = columns_up_to(keys.len(), place);
        numbered.push(check_aggregate(pos, distinct && taken, count, info, others, agg)?)?;
    }
    Ok(numbered)
}

/// An aggregate with the number of its column, after `others` columns. `repeats` is whether its name must
/// differ and is taken.
fn check_aggregate(
    pos: u64,
    repeats: bool,
    count: u64,
    info: &TableInfo,
    others: u64,
    agg: &NamedAgg,
) -> Result<Agg, ResolveStop>
    requires { length info.now.def.cols < 2 ^ 32 }
    ensures { ChecksAggregate pos count info.now others repeats agg.now result }
{
    refuse_if(pos, NAME_TAKEN, agg.name.is_none() && repeats)?;
    refuse_marked(pos, TOO_MANY, count, others >= MOST_COLUMNS as u64)?;
    let col = check_argument(pos, info, &agg.col)?;
    refuse_if(pos, NAME_TAKEN, agg.name.is_some() && repeats)?;
    Ok(Agg { fun: agg.fun, col })
}

/// The number of an aggregate's column.
fn check_argument(pos: u64, info: &TableInfo, col: &Option<Name>) -> Result<u32, ResolveStop>
    requires { length info.now.def.cols < 2 ^ 32 }
    ensures { Checks (argument_refusal pos info.now col.now) (argument_of info.now col.now) result }
{
    match col {
        None => Ok(0),
        Some(col) => present(pos, NO_COLUMN, column(info, col)),
    }
}

/// The number of output columns: the bucket, these keys and these aggregates.
fn columns_up_to(keys: usize, aggs: usize) -> u64
    ensures { result ≡ columns_before keys aggs }
{
    1u64.saturating_add(keys as u64).saturating_add(aggs as u64)
}

/// The number of output columns.
fn count_columns(fold: &NamedFold) -> u64
    ensures { result ≡ output_count fold.now }
{
    columns_up_to(fold.keys.len(), fold.aggs.len())
}

/// The name of the head's column: the one after AS, or the head's default name.
fn name_of_head<'a>(word: &'a [u8], fold: &'a NamedFold) -> &'a [u8]
    ensures { result.now ≡ head_name word.now fold.now }
{
    match &fold.name {
        Some(name) => name.bytes(),
        None => word,
    }
}

/// The name of an aggregate's column.
fn name_of_aggregate(agg: &NamedAgg) -> &[u8]
    ensures { result.now ≡ aggregate_name agg.now }
{
    match &agg.name {
        Some(name) => name.bytes(),
        None => name_of_function(agg.fun),
    }
}

/// The name of a function.
fn name_of_function(fun: Fun) -> &'static [u8]
    ensures text { result.now ≡ function_name fun }
    ensures name { IsTrue (is_name result.now) }
{
    match fun {
        Fun::CountAll | Fun::Count => b"count",
        Fun::Sum => b"sum",
        Fun::Min => b"min",
        Fun::Max => b"max",
        Fun::Avg => b"avg",
    }
}

/// Whether a name is that of the bucket's column or of one of these keys.
fn is_bucket_or_key(bucket: &[u8], keys: &[Name], name: &[u8]) -> bool
    ensures { result ≡ is_key bucket.now keys.now name.now }
{
    bucket == name || has_key(keys, name)
}

/// Whether a name is that of one of these keys.
fn has_key(keys: &[Name], name: &[u8]) -> bool
    ensures { result ≡ is_among name.now keys.now }
{
    keys.iter().any(|key| key.bytes() == name)
}

/// Whether a name is that of the bucket's column, of a key or of one of these aggregates.
fn is_output(bucket: &[u8], keys: &[Name], aggs: &[NamedAgg], name: &[u8]) -> bool
    ensures { result ≡ is_taken bucket.now keys.now aggs.now name.now }
{
    is_bucket_or_key(bucket, keys, name) || has_aggregate(aggs, name)
}

/// Whether a name is that of one of these aggregates.
fn has_aggregate(aggs: &[NamedAgg], name: &[u8]) -> bool
    ensures { result ≡ is_aggregate aggs.now name.now }
{
    aggs.iter().any(|agg| name_of_aggregate(agg) == name)
}

/// The names of the output columns.
pub(crate) fn names_of_outputs(alloc: Global, fold: &NamedFold) -> Result<Seq<Name>, NoMemory>
    ensures { IfOk result (λ names. names ≡ output_names fold.now) }
{
    let mut names = Seq::new(alloc);
    names.push(output_name(alloc, &fold.name, BUCKET_NAME)?)?;
    push_keys(&mut names, fold.keys.items())?;
    push_aggregates(alloc, &mut names, fold.aggs.items())?;
    Ok(names)
}

/// Appends the names of keys.
fn push_keys(names: &mut Seq<Name>, keys: &[Name]) -> Result<(), NoMemory>
    ensures { IfOk result (λ _. names.new ≡ names.old ++ keys.now) }
{
    for key in keys {
        names.push(key.copy()?)?;
    }
    Ok(())
}

/// Appends the names of aggregates' columns.
fn push_aggregates(alloc: Global, names: &mut Seq<Name>, aggs: &[NamedAgg]) -> Result<(), NoMemory>
    ensures { IfOk result (λ _. names.new ≡ names.old ++ map aggregate_name aggs.now) }
{
    for agg in aggs {
        names.push(output_name(alloc, &agg.name, name_of_function(agg.fun))?)?;
    }
    Ok(())
}

/// The name that is given, or this word.
fn output_name(alloc: Global, given: &Option<Name>, word: &[u8]) -> Result<Name, NoMemory>
    requires { IsTrue (is_name word.now) }
    ensures { IfOk result (λ name. name ≡ unwrap_or given.now word.now) }
{
    match given {
        Some(name) => name.copy(),
        None => read_word(alloc, word),
    }
}

/// The name with this text.
fn read_word(alloc: Global, word: &[u8]) -> Result<Name, NoMemory>
    requires { IsTrue (is_name word.now) }
    ensures { IfOk result (λ name. name ≡ word.now) }
{
    match Name::read(alloc, word)? {
        Some(name) => Ok(name),
        None => unreachable!(),
    }
}
