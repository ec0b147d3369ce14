//! The keys, the aggregates and the tests of a roll-up.
ghost use Rattle.std.specs.Prelude.{◌≡◌, ◌<◌, ◌^◌, length, map};
ghost use Rattle.hier_agg.specs.Reads.{Checks, argument_of, arguments_of, key_number, test_of};
ghost use Rattle.hier_agg.specs.Refusals.{agg_place, agg_refusal, aggs_refusal, argument_refusal, fits, key_place, key_refusal, keys_refusal, tests_refusal};

use crate::answers::function_at;
use crate::stops::{PlanStop, present, refuse_marked};
use std::alloc::Global;
use stmt_syntax::{NamedAgg, NamedTest};
use ts_catalog::view_column;
use ts_model::codes::{BAD_ROLLUP, TOO_MANY};
use ts_model::limits::MOST_COLUMNS;
use ts_model::{Refusal, ViewDef};
use ts_num::Fun;
use ts_schema::{Name, Seq, Test};

/// The number of a key by its place among the output columns.
fn key_of(def: &ViewDef, place: Option<u32>) -> Option<u32>
    ensures { result ≡ key_place def.now place }
{
    let key = place?.checked_sub(1)?;
    if (key as usize) < def.fold.keys.len() {
        Some(key)
    } else {
        None
    }
}

/// The number of an aggregate's column by its place among the output columns.
fn agg_of(def: &ViewDef, place: Option<u32>) -> Option<u32>
    ensures { result ≡ agg_place def.now place }
{
    let col = place?.checked_sub(1)?;
    let keys = def.fold.keys.len();
    if keys <= col as usize && (col as usize - keys) < def.fold.aggs.len() {
        Some(col)
    } else {
        None
    }
}

/// Whether a function fits a column of another function.
fn is_fit(fun: Fun, lower: Fun) -> bool
    ensures { result ≡ fits fun lower }
{
    match fun {
        Fun::Sum => match lower {
            Fun::CountAll | Fun::Count | Fun::Sum => true,
            Fun::Min | Fun::Max | Fun::Avg => false,
        },
        Fun::Min => lower == Fun::Min,
        Fun::Max => lower == Fun::Max,
        Fun::CountAll | Fun::Count | Fun::Avg => false,
    }
}

/// The number of a key, after `others` columns.
fn check_key(pos: u64, def: &ViewDef, count: u64, others: u64, name: &Name) -> Result<u32, PlanStop>
    requires { length def.now.names < 2 ^ 32 }
    ensures { Checks (key_refusal pos def.now count others name.now) (key_number def.now name.now) result }
{
    let key = present(pos, key_of(def, view_column(def, name)))?;
    refuse_marked(pos, TOO_MANY, count, others >= MOST_COLUMNS as u64)?;
    Ok(key)
}

/// The numbers of keys, after a bucket.
pub(crate) fn check_keys(
    alloc: Global,
    pos: u64,
    def: &ViewDef,
    count: u64,
    names: &[Name],
) -> Result<Seq<u32>, PlanStop>
    requires { length def.now.names < 2 ^ 32 }
    ensures { Checks (keys_refusal pos def.now count 1 names.now) (map (key_number def.now) names.now) result }
{
    let mut keys = Seq::new(alloc);
    let mut others = 1u64;
    for name in names {
        keys.push(check_key(pos, def, count, others, name)?)?;
        others = others.saturating_add(1);
    }
    Ok(keys)
}

/// The number of an aggregate's column, after `others` columns.
fn check_agg(
    pos: u64,
    def: &ViewDef,
    count: u64,
    others: u64,
    agg: &NamedAgg,
) -> Result<u32, PlanStop>
    requires { length def.now.names < 2 ^ 32 }
    ensures { Checks (agg_refusal pos def.now count others agg.now) (argument_of def.now agg.now.col) result }
{
    refuse_marked(pos, TOO_MANY, count, others >= MOST_COLUMNS as u64)?;
    check_argument(pos, def, agg.fun, &agg.col)
}

/// The number of the column that a function adds up.
fn check_argument(pos: u64, def: &ViewDef, fun: Fun, name: &Option<Name>) -> Result<u32, PlanStop>
    requires { length def.now.names < 2 ^ 32 }
    ensures { Checks (argument_refusal pos def.now fun name.now) (argument_of def.now name.now) result }
{
    match name {
        None => Err(PlanStop::Refused(Refusal {
            code: BAD_ROLLUP,
            pos,
            mark: 0,
        })),
        Some(name) => {
            let col = present(pos, agg_of(def, view_column(def, name)))?;
            refuse_marked(
                pos,
                BAD_ROLLUP,
                0,
                !is_fit(fun, function_at(&def.fold, col)),
            )?;
            Ok(col)
        }
    }
}

/// The numbers of aggregates' columns, after a bucket and keys.
pub(crate) fn check_aggs(
    alloc: Global,
    pos: u64,
    def: &ViewDef,
    count: u64,
    before: u64,
    aggs: &[NamedAgg],
) -> Result<Seq<u32>, PlanStop>
    requires { length def.now.names < 2 ^ 32 }
    ensures { Checks (aggs_refusal pos def.now count before aggs.now) (arguments_of def.now aggs.now) result }
{
    let mut cols = Seq::new(alloc);
    let mut others = before;
    for agg in aggs {
        cols.push(check_agg(pos, def, count, others, agg)?)?;
        others = others.saturating_add(1);
    }
    Ok(cols)
}

/// The tests with the numbers of their keys.
pub(crate) fn check_tests(
    alloc: Global,
    pos: u64,
    def: &ViewDef,
    tests: &[NamedTest],
) -> Result<Seq<Test>, PlanStop>
    requires { length def.now.names < 2 ^ 32 }
    ensures { Checks (tests_refusal pos def.now tests.now) (map (test_of def.now) tests.now) result }
{
    let mut numbered = Seq::new(alloc);
    for test in tests {
        let col = present(pos, key_of(def, view_column(def, &test.col)))?;
        numbered.push(Test {
            col,
            cmp: test.cmp,
            num: test.num,
        })?;
    }
    Ok(numbered)
}
