//! A grouping of a table's rows, as a grouping of their cells.
ghost use Rattle.std.specs.Prelude.{◌≡◌, IfOk, map};
ghost use Rattle.cal_bucket.specs.Shapes.{agg_among, place_among, shape_of, test_among};

use cell_groups::Shape;
use std::alloc::Global;
use ts_model::{Agg, Fold};
use ts_schema::{NoMemory, Seq, Test};

/// The place of a column among the cells of a row in declared order, if the time is at place `at`. Column 0 is
/// the time, the others count from 1.
fn place_among(at: u32, col: u32) -> u32
    ensures { result ≡ place_among at col }
{
    if col == 0 {
        at
    } else if col <= at {
        col - 1
    } else {
        col
    }
}

/// The cells by which rows are grouped, and those that are aggregated.
pub(crate) fn shape_of(alloc: Global, at: u32, fold: &Fold) -> Result<Shape, NoMemory>
    ensures { IfOk result (λ shape. shape ≡ shape_of at fold.now) }
{
    Ok(Shape {
        keys: Seq::of(places_among(alloc, at, fold.keys.items())?),
        aggs: Seq::of(aggs_among(alloc, at, fold.aggs.items())?),
    })
}

fn places_among(alloc: Global, at: u32, columns: &[u32]) -> Result<Vec<u32>, NoMemory>
    ensures { IfOk result (λ places. places.items ≡ map (place_among at) columns.now) }
{
    let mut places = Vec::with_capacity(alloc, columns.len())?;
    for column in columns {
        places.push(place_among(at, *column))?;
    }
    Ok(places)
}

fn aggs_among(alloc: Global, at: u32, aggs: &[Agg]) -> Result<Vec<Agg>, NoMemory>
    ensures { IfOk result (λ placed. placed.items ≡ map (agg_among at) aggs.now) }
{
    let mut placed = Vec::with_capacity(alloc, aggs.len())?;
    for agg in aggs {
        placed.push(Agg {
            fun: agg.fun,
            col: place_among(at, agg.col),
        })?;
    }
    Ok(placed)
}

/// The same tests on cells.
pub(crate) fn tests_among(alloc: Global, at: u32, tests: &[Test]) -> Result<Vec<Test>, NoMemory>
    ensures { IfOk result (λ placed. placed.items ≡ map (test_among at) tests.now) }
{
    let mut placed = Vec::with_capacity(alloc, tests.len())?;
    for test in tests {
        placed.push(Test {
            col: place_among(at, test.col),
            cmp: test.cmp,
            num: test.num,
        })?;
    }
    Ok(placed)
}
