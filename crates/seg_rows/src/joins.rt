//! Copies rows of segments, and joins segments.
ghost use Rattle.std.specs.Prelude.{◌≡◌, ◌++◌, map, IfOk, OnOk};
ghost use Rattle.seg_rows.specs.Lives.{AreUnharmed, Covers, Keeps, lives_of, life_from};

use crate::lives::{Life, Lives};
use crate::scans::copy_of;
use std::alloc::Global;
use ts_schema::{NoMemory, Row, Seq};

/// Copies of these rows, without spare capacity.
pub fn copied_rows(alloc: Global, rows: &[Row]) -> Result<Seq<Row>, NoMemory>
    ensures rows { IfOk result (λ copies. copies ≡ rows.now) }
{
    let mut copies = Vec::with_capacity(alloc, rows.len())?;
    append_rows(&mut copies, rows)?;
    Ok(Seq::of(copies))
}

/// Copies of the rows of both lists, in order.
pub fn joined_rows(alloc: Global, first: &[Row], second: &[Row]) -> Result<Seq<Row>, NoMemory>
    ensures rows { IfOk result (λ rows. rows ≡ first.now ++ second.now) }
{
    let mut rows = Vec::with_capacity(alloc, first.len().saturating_add(second.len()))?;
    append_rows(&mut rows, first)?;
    append_rows(&mut rows, second)?;
    Ok(Seq::of(rows))
}

/// Appends copies of these rows.
fn append_rows(into: &mut Vec<Row>, rows: &[Row]) -> Result<(), NoMemory>
    ensures { OnOk result (into.new.items ≡ into.old.items ++ rows.now) }
{
    for row in rows {
        into.push(copy_of(row)?)?;
    }
    Ok(())
}

/// The lives of `first_count` versions and then those of `second_count` others.
pub fn joined_lives(
    alloc: Global,
    first: &Lives,
    first_count: usize,
    second: &Lives,
    second_count: usize,
) -> Result<Lives, NoMemory>
    requires first { Covers first_count first.now }
    requires second { Covers second_count second.now }
    ensures lives { IfOk result (λ lives.
        Keeps lives (lives_of first_count first.now ++ lives_of second_count second.now)) }
{
    let count = first_count.saturating_add(second_count);
    if first.are_unharmed() && second.are_unharmed() {
        let mut births = Vec::with_capacity(alloc, count)?;
        append_births(&mut births, first, first_count)?;
        append_births(&mut births, second, second_count)?;
        return Ok(Lives::Born(Seq::of(births)));
    }
    let mut lives = Vec::with_capacity(alloc, count)?;
    append_lives(&mut lives, first, first_count)?;
    append_lives(&mut lives, second, second_count)?;
    Ok(Lives::Each(Seq::of(lives)))
}

/// Appends the positions at which `count` versions were inserted. None of them is deleted.
fn append_births(into: &mut Vec<u64>, lives: &Lives, count: usize) -> Result<(), NoMemory>
    requires covers { Covers count lives.now }
    requires unharmed { AreUnharmed (lives_of count lives.now) }
    ensures { OnOk result (map life_from into.new.items ≡ map life_from into.old.items ++ lives_of count lives.now) }
{
    for i in 0..count {
        into.push(lives.at(i, count).born)?;
    }
    Ok(())
}

/// Appends the lives of `count` versions.
fn append_lives(into: &mut Vec<Life>, lives: &Lives, count: usize) -> Result<(), NoMemory>
    requires covers { Covers count lives.now }
    ensures { OnOk result (into.new.items ≡ into.old.items ++ lives_of count lives.now) }
{
    for i in 0..count {
        into.push(lives.at(i, count))?;
    }
    Ok(())
}
