//! The summary of a history.
ghost use Rattle.std.specs.Prelude.{◌≡◌, length, IfOk, IsTrue};
ghost use Rattle.ts_model.specs.Allowed.{all_consistent};
ghost use Rattle.ts_model.specs.Answers.{answer};
ghost use Rattle.ts_model.specs.History.{History};
ghost use Rattle.ts_model.specs.Roster.{roster, view_of};
ghost use Rattle.ts_model.specs.Rows.{rows};
ghost use Rattle.demo_run.specs.Sums.{all_buckets, all_rows, first_start, last_of, number_of, summary_of, total_of};

use result_text::Summary;
use std::alloc::Global;
use std::thread::Threads;
use ts_bucket::{Span, first};
use ts_model::{Answer, Query, ResultRows, Shown};
use ts_num::Datum;
use ts_schema::{NoMemory, Seq, Steps};

/// The counter of stored rows that the summary reads, separate from the script's.
#[derive(Drop)]
struct SummaryReads;

/// The summary of a demonstration whose script led to the history of a snapshot. `reads` is how many stored rows
/// it read.
pub(crate) fn summary_of<R: Threads + Sync, T: Shown>(
    rt: &R,
    alloc: Global,
    number: u32,
    shot: &T,
    reads: u64,
) -> Result<Summary, NoMemory>
    requires consistent { (h : History) → T.stands shot.now h → IsTrue (all_consistent h) }
    ensures { (h : History) → T.stands shot.now h → IfOk result (λ sum. sum ≡ summary_of number h reads) }
{
    let rows = count_rows(rt, alloc, shot)?;
    let answer = last_answer(rt, alloc, shot)?;
    Ok(Summary {
        number: u64::from(number),
        events: shot.position(),
        rows,
        groups: answer.rows.len() as u64,
        total: total_of(alloc, &answer.rows)?,
        stale: answer.stale,
        min: first_start(shot),
        reads,
    })
}

/// How many rows the first table has.
fn count_rows<R: Threads + Sync, T: Shown>(rt: &R, alloc: Global, shot: &T) -> Result<u64, NoMemory>
    requires consistent { (h : History) → T.stands shot.now h → IsTrue (all_consistent h) }
    ensures { (h : History) → T.stands shot.now h → IfOk result (λ count. count ≡ length (rows 0 h)) }
{
    shown_rows(rt, alloc, shot)
}

/// How many rows a query of the first table returns.
fn shown_rows<R: Threads + Sync, T: Shown>(rt: &R, alloc: Global, shot: &T) -> Result<u64, NoMemory>
    ensures { (h : History) → T.stands shot.now h
        → IfOk result (λ count. count ≡ length (answer all_rows h).rows) }
{
    match shot.roster().tables.items().get(0) {
        Some(info) if info.hyper.is_some() => {
            let query = Query::Rows {
                table: 0,
                tests: Seq::new(alloc),
            };
            let answer = shot.answer(rt, &query, &mut Steps::new(SummaryReads))?;
            Ok(answer.rows.len() as u64)
        }
        _ => Ok(0),
    }
}

/// The answer of the first aggregate for all its buckets.
fn last_answer<R: Threads + Sync, T: Shown>(
    rt: &R,
    alloc: Global,
    shot: &T,
) -> Result<Answer, NoMemory>
    ensures { (h : History) → T.stands shot.now h → IfOk result (λ a. a ≡ answer all_buckets h) }
{
    match shot.roster().views.items().get(0) {
        Some(_) => {
            let starts = Span {
                lo: i64::MIN,
                hi: i64::MAX,
            };
            let query = Query::Aggregate { view: 0, starts };
            shot.answer(rt, &query, &mut Steps::new(SummaryReads))
        }
        None => Ok(Answer {
            rows: ResultRows::none(alloc),
            stale: Seq::new(alloc),
        }),
    }
}

/// The start of the first bucket of the first aggregate.
fn first_start<T: Shown>(shot: &T) -> i64
    ensures { (h : History) → T.stands shot.now h → result ≡ first_start (view_of (roster h) 0) }
{
    match shot.roster().views.items().get(0) {
        Some(def) => first(def.fold.width),
        None => 0,
    }
}

/// The sum of the last column of rows. Out of memory if the sum doesn't fit 128 bits.
fn total_of(alloc: Global, rows: &ResultRows) -> Result<i128, NoMemory>
    ensures { IfOk result (λ total. total ≡ total_of rows.now) }
{
    let mut total = 0i128;
    let mut cells = Vec::new(alloc);
    for row in rows.iter() {
        cells.clear();
        row.put_cells(&mut cells)?;
        match total.checked_add(last_number(cells.as_slice())) {
            Some(sum) => total = sum,
            None => return Err(NoMemory),
        }
    }
    Ok(total)
}

/// The last value of a row as a number.
fn last_number(row: &[Datum]) -> i128
    ensures { result ≡ number_of (last_of row.now) }
{
    match row.last() {
        Some(Datum::Int(n)) => *n,
        _ => 0,
    }
}
