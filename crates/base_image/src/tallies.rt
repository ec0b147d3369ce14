//! The number of rows of a state's tables, and the number of their bytes in an image.
ghost use Rattle.std.specs.Prelude.{◌≡◌, ◌≤◌, ◌-◌, ◌^◌, ◌==◌, ◌++◌, [], length, List, min, not, sum_by, IfOk};
ghost use Rattle.std.specs.List.{count_by};
ghost use Rattle.ts_schema.specs.declared.rows.Row.{Row as RowValue};
ghost use Rattle.ts_model.specs.History.{History};
ghost use Rattle.ts_model.specs.Roster.{roster};
ghost use Rattle.ts_model.specs.Rows.{rows};
ghost use Rattle.image_laws.specs.Images.{row_events};
ghost use Rattle.base_image.specs.Outlines.{commit_bytes, commits, span_rows, tallies, tally_of};

use crate::imaged::Imaged;
use event_check::bytes_of_rows;
use std::alloc::Global;
use ts_bucket::Span;
use ts_schema::{NoMemory, Row, Seq};

/// The number of rows of a table and the number of their bytes, each capped at the greatest number of 64
/// bits.
#[derive(Clone, Copy, Debug, PartialEq, Eq)]
pub struct Tally {
    /// The number of rows.
    pub rows: u64,
    /// The number of their bytes in an image.
    pub bytes: u64,
}

/// The tally of no rows.
fn none() -> Tally
    ensures { result ≡ tally_of [] }
{
    Tally { rows: 0, bytes: 0 }
}

/// The tally with more rows.
fn with_more(tally: Tally, more: &[Row]) -> Tally
    ensures { (so_far : List RowValue) → tally ≡ tally_of so_far → result ≡ tally_of (so_far ++ more.now) }
{
    Tally {
        rows: tally.rows.saturating_add(more.len() as u64),
        bytes: tally.bytes.saturating_add(bytes_of_rows(more)),
    }
}

/// The tally of the rows of these spans.
fn tally_spans<I: Imaged>(of: &I, table: u32, spans: &[Span]) -> Result<Tally, NoMemory>
    ensures { IfOk result (λ tally. tally ≡ tally_of (span_rows (I.held of.now table) spans.now)) }
{
    let mut tally = none();
    for span in spans {
        let rows = of.rows_in(table, *span)?;
        tally = with_more(tally, rows.items());
    }
    Ok(tally)
}

/// The tally of a table.
fn table_tally<I: Imaged>(of: &I, table: u32) -> Result<Tally, NoMemory>
    ensures tally { IfOk result (λ tally. tally ≡ tally_of (I.held of.now table)) }
    ensures held { (h : History) → I.stands of.now h → I.held of.now table ≡ rows table h }
{
    let spans = of.spans(table)?;
    tally_spans(of, table, spans.items())
}

/// The tallies of all tables.
pub fn table_tallies<I: Imaged>(alloc: Global, of: &I) -> Result<Seq<Tally>, NoMemory>
    ensures tallied { IfOk result (λ all. all ≡ tallies (I.held of.now) 0 (length all)) }
    ensures few { IfOk result (λ all. length all ≤ 64) }
    ensures held { (h : History) → I.stands of.now h
        → IfOk result (λ all. commits (I.held of.now) 0 (length all) ≡ row_events h 0 (length (roster h).tables)) }
{
    let mut all = Seq::new(alloc);
    for table in 0..of.roster().tables.len() {
        all.push(table_tally(of, table as u32)?)?;
    }
    Ok(all)
}

/// Whether there is a row.
fn has_rows(tally: &Tally) -> bool
    ensures { result ≡ not (tally.now.rows == 0) }
{
    tally.rows != 0
}

/// The number of these tables that have rows.
pub fn count_held(tallies: &[Tally]) -> usize
    ensures { result ≡ count_by (λ tally. not (tally.rows == 0)) tallies.now }
{
    tallies.iter().filter(|tally| has_rows(tally)).count()
}

/// The number of bytes of the commit of a table's rows, if it has rows.
fn bytes_of_commit(tally: &Tally) -> u64
    ensures { result ≡ min (commit_bytes tally.now) (2 ^ 64 - 1) }
{
    if has_rows(tally) {
        tally.bytes.saturating_add(18)
    } else {
        0
    }
}

/// The number of bytes of the commits of these tables' rows.
pub fn bytes_of_commits(tallies: &[Tally]) -> u64
    ensures { result ≡ min (sum_by commit_bytes tallies.now) (2 ^ 64 - 1) }
{
    let mut total = 0u64;
    for tally in tallies {
        total = total.saturating_add(bytes_of_commit(tally));
    }
    total
}
