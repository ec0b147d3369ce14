//! The rows of a table, span by span.
ghost use Rattle.std.specs.Prelude.{◌≡◌, ◌+ℤ◌, ℤ, pos, IfOk, OnOk};
ghost use Rattle.ts_bucket.specs.Bucket.{max_time, min_time};
ghost use Rattle.ts_model.specs.History.{History};
ghost use Rattle.ts_model.specs.Rows.{rows};
ghost use Rattle.base_image.specs.Outlines.{rows_in, span_rows};
ghost use Rattle.engine_state.specs.ChunkParts.{AreChained, state_rows};
ghost use Rattle.engine_state.specs.Stands.{Stands, StandsFor};

use crate::images::{all_times, sort_rows};
use crate::parts::StateParts;
use row_versions::Table;
use std::alloc::Global;
use ts_bucket::Span;
use ts_schema::{NoMemory, Row, Seq, Steps};

/// The greatest depth to which a span is split. Each cut descends the tree of chunks, which has fewer levels.
const MOST_CUTS: u32 = 64;

/// Appends a span, or its parts in order if it has many rows.
fn push_parts(rows: &Table, span: Span, cuts: u32, into: &mut Seq<Span>) -> Result<(), NoMemory>
    ensures { (lo : ℤ) → AreChained lo span.lo into.old → OnOk result (AreChained lo span.hi into.new) }
{
    // Reading the bounds tells the prover that the first is at most the second.
    let Span { lo, hi } = span;
    if cuts == 0 {
        return into.push(span);
    }
    match rows.middle(span) {
        None => into.push(span),
        Some(middle) => {
            let first = Span { lo, hi: middle };
            let second = Span { lo: middle, hi };
            push_parts(rows, first, cuts - 1, into)?;
            push_parts(rows, second, cuts - 1, into)
        }
    }
}

/// All times, split into spans that each meet few rows of a table, or one chunk.
fn all_parts(alloc: Global, rows: &Table) -> Result<Seq<Span>, NoMemory>
    ensures { IfOk result (AreChained min_time (max_time +ℤ pos 1)) }
{
    let mut spans = Seq::new(alloc);
    push_parts(rows, all_times(), MOST_CUTS, &mut spans)?;
    Ok(spans)
}

impl StateParts {
    /// Spans in order whose rows together are those of a table.
    pub(crate) fn spans(&self, alloc: Global, table: u32) -> Result<Seq<Span>, NoMemory>
        requires stands { Stands self.now }
        ensures spans { IfOk result (λ spans. span_rows (state_rows self.now table) spans ≡ state_rows self.now table) }
        ensures held { (h : History) → StandsFor h self.now → state_rows self.now table ≡ rows table h }
    {
        match self.table_if(table) {
            None => Ok(Seq::new(alloc)),
            Some(state) => all_parts(alloc, state.rows()),
        }
    }

    /// The rows of a table whose times lie in a span, in order.
    pub(crate) fn rows_in(
        &self,
        alloc: Global,
        table: u32,
        span: Span,
    ) -> Result<Seq<Row>, NoMemory>
        ensures rows { IfOk result (λ found. found ≡ rows_in span (state_rows self.now table)) }
    {
        match self.table_if(table) {
            None => Ok(Seq::new(alloc)),
            Some(state) => {
                let found = state.rows().scan(self.position, span, &mut Steps::new(()))?;
                sort_rows(found)
            }
        }
    }
}
