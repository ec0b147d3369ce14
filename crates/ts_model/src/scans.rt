//! Rows of tables at one position.
use ts_bucket::Span;
use ts_schema::{NoMemory, Row, Seq, Steps};

/// The rows of the hypertables at one position, kept in chunks.
pub trait RowsAt {
    ghost use Rattle.std.specs.Prelude.{◌≡◌, ℕ, List, ℤ, filter, IfOk, ◌∷◌, []};
    ghost use Rattle.ts_bucket.specs.Spans.{in_span};
    ghost use Rattle.ts_schema.specs.declared.rows.Row.{Row};
    ghost use Rattle.ts_schema.specs.Counts.{Ticks};
    ghost use Rattle.ts_model.specs.Rows.{in_order};
    ghost use Rattle.ts_model.specs.Reads.{rows_near};

    ghost visible: { Self → ℕ → List Row };

    ghost stored: { Self → ℕ → List Row };

    ghost interval: { Self → ℕ → ℤ };

    /// The visible rows of a table in a span, in any order. Counts one step for each stored row in the chunks
    /// that meet the span, visible or not.
    fn scan<L>(&self, table: u32, span: Span, steps: &mut Steps<L>) -> Result<Seq<Row>, NoMemory>
        ensures rows { IfOk result (λ found. in_order found
            ≡ in_order (filter (λ row. in_span span row.at) (visible self.now table))) }
        ensures read { Ticks result
            (rows_near (interval self.now table) (stored self.now table) (span ∷ []))
            steps.old steps.new };
}
