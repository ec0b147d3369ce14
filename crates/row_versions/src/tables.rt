//! Tables.
ghost use Rattle.std.specs.Prelude.{◌≡◌, ◌<ℤ◌, ℕ, ℤ, [], ◌∷◌, true, IfOk, IfSome};
ghost use Rattle.ts_schema.specs.Counts.{Ticks};
ghost use Rattle.seg_rows.specs.Versions.{latest_at, rows_of};
ghost use Rattle.chunk_catalog.specs.Chunks.{HaveTimes};
ghost use Rattle.ts_bucket.specs.Chunks.{IsInterval};
ghost use Rattle.ts_bucket.specs.Spans.{in_span};
ghost use Rattle.ts_model.specs.declared.events.Op.TheVariants.{Insert, Delete};
ghost use Rattle.ts_model.specs.Effect.{all_appended};
ghost use Rattle.ts_model.specs.Reads.{rows_near};
ghost use Rattle.row_versions.specs.Tables.{Counts, Follows, IsEffect, IsUpTo, visible_rows, rows_seen, rows_of_span};

use crate::effects::Effect;
use chunk_catalog::Chunks;
use std::alloc::Global;
use std::marker::Model;
use ts_bucket::Span;
use ts_model::Op;
use ts_schema::{NoMemory, Row, Seq, SharedSlice, Steps, Test};

/// The rows of a hypertable at every position. Contracts see its interval and the list of all
/// versions that it ever had.
#[derive(Drop)]
pub struct Table {
    chunks: Chunks,
}

impl Model for Table {
    ghost use Rattle.chunk_catalog.specs.Chunks.{ChunksValue};

    ghost Value = { ChunksValue };

    ghost view = { λ t. t.chunks };
}

/// A table after operations, and their effect.
#[derive(Drop)]
pub struct Applied {
    /// The table after them.
    pub table: Table,
    /// Their effect.
    pub effect: Effect,
}

impl Table {
    /// A table without rows. Each chunk will hold `interval` times, from 1 to 2^50.
    pub fn new(alloc: Global, interval: i64) -> Table
        requires { IsInterval interval }
        ensures interval { result.interval ≡ interval }
        ensures versions { result.versions ≡ [] }
    {
        Table {
            chunks: Chunks::new(alloc, interval),
        }
    }

    /// A copy of the table.
    pub fn copy(&self) -> Result<Table, NoMemory>
        ensures same { IfOk result (λ copy. copy ≡ self.now) }
    {
        Ok(Table {
            chunks: self.chunks.copy()?,
        })
    }

    /// The table after the operations on it, in order, at a position above those of all earlier changes, with
    /// their effect. The table itself doesn't change.
    pub fn apply(&self, ops: &Seq<Op>, table: u32, pos: u64) -> Result<Applied, NoMemory>
        requires up_to { IsUpTo pos self.now.versions }
        requires times { HaveTimes (all_appended table ops.now) }
        ensures table { IfOk result (λ a. Follows table ops.now pos self.now a.table) }
        ensures effect { IfOk result (λ a. IsEffect table ops.now (rows_seen pos self.now) a.effect) }
    {
        let mut done = Applied {
            table: self.copy()?,
            effect: Effect::none(),
        };
        let mut left = ops.items();
        while let [op, rest @ ..] = left {
            done = done.and(op, table, pos)?;
            left = rest;
        }
        Ok(done)
    }

    /// The rows of the span that are visible at a position. Ticks once for each stored row, removed
    /// or not, in the chunks that meet the span.
    pub fn scan<L>(&self, pos: u64, span: Span, steps: &mut Steps<L>) -> Result<Seq<Row>, NoMemory>
        ensures rows { IfOk result (λ rows. rows ≡ rows_of_span span (visible_rows pos self.now.versions)) }
        ensures read { let near = rows_near self.now.interval (rows_of self.now.versions) (span ∷ []) in
            Ticks result near steps.old steps.new }
    {
        self.chunks.scan(pos, span, steps)
    }

    /// The same for a part of the span. Reads the same rows, and returns only those of the part.
    pub fn scan_part<L>(
        &self,
        pos: u64,
        span: Span,
        part: Span,
        steps: &mut Steps<L>,
    ) -> Result<Seq<Row>, NoMemory>
        requires within { (t : ℤ) → in_span part t ≡ true → in_span span t ≡ true }
        ensures rows { IfOk result (λ rows. rows ≡ rows_of_span part (visible_rows pos self.now.versions)) }
        ensures read { let near = rows_near self.now.interval (rows_of self.now.versions) (span ∷ []) in
            Ticks result near steps.old steps.new }
    {
        self.chunks.scan_part(pos, span, part, steps)
    }

    /// A time at which to split a span near its middle, between two chunks, if many rows were ever inserted in
    /// the chunks that meet it.
    pub fn middle(&self, span: Span) -> Option<i64>
        ensures inside { IfSome result (λ t. (span.lo <ℤ t) × (t <ℤ span.hi)) }
    {
        self.chunks.middle(span)
    }

    /// The greatest time that is visible at a position, and `None` if and only if no row is.
    pub fn last(&self, pos: u64) -> Option<i64>
        ensures last { result ≡ latest_at pos self.now.versions }
    {
        self.chunks.last(pos)
    }
}

impl Applied {
    /// The same after one more operation.
    fn and(self, op: &Op, table: u32, pos: u64) -> Result<Applied, NoMemory>
        requires up_to { IsUpTo pos self.table.versions }
        requires times { HaveTimes (all_appended table (op.now ∷ [])) }
        ensures table { IfOk result (λ a. Follows table (op.now ∷ []) pos self.table a.table) }
        ensures effect { IfOk result (λ a. Counts table (op.now ∷ []) (rows_seen pos self.table) self.effect a.effect) }
    {
        match op {
            Op::Insert { table: other, rows } => {
                if *other == table {
                    self.and_insert(rows, pos)
                } else {
                    Ok(self)
                }
            }
            Op::Delete {
                table: other,
                tests,
            } => {
                if *other == table {
                    self.and_delete(tests, pos)
                } else {
                    Ok(self)
                }
            }
        }
    }

    /// The same after an insert, whose rows the table shares.
    fn and_insert(self, rows: &SharedSlice<Row>, pos: u64) -> Result<Applied, NoMemory>
        requires up_to { IsUpTo pos self.table.versions }
        requires times { HaveTimes rows.now }
        ensures table { IfOk result (λ a. (t : ℕ) → Follows t (Insert t rows.now ∷ []) pos self.table a.table) }
        ensures effect { IfOk result (λ a. (t : ℕ) →
            Counts t (Insert t rows.now ∷ []) (rows_seen pos self.table) self.effect a.effect) }
    {
        let effect = self.effect.and_inserted(rows.items())?;
        let chunks = self.table.chunks.put_shared(rows, pos)?;
        Ok(Applied {
            table: Table { chunks },
            effect,
        })
    }

    /// The same after a delete.
    fn and_delete(self, tests: &Seq<Test>, pos: u64) -> Result<Applied, NoMemory>
        requires up_to { IsUpTo pos self.table.versions }
        ensures table { IfOk result (λ a. (t : ℕ) → Follows t (Delete t tests.now ∷ []) pos self.table a.table) }
        ensures effect { IfOk result (λ a. (t : ℕ) →
            Counts t (Delete t tests.now ∷ []) (rows_seen pos self.table) self.effect a.effect) }
    {
        let killed = self.table.chunks.kill(tests, pos)?;
        let effect = self.effect.and_removed(killed.removed, killed.hull)?;
        Ok(Applied {
            table: Table {
                chunks: killed.chunks,
            },
            effect,
        })
    }
}
