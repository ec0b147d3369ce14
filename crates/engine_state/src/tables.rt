//! Hypertables: their rows at every position, and the log of noted hulls.
ghost use Rattle.std.specs.Prelude.{◌≡◌, [], length, IfOk};
ghost use Rattle.std.specs.Int.{int_max};
ghost use Rattle.ts_bucket.specs.Chunks.{IsInterval};
ghost use Rattle.ts_model.specs.Effect.{all_appended, all_taken};
ghost use Rattle.coverage.specs.Notes.{log_after};
ghost use Rattle.engine_state.specs.Notes.{noted_in};
ghost use Rattle.engine_state.specs.Steps.{TableAsks, TableCut, TableGoes, rows_before};

use crate::after_event::AfterEvent;
use inval_log::InvalLog;
use row_versions::{Applied, Table};
use std::alloc::{AllocError, Global};
use std::marker::Model;
use std::sync::Arc;
use ts_bucket::Hull;
use ts_model::Op;
use ts_schema::{NoMemory, Seq};

/// The state of a hypertable, which its copies share.
#[derive(Drop)]
pub struct TableState {
    parts: Arc<TableParts>,
}

/// The shared parts.
#[derive(Drop)]
struct TableParts {
    rows: Table,
    log: InvalLog,
}

impl Model for TableState {
    ghost use Rattle.engine_state.specs.Tables.{TableValue};

    ghost Value = { TableValue };

    ghost view = { λ t. record { rows = t.parts.value.rows; log = t.parts.value.log } };
}

/// The log after the hull of a commit was noted, if it has one.
fn log_with_hull(log: &InvalLog, hull: Option<Hull>, pos: u64) -> Result<InvalLog, NoMemory>
    ensures threshold { IfOk result (λ new. new.threshold ≡ log.now.threshold) }
    ensures entries { IfOk result (λ new. noted_in new.entries
        ≡ log_after hull pos log.now.threshold (noted_in log.now.entries)) }
{
    match hull {
        None => log.copy(),
        Some(hull) => with_entry(log, hull, pos),
    }
}

/// The log after a hull was noted.
fn with_entry(log: &InvalLog, hull: Hull, pos: u64) -> Result<InvalLog, NoMemory>
    ensures threshold { IfOk result (λ new. new.threshold ≡ log.now.threshold) }
    ensures entries { IfOk result (λ new. noted_in new.entries
        ≡ log_after (Some hull) pos log.now.threshold (noted_in log.now.entries)) }
{
    let mut new = log.copy()?;
    new.reserve()?;
    new.note(hull, pos);
    new.share()
}

/// The empty log whose threshold is that of a log, or `hi` if that is higher.
fn log_after_cut(alloc: Global, log: &InvalLog, hi: i64) -> InvalLog
    ensures threshold { result.threshold ≡ int_max log.now.threshold hi }
    ensures entries { result.entries ≡ [] }
{
    let mut emptied = InvalLog::new(alloc);
    emptied.raise(log.threshold().max(hi));
    emptied
}

impl Clone for TableState {
    ghost is_clone = { λ a b. a ≡ b };

    fn clone(&self) -> Result<TableState, AllocError> {
        Ok(TableState {
            parts: Arc::try_clone(&self.parts)?,
        })
    }
}

impl TableState {
    /// A hypertable without rows, whose chunks are this long.
    pub(crate) fn new(alloc: Global, interval: i64) -> Result<TableState, NoMemory>
        requires { IsInterval interval }
        ensures interval { IfOk result (λ t. t.rows.interval ≡ interval) }
        ensures versions { IfOk result (λ t. t.rows.versions ≡ []) }
        ensures entries { IfOk result (λ t. t.log.entries ≡ []) }
    {
        TableState::of(alloc, Table::new(alloc, interval), InvalLog::new(alloc))
    }

    /// The state of these rows and this log.
    pub(crate) fn of(alloc: Global, rows: Table, log: InvalLog) -> Result<TableState, NoMemory>
        ensures rows { IfOk result (λ t. t.rows ≡ rows) }
        ensures log { IfOk result (λ t. t.log ≡ log) }
    {
        Ok(TableState {
            parts: Arc::new(alloc, TableParts { rows, log })?,
        })
    }

    /// Another owner of the same state. It only increments a reference count.
    pub fn copy(&self) -> Result<TableState, NoMemory>
        ensures same { IfOk result (λ copy. copy ≡ self.now) }
    {
        Ok(TableState {
            parts: Arc::try_clone(&self.parts)?,
        })
    }

    /// Its rows at every position.
    pub fn rows(&self) -> &Table
        ensures rows { result.now ≡ self.now.rows }
    {
        &self.parts.rows
    }

    /// Its log of noted hulls.
    pub fn log(&self) -> &InvalLog
        ensures log { result.now ≡ self.now.log }
    {
        &self.parts.log
    }

    /// The state after a cut of a span that ends at `hi`: its log is emptied, and its threshold raised.
    pub(crate) fn after_cut(&self, alloc: Global, hi: i64) -> Result<TableState, NoMemory>
        ensures cut { IfOk result (λ new. TableCut hi self.now new) }
    {
        let log = log_after_cut(alloc, self.log(), hi);
        TableState::of(alloc, self.rows().copy()?, log)
    }

    /// The state after these operations on the table with this number, at a position above those of
    /// all earlier changes.
    pub(crate) fn after_ops(
        &self,
        alloc: Global,
        ops: &Seq<Op>,
        table: u32,
        pos: u64,
    ) -> Result<AfterEvent<TableState>, NoMemory>
        requires { TableAsks ops.now pos table self.now }
        ensures goes { IfOk result (λ m. TableGoes ops.now pos table self.now m.made) }
        ensures inserted { IfOk result (λ m. m.inserted ≡ length (all_appended table ops.now)) }
        ensures removed { IfOk result (λ m. m.removed
            ≡ length (all_taken table ops.now (rows_before pos self.now))) }
    {
        let Applied {
            table: rows,
            effect,
        } = self.rows().apply(ops, table, pos)?;
        let log = log_with_hull(self.log(), effect.hull, pos)?;
        Ok(AfterEvent {
            made: TableState::of(alloc, rows, log)?,
            inserted: effect.inserted,
            removed: effect.removed,
        })
    }
}
