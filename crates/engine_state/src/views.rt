//! Aggregates: what is pending and was refreshed, the materialized groups, and the watermark.
ghost use Rattle.std.specs.Prelude.{◌≡◌, ℤ, [], cond, IfOk, None, Some};
ghost use Rattle.ts_bucket.specs.Spans.{in_span};
ghost use Rattle.ts_bucket.specs.WholeSpans.{whole_span};
ghost use Rattle.mat_log.specs.Feeding.{AreWithin, IsFed};
ghost use Rattle.mat_log.specs.Logs.{last_at, pending_at};

use block_list::BlockList;
use inval_log::Entry;
use mat_log::MatLog;
use mat_rows::MatRows;
use std::alloc::{AllocError, Global};
use std::marker::Model;
use std::sync::Arc;
use ts_bucket::Width;
use ts_schema::NoMemory;

/// The state of an aggregate, which its copies share.
#[derive(Drop)]
pub struct ViewState {
    parts: Arc<ViewParts>,
}

/// The shared parts.
#[derive(Drop)]
struct ViewParts {
    table: u32,
    log: MatLog,
    groups: MatRows,
    mark: Option<i64>,
}

impl Model for ViewState {
    ghost use Rattle.engine_state.specs.Views.{ViewValue};

    ghost Value = { ViewValue };

    ghost view = { λ v. record {
      table = v.parts.value.table;
      log = v.parts.value.log;
      groups = v.parts.value.groups;
      mark = v.parts.value.mark;
    } };
}

impl Clone for ViewState {
    ghost is_clone = { λ a b. a ≡ b };

    fn clone(&self) -> Result<ViewState, AllocError> {
        Ok(ViewState {
            parts: Arc::try_clone(&self.parts)?,
        })
    }
}

impl ViewState {
    /// A new aggregate over a table, created by the event with the number `made`: every bucket is pending at
    /// that position, and nothing is materialized.
    pub(crate) fn new(
        alloc: Global,
        table: u32,
        width: Width,
        made: u64,
    ) -> Result<ViewState, NoMemory>
        ensures table { IfOk result (λ v. v.table ≡ table) }
        ensures width { IfOk result (λ v. v.log.width ≡ width) }
        ensures pending { IfOk result (λ v. (b : ℤ)
            → pending_at v.log b ≡ cond (in_span (whole_span width) b) (Some made) None) }
        ensures refreshed { IfOk result (λ v. (b : ℤ) → last_at v.log b ≡ None) }
        ensures groups { IfOk result (λ v. v.groups ≡ []) }
        ensures mark { IfOk result (λ v. v.mark ≡ None) }
    {
        let log = MatLog::new(alloc, width, made)?;
        ViewState::of(alloc, table, log, MatRows::new(alloc), None)
    }

    /// The state of these parts.
    pub(crate) fn of(
        alloc: Global,
        table: u32,
        log: MatLog,
        groups: MatRows,
        mark: Option<i64>,
    ) -> Result<ViewState, NoMemory>
        ensures parts { IfOk result (λ v. v ≡ record { table = table; log = log; groups = groups; mark = mark }) }
    {
        Ok(ViewState {
            parts: Arc::new(
                alloc,
                ViewParts {
                    table,
                    log,
                    groups,
                    mark,
                },
            )?,
        })
    }

    /// Another owner of the same state. It only increments a reference count.
    pub fn copy(&self) -> Result<ViewState, NoMemory>
        ensures same { IfOk result (λ copy. copy ≡ self.now) }
    {
        Ok(ViewState {
            parts: Arc::try_clone(&self.parts)?,
        })
    }

    /// The number of its table.
    pub fn table(&self) -> u32
        ensures table { result ≡ self.now.table }
    {
        self.parts.table
    }

    /// What is pending and was refreshed.
    pub fn log(&self) -> &MatLog
        ensures log { result.now ≡ self.now.log }
    {
        &self.parts.log
    }

    /// Its materialized groups.
    pub fn groups(&self) -> &MatRows
        ensures groups { result.now ≡ self.now.groups }
    {
        &self.parts.groups
    }

    /// Its watermark.
    pub fn mark(&self) -> Option<i64>
        ensures mark { result ≡ self.now.mark }
    {
        self.parts.mark
    }

    /// The state after the entries were fed to it.
    pub(crate) fn with_entries(
        &self,
        alloc: Global,
        entries: &BlockList<Entry>,
    ) -> Result<ViewState, NoMemory>
        requires { AreWithin entries.now.items self.now.log }
        ensures table { IfOk result (λ new. new.table ≡ self.now.table) }
        ensures groups { IfOk result (λ new. new.groups ≡ self.now.groups) }
        ensures mark { IfOk result (λ new. new.mark ≡ self.now.mark) }
        ensures fed { IfOk result (λ new. IsFed entries.now.items self.now.log new.log) }
    {
        let log = self.log().feed_all(entries)?;
        ViewState::of(alloc, self.table(), log, self.groups().copy()?, self.mark())
    }
}
