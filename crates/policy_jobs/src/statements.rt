//! Statements on policies.
use crate::jobs::Job;

/// A statement on policies. Names are in lower case, and NULL is `None`.
#[derive(Drop, Debug, PartialEq, Eq)]
pub enum PolicyStmt {
    /// `SELECT add_continuous_aggregate_policy` or `SELECT add_retention_policy`: a job, and the least interval
    /// between two runs of it.
    Add { job: Job, every: i64 },
    /// `TICK`, with the current time.
    Tick(i64),
}
