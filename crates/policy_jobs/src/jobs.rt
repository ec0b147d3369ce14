//! The jobs of policies.
use ts_schema::Name;

/// The job that a policy does at a time.
#[derive(Drop, Debug, PartialEq, Eq)]
pub enum Job {
    /// Refreshes an aggregate in the window from `from` before that time to `to` before it, in the unit of the time
    /// column. `None` leaves an end open. These are `start_offset` and `end_offset` of TimescaleDB's
    /// `add_continuous_aggregate_policy`.
    Refresh {
        view: Name,
        from: Option<i64>,
        to: Option<i64>,
    },
    /// Drops the chunks of a hypertable that end at least `after` before that time. This is `drop_after` of
    /// TimescaleDB's `add_retention_policy`.
    Drop {
        table: Name,
        after: i64,
    },
}
