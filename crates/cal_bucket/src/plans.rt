//! Queries by buckets of the calendar.
use ts_model::Fold;

/// A unit of the calendar, in UTC. A day is 86,400 seconds, a week seven days from a Monday on, and a year
/// twelve months from January on.
#[derive(Clone, Copy, Debug, PartialEq, Eq)]
pub enum CalUnit {
    Day,
    Week,
    Month,
    Year,
}

/// A grouping by buckets of the calendar.
#[derive(Drop, Debug)]
pub struct CalPlan {
    /// The number of units of a bucket, from 1 to 1,200.
    pub number: u32,
    /// The unit.
    pub unit: CalUnit,
    /// The place of the time column among all columns, from 0.
    pub at: u32,
    /// How rows are grouped and aggregated. Its width has no effect.
    pub fold: Fold,
}
