//! Jobs of refreshes: the groups of the ranges of buckets that a refresh recomputes.
#![tactic(auto)]

mod builds;
mod jobs;
mod tops;

pub use builds::{build, build_ranges};
pub use jobs::{Job, Refresh};
