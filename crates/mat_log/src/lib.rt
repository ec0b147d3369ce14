//! The stale buckets of one aggregate: those that were touched since their last refresh.
#![tactic(auto)]

mod lasts;
mod logs;
mod ranges;
mod spans;
mod touches;

pub use logs::MatLog;
