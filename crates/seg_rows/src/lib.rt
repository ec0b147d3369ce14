//! Sealed segments: rows that never change, each with the positions at which it was inserted and deleted.
//!
//! A change creates a new segment, which shares the rows of the old one. So every position still sees the same
//! rows.
#![tactic(auto)]

mod deaths;
mod deletes;
mod hulls;
mod joins;
mod lives;
mod scans;
mod segments;

pub use deaths::{both_died, has_died};
pub use hulls::{greatest_time, join_hulls, row_hull};
pub use joins::copied_rows;
pub use scans::is_no_later;
pub use segments::{Killed, Segment};
