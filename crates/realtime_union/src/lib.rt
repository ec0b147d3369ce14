//! The real-time answer of an aggregate: its materialized groups, and at or above its mark the groups of the
//! rows.
#![tactic(auto)]

pub mod laws;
mod live;
mod passing;
mod tables;
mod unions;

pub use live::live_span;
pub use passing::passing_rows;
pub use tables::folded_rows;
pub use unions::union_rows;
