//! Partial aggregates: running totals of a column of values, for every aggregate function. They combine what
//! was aggregated in parts.
//!
//! - `partials`: the partial aggregate of a column, and the value of a function of it.
//! - `keys`: the keys of a group.
//! - `groups`: a group of rows with its bucket, its keys and its partial aggregates.
#![tactic(auto)]

mod groups;
mod keys;
mod partials;

pub use groups::{Group, group_order};
pub use keys::Keys;
pub use partials::Partial;
