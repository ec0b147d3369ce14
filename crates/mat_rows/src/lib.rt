//! The materialized groups of an aggregate, in shared blocks.
#![tactic(auto)]

mod making;
mod rows;
mod search;

pub use rows::MatRows;
