//! Tables of rows under the operations of commits.
//!
//! A table keeps every row that was ever inserted, with the positions at which it was inserted and deleted. A
//! commit creates a new table, which shares with the old one what the commit doesn't change.
#![tactic(auto)]

mod effects;
pub mod laws;
mod tables;

pub use effects::Effect;
pub use tables::{Applied, Table};
