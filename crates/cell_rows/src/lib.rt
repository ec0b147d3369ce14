//! Rows of cells in one vector, so that a row needs no separate memory.
#![tactic(auto)]

mod iter;
mod rows;

pub use iter::Iter;
pub use rows::CellRows;
