//! Relations and columns by their names.
#![tactic(auto)]

mod columns;
mod relations;

pub use columns::{column, column_place, name_place, view_column};
pub use relations::{Found, find};
