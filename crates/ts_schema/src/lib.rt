//! The vocabulary of every layer: lists, names, columns, rows, tests on rows, a count of steps, and the error
//! when memory runs out.
#![tactic(auto)]

mod columns;
mod conditions;
mod memory;
mod names;
mod rows;
mod sequences;
mod shared;
mod steps;
mod values;

pub use columns::Column;
pub use conditions::{Cmp, Test, passes};
pub use memory::NoMemory;
pub use names::Name;
pub use rows::{Row, field, order_of_values, row_order, value_order, values_order};
pub use sequences::Seq;
pub use shared::SharedSlice;
pub use steps::Steps;
pub use values::{ValueBlock, Values};
