//! The script of a demonstration: a table with a continuous aggregate, 40 rounds, and a late row. Each round inserts
//! 500 rows, and then refreshes and queries the aggregate. The number of the demonstration determines the values of the
//! rows.
//!
//! - `lines`: the line at each place.
//! - `rows`: the rows that the script inserts.
//! - `texts`: the texts of lines.
//! - `scripts`: a line by its number, and the whole script.
//! - `laws`: the text of a script has its lines.
#![tactic(auto)]

pub mod laws;
mod lines;
mod rows;
mod scripts;
mod texts;

pub use lines::Line;
pub use scripts::{demo_line, demo_script};

#[cfg(test)]
mod tests;
