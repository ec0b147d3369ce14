//! Demonstrations: runs the script of one on a store in memory that starts empty, and summarizes the store's
//! contents.
//!
//! - `runs`: the script on an empty store.
//! - `sums`: the summary of a history.
//! - `demos`: a demonstration and its summary.
#![tactic(auto)]

mod demos;
mod runs;
mod sums;

pub use demos::{Demonstration, demo};
