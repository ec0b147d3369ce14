//! Chunks of a table by the times that they hold.
//!
//! A chunk holds the times from a whole multiple of the interval on and below the next one. A change creates a
//! new value, which shares the chunks and segments that it doesn't change. So earlier values still see the same
//! rows.
#![tactic(auto)]

mod catalog;
mod chunk;
mod parts;
mod segment_trees;
mod time_ranges;
mod trees;

pub use catalog::{Chunks, KilledChunks, passing_span};
