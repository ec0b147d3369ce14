//! The lines of a whole input, sorted by their sessions, for a run that gives each session its own worker.
//!
//! - `sessions`: the lines of a session, by their places in the input.
//! - `sorting`: sorts the lines of an input.
//! - `line_ends`: where a line ends.
//! - `names`: the names of sessions.
//! - `phases`: which sessions run alone, and which in parallel.
#![tactic(auto)]

mod line_ends;
mod names;
mod phases;
mod sessions;
mod sorting;

pub use phases::{Phases, into_phases};
pub use sessions::{LinePlace, SessionLines};
pub use sorting::{SortedLines, sort_lines};
