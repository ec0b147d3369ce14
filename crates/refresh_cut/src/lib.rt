//! The first phase of a refresh. The threshold of a table rises, and the entries of its invalidation log are
//! fed to the logs of all its aggregates.
#![tactic(auto)]

mod cuts;

pub use cuts::{CutParts, cut};
