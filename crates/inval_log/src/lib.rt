//! The log of invalidations of one table: which hulls of commits lie below what was refreshed.
#![tactic(auto)]

mod entries;
mod logs;

pub use entries::Entry;
pub use logs::InvalLog;
