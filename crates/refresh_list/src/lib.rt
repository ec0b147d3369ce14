//! The refreshes that were cut, in order of their cuts: which are pending, and which event finished each.
#![tactic(auto)]

pub mod laws;
mod lists;
mod refreshes;

pub use lists::Refreshes;
pub use refreshes::{Refresh, Stage};
