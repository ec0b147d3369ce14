//! The results of several sessions that ran in parallel, over the one history of the store that they shared.
//! Definitions and laws.
#![tactic(auto)]

pub mod laws;
