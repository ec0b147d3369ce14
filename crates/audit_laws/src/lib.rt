//! What a parallel run leaves, and its audit: the history explains the transcript. These are laws on definitions; no
//! code runs.
#![tactic(auto)]

pub mod laws;
