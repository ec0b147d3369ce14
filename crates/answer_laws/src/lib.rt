//! What replies show: laws that join the definitions of answers with what a statement prints. No code runs.
//!
//! `specs/Laws.antt` says which buckets the answer of an aggregate shows from scratch, and which wider buckets a
//! roll-up shows. For a query by calendar buckets, it says which date names each of its rows. `ts_model` defines a
//! bucket from scratch (`specs/Scratch.antt`), and `ts_sessions` defines what a statement does (`specs/Step.antt`).
#![tactic(auto)]

pub mod laws;
