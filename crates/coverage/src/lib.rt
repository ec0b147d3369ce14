//! Coverage: the notes kept beside a history say exactly what is stale. These are laws of plain functions; no
//! code runs.
//!
//! The notes of an aggregate are the threshold and the log of its table, and two partial functions of its
//! buckets. These are the pending position and that of the last refresh. `specs/Notes.antt` says what each
//! event does to them, `specs/Coverage.antt` what it means that they cover the aggregate, and `specs/Laws.antt`
//! what follows.
#![tactic(auto)]

pub mod histories;
pub mod steps;
