//! Replays lines of sessions over a whole history: the outcome of a line, by its read positions.
//!
//! The driver of `ts_sessions` runs lines on a store. This one runs them on a given history, by the same store calls
//! and the same functions of what follows them.
//!
//! - `history_view`: the access to a history, and the outcomes of store calls there.
//! - `deed_replays`: replays store calls.
//! - `statements`: replays statements, by the block of their session.
//! - `write_blocks`: replays statements of a write block.
//! - `lines`: replays a line of a session.
#![tactic(auto)]

mod deed_replays;
mod history_view;
mod lines;
mod statements;
mod write_blocks;

pub use history_view::{CallAt, Past, ReplayPoint};
pub use lines::{ReplayedLine, replay};
