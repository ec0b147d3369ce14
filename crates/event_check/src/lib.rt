//! Whether an event may come next, and why not; the buckets that a refresh covers; and the bytes that an
//! event takes. All of this follows from the roster, a few numbers, and the outcome of one refresh.
#![tactic(auto)]

mod bytes;
mod columns;
mod conditions;
mod cuts;
mod events;
mod folds;
mod laws;
mod operations;
mod relations;
mod rosters;
mod rows;
mod windows;

pub use bytes::{bytes_of, bytes_of_rows, bytes_of_value, bytes_of_values};
pub use cuts::span_is_fit;
pub use events::{call_refusal, may_follow, refusal_of};
pub use operations::op_is_fit;
pub use relations::{table_in, view_in};
pub use rosters::after_event;
pub use windows::window;
