//! The texts that the program writes: replies, answers, refusals, the lines of a log, pending refreshes, and the
//! summary of a demonstration. Each function appends its whole text, or leaves the buffer as it was if it runs out
//! of memory.
#![tactic(auto)]

mod answers;
mod events;
mod pieces;
mod refusals;
mod replies;
mod spans;
mod summaries;

pub use answers::{put_answer, put_queued_answer};
pub use events::{put_event, put_history, put_pending};
pub use refusals::{Tail, put_refusal};
pub use replies::{Said, put_line_fault, put_reply};
pub use summaries::{Summary, put_summary};
