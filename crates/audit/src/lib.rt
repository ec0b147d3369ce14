//! The audit of a parallel run: whether the history that the run left explains every reply in its transcript.
//!
//! - `answers`: the answers of an audit.
//! - `audits`: the audit.
//! - `lines`: the lines of a transcript, as sessions execute them, and the first statement on policies.
//! - `known_history`: a history view with the state at each position from one on.
//! - `calls`: the outcome of a call at a position of a history.
//! - `replayed_session`: a session whose replies are judged in order.
//! - `session_replay`: the replies of a session, and how many of them are judged.
//! - `judgement`: the replies of all sessions, judged alternately in strides of positions.
//! - `numbers`: whether the numbers that replies name are the positions after the start, each once.
//! - `laws`: laws of audits, in clauses of functions that do nothing.
#![tactic(auto)]

mod answers;
mod audits;
mod calls;
mod judgement;
mod known_history;
pub mod laws;
mod lines;
mod numbers;
mod replayed_session;
mod session_replay;

pub use answers::Audit;
pub use audits::audit;
pub use lines::Place;
