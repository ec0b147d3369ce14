//! The lines of an input, executed by one worker for each session over one shared store: `setup` alone,
//! then all other sessions in parallel, then `final` alone.
//!
//! - `runs`: the run.
//! - `ends`: how a run ends.
//! - `crews`: the workers of a run.
//! - `outputs`: what all workers have replied.
//! - `workers`: a session that executes its lines of an input at a store.
//! - `executors`: a session that executes lines in order.
//! - `replies`: what a session replies.
//! - `laws`: laws of the transcripts of runs.
#![tactic(auto)]

mod crews;
mod ends;
mod executors;
mod laws;
mod outputs;
mod replies;
mod runs;
mod workers;

pub use ends::{ParEnd, ParStop};
pub use laws::{runs_are_ascii, runs_are_sound};
pub use runs::par;
