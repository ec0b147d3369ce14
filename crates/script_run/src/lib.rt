//! The loop over the lines of a script: it reads a line, executes it in its session, and writes the reply before it
//! reads the next line.
//!
//! - `runs`: the loop.
//! - `ends`: how a run ends.
//! - `scripts`: the state of a script between lines.
//! - `lines`: executes a line.
//! - `sessions`: the sessions that have appeared, by their names.
//! - `replies`: replies to lines that no session answers.
#![tactic(auto)]

mod ends;
mod lines;
mod replies;
mod runs;
mod scripts;
mod sessions;

pub use ends::RunEnd;
pub use runs::run;
