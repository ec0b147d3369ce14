//! The top call. It takes the words of the command line, the bytes of a script and a journal. It gives the bytes of the
//! replies, and the journal with all acknowledged events.
//!
//! - `commands`: the commands that words name.
//! - `run`: the top call.
//! - `openings`: opens a journal for a script.
//! - `scripts`: scripts on the history of a journal.
//! - `prints`: prints texts of a journal.
//! - `parallel`: runs inputs by a worker for each session.
//! - `checkpoints`: appends the image of a journal's history to the journal.
//! - `audits`: audits a transcript against a journal.
//! - `demos`: the demonstration.
//! - `endings`: how a call ended.
#![tactic(auto)]

mod audits;
mod checkpoints;
mod commands;
mod demos;
mod endings;
mod openings;
mod parallel;
mod prints;
mod run;
mod scripts;

pub use commands::{Command, Text, command_of};
pub use endings::{Ended, Status};
pub use run::run_words;
