//! What the lines of a demonstration are, do, and read. Definitions and laws only: no code runs.
//!
//! - `acts`: each line is its intended statement, and a session that executes it does one action
//!   (`specs/Statements.antt`, `specs/Acts.antt`).
//! - `reads`: how many stored rows a demonstration reads. `specs/Histories.antt` has the histories that its lines
//!   create, and `specs/Turns.antt` the effect of an action of a session.
#![tactic(auto)]

pub mod acts;
pub mod reads;
