//! Sessions: what a line of a script does to a store, and what it says.
//!
//! - `actors`: types that execute the lines of a session.
//! - `sessions`: sessions, and what they hold.
//! - `blocks`: blocks and their queues.
//! - `steps`: the step of a session, which is one line.
//! - `kinds`: the kinds of statements, by which blocks let them pass or not.
//! - `name_checks`: resolves the names of a statement, and says what it does first.
//! - `block_ends`: first steps of statements that begin or end a block, or use a snapshot that the session holds.
//! - `openings`: what a statement does first, by its kind and by the block of its session.
//! - `deeds`: store calls, and the one function that carries out a statement by them.
//! - `calls`: performs store calls.
//! - `follows`: what follows a store call, by its outcome.
//! - `events`: commits of operations, and new aggregates.
//! - `refreshes`: the three phases of refreshes.
//! - `queries`: queries.
//! - `call_outcomes`: outcomes of store calls.
//! - `changes`: results of statements: what they reply, and how they change a session.
//! - `refusals`: refusals of the text, of the block, and of refreshes.
//! - `replies`: replies of a session to its lines.
#![tactic(auto)]

mod actors;
pub mod block_ends;
mod blocks;
mod call_outcomes;
pub mod calls;
pub mod changes;
pub mod deeds;
pub mod events;
pub mod follows;
mod kinds;
pub mod laws;
pub mod name_checks;
mod openings;
pub mod queries;
mod refreshes;
mod refusals;
mod replies;
mod sessions;
mod steps;

pub use actors::Actor;
pub use blocks::{Block, Open, Queue};
pub use call_outcomes::Attempt;
pub use kinds::{StatementKind, kind_of};
pub use openings::Opening;
pub use refreshes::{RefreshRequest, SnapOutcome, cut, finish, snapshot_of, take_snapshot};
pub use refusals::{bare, text_refusal};
pub use replies::{Reply, StepEnd, step_end, write_reply};
pub use sessions::{Session, Snapshot};
