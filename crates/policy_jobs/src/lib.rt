//! Refresh and retention policies: their statements, which policies are due at a time, and sessions that keep
//! policies and run those that are due.
//!
//! - `jobs`: the job of a policy.
//! - `statements`: the statements on policies.
//! - `reading`: reads such a statement from a text, by its grammar.
//! - `adding`: why a new policy is refused.
//! - `policies`: the policies of a session, which of them are due, and the statements that they run.
//! - `kept`: the policies of a session, with the earliest time at which one of them is due.
//! - `runs`: statements that an actor executes in order.
//! - `sessions`: sessions with policies, and how they execute statements on them.
//! - `actors`: makes sessions with policies actors.
//! - `laws`: laws of policies and ticks, in clauses of functions that do nothing.
#![tactic(auto)]

mod actors;
mod adding;
mod jobs;
mod kept;
mod laws;
mod policies;
mod reading;
mod runs;
mod sessions;
mod statements;

pub use jobs::Job;
pub use kept::KeptPolicies;
pub use laws::{
    cut_lines_read_less, due_texts_are_statements, lines_keep_policies, lines_see_their_own_places,
    only_new_ones_are_due, others_see_no_queue, queries_show_the_queue, second_ticks_are_idle,
    ticks_are_their_lines, ticks_make_few_events,
};
pub use policies::{Policy, due_texts, mark_due};
pub use reading::{PolicyRead, policy_reading_law, read_policy};
pub use sessions::PolicySession;
pub use statements::PolicyStmt;
