//! Checks a statement's names and values against the roster: its request, or its first refusal.
#![tactic(auto)]

mod actions;
mod folds;
mod inserts;
mod laws;
mod limits;
mod queries;
mod refusals;
mod relations;
mod statements;
mod tables;

pub use actions::{Action, Checked};
pub use laws::{
    actions_are_sound_law, allowed_is_ready_law, drops_whole_chunks_law, queues_are_sound_law,
    rosters_are_numbered_law, starts_pass_each_law, values_arrive_law,
};
pub use limits::rows_law;
pub use statements::check;
