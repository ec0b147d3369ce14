//! Roll-ups: an aggregate's answer in wider buckets.
//!
//! - `reads`: the request of a statement to an aggregate: the plan of a roll-up, or its first refusal.
//! - `widths`: checks its width against that of the aggregate.
//! - `columns`: checks its keys, aggregates and tests against those of the aggregate.
//! - `stops`: why the reading ends early.
//! - `plans`: the columns of the lower answer that a roll-up takes, and how it groups them.
//! - `answers`: the upper answer and its rows.
//! - `stale`: the wider buckets that hold a stale one.
//! - `wholes`: whether a roll-up takes all of an aggregate, and so is its answer, or all its groups.
//! - `places`: the cells of that answer that it then shows.
//! - `shapes`: a roll-up, as a grouping of cells.
//! - `rows`: a row of an answer: its keys, and its wider bucket.
//! - `writes`: the result rows of an answer's rows, written in one pass if their groups come in order.
//! - `gathers`: the groups of an answer's rows, in any order.
//! - `wides`: the wider bucket of a row.
//! - `laws`: the answers of roll-ups, at every history.
#![tactic(auto)]

mod answers;
mod columns;
mod gathers;
pub mod laws;
mod places;
mod plans;
mod reads;
mod rows;
mod shapes;
mod stale;
mod stops;
mod wholes;
mod wides;
mod widths;
mod writes;

pub use answers::answer_upper;
pub use places::chosen_places;
pub use plans::{UpperPlan, lower_query};
pub use reads::{UpperRead, read_upper};
pub use wholes::{takes_all, takes_groups};
