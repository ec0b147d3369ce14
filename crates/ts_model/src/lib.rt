//! The model of `tsctl`: tables, aggregates, events and histories; queries and their answers; refreshes,
//! staleness and windows; and the traits of stores and snapshots. The definitions are in `specs/`, one topic
//! per module.
#![tactic(auto)]

mod backends;
mod cells;
pub mod codes;
mod events;
mod gates;
mod images;
pub mod laws;
pub mod limits;
mod outcomes;
mod queries;
mod refreshes;
mod results;
mod rosters;
mod scans;
mod snapshots;
mod tables;
mod views;

pub use backends::Backend;
pub use cells::{GroupRow, put_values};
pub use events::{Event, Op};
pub use gates::{Gate, NoGate};
pub use images::{Finished, Image, SavedGroup, SavedLast, SavedView, Sums};
pub use outcomes::{Committed, CutDone, Outcome, Refusal};
pub use queries::{Answer, Query};
pub use refreshes::{Pending, Waiting, Window};
pub use results::{ResultIter, ResultRow, ResultRows};
pub use rosters::Roster;
pub use scans::RowsAt;
pub use snapshots::Shown;
pub use tables::{Hyper, TableDef, TableInfo};
pub use views::{Agg, Fold, ViewDef};
