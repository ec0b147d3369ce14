//! Grouping and aggregation: the groups of rows, in order by bucket and keys, folded in one piece or in many.
//!
//! - `folds`: the groups of a list of rows.
//! - `fold_builder`: the same for rows from several lists.
//! - `group_table`: groups while rows are added, in order if rows come nearly in order, and otherwise as they
//!   come.
//! - `open_groups`: groups that rows are added to, `heads` and `blocks`: their buckets and keys, and their
//!   totals.
//! - `near_places`: the place of the group of a row, while rows come nearly in order.
//! - `members`: the group of a row among groups, and what the row adds to it.
//! - `orders`: groups put in order.
//! - `joins`: two lists of groups joined.
//! - `pieces`: the groups of many lists of rows, in as many threads as are useful.
//! - `scans`: the rows of some spans, in pieces.
//! - `spans`: the groups of the rows of some spans: one scan for each span, folded in pieces.
//! - `laws`: groups of some of the rows, and of some of the buckets.
#![tactic(auto)]

mod blocks;
mod fold_builder;
mod folds;
mod group_table;
mod heads;
mod joins;
pub mod laws;
mod members;
mod near_places;
mod open_groups;
mod orders;
mod pieces;
mod scans;
mod spans;

pub use fold_builder::FoldBuilder;
pub use folds::fold;
pub use joins::join_parts;
pub use pieces::fold_pieces;
pub use spans::fold_spans;
