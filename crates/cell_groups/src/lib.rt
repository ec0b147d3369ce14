//! Groups of rows of an answer, computed from the rows' cells.
//!
//! - `shapes`: which cells of a row group it, and which are aggregated.
//! - `cells`: the cells of a row, read as values.
//! - `tallies`: totals of the cells of a column.
//! - `groups`: one group.
//! - `group_lookup`: the groups of rows as they are added.
//! - `orders`: groups put in order.
//! - `prints`: hashes by which groups are found.
//! - `results`: the result rows of groups.
//! - `written`: result rows of groups in order, each written when its group ends.
//! - `stops`: why rows can't be added or shown.
#![tactic(auto)]

mod cells;
mod group_lookup;
mod groups;
mod orders;
mod prints;
mod results;
mod shapes;
mod stops;
mod tallies;
mod written;

pub use cells::{RowCells, passes};
pub use group_lookup::CellGroups;
pub use groups::CellGroup;
pub use results::rows_of;
pub use shapes::Shape;
pub use stops::Stop;
pub use tallies::Tally;
pub use written::WrittenGroups;
