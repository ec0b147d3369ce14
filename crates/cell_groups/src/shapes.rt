//! Which cells of a row group it, and which are aggregated.
use ts_model::Agg;
use ts_schema::Seq;

/// The cells by which rows are grouped, and the aggregates of each group. Columns are places among the cells of
/// a row, from 0.
#[derive(Drop, Debug)]
pub struct Shape {
    /// The cells that rows are grouped by, in the order in which they are shown.
    pub keys: Seq<u32>,
    /// The aggregates of each group, in the order in which they are shown.
    pub aggs: Seq<Agg>,
}
