//! The aggregate functions, and the value that a cell of an answer shows.
use crate::fractions::Frac;

/// An aggregate function of the rows of a group. The values are those of its column that aren't NULL, as in
/// PostgreSQL ("Aggregate Functions").
#[derive(Clone, Copy, Debug, PartialEq, Eq)]
pub enum Fun {
    /// The number of rows.
    CountAll,
    /// The number of values that aren't NULL.
    Count,
    /// The sum of the values, NULL if there are none.
    Sum,
    /// The least value, NULL if there are none.
    Min,
    /// The greatest value, NULL if there are none.
    Max,
    /// The mean of the values as a ratio in lowest terms, NULL if there are none.
    Avg,
}

/// What a cell of an answer shows.
#[derive(Clone, Copy, Debug, PartialEq, Eq)]
pub enum Datum {
    Null,
    Int(i128),
    Ratio(Frac),
}
