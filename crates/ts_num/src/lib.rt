//! Numbers that an answer shows: whole numbers, NULLs and exact ratios, with their decimal text.
//!
//! - `digits`: the digits of a number, appended to a vector.
//! - `ends`: the greater of two numbers that may be missing.
//! - `fractions`: a fraction, and the one in lowest terms of a sum over a count.
//! - `texts`: what a number and a value look like in an answer.
//! - `values`: the aggregate functions, and the value that a cell of an answer shows.
#![tactic(auto)]

mod digits;
mod ends;
mod fractions;
mod texts;
mod values;

pub use ends::greater;
pub use fractions::{Frac, lowest, lowest_terms_law};
pub use texts::{put_datum, put_int};
pub use values::{Datum, Fun};
