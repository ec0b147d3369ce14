//! Statements as they are written: the parts of a statement, the limits of its text, and properties of each
//! statement with a text.
//!
//! - `statements`: the parts of a statement.
//! - `limits`: how long lines and inputs may be.
#![tactic(auto)]

mod limits;
mod statements;

pub use limits::lengths_law;
pub use statements::{NamedAgg, NamedFold, NamedTest, Stmt};
