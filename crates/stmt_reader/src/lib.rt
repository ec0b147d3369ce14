//! Statements of a line, read from its tokens by a grammar.
//!
//! - `reading`: the statement of a line, by a reader of its tokens.
//! - `rows`: the rows of an INSERT, read from their bytes.
//! - `reader`, `phrases`, `clauses`, `folds`, `forms`: the reader, with a method for each rule of the
//!   grammar, from one token to a whole statement.
//!   They are public for crates that read other forms.
//! - `faults`: why a text isn't a statement.
#![tactic(auto)]

mod clauses;
mod faults;
mod folds;
mod forms;
mod phrases;
mod reader;
mod reading;
mod rows;

pub use faults::{Fault, ReadError};
pub use folds::Head;
pub use phrases::{Phrase, Separator};
pub use reader::Reader;
pub use reading::{ReadStmt, one_reading_law, read_stmt, reading_law, statements_are_written_law};
