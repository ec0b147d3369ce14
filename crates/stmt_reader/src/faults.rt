//! Why a text isn't a statement.
ghost use Rattle.std.specs.Prelude.{◌≡◌};
ghost use Rattle.stmt_reader.specs.declared.faults.ReadError.TheVariants.{Memory};

use ts_schema::NoMemory;

/// An error of a text, at a place of the line, counted from 1.
#[derive(Clone, Copy, Debug, PartialEq, Eq)]
pub enum Fault {
    /// No token begins here.
    NoToken(u32),
    /// No statement continues with the token here, or the text ends here before the statement is complete.
    Syntax(u32),
    /// The number here isn't an i64.
    BadNumber(u32),
}

/// Why reading ended.
#[derive(Clone, Copy, Debug, PartialEq, Eq)]
pub enum ReadError {
    /// An allocation failed.
    Memory,
    /// The text isn't a statement.
    Fault(Fault),
}

impl From<NoMemory> for ReadError {
    ghost from_gives = { λ _ e. e ≡ Memory };

    fn from(_refused: NoMemory) -> ReadError {
        ReadError::Memory
    }
}
