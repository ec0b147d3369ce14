//! The greatest number of rows of an INSERT.
ghost use Rattle.std.specs.Prelude.{◌≡◌};
ghost use Rattle.stmt_check.specs.Limits.{most_rows};
ghost use Rattle.stmt_check.specs.declared.limits.TheConstants as limits;

/// The most rows of one INSERT.
pub const MAX_ROWS: usize = 1000;

/// States the limit as a number. Does nothing.
pub fn rows_law()
    ensures limit { most_rows ≡ 1000 }
    ensures most { limits.MAX_ROWS ≡ most_rows }
{}
