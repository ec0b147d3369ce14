//! Columns of tables.
use crate::names::Name;

/// A column of whole numbers.
#[derive(Drop, Debug, Clone, PartialEq, Eq)]
pub struct Column {
    /// Its name, which no other column of its table has.
    pub name: Name,
    /// Whether it is NOT NULL.
    pub must: bool,
}
