//! The results of events and operations, and the rows that they move.
ghost use Rattle.std.specs.Prelude.{◌≡◌};

/// The result of an event or of operations, and the numbers of rows that they appended and removed.
#[derive(Drop)]
pub struct AfterEvent<T> {
    /// The result.
    pub made: T,
    /// The number of rows that they appended.
    pub inserted: u64,
    /// The number of rows that they removed.
    pub removed: u64,
}

impl<T> AfterEvent<T> {
    ghost use Rattle.std.specs.Prelude.{◌≡◌};

    /// The result of an event that moves no rows.
    pub(crate) fn still(made: T) -> AfterEvent<T>
        ensures made { result.made ≡ made }
        ensures inserted { result.inserted ≡ 0 }
        ensures removed { result.removed ≡ 0 }
    {
        AfterEvent {
            made,
            inserted: 0,
            removed: 0,
        }
    }
}
