//! What calls of a store return.
use ts_bucket::Span;

/// Why a statement was refused.
#[derive(Clone, Copy, Debug, PartialEq, Eq)]
pub struct Refusal {
    /// The number of the refusal, such as 7 for `E07`.
    pub code: u8,
    /// The read position.
    pub pos: u64,
    /// The place, count or finish that the reply prints, or 0.
    pub mark: u64,
}

/// The result of a call that may append an event.
#[derive(Drop, Debug, PartialEq, Eq)]
pub enum Outcome<T> {
    /// The call succeeded.
    Done(T),
    /// It was refused, and nothing changed.
    Refused(Refusal),
    /// The disk failed, and the store is stopped from now on.
    DiskFault,
    /// It ran out of memory, and nothing changed.
    NoMemory,
}

/// What a commit did.
#[derive(Clone, Copy, Debug, PartialEq, Eq)]
pub struct Committed {
    /// The number of its event.
    pub pos: u64,
    /// The number of rows that it inserted, over all tables.
    pub inserted: u64,
    /// The number of rows that it removed, over all tables.
    pub removed: u64,
}

/// What a cut did.
#[derive(Clone, Copy, Debug, PartialEq, Eq)]
pub enum CutDone {
    /// The refresh with this number was begun, over these whole buckets.
    Cut { pos: u64, span: Span },
    /// There was nothing to refresh at this position.
    Nothing { pos: u64 },
}
