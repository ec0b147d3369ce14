//! The states of refreshes.
use ts_bucket::Span;

/// The outcome of the refresh with a number.
#[derive(Clone, Copy, Debug, PartialEq, Eq)]
pub enum Pending {
    /// It was cut, of the aggregate with this number, and isn't finished.
    Waiting(u32),
    /// It was finished by the event with this number.
    Finished(u64),
    /// No refresh has this number.
    Unknown,
}

/// A refresh that was cut and isn't finished.
#[derive(Clone, Copy, Debug, PartialEq, Eq)]
pub struct Waiting {
    /// Its number, which is that of its cut.
    pub cut: u64,
    /// The number of its aggregate.
    pub view: u32,
    /// Its span of whole buckets.
    pub span: Span,
}

/// The buckets that a refresh with a given window covers.
#[derive(Clone, Copy, Debug, PartialEq, Eq)]
pub enum Window {
    /// These whole buckets.
    Whole(Span),
    /// The window has a given end and holds no whole bucket.
    NoBucket,
    /// The window has no given end, and there is nothing to refresh.
    Nothing,
}
