//! One refresh, and its stage.

use ts_bucket::Span;

/// A refresh that was cut.
#[derive(Clone, Copy, Debug, PartialEq, Eq)]
pub struct Refresh {
    /// Its number, which is that of its cut.
    pub cut: u64,
    /// Its stage.
    pub stage: Stage,
}

/// The stage of a refresh.
#[derive(Clone, Copy, Debug, PartialEq, Eq)]
pub enum Stage {
    /// It is pending: the number of its aggregate, and its span of whole buckets.
    Waits { view: u32, span: Span },
    /// The event with this number finished it.
    Done(u64),
}
