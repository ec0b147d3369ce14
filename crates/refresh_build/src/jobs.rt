//! Jobs.
use mat_rows::MatRows;
use ts_bucket::Span;
use ts_schema::Seq;

/// A refresh that waits for its job.
#[derive(Clone, Copy, Debug)]
pub struct Refresh {
    /// The number of its aggregate.
    pub view: u32,
    /// The number of its cut.
    pub cut: u64,
    /// The position of the snapshot.
    pub snap: u64,
    /// The span of its cut, of whole buckets.
    pub span: Span,
}

/// What a finish needs: the groups that were computed for a refresh.
#[derive(Drop, Debug)]
pub struct Job {
    /// The number of its aggregate.
    pub view: u32,
    /// The number of its cut.
    pub cut: u64,
    /// The position of the snapshot that it was computed from.
    pub snap: u64,
    /// The span of its cut.
    pub span: Span,
    /// The ranges of buckets that it recomputes.
    pub spans: Seq<Span>,
    /// The groups of these ranges, in order.
    pub groups: MatRows,
    /// The greatest end of a bucket with a group.
    pub top: Option<i64>,
}
