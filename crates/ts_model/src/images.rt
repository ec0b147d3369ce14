//! Checkpoint images: a later start begins with one instead of the events up to it.
ghost use Rattle.std.specs.Prelude.{◌≡◌, IfOk};

use crate::events::Event;
use crate::refreshes::Waiting;
use ts_bucket::Span;
use ts_schema::{NoMemory, Seq};

/// The totals of a column of the rows of a group.
#[derive(Clone, Copy, Debug, PartialEq, Eq)]
pub struct Sums {
    /// The number of rows.
    pub count: u64,
    /// The number of values that aren't NULL.
    pub values: u64,
    /// The sum of these.
    pub sum: i128,
    /// The least of these.
    pub least: Option<i64>,
    /// The greatest of these.
    pub most: Option<i64>,
}

/// A group that the last refresh of a bucket stored.
#[derive(Drop, Debug, Clone, PartialEq, Eq)]
pub struct SavedGroup {
    /// The start of the bucket.
    pub start: i64,
    /// The keys.
    pub keys: Seq<Option<i64>>,
    /// The totals for each aggregate function, in order.
    pub parts: Seq<Sums>,
}

/// Buckets with the same last refresh.
#[derive(Clone, Copy, Debug, PartialEq, Eq)]
pub struct SavedLast {
    /// The buckets.
    pub span: Span,
    /// The snapshot of their last refresh.
    pub pos: u64,
}

/// The saved parts of an aggregate.
#[derive(Drop, Debug, Clone, PartialEq, Eq)]
pub struct SavedView {
    /// The last refreshes, in rising order of their buckets.
    pub lasts: Seq<SavedLast>,
    /// The buckets that were touched after their last refresh.
    pub dirty: Seq<Span>,
    /// The groups that the last refresh of each of these buckets stored.
    pub groups: Seq<SavedGroup>,
    /// The watermark.
    pub mark: Option<i64>,
}

/// A refresh that was finished.
#[derive(Clone, Copy, Debug, PartialEq, Eq)]
pub struct Finished {
    /// Its number, which is that of its cut.
    pub cut: u64,
    /// The number of the event that finished it.
    pub built: u64,
}

/// A history without its events, with which a later start begins.
#[derive(Drop, Debug, Clone, PartialEq, Eq)]
pub struct Image {
    /// The position.
    pub pos: u64,
    /// The events that create the tables, and then the aggregates.
    pub roster: Seq<Event>,
    /// One commit for each table with rows.
    pub rows: Seq<Event>,
    /// The saved parts of each aggregate.
    pub views: Seq<SavedView>,
    /// The waiting refreshes, in rising order of their cuts.
    pub waiting: Seq<Waiting>,
    /// The refreshes that were finished, in rising order of their cuts.
    pub done: Seq<Finished>,
}

impl SavedGroup {
    /// A copy of the group.
    pub fn copy(&self) -> Result<SavedGroup, NoMemory>
        ensures same { IfOk result (λ copy. copy ≡ self.now) }
    {
        Ok(SavedGroup {
            start: self.start,
            keys: self.keys.copy()?,
            parts: self.parts.copy()?,
        })
    }
}

impl SavedView {
    /// A copy of it.
    pub fn copy(&self) -> Result<SavedView, NoMemory>
        ensures same { IfOk result (λ copy. copy ≡ self.now) }
    {
        Ok(SavedView {
            lasts: self.lasts.copy()?,
            dirty: self.dirty.copy()?,
            groups: self.groups.copy()?,
            mark: self.mark,
        })
    }
}

impl Image {
    /// A copy of the image.
    pub fn copy(&self) -> Result<Image, NoMemory>
        ensures same { IfOk result (λ copy. copy ≡ self.now) }
    {
        Ok(Image {
            pos: self.pos,
            roster: self.roster.copy()?,
            rows: self.rows.copy()?,
            views: self.views.copy()?,
            waiting: self.waiting.copy()?,
            done: self.done.copy()?,
        })
    }
}
