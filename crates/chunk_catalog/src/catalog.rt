//! Chunks of a table.
ghost use Rattle.std.specs.Prelude.{◌≡◌, ◌≤ℤ◌, ◌<ℤ◌, ◌++◌, [], length, map, true, ℤ, IfOk, IfSome, OnOk, OnErr};
ghost use Rattle.seg_rows.specs.Hulls.{hull_of};
ghost use Rattle.seg_rows.specs.Versions.{AsOften, after_kill, latest_at, newborn, rows_at, taken_at};
ghost use Rattle.ts_schema.specs.Counts.{raised_by, RaisedUpTo};
ghost use Rattle.chunk_catalog.specs.Chunks.{AreLow, HaveTimes, HoldsTimes, after_drop, dropped_at, held_near};
ghost use Rattle.ts_bucket.specs.Bucket.{is_time};
ghost use Rattle.ts_bucket.specs.Chunks.{IsInterval};
ghost use Rattle.ts_bucket.specs.Spans.{in_span};

use crate::parts::put_rows;
use crate::time_ranges::{drop_reach, span_reach, start_reach, test_times};
use crate::trees::Tree;
use std::alloc::Global;
use std::marker::Model;
use ts_bucket::{Hull, MAX_TIME, MIN_TIME, Span};
use ts_schema::{NoMemory, Row, Seq, SharedSlice, Steps, Test};

/// The greatest number of versions of a value, which no memory could hold.
const MOST_VERSIONS: u64 = 4_611_686_018_427_387_904;

/// The greatest number of rows of a new segment. It bounds the positions that a later delete copies.
const MANY: usize = 1024;

/// A span that meets chunks with at most this many versions isn't split.
const FEW_VERSIONS: u64 = 4096;

/// Rows by the chunks that hold their times. Contracts see the interval and the list of all versions that were
/// ever inserted there, removed or not.
#[derive(Drop)]
pub struct Chunks {
    alloc: Global,
    interval: i64,
    tree: Tree,
    count: u64,
}

impl Model for Chunks {
    ghost use Rattle.std.specs.Prelude.{◌+◌};
    ghost use Rattle.chunk_catalog.specs.Chunks.{ChunksValue};
    ghost use Rattle.chunk_catalog.specs.Places.{versions_of};
    ghost use Rattle.chunk_catalog.specs.Kept.{IsKept};

    ghost Value = { ChunksValue };

    ghost view = { λ c. record {
      interval = c.interval;
      versions = versions_of c.tree.0;
      levels = c.tree.1.chunks + c.tree.1.segments;
    } };

    ghost invariant = { λ c. IsKept c.interval c.tree.0 c.count };
}

/// The chunks after a delete.
#[derive(Drop)]
pub struct KilledChunks {
    /// The chunks after it.
    pub chunks: Chunks,
    /// The number of versions deleted.
    pub removed: u64,
    /// The hull of their times.
    pub hull: Option<Hull>,
}

/// A span that holds the times of all rows that pass every test.
pub fn passing_span(tests: &[Test]) -> Span
    ensures every { HoldsTimes tests.now result }
{
    let times = test_times(tests);
    time_span(times.first, times.last)
}

/// The times from one to another, both included.
fn time_span(first: i64, last: i64) -> Span
    ensures every { (t : ℤ) → is_time t ≡ true → first ≤ℤ t → t ≤ℤ last → in_span result t ≡ true }
{
    let lo = first.max(MIN_TIME);
    Span {
        lo,
        hi: time_end(last).max(lo),
    }
}

/// The end of the times up to this one, included.
fn time_end(last: i64) -> i64
    ensures after { (t : ℤ) → is_time t ≡ true → t ≤ℤ last → t <ℤ result }
{
    if last < MAX_TIME {
        last + 1
    } else {
        MAX_TIME + 1
    }
}

impl Chunks {
    /// No chunks. Each chunk will hold `interval` times, from 1 to 2^50.
    pub fn new(alloc: Global, interval: i64) -> Chunks
        requires { IsInterval interval }
        ensures interval { result.interval ≡ interval }
        ensures versions { result.versions ≡ [] }
    {
        Chunks {
            alloc,
            interval,
            tree: Tree::new(),
            count: 0,
        }
    }

    /// A copy of the chunks.
    pub fn copy(&self) -> Result<Chunks, NoMemory>
        ensures same { IfOk result (λ copy. copy ≡ self.now) }
    {
        Ok(Chunks {
            alloc: self.alloc,
            interval: self.interval,
            tree: self.tree.copy()?,
            count: self.count,
        })
    }

    /// States that the number of levels of the trees of chunks and segments grows with the logarithm of the
    /// number of versions. Calls descend these trees, so this bounds their depth.
    pub fn levels_are_low(&self)
        ensures low { AreLow self.now.levels (length self.now.versions) }
    {
        let _few = self.tree.height();
    }

    /// The chunks with rows inserted at a position, which is at least those of the earlier changes.
    fn put(&self, rows: SharedSlice<Row>, pos: u64) -> Result<Chunks, NoMemory>
        requires times { HaveTimes rows }
        ensures interval { IfOk result (λ chunks. chunks.interval ≡ self.now.interval) }
        ensures versions { IfOk result (λ chunks.
            AsOften chunks.versions (self.now.versions ++ map (newborn pos) rows)) }
    {
        let count = self.count.saturating_add(rows.len() as u64);
        if count > MOST_VERSIONS {
            return Err(NoMemory);
        }
        Ok(Chunks {
            alloc: self.alloc,
            interval: self.interval,
            tree: put_rows(self.alloc, &self.tree, self.interval, rows, pos)?,
            count,
        })
    }

    /// The chunks with rows inserted at a position, which is at least those of the earlier changes. Each row
    /// has a time in the range of times. Takes the rows in pieces of up to 1,024. A piece whose times are in
    /// order is shared with the list, and any other is copied and sorted. Fails as out of memory for more than
    /// 2^62 versions in all.
    pub fn put_shared(&self, rows: &SharedSlice<Row>, pos: u64) -> Result<Chunks, NoMemory>
        requires times { HaveTimes rows.now }
        ensures interval { IfOk result (λ chunks. chunks.interval ≡ self.now.interval) }
        ensures versions { IfOk result (λ chunks.
            AsOften chunks.versions (self.now.versions ++ map (newborn pos) rows.now)) }
    {
        let mut chunks = self.copy()?;
        let mut from = 0;
        'pieces: while from < rows.len() {
            let to = from + (rows.len() - from).min(MANY);
            chunks = chunks.put(rows.part_of(from, to)?, pos)?;
            from = to;
        }
        Ok(chunks)
    }

    /// Deletes, at a position at or above those of the earlier changes, the versions that are visible there and
    /// pass every test. Doesn't read chunks and segments that can't hold such a row, or that have no version
    /// left to delete.
    pub fn kill(&self, tests: &Seq<Test>, pos: u64) -> Result<KilledChunks, NoMemory>
        ensures interval { IfOk result (λ k. k.chunks.interval ≡ self.now.interval) }
        ensures after { IfOk result (λ k. k.chunks.versions ≡ map (after_kill pos tests.now) self.now.versions) }
        ensures removed { IfOk result (λ k. k.removed ≡ length (taken_at pos tests.now self.now.versions)) }
        ensures hull { IfOk result (λ k. k.hull ≡ hull_of (taken_at pos tests.now self.now.versions)) }
    {
        let times = test_times(tests.items());
        let reach = start_reach(self.interval, times);
        let killed = self.tree.kill(self.alloc, reach, times, tests, pos)?;
        Ok(KilledChunks {
            chunks: Chunks {
                alloc: self.alloc,
                interval: self.interval,
                tree: killed.tree,
                count: self.count,
            },
            removed: killed.removed,
            hull: killed.hull,
        })
    }

    /// Deletes, at a position at or above those of the earlier changes, the visible versions of the chunks that
    /// end at or before `n`. This is for callers without tests. The statement `drop_chunks` is a delete by a
    /// test of the time, and so it calls `kill`.
    pub fn drop_below(&self, n: i64, pos: u64) -> Result<KilledChunks, NoMemory>
        ensures interval { IfOk result (λ k. k.chunks.interval ≡ self.now.interval) }
        ensures after { IfOk result (λ k.
            k.chunks.versions ≡ map (after_drop self.now.interval n pos) self.now.versions) }
        ensures removed { IfOk result (λ k. k.removed ≡ length (dropped_at self.now.interval n pos self.now.versions)) }
        ensures hull { IfOk result (λ k. k.hull ≡ hull_of (dropped_at self.now.interval n pos self.now.versions)) }
    {
        let reach = drop_reach(self.interval, n);
        let tests = Seq::new(self.alloc);
        let times = test_times(tests.items());
        let killed = self.tree.kill(self.alloc, reach, times, &tests, pos)?;
        Ok(KilledChunks {
            chunks: Chunks {
                alloc: self.alloc,
                interval: self.interval,
                tree: killed.tree,
                count: self.count,
            },
            removed: killed.removed,
            hull: killed.hull,
        })
    }

    /// The rows of the span that are visible at a position. Ticks once per version, even a deleted one, of the
    /// chunks that meet the span.
    pub fn scan<L>(&self, pos: u64, span: Span, steps: &mut Steps<L>) -> Result<Seq<Row>, NoMemory>
        ensures rows { IfOk result (λ rows. rows ≡ rows_at pos span self.now.versions) }
        ensures wide { IsInterval self.now.interval }
        ensures ticks { let near = held_near self.now.interval span self.now.versions in
            OnOk result (steps.new ≡ raised_by near steps.old) }
        ensures at_most { let near = held_near self.now.interval span self.now.versions in
            OnErr result (RaisedUpTo near steps.old steps.new) }
    {
        self.scan_part(pos, span, span, steps)
    }

    /// The same for a part of the span. Reads the same versions, and returns only the rows of the part.
    pub fn scan_part<L>(
        &self,
        pos: u64,
        span: Span,
        part: Span,
        steps: &mut Steps<L>,
    ) -> Result<Seq<Row>, NoMemory>
        requires within { (t : ℤ) → in_span part t ≡ true → in_span span t ≡ true }
        ensures rows { IfOk result (λ rows. rows ≡ rows_at pos part self.now.versions) }
        ensures wide { IsInterval self.now.interval }
        ensures ticks { let near = held_near self.now.interval span self.now.versions in
            OnOk result (steps.new ≡ raised_by near steps.old) }
        ensures at_most { let near = held_near self.now.interval span self.now.versions in
            OnErr result (RaisedUpTo near steps.old steps.new) }
    {
        let reach = span_reach(self.interval, span);
        let mut rows = Seq::new(self.alloc);
        self.tree.scan(reach, pos, part, &mut rows, steps)?;
        Ok(rows)
    }

    /// The number of versions, even deleted ones, in the chunks that meet the span.
    pub fn held(&self, span: Span) -> u64
        ensures held { result ≡ held_near self.now.interval span self.now.versions }
    {
        self.tree.held(span_reach(self.interval, span))
    }

    /// The start of a chunk at which to split a span, if the chunks that meet the span have many versions and
    /// one begins inside it.
    pub fn middle(&self, span: Span) -> Option<i64>
        ensures inside { IfSome result (λ t. (span.lo <ℤ t) × (t <ℤ span.hi)) }
    {
        if self.held(span) <= FEW_VERSIONS {
            return None;
        }
        self.tree.start_in(span)
    }

    /// The greatest time that is visible at a position, and `None` if and only if no version is.
    pub fn last(&self, pos: u64) -> Option<i64>
        ensures last { result ≡ latest_at pos self.now.versions }
    {
        self.tree.last(self.interval, pos, None)
    }
}
