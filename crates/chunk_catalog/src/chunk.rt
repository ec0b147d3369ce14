//! One chunk.
ghost use Rattle.std.specs.Prelude.{◌≡◌, ◌<◌, ◌+◌, ◌*◌, ◌^◌, ◌++◌, length, map, IfOk, OnOk, OnErr};
ghost use Rattle.seg_rows.specs.Hulls.{hull_of};
ghost use Rattle.seg_rows.specs.Versions.{after_kill, died_out, latest_at, later_time, rows_at, taken_at};
ghost use Rattle.ts_bucket.specs.Chunks.{IsInterval};
ghost use Rattle.chunk_catalog.specs.Levels.{AreFew};
ghost use Rattle.chunk_catalog.specs.Places.{ArePlaced, after_kill_in, versions_in, placed_in};
ghost use Rattle.chunk_catalog.specs.Reach.{HoldsPassing};
ghost use Rattle.ts_schema.specs.Counts.{raised_by, RaisedUpTo};

use crate::segment_trees::SegmentTree;
use crate::time_ranges::{TimeRange, is_past};
use seg_rows::Segment;
use std::alloc::Global;
use std::marker::Model;
use ts_bucket::{Hull, Span};
use ts_schema::{NoMemory, Row, Seq, Steps, Test};

/// The versions of a chunk, at least one, with its start.
#[derive(Drop)]
pub struct Chunk {
    start: i64,
    pile: SegmentTree,
}

impl Model for Chunk {
    ghost use Rattle.chunk_catalog.specs.Places.{Kept};

    ghost Value = { Kept };

    ghost view = { λ c. record { start = c.start; versions = c.pile.0; levels = c.pile.1 } };
}

/// A chunk after a delete.
#[derive(Drop)]
pub struct KilledChunk {
    pub chunk: Chunk,
    pub removed: u64,
    pub hull: Option<Hull>,
}

impl Chunk {
    ghost use Rattle.std.specs.Prelude.{◌≡◌, ◌<◌, ◌+◌, ◌*◌, ◌^◌, ◌++◌, length, map, IfOk, OnOk, OnErr};

    /// The chunk of one segment, which has a version.
    pub fn of(start: i64, segment: Segment) -> Chunk
        requires some { 0 < length segment }
        ensures start { result.start ≡ start }
        ensures versions { result.versions ≡ segment }
    {
        Chunk {
            start,
            pile: SegmentTree::of(segment),
        }
    }

    /// The start of the chunk.
    pub fn start(&self) -> i64
        ensures start { result ≡ self.now.start }
    {
        self.start
    }

    /// The number of versions.
    pub fn count(&self) -> u64
        ensures count { result ≡ length self.now.versions }
        ensures some { 0 < result }
        ensures few { AreFew self.now.levels (2 * result) }
    {
        self.pile.count()
    }

    /// The position of the last delete, if all versions are deleted.
    pub fn died_out(&self) -> Option<u64>
        ensures dead { result ≡ died_out self.now.versions }
    {
        self.pile.died_out()
    }

    /// A copy of the chunk.
    pub fn copy(&self) -> Result<Chunk, NoMemory>
        ensures same { IfOk result (λ copy. copy ≡ self.now) }
    {
        Ok(Chunk {
            start: self.start,
            pile: self.pile.copy()?,
        })
    }

    /// The chunk with the versions of one more segment, which has a version.
    pub fn append(&self, alloc: Global, segment: Segment) -> Result<Chunk, NoMemory>
        requires some { 0 < length segment }
        requires countable { length self.now.versions + length segment < 2 ^ 64 }
        ensures start { IfOk result (λ chunk. chunk.start ≡ self.now.start) }
        ensures versions { IfOk result (λ chunk. chunk.versions ≡ self.now.versions ++ segment) }
    {
        Ok(Chunk {
            start: self.start,
            pile: self.pile.append(alloc, segment)?,
        })
    }

    /// A delete at a position, if all times that pass the tests lie in a range.
    pub fn kill(
        &self,
        alloc: Global,
        times: TimeRange,
        tests: &Seq<Test>,
        pos: u64,
    ) -> Result<KilledChunk, NoMemory>
        requires countable { length self.now.versions < 2 ^ 64 }
        requires times { HoldsPassing tests.now times }
        ensures start { IfOk result (λ k. k.chunk.start ≡ self.now.start) }
        ensures levels { IfOk result (λ k. k.chunk.levels ≡ self.now.levels) }
        ensures after { IfOk result (λ k. k.chunk.versions ≡ map (after_kill pos tests.now) self.now.versions) }
        ensures removed { IfOk result (λ k. k.removed ≡ length (taken_at pos tests.now self.now.versions)) }
        ensures hull { IfOk result (λ k. k.hull ≡ hull_of (taken_at pos tests.now self.now.versions)) }
    {
        let killed = self.pile.kill(alloc, times, tests, pos)?;
        Ok(KilledChunk {
            chunk: Chunk {
                start: self.start,
                pile: killed.pile,
            },
            removed: killed.removed,
            hull: killed.hull,
        })
    }

    /// Appends the rows of the span that are visible at a position. Ticks once per version.
    pub fn scan<L>(
        &self,
        pos: u64,
        span: Span,
        out: &mut Seq<Row>,
        steps: &mut Steps<L>,
    ) -> Result<(), NoMemory>
        ensures rows { OnOk result (out.new ≡ out.old ++ rows_at pos span self.now.versions) }
        ensures ticks { OnOk result (steps.new ≡ raised_by (length self.now.versions) steps.old) }
        ensures at_most { OnErr result (RaisedUpTo (length self.now.versions) steps.old steps.new) }
    {
        self.pile.scan(pos, span, out, steps)
    }

    /// A delete at a position, if the start lies in a range, and all times that pass the tests in another one.
    #[tactic(auto, using(crate::proofs::PlaceLaws::reached_in, crate::proofs::PlaceLaws::reached_out, crate::proofs::PlaceLaws::killed_in, crate::proofs::PlaceLaws::killed_out, seg_rows::proofs::VersionLaws::parts))]
    pub fn kill_in(
        &self,
        alloc: Global,
        reach: TimeRange,
        times: TimeRange,
        tests: &Seq<Test>,
        pos: u64,
    ) -> Result<KilledChunk, NoMemory>
        requires countable { length self.now.versions < 2 ^ 64 }
        requires times { HoldsPassing tests.now times }
        ensures levels { IfOk result (λ k. k.chunk.levels ≡ self.now.levels) }
        ensures after { IfOk result (λ k.
            placed_in k.chunk ≡ map (after_kill_in reach pos tests.now) (placed_in self.now)) }
        ensures removed { IfOk result (λ k.
            k.removed ≡ length (taken_at pos tests.now (versions_in reach (placed_in self.now)))) }
        ensures hull { IfOk result (λ k.
            k.hull ≡ hull_of (taken_at pos tests.now (versions_in reach (placed_in self.now)))) }
    {
        if reach.holds(self.start) {
            return self.kill(alloc, times, tests, pos);
        }
        Ok(KilledChunk {
            chunk: self.copy()?,
            removed: 0,
            hull: None,
        })
    }

    /// The same as `scan` if the start lies in a range, and otherwise nothing.
    #[tactic(auto, using(crate::proofs::PlaceLaws::reached_in, crate::proofs::PlaceLaws::reached_out, crate::proofs::PlaceLaws::killed_in, crate::proofs::PlaceLaws::killed_out, seg_rows::proofs::VersionLaws::parts))]
    pub fn scan_in<L>(
        &self,
        reach: TimeRange,
        pos: u64,
        span: Span,
        out: &mut Seq<Row>,
        steps: &mut Steps<L>,
    ) -> Result<(), NoMemory>
        ensures rows { OnOk result (out.new ≡ out.old ++ rows_at pos span (versions_in reach (placed_in self.now))) }
        ensures ticks { OnOk result (steps.new ≡ raised_by (length (versions_in reach (placed_in self.now))) steps.old) }
        ensures at_most { OnErr result (RaisedUpTo (length (versions_in reach (placed_in self.now))) steps.old steps.new) }
    {
        if reach.holds(self.start) {
            self.scan(pos, span, out, steps)
        } else {
            let _so_far = steps.count();
            Ok(())
        }
    }

    /// The number of versions if the start lies in a range, and otherwise 0.
    #[tactic(auto, using(crate::proofs::PlaceLaws::reached_in, crate::proofs::PlaceLaws::reached_out, crate::proofs::PlaceLaws::killed_in, crate::proofs::PlaceLaws::killed_out, seg_rows::proofs::VersionLaws::parts))]
    pub fn count_in(&self, reach: TimeRange) -> u64
        ensures held { result ≡ length (versions_in reach (placed_in self.now)) }
    {
        if reach.holds(self.start) {
            self.count()
        } else {
            0
        }
    }

    /// The greatest of a time and the times that are visible at a position. If the chunk holds no later time,
    /// it isn't read.
    pub fn last_of(&self, interval: i64, pos: u64, best: Option<i64>) -> Option<i64>
        requires interval { IsInterval interval }
        requires placed { ArePlaced interval (placed_in self.now) }
        ensures last { result ≡ later_time best (latest_at pos self.now.versions) }
    {
        if is_past(interval, self.start, best) {
            best
        } else {
            self.pile.last_of(pos, best)
        }
    }
}
