//! The log of an aggregate.

ghost use Rattle.std.specs.Prelude.{◌≡◌, ℤ, cond, ◌&&◌, IfOk, None, Some, true, filter, is_none, ◌∷◌, []};
ghost use Rattle.std.specs.List.{AllByRecursion};
ghost use Rattle.std.specs.Option.{ForSome};
ghost use Rattle.ts_bucket.specs.Bucket.{is_bucket};
ghost use Rattle.ts_bucket.specs.Positions.{later, above};
ghost use Rattle.ts_bucket.specs.Spans.{in_span, meets, overlaps};
ghost use Rattle.span_map.specs.Maps.{at};
ghost use Rattle.ts_bucket.specs.Ranges.{AreRanges, IsWholeRange, lies_in};
ghost use Rattle.ts_bucket.specs.WholeSpans.{IsWholeSpan, IsWithin, IsMark, whole_span};
ghost use Rattle.mat_log.specs.Feeding.{AreWithin, IsFed, are_rising, is_changed_with, is_dirty_with, is_redone_with, is_stale_with, pending_with};
ghost use Rattle.mat_log.specs.Lasts.{AreLasts};
ghost use Rattle.mat_log.specs.Touching.{pending_or_fresh};
ghost use Rattle.mat_log.specs.Logs.{pending_at, last_at, is_dirty, is_renewed, is_stale, IsSame};
ghost use Rattle.span_map.specs.Functions.{ChangesWithin, IsPart};
ghost use Rattle.span_map.specs.Pieces.{ArePieces, piece_at};
ghost use Rattle.span_map.specs.declared.pieces.Piece.{Piece as PieceValue};

use crate::lasts::{merge_pieces, of_pieces};
use crate::ranges::join_pieces;
use crate::spans::{buckets_below, position_map};
use crate::touches::{all_entries, do_rise, entries_near, latest};
use block_list::BlockList;
use inval_log::Entry;
use span_map::{Piece, Rule, SharedMap, SpanMap};
use std::alloc::Global;
use std::marker::Model;
use ts_bucket::{Span, Width, all_buckets, span_touched};
use ts_schema::{NoMemory, Seq};

/// Feeding one entry costs about as much as this many edges in a sweep over all edges.
const EDGES_AN_ENTRY: usize = 128;

/// The pending position of each bucket of an aggregate, and the position of its last refresh. A bucket may have
/// neither, one or both.
#[derive(Drop, Debug)]
pub struct MatLog {
    alloc: Global,
    width: Width,
    pending: SharedMap,
    refreshed: SharedMap,
}

impl Model for MatLog {
    ghost use Rattle.span_map.specs.Maps.{at};
    ghost use Rattle.mat_log.specs.Logs.{LogValue, IsInStep};

    ghost Value = { LogValue };

    ghost view = { λ log. record { width = log.width; pending = log.pending; refreshed = log.refreshed } };

    ghost invariant = { λ log. IsInStep log.width (at log.pending) (at log.refreshed) };
}

impl MatLog {
    /// The log of a new aggregate, which the event with the number `made` created: every bucket is pending
    /// at that position, and none was refreshed.
    pub fn new(alloc: Global, w: Width, made: u64) -> Result<MatLog, NoMemory>
        ensures width { IfOk result (λ log. log.width ≡ w) }
        ensures pending { IfOk result (λ log. (b : ℤ) →
            pending_at log b ≡ cond (in_span (whole_span w) b) (Some made) None) }
        ensures refreshed { IfOk result (λ log. (b : ℤ) → last_at log b ≡ None) }
    {
        let mut pending = SpanMap::new(alloc);
        pending.reserve(2)?;
        pending.assign(all_buckets(w), made);
        Ok(MatLog {
            alloc,
            width: w,
            pending: SharedMap::of(&pending)?,
            refreshed: SharedMap::of(&SpanMap::new(alloc))?,
        })
    }

    /// The log of an aggregate whose last refreshes are `lasts`, pieces of whole buckets, which rise. Each bucket of
    /// the ranges `dirty` is pending at `pos`, and each other bucket that was never refreshed is pending at 0.
    pub fn from_lasts(
        alloc: Global,
        w: Width,
        lasts: &[Piece],
        dirty: &[Span],
        pos: u64,
    ) -> Result<MatLog, NoMemory>
        requires rise { (lo : ℤ) × (hi : ℤ) × ArePieces lo hi lasts.now }
        requires lasts { AllByRecursion (λ (p : PieceValue). IsWholeRange w p.span) lasts.now }
        requires dirty { AllByRecursion (IsWholeRange w) dirty.now }
        ensures width { IfOk result (λ log. log.width ≡ w) }
        ensures pending { IfOk result (λ log. (b : ℤ) → pending_at log b
            ≡ cond (lies_in dirty.now b) (Some pos)
            (cond (in_span (whole_span w) b && is_none (piece_at lasts.now b)) (Some 0) None)) }
        ensures refreshed { IfOk result (λ log. (b : ℤ) → last_at log b ≡ piece_at lasts.now b) }
    {
        let refreshed = of_pieces(alloc, lasts)?;
        let all = position_map(alloc, &[all_buckets(w)], 0)?;
        let never = refreshed.combine(&all, Rule::Above)?;
        let pending = never.combine(&position_map(alloc, dirty, pos)?, Rule::Over)?;
        Ok(MatLog {
            alloc,
            width: w,
            pending: SharedMap::of(&pending)?,
            refreshed: SharedMap::of(&refreshed)?,
        })
    }

    /// Another owner of the same log. It only increments reference counts.
    pub fn copy(&self) -> Result<MatLog, NoMemory>
        ensures same { IfOk result (λ copy. IsSame self.now copy) }
    {
        Ok(MatLog {
            alloc: self.alloc,
            width: self.width,
            pending: self.pending.copy()?,
            refreshed: self.refreshed.copy()?,
        })
    }

    /// The log after an entry: the buckets that its hull meets are pending at its position, unless they were
    /// refreshed at or after it. The cost grows with the pieces there.
    fn with_entry(&self, entry: &Entry) -> Result<MatLog, NoMemory>
        requires within { IsWithin self.now.width entry.now.hull }
        ensures width { IfOk result (λ new. new.width ≡ self.now.width) }
        ensures pending { IfOk result (λ new. (b : ℤ) → is_bucket self.now.width b ≡ true →
            pending_at new b ≡ pending_with self.now (entry.now ∷ []) b) }
        ensures refreshed { IfOk result (λ new. (b : ℤ) → last_at new b ≡ last_at self.now b) }
    {
        let span = span_touched(self.width, entry.hull);
        Ok(MatLog {
            alloc: self.alloc,
            width: self.width,
            pending: self
                .pending
                .assigned_above(span, entry.pos, &self.refreshed)?,
            refreshed: self.refreshed.copy()?,
        })
    }

    /// The log after a refresh of a span of whole buckets finished, with a snapshot at this position. In the
    /// span nothing up to this position is pending, and the last refresh is raised to it. The cost grows with
    /// the pieces in the span; the others are shared.
    pub fn with_refresh(&self, span: Span, snap: u64) -> Result<MatLog, NoMemory>
        requires whole { IsWholeSpan self.now.width span }
        ensures width { IfOk result (λ new. new.width ≡ self.now.width) }
        ensures pending { IfOk result (λ new.
            ChangesWithin span (above snap) (pending_at self.now) (pending_at new)) }
        ensures refreshed { IfOk result (λ new.
            ChangesWithin span (λ v. later v (Some snap)) (last_at self.now) (last_at new)) }
    {
        Ok(MatLog {
            alloc: self.alloc,
            width: self.width,
            pending: self.pending.cleared_upto(span, snap)?,
            refreshed: self.refreshed.with_raised(span, snap)?,
        })
    }

    /// The position of the last refresh of the bucket that starts at `b`, if there is one.
    pub fn last(&self, b: i64) -> Option<u64>
        ensures last { result ≡ last_at self.now b }
    {
        self.refreshed.at(b)
    }

    /// The last refreshes, as maximal ranges of buckets with the same position.
    pub fn lasts(&self) -> Result<Seq<Piece>, NoMemory>
        ensures lasts { IfOk result (AreLasts self.now.width (last_at self.now)) }
    {
        // Reading the width tells the prover that each bucket has one value.
        let _width = self.width;
        let pieces = self.refreshed.ranges(all_buckets(self.width))?;
        merge_pieces(self.alloc, pieces.items())
    }

    /// The buckets of a span of whole buckets that have no last refresh or at which something is pending, as
    /// maximal ranges.
    pub fn dirty(&self, span: Span) -> Result<Seq<Span>, NoMemory>
        requires { IsWholeSpan self.now.width span }
        ensures ranges { IfOk result (AreRanges self.now.width span (is_dirty self.now)) }
    {
        // Reading the end tells the prover that it has 64 bits.
        let _end = span.hi;
        join_pieces(self.pending.ranges(span)?)
    }

    /// The dirty buckets below the mark that start in a span, as maximal ranges. The mark is the end of a
    /// bucket that holds a time; without a mark there are none. The log must have been fed all entries. The
    /// engine calls `stale_with`, which doesn't need that.
    pub fn stale(&self, starts: Span, mark: Option<i64>) -> Result<Seq<Span>, NoMemory>
        requires { ForSome mark (IsMark self.now.width) }
        ensures ranges { IfOk result (AreRanges self.now.width starts (is_stale self.now mark)) }
    {
        self.dirty(buckets_below(self.width, starts, mark))
    }

    /// The log after every entry was fed to it, in order. The cost grows with the entries and the pieces
    /// that they touch or, if the entries are many, with all pieces of the log.
    pub fn feed_all(&self, entries: &BlockList<Entry>) -> Result<MatLog, NoMemory>
        requires within { AreWithin entries.now.items self.now }
        ensures fed { IfOk result (IsFed entries.now.items self.now) }
    {
        let all = all_entries(entries)?;
        if self.is_swept(all.len()) && do_rise(&all) {
            self.fed_at_once(&all)
        } else {
            self.fed_in_turn(&all)
        }
    }

    /// Whether one sweep over all pieces costs less than feeding `entries` entries in order.
    fn is_swept(&self, entries: usize) -> bool {
        let edges = self.pending.size().saturating_add(self.refreshed.size());
        entries > edges / EDGES_AN_ENTRY
    }

    /// The same for entries whose positions rise, in one sweep over the pieces.
    fn fed_at_once(&self, entries: &[Entry]) -> Result<MatLog, NoMemory>
        requires within { AreWithin entries.now self.now }
        requires rising { are_rising 0 entries.now ≡ true }
        ensures fed { IfOk result (IsFed entries.now self.now) }
    {
        let newest = latest(self.alloc, self.width, entries)?;
        let fresh = self.refreshed.own()?.combine(&newest, Rule::Above)?;
        let pending = self.pending.own()?.combine(&fresh, Rule::Over)?;
        Ok(MatLog {
            alloc: self.alloc,
            width: self.width,
            pending: SharedMap::of(&pending)?,
            refreshed: self.refreshed.copy()?,
        })
    }

    /// The same for any entries, in order.
    fn fed_in_turn(&self, entries: &[Entry]) -> Result<MatLog, NoMemory>
        requires within { AreWithin entries.now self.now }
        ensures fed { IfOk result (IsFed entries.now self.now) }
    {
        let mut fed = self.copy()?;
        for entry in entries {
            fed = fed.with_entry(entry)?;
        }
        Ok(fed)
    }

    /// What is pending in a span of whole buckets, as if the entries had been fed: a map with only the values
    /// there.
    fn pending_near(&self, entries: &BlockList<Entry>, span: Span) -> Result<SpanMap, NoMemory>
        requires within { AreWithin entries.now.items self.now }
        ensures values { let near = filter (λ e. overlaps e.hull span) entries.now.items in
            IfOk result (λ pending. IsPart span (pending_or_fresh self.now near) (at pending)) }
    {
        let near = entries_near(entries, span)?;
        let newest = latest(self.alloc, self.width, &near)?.within(span)?;
        let fresh = self.refreshed.within(span)?.combine(&newest, Rule::Above)?;
        self.pending.within(span)?.combine(&fresh, Rule::Over)
    }

    /// `dirty`, as if the entries had been fed to the log. The cost grows with the entries and the pieces in
    /// the span; the log isn't copied.
    pub fn dirty_with(&self, entries: &BlockList<Entry>, span: Span) -> Result<Seq<Span>, NoMemory>
        requires whole { IsWholeSpan self.now.width span }
        requires within { AreWithin entries.now.items self.now }
        ensures ranges { IfOk result (AreRanges self.now.width span (is_dirty_with self.now entries.now.items)) }
    {
        // Reading the end tells the prover that it has 64 bits, and reading the width that the two maps are in
        // step.
        let _end = span.hi;
        let _width = self.width;
        let pending = self.pending_near(entries, span)?;
        join_pieces(pending.ranges(span)?)
    }

    /// `stale`, as if the entries had been fed to the log.
    pub fn stale_with(
        &self,
        entries: &BlockList<Entry>,
        starts: Span,
        mark: Option<i64>,
    ) -> Result<Seq<Span>, NoMemory>
        requires mark { ForSome mark (IsMark self.now.width) }
        requires within { AreWithin entries.now.items self.now }
        ensures ranges { IfOk result (AreRanges self.now.width starts (is_stale_with self.now entries.now.items mark)) }
    {
        self.dirty_with(entries, buckets_below(self.width, starts, mark))
    }

    /// The buckets of a span of whole buckets that have a last refresh and something pending, as maximal
    /// ranges. The result is as if the entries had been fed to the log.
    pub fn changed_with(
        &self,
        entries: &BlockList<Entry>,
        span: Span,
    ) -> Result<Seq<Span>, NoMemory>
        requires whole { IsWholeSpan self.now.width span }
        requires within { AreWithin entries.now.items self.now }
        ensures ranges { IfOk result (AreRanges self.now.width span (is_changed_with self.now entries.now.items)) }
    {
        // Reading the width tells the prover that the two maps are in step.
        let _width = self.width;
        let pending = self.pending_near(entries, span)?;
        let refreshed = self.refreshed.within(span)?;
        let changed = refreshed.combine(&pending, Rule::Where)?;
        join_pieces(changed.ranges(span)?)
    }

    /// The buckets of a span and of these ranges, all of whole buckets, that have no last refresh above a
    /// snapshot. The result is maximal ranges. A refresh of the span that recomputes the ranges with this
    /// snapshot updates them.
    pub fn to_renew(&self, span: Span, ranges: &[Span], snap: u64) -> Result<Seq<Span>, NoMemory>
        requires whole { IsWholeSpan self.now.width span }
        requires ranges { AllByRecursion (IsWholeRange self.now.width) ranges.now }
        ensures ranges { IfOk result (AreRanges self.now.width span (λ b.
            lies_in ranges.now b && is_renewed self.now snap b)) }
    {
        // Reading the width tells the prover that the two maps are in step.
        let _width = self.width;
        let all = position_map(self.alloc, ranges, snap)?;
        let refreshed = self.refreshed.within(span)?;
        let renewed = refreshed.combine(&all, Rule::NotBelow)?;
        join_pieces(renewed.ranges(span)?)
    }

    /// The buckets of a span of whole buckets that a repeated refresh with this snapshot recomputes, as maximal
    /// ranges. These are the dirty buckets, as if the entries had been fed to the log, and those whose last
    /// refresh is above the snapshot.
    pub fn redone_with(
        &self,
        entries: &BlockList<Entry>,
        span: Span,
        snap: u64,
    ) -> Result<Seq<Span>, NoMemory>
        requires whole { IsWholeSpan self.now.width span }
        requires within { AreWithin entries.now.items self.now }
        ensures ranges { IfOk result (AreRanges self.now.width span (is_redone_with self.now entries.now.items snap)) }
    {
        // Reading the end tells the prover that it has 64 bits, and reading the width that the two maps are in
        // step.
        let _end = span.hi;
        let _width = self.width;
        let pending = self.pending_near(entries, span)?;
        let mut refreshed = self.refreshed.within(span)?;
        refreshed.reserve(2)?;
        refreshed.clear_upto(span, snap);
        let redone = pending.combine(&refreshed, Rule::Over)?;
        join_pieces(redone.ranges(span)?)
    }
}
