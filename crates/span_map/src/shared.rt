//! A map that copies share. A change copies only what it touches.

ghost use Rattle.std.specs.Prelude.{◌≡◌, ◌-◌, ◌≤◌, ◌<ℤ◌, ℤ, IfOk, None, Some, length, take, drop};
ghost use Rattle.ts_bucket.specs.Positions.{above, later};
ghost use Rattle.span_map.specs.Edges.{IsRising, value_from};
ghost use Rattle.span_map.specs.Functions.{AssignsAbove, ChangesWithin, IsPart};
ghost use Rattle.span_map.specs.Maps.{at};
ghost use Rattle.span_map.specs.Patches.{IsPatched};
ghost use Rattle.span_map.specs.Pieces.{piece_at, ArePieces};

use crate::edges::Edge;
use crate::maps::SpanMap;
use crate::parts::edges_of_part;
use crate::patches::patch;
use crate::pieces::Piece;
use crate::search::{Before, place, places_around, places_within, value_before};
use block_list::{BlockList, Builder};
use std::alloc::Global;
use std::marker::Model;
use ts_bucket::Span;
use ts_schema::{NoMemory, Seq};

/// A partial function from whole numbers to positions, which never changes. Contracts see it as a `SpanMap`
/// without spare room.
///
/// Its edges are in blocks, which it shares with copies and with maps that differ from it within a span.
#[derive(Drop, Debug)]
pub struct SharedMap {
    edges: BlockList<Edge>,
}

impl Model for SharedMap {
    ghost use Rattle.span_map.specs.Edges.{IsRising};
    ghost use Rattle.span_map.specs.Maps.{MapValue};

    ghost Value = { MapValue };

    ghost view = { λ m. record { edges = m.edges.items; room = 0 } };

    ghost invariant = { λ m. IsRising m.edges.items };
}

impl SharedMap {
    /// The values of a map.
    pub fn of(map: &SpanMap) -> Result<SharedMap, NoMemory>
        ensures values { IfOk result (λ shared. (t : ℤ) → at shared t ≡ at map.now t) }
    {
        let mut made = Builder::new(map.allocator());
        made.push_all(map.edges())?;
        Ok(SharedMap {
            edges: made.finish()?,
        })
    }

    /// The number of edges of the map: at most two for each of its pieces.
    pub fn size(&self) -> usize {
        self.edges.len()
    }

    /// The value at `t`, if there is one.
    pub fn at(&self, t: i64) -> Option<u64>
        ensures value { result ≡ at self.now t }
    {
        value_before(&self.edges, place(&self.edges, Before::Upto(t)))
    }

    /// Another owner of the same map. It only increments a reference count.
    pub fn copy(&self) -> Result<SharedMap, NoMemory>
        ensures values { IfOk result (λ copy. (t : ℤ) → at copy t ≡ at self.now t) }
    {
        Ok(SharedMap {
            edges: self.edges.copy()?,
        })
    }

    /// A copy of the map that shares nothing. The cost grows with all pieces.
    pub fn own(&self) -> Result<SpanMap, NoMemory>
        ensures values { IfOk result (λ own. (t : ℤ) → at own t ≡ at self.now t) }
    {
        let alloc = self.edges.allocator();
        Ok(SpanMap::of_edges(self.edges.iter().copied().collect(alloc)?))
    }

    /// The map that has the values of this one within the span, and none elsewhere. The cost is a search for
    /// the ends of the span, and grows with the pieces within it.
    pub fn within(&self, span: Span) -> Result<SpanMap, NoMemory>
        ensures values { IfOk result (λ part. IsPart span (at self.now) (at part)) }
    {
        let alloc = self.edges.allocator();
        if span.lo >= span.hi {
            return Ok(SpanMap::new(alloc));
        }
        part_within(alloc, &self.edges, span)
    }

    /// The pieces within the span, like those of `SpanMap::ranges`.
    pub fn ranges(&self, span: Span) -> Result<Seq<Piece>, NoMemory>
        ensures values { IfOk result (λ pieces. IsPart span (at self.now) (piece_at pieces)) }
        ensures rising { IfOk result (λ pieces. ArePieces span.lo span.hi pieces) }
    {
        self.within(span)?.ranges(span)
    }

    /// The map without the values of the span that are at most `pos`. As with the two methods below, the cost
    /// grows with the pieces within the span and the blocks in which the span ends; the other blocks are
    /// shared.
    pub fn cleared_upto(&self, span: Span, pos: u64) -> Result<SharedMap, NoMemory>
        ensures values { IfOk result (λ new. ChangesWithin span (above pos) (at self.now) (at new)) }
    {
        let mut part = self.within(span)?;
        part.reserve(2)?;
        part.clear_upto(span, pos);
        self.patch(span, &part)
    }

    /// The map in which each number of the span has the later of its position and `pos`.
    pub fn with_raised(&self, span: Span, pos: u64) -> Result<SharedMap, NoMemory>
        ensures values { IfOk result (λ new. ChangesWithin span (λ v. later v (Some pos)) (at self.now) (at new)) }
    {
        let mut part = self.within(span)?;
        let room = part.len() + 3;
        part.reserve(room)?;
        part.raise(span, pos);
        self.patch(span, &part)
    }

    /// The map in which each number of the span at which `floor` has no value, or one below `pos`, has this
    /// position.
    pub fn assigned_above(
        &self,
        span: Span,
        pos: u64,
        floor: &SharedMap,
    ) -> Result<SharedMap, NoMemory>
        ensures values { IfOk result (λ new. AssignsAbove span pos (at floor.now) (at self.now) (at new)) }
    {
        let floor = floor.within(span)?;
        let mut part = self.within(span)?;
        part.reserve(floor.len().saturating_add(1).saturating_mul(3))?;
        part.assign_above(span, pos, &floor);
        self.patch(span, &part)
    }

    /// The map with the values of another one within the span.
    fn patch(&self, span: Span, part: &SpanMap) -> Result<SharedMap, NoMemory>
        ensures values { IfOk result (λ new. IsPatched span (at part.now) (at self.now) (at new)) }
    {
        if span.lo >= span.hi {
            return self.copy();
        }
        patched_edges(&self.edges, span, part.edges())
    }
}

/// Copies of the edges from one place on and below another.
fn edges_between(
    alloc: Global,
    edges: &BlockList<Edge>,
    from: usize,
    to: usize,
) -> Result<Vec<Edge>, NoMemory>
    requires order { from ≤ to }
    requires within { to ≤ length edges.now.items }
    ensures { IfOk result (λ part. part.items ≡ take (to - from) (drop from edges.now.items)) }
{
    Ok(edges.range(from, to).copied().collect(alloc)?)
}

/// The part within a span that isn't empty.
fn part_within(alloc: Global, edges: &BlockList<Edge>, span: Span) -> Result<SpanMap, NoMemory>
    requires rising { IsRising edges.now.items }
    requires some { span.lo <ℤ span.hi }
    ensures values { IfOk result (λ part. IsPart span (value_from None edges.now.items) (at part)) }
{
    let (first, end) = places_within(edges, span);
    let between = edges_between(alloc, edges, first, end)?;
    let value = value_before(edges, first);
    Ok(SpanMap::of_edges(edges_of_part(alloc, span, value, &between)?))
}

/// The map of edges with the values of others within a span that isn't empty.
fn patched_edges(edges: &BlockList<Edge>, span: Span, part: &[Edge]) -> Result<SharedMap, NoMemory>
    requires rising { IsRising edges.now.items }
    requires part { IsRising part.now }
    requires some { span.lo <ℤ span.hi }
    ensures values { IfOk result (λ new.
        IsPatched span (value_from None part.now) (value_from None edges.now.items) (at new)) }
{
    let (first, end) = places_around(edges, span);
    let before = value_before(edges, first);
    let after = value_before(edges, end);
    let patch = patch(edges.allocator(), span, before, part, after)?;
    Ok(SharedMap {
        edges: edges.replace(first, end, &patch)?,
    })
}
