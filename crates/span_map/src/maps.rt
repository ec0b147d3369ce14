//! The map.

ghost use Rattle.std.specs.Prelude.{◌≡◌, ◌==◌, ℤ, ◌+◌, ◌*◌, ◌^◌, ◌<◌, ◌≤◌, IfOk, OnOk};
ghost use Rattle.ts_bucket.specs.Positions.{later, above};
ghost use Rattle.span_map.specs.Combined.{combined_by};
ghost use Rattle.span_map.specs.Edges.{IsRising};
ghost use Rattle.span_map.specs.Maps.{at, piece_count_of};
ghost use Rattle.span_map.specs.Pieces.{piece_at, ArePieces};
ghost use Rattle.span_map.specs.Functions.{AssignsAbove, ChangesWithin, IsPart};

use crate::changes::Change;
use crate::combine::combine;
use crate::edges::{Edge, change_values, count_pieces, value_at};
use crate::floors::assign_above_floor;
use crate::parts::edges_within;
use crate::pieces::{Piece, pieces_within};
use crate::rules::Rule;
use std::alloc::Global;
use std::marker::Model;
use ts_bucket::Span;
use ts_schema::{NoMemory, Seq};

/// A partial function from whole numbers to positions, kept as edges: the numbers at which its value changes.
///
/// A change allocates no memory: `reserve` must have made room for the edges that it needs. `assign` and
/// `clear_upto` need 2. `raise` needs 3 and one more for each piece of the map. `assign_above` needs 3 and 3
/// more for each piece of the floor.
#[derive(Drop, Debug)]
pub struct SpanMap {
    edges: Vec<Edge>,
}

impl Model for SpanMap {
    ghost use Rattle.std.specs.Prelude.{◌-◌, vec_len, vec_capacity};
    ghost use Rattle.span_map.specs.Edges.{IsRising};
    ghost use Rattle.span_map.specs.Maps.{MapValue};

    ghost Value = { MapValue };

    ghost view = { λ m. record { edges = m.edges.items; room = vec_capacity m.edges - vec_len m.edges } };

    ghost invariant = { λ m. IsRising m.edges.items };
}

impl SpanMap {
    /// The map without values. It allocates no memory.
    pub fn new(alloc: Global) -> SpanMap
        ensures values { (t : ℤ) → at result t ≡ None }
        ensures pieces { piece_count_of result ≡ 0 }
    {
        SpanMap {
            edges: Vec::new(alloc),
        }
    }

    /// The map of these rising edges.
    pub(crate) fn of_edges(edges: Vec<Edge>) -> SpanMap
        requires { IsRising edges.items }
        ensures edges { result.edges ≡ edges.items }
    {
        SpanMap { edges }
    }

    /// The edges of the map.
    pub(crate) fn edges(&self) -> &[Edge]
        ensures edges { result.now ≡ self.now.edges }
        ensures rising { IsRising result.now }
    {
        &self.edges
    }

    /// The allocator that the map was created with.
    pub fn allocator(&self) -> Global {
        *self.edges.allocator()
    }

    /// The number of pieces of the map.
    pub fn len(&self) -> usize
        ensures pieces { result ≡ piece_count_of self.now }
        ensures small { result < 2 ^ 63 }
    {
        count_pieces(&self.edges)
    }

    /// Whether the map has no value.
    pub fn is_empty(&self) -> bool
        ensures pieces { result ≡ (piece_count_of self.now == 0) }
    {
        self.len() == 0
    }

    /// The value at `t`, if there is one.
    pub fn at(&self, t: i64) -> Option<u64>
        ensures value { result ≡ at self.now t }
    {
        value_at(&self.edges, t)
    }

    /// A copy of the map, which may have a different capacity.
    pub fn copy(&self) -> Result<SpanMap, NoMemory>
        ensures values { IfOk result (λ copy. (t : ℤ) → at copy t ≡ at self.now t) }
        ensures pieces { IfOk result (λ copy. piece_count_of copy ≡ piece_count_of self.now) }
    {
        Ok(SpanMap {
            edges: self.edges.clone()?,
        })
    }

    /// Makes room for at least `n` more edges. The values stay.
    pub fn reserve(&mut self, n: usize) -> Result<(), NoMemory>
        ensures room { OnOk result (n ≤ self.new.room) }
        ensures kept { self.old.room ≤ self.new.room }
        ensures values { (t : ℤ) → at self.new t ≡ at self.old t }
        ensures pieces { piece_count_of self.new ≡ piece_count_of self.old }
        ensures small { self.new.room < 2 ^ 63 }
    {
        self.edges.reserve(n)?;
        Ok(())
    }

    /// Sets each number of the span to this position.
    pub fn assign(&mut self, span: Span, pos: u64)
        requires { 2 ≤ self.old.room }
        ensures values { ChangesWithin span (λ _. Some pos) (at self.old) (at self.new) }
        ensures room { self.old.room ≤ self.new.room + 2 }
    {
        change_values(&mut self.edges, span, Change::Set(pos));
    }

    /// Removes the values of the span that are at most `pos`.
    pub fn clear_upto(&mut self, span: Span, pos: u64)
        requires { 2 ≤ self.old.room }
        ensures values { ChangesWithin span (above pos) (at self.old) (at self.new) }
        ensures room { self.old.room ≤ self.new.room + 2 }
    {
        change_values(&mut self.edges, span, Change::ClearUpto(pos));
    }

    /// Sets each number of the span to the later of its position and `pos`.
    pub fn raise(&mut self, span: Span, pos: u64)
        requires { 3 + piece_count_of self.old ≤ self.old.room }
        ensures values { ChangesWithin span (λ v. later v (Some pos)) (at self.old) (at self.new) }
        ensures room { self.old.room ≤ self.new.room + 2 }
    {
        change_values(&mut self.edges, span, Change::Raise(pos));
    }

    /// Sets each number of the span at which `floor` has no value, or one below `pos`, to this position.
    pub fn assign_above(&mut self, span: Span, pos: u64, floor: &SpanMap)
        requires { 3 * (piece_count_of floor.now + 1) ≤ self.old.room }
        ensures values { AssignsAbove span pos (at floor.now) (at self.old) (at self.new) }
    {
        assign_above_floor(&mut self.edges, span, pos, &floor.edges);
    }

    /// The map that has the values of this one within the span, and none elsewhere. The cost grows with the
    /// pieces within the span.
    pub fn within(&self, span: Span) -> Result<SpanMap, NoMemory>
        ensures values { IfOk result (λ part. IsPart span (at self.now) (at part)) }
    {
        Ok(SpanMap {
            edges: edges_within(*self.edges.allocator(), &self.edges, span)?,
        })
    }

    /// The map whose value at each number is the result of the rule for the values of both maps there. The cost
    /// grows with the pieces of both.
    pub fn combine(&self, other: &SpanMap, rule: Rule) -> Result<SpanMap, NoMemory>
        ensures values { IfOk result (λ both. (t : ℤ) → at both t ≡ combined_by rule (at self.now t) (at other.now t)) }
    {
        let alloc = *self.edges.allocator();
        Ok(SpanMap {
            edges: combine(alloc, &self.edges, &other.edges, rule)?,
        })
    }

    /// The pieces within the span, in rising order. Each number of the span that has a value is in exactly
    /// one of them, which has its value.
    pub fn ranges(&self, span: Span) -> Result<Seq<Piece>, NoMemory>
        ensures values { IfOk result (λ pieces. IsPart span (at self.now) (piece_at pieces)) }
        ensures rising { IfOk result (λ pieces. ArePieces span.lo span.hi pieces) }
    {
        pieces_within(*self.edges.allocator(), &self.edges, span)
    }
}
