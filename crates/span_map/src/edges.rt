//! Edges: the numbers at which the value of a map changes, in rising order.

ghost use Rattle.std.specs.Prelude.{◌≡◌, ◌+◌, ◌<◌, ◌≤◌, ◌++◌, None, MatchOption, length, map, take, drop, insert, vec_len, vec_capacity};
ghost use Rattle.span_map.specs.Changes.{edge_changed, edges_halfway, with_edge, ChangesValues, IsMissingAt};
ghost use Rattle.span_map.specs.Edges.{IsRising, value_from, last_value, place_upto, place_below, begins_at, piece_count, HaveSameValues};

use crate::changes::{Change, apply};
use ts_bucket::Span;

/// From this number on, up to the next edge, the map has this value.
#[derive(Clone, Copy, Debug, PartialEq, Eq)]
pub(crate) struct Edge {
    pub from: i64,
    pub value: Option<u64>,
}

/// The number of edges at or below `t`.
pub(crate) fn places_upto(edges: &[Edge], t: i64) -> usize
    requires { IsRising edges.now }
    ensures place { result ≡ place_upto t edges.now }
    ensures bound { result ≤ length edges.now }
{
    edges.partition_point(|edge| edge.from <= t)
}

/// The number of edges below `t`.
pub(crate) fn places_below(edges: &[Edge], t: i64) -> usize
    requires { IsRising edges.now }
    ensures place { result ≡ place_below t edges.now }
    ensures bound { result ≤ length edges.now }
{
    edges.partition_point(|edge| edge.from < t)
}

/// The value that the first `count` edges end with.
pub(crate) fn value_after(edges: &[Edge], count: usize) -> Option<u64>
    requires { count ≤ length edges.now }
    ensures { result ≡ last_value None (take count edges.now) }
{
    if count == 0 {
        None
    } else {
        edges[count - 1].value
    }
}

/// The number of pieces that the edges begin.
pub(crate) fn count_pieces(edges: &[Edge]) -> usize
    ensures { result ≡ piece_count edges.now }
{
    edges.iter().filter(|edge| edge.value.is_some()).count()
}

/// The value of the edges at `t`.
pub(crate) fn value_at(edges: &[Edge], t: i64) -> Option<u64>
    requires { IsRising edges.now }
    ensures { result ≡ value_from None edges.now t }
{
    value_after(edges, places_upto(edges, t))
}

/// Whether there is an edge at place `i`, and it is at `t`.
fn is_at(edges: &[Edge], i: usize, t: i64) -> bool
    ensures { result ≡ begins_at t (drop i edges.now) }
{
    i < edges.len() && edges[i].from == t
}

/// The edge that is missing at `t`, which changes no value, and its place.
fn missing_edge(edges: &[Edge], t: i64) -> Option<(usize, Edge)>
    requires { IsRising edges.now }
    ensures { MatchOption result (with_edge None t edges.now ≡ edges.now) (IsMissingAt t edges.now) }
{
    let place = places_below(edges, t);
    if is_at(edges, place, t) {
        return None;
    }
    let value = value_after(edges, place);
    Some((place, Edge { from: t, value }))
}

/// Inserts an edge, for which there is room.
fn put(edges: &mut Vec<Edge>, place: usize, edge: Edge)
    requires within { place ≤ vec_len edges.old }
    requires room { vec_len edges.old < vec_capacity edges.old }
    ensures items { edges.new.items ≡ insert edges.old.items place edge }
    ensures len { vec_len edges.new ≡ vec_len edges.old + 1 }
    ensures capacity { vec_capacity edges.new ≡ vec_capacity edges.old }
{
    let _ = edges.insert(place, edge);
}

/// Inserts an edge at `t` if there is none, which changes no value.
fn split(edges: &mut Vec<Edge>, t: i64)
    requires rising { IsRising edges.old.items }
    requires room { vec_len edges.old < vec_capacity edges.old }
    ensures items { edges.new.items ≡ with_edge None t edges.old.items }
    ensures len { vec_len edges.new ≤ vec_len edges.old + 1 }
    ensures capacity { vec_capacity edges.new ≡ vec_capacity edges.old }
{
    if let Some((place, edge)) = missing_edge(edges, t) {
        put(edges, place, edge);
    }
}

/// The edge after a change within a span.
fn changed_edge(edge: Edge, span: Span, change: Change) -> Edge
    ensures { result ≡ edge_changed span change edge }
{
    if span.lo <= edge.from && edge.from < span.hi {
        Edge {
            from: edge.from,
            value: apply(change, edge.value),
        }
    } else {
        edge
    }
}

/// Changes the value of each edge from one place on and below another, and moves those that begin a new value
/// together. Returns the place after the last of them.
fn change_between(
    edges: &mut Vec<Edge>,
    first: usize,
    end: usize,
    span: Span,
    change: Change,
) -> usize
    requires order { first ≤ end }
    requires within { end ≤ vec_len edges.old }
    requires rising { IsRising (edges_halfway span change first first edges.old.items) }
    ensures place { result ≤ end }
    ensures len { vec_len edges.new ≡ vec_len edges.old }
    ensures capacity { vec_capacity edges.new ≡ vec_capacity edges.old }
    ensures after { drop end edges.new.items ≡ drop end edges.old.items }
    ensures rising { IsRising (edges_halfway span change result end edges.new.items) }
    ensures values { HaveSameValues
        (edges_halfway span change first first edges.old.items) (edges_halfway span change result end edges.new.items) }
{
    let mut kept = first;
    let mut last = value_after(edges, first);
    for i in first..end {
        let edge = changed_edge(edges[i], span, change);
        if edge.value != last {
            edges[kept] = edge;
            kept += 1;
            last = edge.value;
        }
    }
    kept
}

/// Removes the edges from one place on and below another.
fn take_out(edges: &mut Vec<Edge>, first: usize, end: usize)
    requires order { first ≤ end }
    requires within { end ≤ vec_len edges.old }
    ensures items { edges.new.items ≡ take first edges.old.items ++ drop end edges.old.items }
    ensures len { vec_len edges.new ≤ vec_len edges.old }
    ensures capacity { vec_capacity edges.new ≡ vec_capacity edges.old }
{
    let _ = edges.drain(first..end);
}

/// Changes the value of each edge within the span. Removes each edge from its start to its end that begins the
/// same value as before it.
fn change_within(edges: &mut Vec<Edge>, span: Span, change: Change)
    requires rising { IsRising edges.old.items }
    ensures rising { IsRising edges.new.items }
    ensures values { HaveSameValues (map (edge_changed span change) edges.old.items) edges.new.items }
    ensures len { vec_len edges.new ≤ vec_len edges.old }
    ensures capacity { vec_capacity edges.new ≡ vec_capacity edges.old }
{
    let first = places_below(edges, span.lo);
    let end = places_upto(edges, span.hi);
    let kept = change_between(edges, first, end, span, change);
    take_out(edges, kept, end);
}

/// Changes the value of each number within the span.
pub(crate) fn change_values(edges: &mut Vec<Edge>, span: Span, change: Change)
    requires rising { IsRising edges.old.items }
    requires room { vec_len edges.old + 2 ≤ vec_capacity edges.old }
    ensures values { ChangesValues span change edges.old.items edges.new.items }
    ensures rising { IsRising edges.new.items }
    ensures len { vec_len edges.new ≤ vec_len edges.old + 2 }
    ensures capacity { vec_capacity edges.new ≡ vec_capacity edges.old }
{
    if span.lo < span.hi {
        split(edges, span.lo);
        split(edges, span.hi);
        change_within(edges, span, change);
    }
}
