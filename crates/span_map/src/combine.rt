//! Two maps combined in one sweep over their edges.

ghost use Rattle.std.specs.Prelude.{◌≡◌, None, IfOk};
ghost use Rattle.span_map.specs.Combined.{earliest, value_from_on, edges_past, with_last, Combines};
ghost use Rattle.span_map.specs.Edges.{IsRising};

use crate::edges::{Edge, value_after};
use crate::rules::{Rule, combine_values};
use std::alloc::Global;
use ts_schema::NoMemory;

/// The number of the first of two lists of edges.
fn next_from(first: &[Edge], second: &[Edge]) -> Option<i64>
    ensures { result ≡ earliest first.now second.now }
{
    match first {
        [] => second.first().map(|edge| edge.from),
        [edge, ..] => match second {
            [] => Some(edge.from),
            [other, ..] => Some(edge.from.min(other.from)),
        },
    }
}

/// The value from a number on, if it was `before` and no edge is below that number, and the edges above it.
fn skip_edges(before: Option<u64>, edges: &[Edge], from: i64) -> (Option<u64>, &[Edge])
    ensures value { result.0 ≡ value_from_on from before edges.now }
    ensures edges { result.1.now ≡ edges_past from edges.now }
{
    match edges {
        [edge, rest @ ..] if edge.from == from => (edge.value, rest),
        _ => (before, edges),
    }
}

/// Appends an edge, unless it begins the value that the edges end with.
fn push_edge(edges: &mut Vec<Edge>, edge: Edge) -> Result<(), NoMemory>
    ensures { IfOk result (λ _. edges.new.items ≡ with_last edges.old.items edge) }
{
    if edge.value != value_after(edges, edges.len()) {
        edges.push(edge)?;
    }
    Ok(())
}

/// The edges of two maps whose values are combined by a rule.
pub(crate) fn combine(
    alloc: Global,
    first: &[Edge],
    second: &[Edge],
    rule: Rule,
) -> Result<Vec<Edge>, NoMemory>
    requires first { IsRising first.now }
    requires second { IsRising second.now }
    ensures values { IfOk result (λ edges. Combines rule first.now second.now edges.items) }
    ensures rising { IfOk result (λ edges. IsRising edges.items) }
{
    let mut edges = Vec::new(alloc);
    let mut left = first;
    let mut right = second;
    let mut mine = None;
    let mut other = None;
    while let Some(from) = next_from(left, right) {
        let (value, rest) = skip_edges(mine, left, from);
        mine = value;
        left = rest;
        let (value, rest) = skip_edges(other, right, from);
        other = value;
        right = rest;
        let value = combine_values(rule, mine, other);
        push_edge(&mut edges, Edge { from, value })?;
    }
    Ok(edges)
}
