//! The part of a map within a span.

ghost use Rattle.std.specs.Prelude.{◌≡◌, None, IfOk};
ghost use Rattle.span_map.specs.Edges.{IsRising, value_from, value_on, between, edges_between};
ghost use Rattle.span_map.specs.Functions.{IsPart};

use crate::edges::{Edge, places_below, places_upto, value_after};
use std::alloc::Global;
use ts_bucket::Span;
use ts_schema::NoMemory;

/// The value at the start of a span, and the edges above its start and below its end.
pub(crate) fn part_within(edges: &[Edge], span: Span) -> (Option<u64>, &[Edge])
    requires { IsRising edges.now }
    ensures value { result.0 ≡ value_on span.lo edges.now }
    ensures edges { result.1.now ≡ between span.lo span.hi edges.now }
{
    let first = places_upto(edges, span.lo);
    let (_, later) = edges.split_at(first);
    let (between, _) = later.split_at(places_below(later, span.hi));
    (value_after(edges, first), between)
}

/// The edges of a part that begins at the start of a span with this value and ends with the span.
pub(crate) fn edges_of_part(
    alloc: Global,
    span: Span,
    value: Option<u64>,
    between: &[Edge],
) -> Result<Vec<Edge>, NoMemory>
    ensures { IfOk result (λ part. part.items ≡ edges_between span.lo span.hi value between.now) }
{
    let mut part = Vec::new(alloc);
    part.push(Edge {
        from: span.lo,
        value,
    })?;
    part.extend_from_slice(between)?;
    part.push(Edge {
        from: span.hi,
        value: None,
    })?;
    Ok(part)
}

/// Edges with the values of others within a span, and none elsewhere.
pub(crate) fn edges_within(alloc: Global, edges: &[Edge], span: Span) -> Result<Vec<Edge>, NoMemory>
    requires { IsRising edges.now }
    ensures values { IfOk result (λ part. IsPart span (value_from None edges.now) (value_from None part.items)) }
    ensures rising { IfOk result (λ part. IsRising part.items) }
{
    if span.lo < span.hi {
        let (value, between) = part_within(edges, span);
        edges_of_part(alloc, span, value, between)
    } else {
        Ok(Vec::new(alloc))
    }
}
