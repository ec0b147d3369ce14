//! Edges that replace the values of a map within a span with those of another.

ghost use Rattle.std.specs.Prelude.{◌≡◌, ◌++◌, IfOk};
ghost use Rattle.span_map.specs.Edges.{IsRising, last_value};
ghost use Rattle.span_map.specs.Patches.{edge_if, patch_of};

use crate::edges::Edge;
use crate::parts::part_within;
use std::alloc::Global;
use ts_bucket::Span;
use ts_schema::NoMemory;

/// Appends an edge, unless the value before it is the same.
fn push_if(edges: &mut Vec<Edge>, before: Option<u64>, edge: Edge) -> Result<(), NoMemory>
    ensures { IfOk result (λ _. edges.new.items ≡ edges.old.items ++ edge_if before edge) }
{
    if edge.value != before {
        edges.push(edge)?;
    }
    Ok(())
}

/// The value of the last of these edges, if the value before them is this one.
fn last_of(before: Option<u64>, edges: &[Edge]) -> Option<u64>
    ensures { result ≡ last_value before edges.now }
{
    if edges.is_empty() {
        before
    } else {
        edges[edges.len() - 1].value
    }
}

/// The edges from the start of a span to its end that have the values of these edges, given the values before
/// and after the span.
pub(crate) fn patch(
    alloc: Global,
    span: Span,
    before: Option<u64>,
    edges: &[Edge],
    after: Option<u64>,
) -> Result<Vec<Edge>, NoMemory>
    requires { IsRising edges.now }
    ensures { IfOk result (λ patch. patch.items ≡ patch_of span before edges.now after) }
{
    let (value, between) = part_within(edges, span);
    let start = Edge {
        from: span.lo,
        value,
    };
    let end = Edge {
        from: span.hi,
        value: after,
    };
    let mut patch = Vec::new(alloc);
    push_if(&mut patch, before, start)?;
    patch.extend_from_slice(between)?;
    push_if(&mut patch, last_of(value, between), end)?;
    Ok(patch)
}
