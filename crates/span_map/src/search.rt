//! Places among edges in blocks.

ghost use Rattle.std.specs.Prelude.{◌≡◌, ◌≤◌, ◌<ℤ◌, None, length, take};
ghost use Rattle.span_map.specs.Edges.{IsRising, last_value, place_below, place_upto};
ghost use Rattle.span_map.specs.Places.{place_before, stands_before};

use crate::edges::Edge;
use block_list::BlockList;
use ts_bucket::Span;

/// The edges that are before a place.
#[derive(Clone, Copy, Debug)]
pub(crate) enum Before {
    /// Those at or below this number.
    Upto(i64),
    /// Those below this number.
    Below(i64),
}

/// Whether an edge is before a place.
fn stands_before(edge: Edge, before: Before) -> bool
    ensures { result ≡ stands_before before edge }
{
    match before {
        Before::Upto(t) => edge.from <= t,
        Before::Below(t) => edge.from < t,
    }
}

/// The number of edges before a place.
pub(crate) fn place(edges: &BlockList<Edge>, before: Before) -> usize
    requires { IsRising edges.now.items }
    ensures place { result ≡ place_before before edges.now.items }
    ensures bound { result ≤ length edges.now.items }
{
    let mut low = 0;
    let mut high = edges.len();
    while low < high {
        let middle = low + (high - low) / 2;
        if stands_before(*edges.get(middle), before) {
            low = middle + 1;
        } else {
            high = middle;
        }
    }
    low
}

/// The places of the edges that lie between the start and the end of a span that isn't empty.
pub(crate) fn places_within(edges: &BlockList<Edge>, span: Span) -> (usize, usize)
    requires rising { IsRising edges.now.items }
    requires some { span.lo <ℤ span.hi }
    ensures start { result.0 ≡ place_upto span.lo edges.now.items }
    ensures end { result.1 ≡ place_below span.hi edges.now.items }
    ensures order { result.0 ≤ result.1 }
    ensures bound { result.1 ≤ length edges.now.items }
{
    let first = place(edges, Before::Upto(span.lo));
    let end = place(edges, Before::Below(span.hi));
    (first, end)
}

/// The same, including the edges at the start and at the end.
pub(crate) fn places_around(edges: &BlockList<Edge>, span: Span) -> (usize, usize)
    requires rising { IsRising edges.now.items }
    requires some { span.lo <ℤ span.hi }
    ensures start { result.0 ≡ place_below span.lo edges.now.items }
    ensures end { result.1 ≡ place_upto span.hi edges.now.items }
    ensures order { result.0 ≤ result.1 }
    ensures bound { result.1 ≤ length edges.now.items }
{
    let first = place(edges, Before::Below(span.lo));
    let end = place(edges, Before::Upto(span.hi));
    (first, end)
}

/// The value that the first `count` edges end with.
pub(crate) fn value_before(edges: &BlockList<Edge>, count: usize) -> Option<u64>
    requires { count ≤ length edges.now.items }
    ensures { result ≡ last_value None (take count edges.now.items) }
{
    if count == 0 {
        None
    } else {
        edges.get(count - 1).value
    }
}
