//! Pieces of a map: spans with one value each.

ghost use Rattle.std.specs.Prelude.{◌≡◌, ◌++◌, IfOk};
ghost use Rattle.span_map.specs.Edges.{IsRising, value_from};
ghost use Rattle.span_map.specs.Pieces.{piece_of, pieces_from, piece_at, ArePieces};
ghost use Rattle.span_map.specs.Functions.{IsPart};

use crate::edges::Edge;
use crate::parts::part_within;
use std::alloc::Global;
use ts_bucket::Span;
use ts_schema::{NoMemory, Seq};

/// A span all of whose numbers have the same value.
#[derive(Clone, Copy, Debug, PartialEq, Eq)]
pub struct Piece {
    pub span: Span,
    pub pos: u64,
}

/// Appends the piece from one edge to the next, if it has numbers and a value.
fn push_piece(pieces: &mut Vec<Piece>, start: Edge, end: Edge) -> Result<(), NoMemory>
    ensures { IfOk result (λ _. pieces.new.items ≡ pieces.old.items ++ piece_of start.from end.from start.value) }
{
    match start.value {
        Some(pos) if start.from < end.from => {
            let span = Span {
                lo: start.from,
                hi: end.from,
            };
            pieces.push(Piece { span, pos })?;
            Ok(())
        }
        _ => Ok(()),
    }
}

/// The pieces from a start on and below an end, given the edges between the two.
fn pieces_between(
    alloc: Global,
    start: Edge,
    edges: &[Edge],
    end: Edge,
) -> Result<Seq<Piece>, NoMemory>
    ensures { IfOk result (λ pieces. pieces ≡ pieces_from start.from end.from start.value edges.now) }
{
    let mut pieces = Vec::new(alloc);
    let mut last = start;
    for edge in edges {
        push_piece(&mut pieces, last, *edge)?;
        last = *edge;
    }
    push_piece(&mut pieces, last, end)?;
    Ok(Seq::of(pieces))
}

/// The pieces of these edges within the span.
pub(crate) fn pieces_within(
    alloc: Global,
    edges: &[Edge],
    span: Span,
) -> Result<Seq<Piece>, NoMemory>
    requires { IsRising edges.now }
    ensures values { IfOk result (λ pieces. IsPart span (value_from None edges.now) (piece_at pieces)) }
    ensures rising { IfOk result (λ pieces. ArePieces span.lo span.hi pieces) }
{
    let (value, between) = part_within(edges, span);
    let start = Edge {
        from: span.lo,
        value,
    };
    let end = Edge {
        from: span.hi,
        value: None,
    };
    pieces_between(alloc, start, between, end)
}
