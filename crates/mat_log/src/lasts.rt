//! Last refreshes as pieces: ranges of buckets with one position each.

ghost use Rattle.std.specs.Prelude.{◌≡◌, ◌++◌, ◌∷◌, ℤ, List, IfOk, None, Some, cond};
ghost use Rattle.span_map.specs.declared.pieces.Piece.{Piece as PieceValue};
ghost use Rattle.span_map.specs.Maps.{at};
ghost use Rattle.span_map.specs.Pieces.{ArePieces, piece_at};
ghost use Rattle.mat_log.specs.Lasts.{all_merged, goes_on, longer, pieces_merged};

use span_map::{Piece, SpanMap};
use std::alloc::Global;
use ts_bucket::Span;
use ts_schema::{NoMemory, Seq};

/// The map with these pieces, which rise.
pub(crate) fn of_pieces(alloc: Global, pieces: &[Piece]) -> Result<SpanMap, NoMemory>
    requires rise { (lo : ℤ) × (hi : ℤ) × ArePieces lo hi pieces.now }
    ensures values { IfOk result (λ map. (t : ℤ) → at map t ≡ piece_at pieces.now t) }
{
    let mut map = SpanMap::new(alloc);
    for piece in pieces {
        map.reserve(2)?;
        map.assign(piece.span, piece.pos);
    }
    Ok(map)
}

/// A piece with the next one at its end, if that begins there with the same position.
fn join_pieces(piece: &Piece, next: &Piece) -> Option<Piece>
    ensures { result ≡ cond (goes_on piece.now next.now) (Some (longer piece.now next.now)) None }
{
    if piece.span.hi == next.span.lo && piece.pos == next.pos {
        Some(Piece {
            span: Span {
                lo: piece.span.lo,
                hi: next.span.hi,
            },
            pos: piece.pos,
        })
    } else {
        None
    }
}

/// Appends the last piece to the others, unless the next piece continues it. Returns the new last piece.
fn push_or_extend(pieces: &mut Vec<Piece>, last: &Piece, next: &Piece) -> Result<Piece, NoMemory>
    ensures { IfOk result (λ now. (rest : List PieceValue) →
        pieces.new.items ++ pieces_merged now rest ≡ pieces.old.items ++ pieces_merged last.now (next.now ∷ rest)) }
{
    match join_pieces(last, next) {
        Some(piece) => Ok(piece),
        None => {
            pieces.push(*last)?;
            Ok(*next)
        }
    }
}

/// A piece and those after it, with adjacent pieces of the same position merged.
fn merge_all(alloc: Global, first: Piece, rest: &[Piece]) -> Result<Seq<Piece>, NoMemory>
    ensures { IfOk result (λ pieces. pieces ≡ pieces_merged first rest.now) }
{
    let mut pieces = Vec::new(alloc);
    let mut last = first;
    for next in rest {
        last = push_or_extend(&mut pieces, &last, next)?;
    }
    pieces.push(last)?;
    Ok(Seq::of(pieces))
}

/// The pieces, with adjacent ones of the same position merged.
pub(crate) fn merge_pieces(alloc: Global, pieces: &[Piece]) -> Result<Seq<Piece>, NoMemory>
    ensures { IfOk result (λ found. found ≡ all_merged pieces.now) }
{
    match pieces {
        [] => Ok(Seq::new(alloc)),
        [first, rest @ ..] => merge_all(alloc, *first, rest),
    }
}
