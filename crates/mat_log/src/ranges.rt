//! Pieces joined to ranges.

ghost use Rattle.std.specs.Prelude.{◌≡◌, ◌++◌, IfOk};
ghost use Rattle.std.specs.Ordering.{int_eq};
ghost use Rattle.mat_log.specs.JoinedRanges.{open_after, closed_by, still_open, ranges_joined};

use span_map::Piece;
use std::alloc::Global;
use ts_bucket::Span;
use ts_schema::{NoMemory, Seq};

/// The range that is open after a piece, if one may be open before it.
fn open_range(range: &Option<Span>, next: Span) -> Span
    ensures { result ≡ open_after range.now next }
{
    match range {
        Some(range) => extend_range(*range, next),
        None => next,
    }
}

/// The open range with the next one at its end, or otherwise the next one.
fn extend_range(range: Span, next: Span) -> Span
    ensures { result ≡ open_after (Some range) next }
{
    if range.hi == next.lo {
        Span {
            lo: range.lo,
            hi: next.hi,
        }
    } else {
        next
    }
}

/// Whether a range ends where the next one begins.
fn touches(range: Span, next: Span) -> bool
    ensures { result ≡ int_eq range.hi next.lo }
{
    range.hi == next.lo
}

/// Appends the open range, unless the next piece continues it.
fn close_before(ranges: &mut Vec<Span>, range: &Option<Span>, next: Span) -> Result<(), NoMemory>
    ensures { IfOk result (λ _. ranges.new.items ≡ ranges.old.items ++ closed_by range.now next) }
{
    match range {
        Some(range) if !touches(*range, next) => {
            ranges.push(*range)?;
            Ok(())
        }
        _ => Ok(()),
    }
}

/// Appends the open range, if there is one.
fn close(ranges: &mut Vec<Span>, range: Option<Span>) -> Result<(), NoMemory>
    ensures { IfOk result (λ _. ranges.new.items ≡ ranges.old.items ++ still_open range) }
{
    if let Some(range) = range {
        ranges.push(range)?;
    }
    Ok(())
}

/// The ranges that pieces form when joined.
fn joined_ranges(alloc: Global, pieces: &[Piece]) -> Result<Seq<Span>, NoMemory>
    ensures { IfOk result (λ ranges. ranges ≡ ranges_joined None pieces.now) }
{
    let mut ranges = Vec::new(alloc);
    let mut range = None;
    for piece in pieces {
        let next = piece.span;
        close_before(&mut ranges, &range, next)?;
        range = Some(open_range(&range, next));
    }
    close(&mut ranges, range)?;
    Ok(Seq::of(ranges))
}

/// The same for a list of pieces, with its allocator.
pub(crate) fn join_pieces(pieces: Seq<Piece>) -> Result<Seq<Span>, NoMemory>
    ensures { IfOk result (λ ranges. ranges ≡ ranges_joined None pieces) }
{
    let pieces = pieces.into_items();
    joined_ranges(*pieces.allocator(), &pieces)
}
