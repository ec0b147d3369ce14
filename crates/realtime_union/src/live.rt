//! Live buckets.
ghost use Rattle.std.specs.Prelude.{◌≡◌, ◌&&◌, not, ℤ};
ghost use Rattle.ts_bucket.specs.Bucket.{IsWidth};
ghost use Rattle.ts_bucket.specs.Spans.{in_span};
ghost use Rattle.ts_bucket.specs.WholeSpans.{is_below};
ghost use Rattle.realtime_union.specs.Live.{IsLiveSpan};

use ts_bucket::{Span, Width, buckets_in};

/// The buckets that start in a span, at or above the mark.
pub fn live_span(w: Width, starts: Span, mark: Option<i64>) -> Span
    ensures live { IsLiveSpan w mark starts result }
    ensures bounds { IsWidth w }
{
    buckets_in(w, from_mark(starts, mark))
}

/// The part of a span at or above the mark.
fn from_mark(starts: Span, mark: Option<i64>) -> Span
    ensures exact { (b : ℤ) → in_span result b ≡ (in_span starts b && not (is_below b mark)) }
{
    match mark {
        None => starts,
        Some(mark) => from(starts, mark),
    }
}

/// The part of a span at or above a number.
fn from(starts: Span, mark: i64) -> Span
    ensures exact { (b : ℤ) → in_span result b ≡ (in_span starts b && not (is_below b (Some mark))) }
{
    let lo = starts.lo.max(mark);
    Span {
        lo,
        hi: starts.hi.max(lo),
    }
}
