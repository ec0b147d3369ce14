//! Spans of buckets.

ghost use Rattle.std.specs.Prelude.{◌≡◌, ◌&&◌, true, ℤ, ◌≤ℤ◌, cond, IfOk, None, Some};
ghost use Rattle.std.specs.Option.{ForSome};
ghost use Rattle.ts_bucket.specs.Bucket.{IsWidth, first_of, is_bucket};
ghost use Rattle.span_map.specs.Maps.{at};
ghost use Rattle.ts_bucket.specs.Ranges.{lies_in};
ghost use Rattle.ts_bucket.specs.Spans.{in_span};
ghost use Rattle.ts_bucket.specs.WholeSpans.{IsMark, IsWholeSpan, is_below};

use span_map::SpanMap;
use std::alloc::Global;
use ts_bucket::{Span, Width, buckets_in};
use ts_schema::NoMemory;

/// The numbers of a span that are below a mark.
fn span_below(starts: Span, mark: Option<i64>) -> Span
    ensures { (b : ℤ) → in_span result b ≡ (in_span starts b && is_below b mark) }
{
    match mark {
        Some(mark) => Span {
            lo: starts.lo,
            hi: starts.hi.min(mark).max(starts.lo),
        },
        None => Span {
            lo: starts.lo,
            hi: starts.lo,
        },
    }
}

/// The buckets from the first on below a mark that start in a span.
pub(crate) fn buckets_below(w: Width, starts: Span, mark: Option<i64>) -> Span
    requires { ForSome mark (IsMark w) }
    ensures whole { IsWholeSpan w result }
    ensures exact { (b : ℤ) → is_bucket w b ≡ true → first_of w ≤ℤ b →
        in_span result b ≡ (in_span starts b && is_below b mark) }
    ensures bounds { IsWidth w }
{
    buckets_in(w, span_below(starts, mark))
}

/// The map with this position at each number of the spans, and no value elsewhere.
pub(crate) fn position_map(alloc: Global, spans: &[Span], pos: u64) -> Result<SpanMap, NoMemory>
    ensures { IfOk result (λ map. (t : ℤ) → at map t ≡ cond (lies_in spans.now t) (Some pos) None) }
{
    let mut map = SpanMap::new(alloc);
    for span in spans {
        map.reserve(2)?;
        map.assign(*span, pos);
    }
    Ok(map)
}
