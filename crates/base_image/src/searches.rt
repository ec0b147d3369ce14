//! Searches in lists that rise: in spans for the one that holds a number, and in refreshes for a cut.
ghost use Rattle.std.specs.Prelude.{◌≡◌, ◌≤◌, ◌==◌, true, int_le, is_some, length, map, nat_lt};
ghost use Rattle.std.specs.List.{list_any, prefix_len};
ghost use Rattle.std.specs.Ordering.{nat_cmp};
ghost use Rattle.ts_bucket.specs.Ranges.{lies_in};
ghost use Rattle.ts_bucket.specs.Spans.{in_span};
ghost use Rattle.ts_model.specs.Saved.{pos_in};
ghost use Rattle.ts_model.specs.Valid.{all_rise};
ghost use Rattle.base_image.specs.Rising.{are_rising, spans_of};

use ts_bucket::Span;
use ts_model::{SavedLast, Waiting};

/// Whether a span holds `b`.
fn holds(span: Span, b: i64) -> bool
    ensures { result ≡ in_span span b }
{
    span.lo <= b && b < span.hi
}

/// The number of spans that end at or below `b`.
fn spans_below(spans: &[Span], b: i64) -> usize
    requires rising { are_rising spans.now ≡ true }
    ensures place { result ≡ prefix_len (λ s. int_le s.hi b) spans.now }
{
    spans.partition_point(|span| span.hi <= b)
}

/// Whether `b` is in one of these spans.
pub fn is_inside(spans: &[Span], b: i64) -> bool
    requires rising { are_rising spans.now ≡ true }
    ensures { result ≡ lies_in spans.now b }
{
    match spans.get(spans_below(spans, b)) {
        Some(span) => holds(*span, b),
        None => false,
    }
}

/// The number of ranges of last refreshes that end at or below `b`.
pub fn lasts_below(lasts: &[SavedLast], b: i64) -> usize
    requires rising { are_rising (spans_of lasts.now) ≡ true }
    ensures place { result ≡ prefix_len (λ l. int_le l.span.hi b) lasts.now }
    ensures bound { result ≤ length lasts.now }
{
    lasts.partition_point(|last| last.span.hi <= b)
}

/// Whether the range of one of these last refreshes holds `b`.
pub fn has_last(lasts: &[SavedLast], b: i64) -> bool
    requires rising { are_rising (spans_of lasts.now) ≡ true }
    ensures { result ≡ is_some (pos_in lasts.now b) }
{
    match lasts.get(lasts_below(lasts, b)) {
        Some(last) => holds(last.span, b),
        None => false,
    }
}

/// The number of pending refreshes with a cut below this one.
fn cuts_below(waiting: &[Waiting], cut: u64) -> usize
    requires rising { all_rise nat_cmp (map (λ w. w.cut) waiting.now) ≡ true }
    ensures place { result ≡ prefix_len (λ w. nat_lt w.cut cut) waiting.now }
{
    waiting.partition_point(|refresh| refresh.cut < cut)
}

/// Whether a refresh with this cut is pending.
pub fn waits(waiting: &[Waiting], cut: u64) -> bool
    requires rising { all_rise nat_cmp (map (λ w. w.cut) waiting.now) ≡ true }
    ensures { result ≡ list_any (λ w. w.cut == cut) waiting.now }
{
    match waiting.get(cuts_below(waiting, cut)) {
        Some(refresh) => refresh.cut == cut,
        None => false,
    }
}
