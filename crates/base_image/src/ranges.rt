//! The ranges of last refreshes, those of dirty buckets, and marks.
ghost use Rattle.std.specs.Prelude.{◌≡◌, ◌&&◌, ◌-ℤ◌, ◌<ℤ◌, drop, int_le, int_lt, true, nat_lt, Some};
ghost use Rattle.std.specs.Int.{int_rem_euclid};
ghost use Rattle.std.specs.List.{list_all, prefix_len};
ghost use Rattle.std.specs.Ordering.{int_eq};
ghost use Rattle.ts_bucket.specs.Bucket.{is_bucket, max_time, min_time};
ghost use Rattle.ts_model.specs.Sound.{span_fits};
ghost use Rattle.ts_model.specs.Valid.{dirty_fits, has_lasts, lasts_fit, mark_fits};
ghost use Rattle.base_image.specs.Rising.{are_rising, cover_from, spans_of};

use crate::orders::{lasts_rise, spans_rise};
use crate::searches::lasts_below;
use event_check::span_is_fit;
use ts_bucket::{MAX_TIME, MIN_TIME, Span, Width};
use ts_model::{SavedLast, ViewDef};

/// The distance from a multiple of the step of a width up to `b`.
fn remainder(w: Width, b: i64) -> i64
    ensures { result ≡ int_rem_euclid b w.step }
{
    b.rem_euclid(w.step)
}

fn is_same(a: i64, b: i64) -> bool
    ensures { result ≡ int_eq a b }
{
    a == b
}

/// Whether a bucket starts at `b`.
pub fn starts_bucket(w: Width, b: i64) -> bool
    ensures { result ≡ is_bucket w b }
{
    is_same(remainder(w, b), w.shift)
}

/// Whether these are buckets of an aggregate, with a last refresh below a position.
fn last_is_fit(def: &ViewDef, pos: u64, last: &SavedLast) -> bool
    ensures { result ≡ (span_fits last.now.span (Some def.now) && nat_lt last.now.pos pos) }
{
    span_is_fit(last.span, Some(def)) && last.pos < pos
}

/// Whether this is true of each of these last refreshes.
fn each_last_is_fit(def: &ViewDef, pos: u64, lasts: &[SavedLast]) -> bool
    ensures { result ≡ list_all (λ l. span_fits l.span (Some def.now) && nat_lt l.pos pos) lasts.now }
{
    lasts.iter().all(|last| last_is_fit(def, pos, last))
}

/// Whether last refreshes are of whole buckets of an aggregate that rise, each below a position.
pub fn lasts_are_fit(def: &ViewDef, pos: u64, lasts: &[SavedLast]) -> bool
    ensures { result ≡ lasts_fit def.now pos lasts.now }
{
    each_last_is_fit(def, pos, lasts) && lasts_rise(lasts)
}

/// Whether the ranges of these last refreshes cover the numbers from `from` on and below `until`.
fn cover(lasts: &[SavedLast], from: i64, until: i64) -> bool
    ensures { result ≡ cover_from from until (spans_of lasts.now) }
{
    let mut end = from;
    let mut left = lasts;
    while let [last, rest @ ..] = left {
        if until <= end {
            return true;
        }
        if end < last.span.lo {
            return false;
        }
        end = end.max(last.span.hi);
        left = rest;
    }
    until <= end
}

/// The last refreshes whose ranges end above `b`.
fn lasts_past(lasts: &[SavedLast], b: i64) -> &[SavedLast]
    requires rising { are_rising (spans_of lasts.now) ≡ true }
    ensures { result.now ≡ drop (prefix_len (λ l. int_le l.span.hi b) lasts.now) lasts.now }
{
    &lasts[lasts_below(lasts, b)..]
}

/// Whether each bucket of a span has a last refresh.
fn are_refreshed(def: &ViewDef, lasts: &[SavedLast], span: Span) -> bool
    requires fits { list_all (λ l. span_fits l.span (Some def.now)) lasts.now ≡ true }
    requires rising { are_rising (spans_of lasts.now) ≡ true }
    requires whole { span_fits span (Some def.now) ≡ true }
    ensures { result ≡ has_lasts def.now.fold.width lasts.now span }
{
    cover(lasts_past(lasts, span.lo), span.lo, span.hi)
}

/// Whether these are whole buckets of an aggregate with a last refresh.
fn range_is_fit(def: &ViewDef, lasts: &[SavedLast], span: Span) -> bool
    requires fits { list_all (λ l. span_fits l.span (Some def.now)) lasts.now ≡ true }
    requires rising { are_rising (spans_of lasts.now) ≡ true }
    ensures { result ≡ (span_fits span (Some def.now) && has_lasts def.now.fold.width lasts.now span) }
{
    span_is_fit(span, Some(def)) && are_refreshed(def, lasts, span)
}

/// Whether ranges are of whole buckets of an aggregate with a last refresh, and rise.
#[tactic(auto, using(crate::proofs::Covering::lasts_rising, crate::proofs::Covering::lasts_whole))]
pub fn dirty_are_fit(def: &ViewDef, pos: u64, lasts: &[SavedLast], dirty: &[Span]) -> bool
    requires lasts { lasts_fit def.now pos lasts.now ≡ true }
    ensures { result ≡ dirty_fits def.now lasts.now dirty.now }
{
    if !spans_rise(dirty) {
        return false;
    }
    let mut left = dirty;
    while let [span, rest @ ..] = left {
        if !range_is_fit(def, lasts, *span) {
            return false;
        }
        left = rest;
    }
    true
}

/// Whether the bucket that ends above the least time, at `end`, begins at or below the greatest.
fn begins_in_time(w: Width, end: i64) -> bool
    requires { min_time <ℤ end }
    ensures { result ≡ int_le (end -ℤ w.step) max_time }
{
    end - w.step <= MAX_TIME
}

/// Whether a bucket that holds a time ends at `end`.
fn ends_in_time(w: Width, end: i64) -> bool
    ensures { result ≡ (is_bucket w end && int_lt min_time end && int_le (end -ℤ w.step) max_time) }
{
    starts_bucket(w, end) && MIN_TIME < end && begins_in_time(w, end)
}

/// Whether a mark is the end of a bucket that holds a time.
pub fn mark_is_fit(w: Width, mark: Option<i64>) -> bool
    ensures { result ≡ mark_fits w mark }
{
    match mark {
        None => true,
        Some(end) => ends_in_time(w, end),
    }
}
