//! Spans of whole buckets, from the first bucket on.

ghost use Rattle.std.specs.Prelude.{◌≡◌, ◌&&◌, true, ℤ, ◌≤ℤ◌, ◌<ℤ◌};
ghost use Rattle.std.specs.Option.{ForSome};
ghost use Rattle.ts_bucket.specs.Bucket.{IsInReach, IsWidth, first_of, is_bucket};
ghost use Rattle.ts_bucket.specs.Spans.{in_span, touched_span};
ghost use Rattle.ts_bucket.specs.WholeSpans.{IsMark, IsWholeSpan, IsWithin, is_below, whole_span};
ghost use Rattle.ts_bucket.specs.Windows.{start_from};

use crate::buckets::{bucket_start, first};
use crate::spans::{Hull, Span};
use crate::widths::Width;
use crate::windows::next_start;

/// The range of buckets: those from the first one on that end at or below the greatest number of
/// 64 bits.
pub fn all_buckets(w: Width) -> Span
    ensures value { result ≡ whole_span w }
    ensures bounds { IsWidth w }
{
    Span {
        lo: first(w),
        hi: bucket_start(w, i64::MAX),
    }
}

/// The buckets that a hull meets: from the start of the bucket of its least number to the end of that of its
/// greatest. The hull begins at a time or above, and that end is a number of 64 bits.
pub fn span_touched(w: Width, hull: Hull) -> Span
    requires { IsWithin w hull }
    ensures value { result ≡ touched_span w hull }
    ensures bounds { IsWidth w }
{
    let step = w.step;
    Span {
        lo: bucket_start(w, hull.least),
        hi: bucket_start(w, hull.most) + step,
    }
}

/// The span from the first start of a bucket at or above `from` to the first at or above `to`.
fn starts_between(w: Width, from: i64, to: i64) -> Span
    requires low { IsInReach from }
    requires order { from <ℤ to }
    requires high { to ≤ℤ (whole_span w).hi }
    ensures value { result ≡ record { lo = start_from w from; hi = start_from w to } }
    ensures bounds { IsWidth w }
{
    Span {
        lo: next_start(w, from),
        hi: next_start(w, to),
    }
}

/// A span of no buckets.
fn no_buckets(w: Width) -> Span
    ensures value { result ≡ record { lo = first_of w; hi = first_of w } }
    ensures bounds { IsWidth w }
{
    Span {
        lo: first(w),
        hi: first(w),
    }
}

/// The buckets that start from `from` on and below `to`, both of which lie in the range of buckets.
fn buckets_between(w: Width, from: i64, to: i64) -> Span
    requires reach { IsInReach from }
    requires low { first_of w ≤ℤ from }
    requires high { to ≤ℤ (whole_span w).hi }
    ensures whole { IsWholeSpan w result }
    ensures exact { (b : ℤ) → is_bucket w b ≡ true → in_span result b ≡ in_span (record { lo = from; hi = to }) b }
{
    if from < to {
        starts_between(w, from, to)
    } else {
        no_buckets(w)
    }
}

/// The buckets of the range of buckets that start in a span.
pub fn buckets_in(w: Width, starts: Span) -> Span
    ensures whole { IsWholeSpan w result }
    ensures exact { (b : ℤ) → is_bucket w b ≡ true → in_span result b ≡ (in_span (whole_span w) b && in_span starts b) }
    ensures bounds { IsWidth w }
{
    let all = all_buckets(w);
    buckets_between(w, starts.lo.max(all.lo), starts.hi.min(all.hi))
}
