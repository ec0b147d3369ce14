//! The whole buckets of a window, and whether a hull and a span meet.

ghost use Rattle.std.specs.Prelude.{◌≡◌, ◌↔◌, ◌≤ℤ◌, IsTrue, MatchOption};
ghost use Rattle.std.specs.Option.{ForSome};
ghost use Rattle.ts_bucket.specs.Bucket.{IsWidth, IsInReach, IsNearTimes};
ghost use Rattle.ts_bucket.specs.Spans.{overlaps, SharesTime};
ghost use Rattle.ts_bucket.specs.WholeSpans.{whole_span};
ghost use Rattle.ts_bucket.specs.Windows.{IsInscribed, HasNoBucket, nonempty_span, start_from, window_start, inscribed};

use crate::buckets::{bucket, bucket_start, first};
use crate::spans::{Hull, Span};
use crate::widths::Width;

/// The first start of a bucket at or above `t`. `t` may lie a little below the range of times, and is at most
/// the end of the range of buckets.
pub(crate) fn next_start(w: Width, t: i64) -> i64
    requires low { IsInReach t }
    requires high { t ≤ℤ (whole_span w).hi }
    ensures value { result ≡ start_from w t }
    ensures bounds { IsWidth w }
{
    let start = bucket_start(w, t);
    if start < t { start + w.step } else { t }
}

/// Where the whole buckets of a window start: from the first bucket on.
fn first_start(w: Width, lo: Option<i64>) -> i64
    requires { ForSome lo IsNearTimes }
    ensures { result ≡ window_start w lo }
{
    match lo {
        Some(lo) => first(w).max(next_start(w, lo)),
        None => first(w),
    }
}

/// The span from `lo` on and below `hi`, if it has a number.
fn nonempty(lo: i64, hi: i64) -> Option<Span>
    ensures { result ≡ nonempty_span lo hi }
{
    if lo < hi { Some(Span { lo, hi }) } else { None }
}

/// The greatest span of whole buckets in the window from `lo` on and below `hi`, from the first bucket on.
/// `None` if no whole bucket is in it. A window with no `lo` starts at the first bucket. Both ends lie within
/// 2^41 of the range of times.
pub fn inscribe(w: Width, lo: Option<i64>, hi: i64) -> Option<Span>
    requires low { ForSome lo IsNearTimes }
    requires high { IsNearTimes hi }
    ensures greatest { MatchOption result (HasNoBucket w lo hi) (IsInscribed w lo hi) }
    ensures value { result ≡ inscribed w lo hi }
    ensures bounds { IsWidth w }
{
    nonempty(first_start(w, lo), bucket(w, hi))
}

/// Whether a hull and a span have a number in common.
pub fn meets(h: Hull, s: Span) -> bool
    ensures shared { IsTrue result ↔ SharesTime h s }
    ensures value { result ≡ overlaps h s }
{
    h.least < s.hi && s.lo <= h.most && s.lo < s.hi
}
