//! Widths, and the bucket of a time.

ghost use Rattle.std.specs.Prelude.{◌≡◌, ◌↔◌, IsTrue, IsSome, IfSome};
ghost use Rattle.ts_bucket.specs.Bucket.{IsWidth, IsBucketOf, IsNearTimes, IsInReach, bucket_of, first_of, max_step};
ghost use Rattle.ts_bucket.specs.declared.buckets.TheConstants as buckets;

use crate::times::MIN_TIME;
use crate::widths::Width;

/// The greatest step of a width.
pub const MOST_STEP: i64 = 1_099_511_627_776;

/// States that this is the number of the definitions. Does nothing.
pub fn step_law()
    ensures step { buckets.MOST_STEP ≡ max_step }
{}

/// The width with this step and this shift, or `None` if they break its bounds.
pub fn width(step: i64, shift: i64) -> Option<Width>
    ensures within { IsSome result ↔ IsWidth (record { step = step; shift = shift }) }
    ensures value { IfSome result (λ w. w ≡ record { step = step; shift = shift }) }
{
    if 0 < step && step <= MOST_STEP && 0 <= shift && shift < step {
        Some(Width { step, shift })
    } else {
        None
    }
}

/// The start of the bucket that holds `t`, which may lie a little below the range of times.
pub(crate) fn bucket_start(w: Width, t: i64) -> i64
    requires { IsInReach t }
    ensures bucket { IsBucketOf w t result }
    ensures value { result ≡ bucket_of w t }
    ensures bounds { IsWidth w }
{
    t - (t - w.shift).rem_euclid(w.step)
}

/// The start of the bucket that holds `t`: the greatest start of a bucket at or below `t`, even if `t` is
/// negative. `t` lies within 2^41 of the range of times. See `time_bucket` with an offset, for whole numbers,
/// in the API reference of TimescaleDB.
pub fn bucket(w: Width, t: i64) -> i64
    requires { IsNearTimes t }
    ensures bucket { IsBucketOf w t result }
    ensures value { result ≡ bucket_of w t }
    ensures bounds { IsWidth w }
{
    bucket_start(w, t)
}

/// The start of the first bucket: the one that holds the least time.
pub fn first(w: Width) -> i64
    ensures bucket { IsBucketOf w MIN_TIME result }
    ensures value { result ≡ first_of w }
    ensures bounds { IsWidth w }
{
    bucket_start(w, MIN_TIME)
}
