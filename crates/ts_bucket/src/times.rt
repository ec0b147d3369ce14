//! The range of times, and the greatest width and interval.
ghost use Rattle.std.specs.Prelude.{◌≡◌, negsuc, pos};
ghost use Rattle.ts_bucket.specs.Bucket.{max_step, max_time, min_time};
ghost use Rattle.ts_bucket.specs.Chunks.{max_interval};
ghost use Rattle.ts_bucket.specs.declared.times.TheConstants.{MAX_TIME, MIN_TIME};

/// The least time.
pub const MIN_TIME: i64 = -4_611_686_018_427_387_904;

/// The greatest time.
pub const MAX_TIME: i64 = 4_611_686_018_427_387_903;

/// States the bounds of times, widths and intervals. Does nothing.
pub fn times_law()
    ensures least { min_time ≡ negsuc 4611686018427387903 }
    ensures most { max_time ≡ pos 4611686018427387903 }
    ensures step { max_step ≡ pos 1099511627776 }
    ensures interval { max_interval ≡ pos 1125899906842624 }
    ensures constants { (MIN_TIME ≡ min_time) × (MAX_TIME ≡ max_time) }
{}
