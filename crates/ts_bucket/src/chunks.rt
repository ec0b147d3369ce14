//! Chunks of time.

ghost use Rattle.std.specs.Prelude.{◌≡◌, IsTrue};
ghost use Rattle.ts_bucket.specs.Bucket.{is_time};
ghost use Rattle.ts_bucket.specs.Chunks.{IsInterval, chunk_start};

/// The start of the chunk that holds the time `t`: the last multiple of `interval` at or below `t`. Chunks are
/// `interval` long, from 1 to 2^50.
pub fn chunk_start(interval: i64, t: i64) -> i64
    requires interval { IsInterval interval }
    requires time { IsTrue (is_time t) }
    ensures start { result ≡ chunk_start interval t }
{
    t - t.rem_euclid(interval)
}
