//! The greater of two numbers, each of which may be missing.
ghost use Rattle.std.specs.Prelude.{◌≡◌};
ghost use Rattle.ts_num.specs.Aggregates.{greater};

/// The greater of two numbers. If one is missing, it is the other.
pub fn greater(a: Option<i64>, b: Option<i64>) -> Option<i64>
    ensures value { result ≡ greater a b }
{
    match (a, b) {
        (Some(x), Some(y)) => Some(x.max(y)),
        (Some(x), None) => Some(x),
        (None, y) => y,
    }
}
