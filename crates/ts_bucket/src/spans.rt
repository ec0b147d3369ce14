//! Ranges of numbers: spans leave their end out, and hulls have both ends.

use std::marker::Model;

/// The numbers from `lo` on and below `hi`. `lo` is at most `hi`; if they are equal, the span is empty.
#[derive(Clone, Copy, Debug, PartialEq, Eq)]
pub struct Span {
    pub lo: i64,
    pub hi: i64,
}

impl Model for Span {
    ghost use Rattle.std.specs.Prelude.{◌≤ℤ◌};
    ghost use Rattle.ts_bucket.specs.Spans.{SpanValue};

    ghost Value = { SpanValue };

    ghost view = { λ s. record { lo = s.lo; hi = s.hi } };

    ghost invariant = { λ s. s.lo ≤ℤ s.hi };

    ghost inverse = { λ v. record { lo = v.lo; hi = v.hi } };
}

/// The numbers from `least` to `most`, both included. `least` is at most `most`.
#[derive(Clone, Copy, Debug, PartialEq, Eq)]
pub struct Hull {
    pub least: i64,
    pub most: i64,
}

impl Model for Hull {
    ghost use Rattle.std.specs.Prelude.{◌≤ℤ◌};
    ghost use Rattle.ts_bucket.specs.Spans.{HullValue};

    ghost Value = { HullValue };

    ghost view = { λ h. record { least = h.least; most = h.most } };

    ghost invariant = { λ h. h.least ≤ℤ h.most };

    ghost inverse = { λ v. record { least = v.least; most = v.most } };
}
