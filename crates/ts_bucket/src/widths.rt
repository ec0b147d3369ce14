//! Widths of buckets.

use std::marker::Model;

/// The length of buckets, and where they start: a whole number of steps above or below the shift.
///
/// The step is from 1 to 2^40, and the shift from 0 to one less than the step.
#[derive(Clone, Copy, Debug, PartialEq, Eq)]
pub struct Width {
    pub step: i64,
    pub shift: i64,
}

impl Model for Width {
    ghost use Rattle.ts_bucket.specs.Bucket.{WidthValue, IsWidth};

    ghost Value = { WidthValue };

    ghost view = { λ w. record { step = w.step; shift = w.shift } };

    ghost invariant = { λ w. IsWidth (record { step = w.step; shift = w.shift }) };

    ghost inverse = { λ v. record { step = v.step; shift = v.shift } };
}
