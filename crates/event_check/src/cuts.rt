//! Spans of whole buckets of an aggregate.
ghost use Rattle.std.specs.Prelude.{◌≡◌, ◌-ℤ◌, ◌≤ℤ◌, option_copied};
ghost use Rattle.std.specs.Int.{int_rem_euclid};
ghost use Rattle.ts_bucket.specs.Bucket.{first_of, is_bucket};
ghost use Rattle.ts_model.specs.Sound.{span_fits};

use crate::laws::word_law;
use ts_bucket::{Span, Width, first};
use ts_model::ViewDef;

/// The distance from the start of its bucket to `b`, which is at or above the start of the first bucket.
fn offset(w: Width, b: i64) -> i64
    requires { first_of w ≤ℤ b }
    ensures { result ≡ int_rem_euclid (b -ℤ w.shift) w.step }
{
    // The call tells the prover that the width keeps its bounds.
    let _first = first(w);
    (b - w.shift).rem_euclid(w.step)
}

/// Whether a bucket starts at `b`, which is at or above the start of the first one.
fn starts_bucket(w: Width, b: i64) -> bool
    requires { first_of w ≤ℤ b }
    ensures { result ≡ is_bucket w b }
{
    offset(w, b) == 0
}

/// Whether a refresh of an aggregate may be cut over this span.
pub fn span_is_fit(span: Span, view: Option<&ViewDef>) -> bool
    ensures { result ≡ span_fits span (option_copied view.entry) }
{
    match view {
        None => false,
        Some(def) => {
            word_law(span.lo);
            word_law(span.hi);
            let w = def.fold.width;
            if span.lo < first(w) || span.hi <= span.lo {
                return false;
            }
            starts_bucket(w, span.lo) && starts_bucket(w, span.hi)
        }
    }
}
