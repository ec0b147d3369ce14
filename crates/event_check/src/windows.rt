//! The buckets that a refresh covers.
ghost use Rattle.std.specs.Prelude.{◌≡◌, ℕ, ◌+ℤ◌, IsTrue};
ghost use Rattle.std.specs.Option.{ForSome};
ghost use Rattle.ts_num.specs.Aggregates.{greater};
ghost use Rattle.ts_bucket.specs.Bucket.{IsNearTimes, bucket_of, is_time};
ghost use Rattle.ts_bucket.specs.WholeSpans.{IsMark};
ghost use Rattle.ts_bucket.specs.Windows.{inscribed};
ghost use Rattle.ts_model.specs.declared.views.ViewDef.{ViewDef};
ghost use Rattle.ts_model.specs.History.{History};
ghost use Rattle.ts_model.specs.Refreshes.{watermark};
ghost use Rattle.ts_model.specs.Rows.{rows};
ghost use Rattle.ts_model.specs.Windows.{last_end, whole_or, window};
ghost use Rattle.event_check.specs.Windows.{end_of, window_by};

use crate::laws::width_law;
use ts_bucket::{Width, bucket, inscribe};
use ts_model::Window;
use ts_num::greater;

/// The end of the bucket of a time.
#[tactic(auto, using(crate::proofs::Near::near_time))]
fn bucket_end(width: Width, time: i64) -> i64
    requires { IsTrue (is_time time) }
    ensures { result ≡ bucket_of width time +ℤ width.step }
{
    bucket(width, time) + width.step
}

fn end_of(width: Width, latest: Option<i64>) -> Option<i64>
    requires { ForSome latest (λ t. IsTrue (is_time t)) }
    ensures { result ≡ end_of width latest }
{
    match latest {
        Some(time) => Some(bucket_end(width, time)),
        None => None,
    }
}

/// The end of a window without a given end.
fn window_end(width: Width, mark: Option<i64>, latest: Option<i64>) -> Option<i64>
    requires mark { ForSome mark (IsMark width) }
    requires latest { ForSome latest (λ t. IsTrue (is_time t)) }
    ensures end { result ≡ greater mark (end_of width latest) }
    ensures near { ForSome result IsNearTimes }
{
    width_law(width);
    greater(mark, end_of(width, latest))
}

/// The whole buckets of a window, or the outcome of a refresh without one.
fn window_to(width: Width, lo: Option<i64>, hi: i64, other: Window) -> Window
    requires low { ForSome lo (λ t. IsTrue (is_time t)) }
    requires high { IsNearTimes hi }
    ensures { result ≡ whole_or other (inscribed width lo hi) }
{
    match inscribe(width, lo, hi) {
        Some(span) => Window::Whole(span),
        None => other,
    }
}

/// The buckets that a refresh covers with the window from `lo` on and below `hi`. A missing start is that of
/// the first bucket. A missing end is the greater of the aggregate's watermark and the end of the bucket of the
/// table's greatest time. `mark` is that watermark and `latest` that time, if they exist.
pub fn window(
    width: Width,
    mark: Option<i64>,
    latest: Option<i64>,
    lo: Option<i64>,
    hi: Option<i64>,
) -> Window
    requires mark { ForSome mark (IsMark width) }
    requires latest { ForSome latest (λ t. IsTrue (is_time t)) }
    requires low { ForSome lo (λ t. IsTrue (is_time t)) }
    requires high { ForSome hi (λ t. IsTrue (is_time t)) }
    ensures value { result ≡ window_by width mark latest lo hi }
    // it is the window of every history with this watermark and these last rows
    ensures window { (n : ℕ) (def : ViewDef) (h : History) → def.fold.width ≡ width → mark ≡ watermark n def h →
        end_of width latest ≡ last_end width (rows def.table h) → result ≡ window n def h lo hi }
{
    match hi {
        Some(hi) => window_to(width, lo, hi, Window::NoBucket),
        None => match window_end(width, mark, latest) {
            Some(hi) => window_to(width, lo, hi, Window::Nothing),
            None => Window::Nothing,
        },
    }
}
