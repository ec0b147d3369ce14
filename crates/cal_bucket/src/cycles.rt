//! The years 2000 to 2399, for which `jiff` has the dates. All other spans of 400 years are alike.
ghost use Rattle.std.specs.Prelude.{◌≡◌, pos, ◌+ℤ◌, ◌<ℤ◌, ◌≤ℤ◌};
ghost use Rattle.cal_bucket.specs.Calendar.{IsMonthOf, start_of};
ghost use Rattle.cal_bucket.specs.Cycles.{IsInCycle};

use jiff::SignedDuration;
use jiff::civil::date;

/// The months of 400 years.
pub(crate) const CYCLE_MONTHS: i64 = 4_800;

/// The seconds of 400 years.
pub(crate) const CYCLE_SECONDS: i64 = 12_622_780_800;

/// The month that holds a second of these years. The first second is 0.
pub(crate) fn month_of_second(second: i64) -> i64
    requires low { pos 0 ≤ℤ second }
    requires high { second <ℤ pos 12622780800 }
    ensures within { IsInCycle result }
    ensures month { IsMonthOf (pos 946684800 +ℤ second) result }
{
    let day = date(2_000, 1, 1).saturating_add(SignedDuration::from_secs(second));
    (i64::from(day.year()) - 2_000) * 12 + (i64::from(day.month()) - 1)
}

/// The second of these years in which a month starts.
pub(crate) fn second_of_month(month: i64) -> i64
    requires { IsInCycle month }
    ensures start { start_of month ≡ pos 946684800 +ℤ result }
    ensures low { pos 0 ≤ℤ result }
    ensures high { result <ℤ pos 12622780800 }
{
    let first = date((2_000 + month / 12) as i16, (month % 12 + 1) as i8, 1);
    first.duration_since(date(2_000, 1, 1)).as_secs()
}
