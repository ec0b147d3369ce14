//! The month of a time, and the start of a month.
ghost use Rattle.std.specs.Prelude.{◌≡◌, IsTrue};
ghost use Rattle.ts_bucket.specs.Bucket.{is_time};
ghost use Rattle.cal_bucket.specs.Calendar.{IsMonthOf, IsNearMonth, start_of};

use crate::cycles::{CYCLE_MONTHS, CYCLE_SECONDS, month_of_second, second_of_month};

/// The start of January 2000.
const YEAR_2000: i64 = 946_684_800;

/// The number of the month that holds the time `t`, in seconds since 1970. January 2000 is month 0.
pub fn month_of(t: i64) -> i64
    requires { IsTrue (is_time t) }
    ensures month { IsMonthOf t result }
{
    let seconds = t - YEAR_2000;
    let cycle = seconds.div_euclid(CYCLE_SECONDS);
    cycle * CYCLE_MONTHS + month_of_second(seconds.rem_euclid(CYCLE_SECONDS))
}

/// The second since 1970 in which a month starts. The month is that of a time, or at most 14,400 months before
/// one.
pub fn month_start(month: i64) -> i64
    requires { IsNearMonth month }
    ensures start { result ≡ start_of month }
{
    let cycle = month.div_euclid(CYCLE_MONTHS);
    let second = second_of_month(month.rem_euclid(CYCLE_MONTHS));
    YEAR_2000 + cycle * CYCLE_SECONDS + second
}
