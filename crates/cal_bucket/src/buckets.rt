//! The bucket of a time, by its place: the number of buckets from bucket 0 to it.
ghost use Rattle.std.specs.Prelude.{◌≡◌, IsTrue, ◌≤◌, ℤ, pos, ◌+ℤ◌, ◌≤ℤ◌, ◌<ℤ◌};
ghost use Rattle.ts_bucket.specs.Bucket.{is_time};
ghost use Rattle.cal_bucket.specs.Named.{NamesItsTimes};
ghost use Rattle.cal_bucket.specs.Places.{name_of, place_at};
ghost use Rattle.cal_bucket.specs.Buckets.{Holds, HoldsATime, IsCalendarBucket, IsNumber, seconds_start, months_start, start_at};

use crate::months::{month_of, month_start};
use crate::plans::CalUnit;
use ts_bucket::MAX_TIME;

/// The start of Monday 2000-01-03, from which days and weeks count.
const MONDAY: i64 = 946_857_600;

/// A bucket by the times that it holds: those from its start on and below its end, up to the greatest time.
#[derive(Clone, Copy)]
pub(crate) struct Bucket {
    pub(crate) start: i64,
    pub(crate) end: i64,
}

/// The start of the bucket of `number` units, from 1 to 1,200, that holds the time `t`, both in seconds since
/// 1970 (UTC). Days and weeks count from Monday 2000-01-03, months and years from January 2000. These are the
/// default origins of `time_bucket` in the API reference of TimescaleDB.
pub fn calendar_bucket(unit: CalUnit, number: u32, t: i64) -> i64
    requires number { IsNumber number }
    requires time { IsTrue (is_time t) }
    ensures bucket { IsCalendarBucket unit number t result }
{
    place_start(unit, number, place_of(unit, number, t))
}

/// A bucket that holds no time.
pub(crate) fn no_bucket() -> Bucket
    ensures start { result.start ≡ pos 0 }
    ensures end { result.end ≡ pos 0 }
{
    Bucket { start: 0, end: 0 }
}

/// The bucket that holds the time `t`: the given one, or another.
#[inline(always)]
pub(crate) fn bucket_with(unit: CalUnit, number: u32, at_hand: Bucket, t: i64) -> Bucket
    requires number { IsNumber number }
    requires time { IsTrue (is_time t) }
    requires names { NamesItsTimes unit number at_hand }
    ensures start { result.start ≡ name_of unit number t }
    ensures names { NamesItsTimes unit number result }
{
    if at_hand.start <= t && t < at_hand.end {
        return at_hand;
    }
    bucket_of(unit, number, t)
}

/// The bucket that holds the time `t`.
fn bucket_of(unit: CalUnit, number: u32, t: i64) -> Bucket
    requires number { IsNumber number }
    requires time { IsTrue (is_time t) }
    ensures start { result.start ≡ name_of unit number t }
    ensures names { NamesItsTimes unit number result }
{
    let place = place_of(unit, number, t);
    Bucket {
        start: place_start(unit, number, place),
        end: place_end(unit, number, place),
    }
}

/// The end of a bucket that holds a time, or a number above all times that is at or below that end.
fn place_end(unit: CalUnit, number: u32, place: i64) -> i64
    requires number { IsNumber number }
    requires time { HoldsATime (start_at unit number) place }
    ensures end { (t : ℤ) → IsTrue (is_time t) → t <ℤ result → t <ℤ start_at unit number (place +ℤ pos 1) }
{
    if place < place_of(unit, number, MAX_TIME) {
        place_start(unit, number, place + 1)
    } else {
        MAX_TIME + 1
    }
}

/// The place of the bucket that holds the time `t`.
pub(crate) fn place_of(unit: CalUnit, number: u32, t: i64) -> i64
    requires number { IsNumber number }
    requires time { IsTrue (is_time t) }
    ensures held { Holds (start_at unit number) t result }
    ensures place { result ≡ place_at unit number t }
    ensures in_range { IsTrue (is_time result) }
{
    place_by_unit(unit, number, t)
}

fn place_by_unit(unit: CalUnit, number: u32, t: i64) -> i64
    requires number { IsNumber number }
    requires time { IsTrue (is_time t) }
    ensures held { Holds (start_at unit number) t result }
{
    match unit {
        CalUnit::Day => seconds_place(number * 86_400, t),
        CalUnit::Week => seconds_place(number * 604_800, t),
        CalUnit::Month => months_place(number, t),
        CalUnit::Year => months_place(number * 12, t),
    }
}

/// The start of a bucket that holds a time.
pub(crate) fn place_start(unit: CalUnit, number: u32, place: i64) -> i64
    requires number { IsNumber number }
    requires time { HoldsATime (start_at unit number) place }
    ensures start { result ≡ start_at unit number place }
{
    match unit {
        CalUnit::Day => seconds_place_start(number * 86_400, place),
        CalUnit::Week => seconds_place_start(number * 604_800, place),
        CalUnit::Month => months_place_start(number, place),
        CalUnit::Year => months_place_start(number * 12, place),
    }
}

fn seconds_place(seconds: u32, t: i64) -> i64
    requires some { 1 ≤ seconds }
    requires time { IsTrue (is_time t) }
    ensures held { Holds (seconds_start seconds) t result }
{
    (t - MONDAY).div_euclid(i64::from(seconds))
}

fn seconds_place_start(seconds: u32, place: i64) -> i64
    requires some { 1 ≤ seconds }
    requires time { HoldsATime (seconds_start seconds) place }
    ensures start { result ≡ seconds_start seconds place }
{
    MONDAY + place * i64::from(seconds)
}

fn months_place(months: u32, t: i64) -> i64
    requires some { 1 ≤ months }
    requires time { IsTrue (is_time t) }
    ensures held { Holds (months_start months) t result }
{
    month_of(t).div_euclid(i64::from(months))
}

fn months_place_start(months: u32, place: i64) -> i64
    requires some { 1 ≤ months }
    requires few { months ≤ 14_400 }
    requires time { HoldsATime (months_start months) place }
    ensures start { result ≡ months_start months place }
{
    month_start(place * i64::from(months))
}
