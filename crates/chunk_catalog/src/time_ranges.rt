//! Ranges of starts of chunks, and of times.
ghost use Rattle.std.specs.Prelude.{◌≡◌, ◌≤ℤ◌, ◌<ℤ◌, ◌+ℤ◌, ◌-ℤ◌, List, ℤ, pos, true, false, int_le, FitsSigned};
ghost use Rattle.std.specs.Int.{w64};
ghost use Rattle.ts_schema.specs.Conditions.{compares};
ghost use Rattle.ts_schema.specs.declared.conditions.Test.{Test};
ghost use Rattle.seg_rows.specs.Versions.{later_time};
ghost use Rattle.chunk_catalog.specs.Chunks.{chunk_meets};
ghost use Rattle.ts_bucket.specs.Chunks.{IsInterval};
ghost use Rattle.chunk_catalog.specs.Reach.{in_reach, HoldsPassing, Narrows};
ghost use Rattle.chunk_catalog.specs.Places.{NonePassesOutside};

use ts_bucket::{Hull, Span};
use ts_schema::{Cmp, Test};

/// The numbers from `first` to `last`, both included. There are none if `first` is above `last`.
#[derive(Clone, Copy, Debug)]
pub struct TimeRange {
    pub first: i64,
    pub last: i64,
}

impl TimeRange {
    ghost use Rattle.std.specs.Prelude.{◌≡◌, ℤ, true, false};
    ghost use Rattle.ts_bucket.specs.Spans.{in_hull};
    ghost use Rattle.chunk_catalog.specs.Reach.{in_reach};

    /// Whether a number lies in the range.
    pub fn holds(&self, t: i64) -> bool
        ensures holds { result ≡ in_reach self.now t }
    {
        self.first <= t && t <= self.last
    }

    /// Whether the range and a hull may have a number in common.
    pub fn meets(&self, hull: Hull) -> bool
        ensures apart { result ≡ false → (t : ℤ) → in_hull hull t ≡ true → in_reach self.now t ≡ false }
    {
        self.first <= hull.most && hull.least <= self.last
    }
}

/// A number minus another one, or the least number of the type.
fn lower_by(t: i64, by: i64) -> i64
    requires { pos 0 ≤ℤ by }
    ensures floor { (s : ℤ) → i64.MIN ≤ℤ s → int_le result s ≡ int_le (t -ℤ by) s }
{
    if t < i64::MIN + by { i64::MIN } else { t - by }
}

/// The starts of the chunks that meet a span.
pub fn span_reach(interval: i64, span: Span) -> TimeRange
    requires { IsInterval interval }
    ensures met { (s : ℤ) → i64.MIN ≤ℤ s → in_reach result s ≡ chunk_meets interval span s }
{
    if span.lo >= span.hi {
        return TimeRange { first: 1, last: 0 };
    }
    TimeRange {
        first: lower_by(span.lo, interval - 1),
        last: span.hi - 1,
    }
}

/// The starts of the chunks that end at or before `n`.
pub fn drop_reach(interval: i64, n: i64) -> TimeRange
    requires { IsInterval interval }
    ensures ended { (s : ℤ) → i64.MIN ≤ℤ s → in_reach result s ≡ int_le (s +ℤ interval) n }
{
    if n < i64::MIN + interval {
        return TimeRange { first: 1, last: 0 };
    }
    TimeRange {
        first: i64::MIN,
        last: n - interval,
    }
}

/// The starts of the chunks that may hold a row that passes tests, if its time lies in a range.
pub fn start_reach(interval: i64, times: TimeRange) -> TimeRange
    requires { IsInterval interval }
    ensures missed { (tests : List Test) → HoldsPassing tests times → NonePassesOutside interval tests result }
{
    TimeRange {
        first: lower_by(times.first, interval - 1),
        last: times.last,
    }
}

/// A range that holds the times of all rows that pass every test.
pub fn test_times(tests: &[Test]) -> TimeRange
    ensures every { HoldsPassing tests.now result }
{
    let mut times = TimeRange {
        first: i64::MIN,
        last: i64::MAX,
    };
    let mut left = tests;
    while let [test, rest @ ..] = left {
        times = narrow(times, test);
        left = rest;
    }
    times
}

/// The part of a range of times in which a row may pass a test.
fn narrow(times: TimeRange, test: &Test) -> TimeRange
    ensures every { Narrows times test.now result }
{
    if test.col == 0 {
        both(times, times_of(test.cmp, test.num))
    } else {
        times
    }
}

/// The common part of two ranges.
fn both(a: TimeRange, b: TimeRange) -> TimeRange
    ensures both { (t : ℤ) → in_reach a t ≡ true → in_reach b t ≡ true → in_reach result t ≡ true }
{
    TimeRange {
        first: a.first.max(b.first),
        last: a.last.min(b.last),
    }
}

/// The times of which a comparison with a number is true.
fn times_of(cmp: Cmp, num: i64) -> TimeRange
    ensures every { (t : ℤ) → FitsSigned w64 t → compares cmp (Some t) num ≡ true → in_reach result t ≡ true }
{
    let (first, last) = match cmp {
        Cmp::Eq => (num, num),
        Cmp::Ne | Cmp::NotNull => (i64::MIN, i64::MAX),
        Cmp::Lt => (i64::MIN, num.saturating_sub(1)),
        Cmp::Le => (i64::MIN, num),
        Cmp::Gt => (num.saturating_add(1), i64::MAX),
        Cmp::Ge => (num, i64::MAX),
        Cmp::IsNull => (1, 0),
    };
    TimeRange { first, last }
}

/// Whether a chunk with this start, or an earlier one, holds no time above the best so far.
pub fn is_past(interval: i64, start: i64, best: Option<i64>) -> bool
    requires { IsInterval interval }
    ensures past { result ≡ true → (t : ℤ) → t <ℤ (start +ℤ interval) → later_time best (Some t) ≡ best }
{
    match best {
        None => false,
        Some(time) => ends_by(interval, start, time),
    }
}

/// Whether the last time of the chunk with this start is at or before a time.
fn ends_by(interval: i64, start: i64, time: i64) -> bool
    requires { IsInterval interval }
    ensures { result ≡ true → (start +ℤ interval) ≤ℤ (time +ℤ pos 1) }
{
    start <= i64::MAX - interval && start + interval - 1 <= time
}
