//! The wider buckets that hold a stale one.
ghost use Rattle.std.specs.Prelude.{◌≡◌, ◌+ℤ◌, ◌-ℤ◌, ◌<ℤ◌, ◌≤ℤ◌, pos, IfOk, OnOk};
ghost use Rattle.std.specs.List.{AllByRecursion};
ghost use Rattle.ts_bucket.specs.Bucket.{bucket_of};
ghost use Rattle.hier_agg.specs.Stale.{AreApart, AreUpperRanges, upper_stale, widened_range, with_range};

use std::alloc::Global;
use std::collections::VecDeque;
use ts_bucket::{Span, Width};
use ts_schema::{NoMemory, Seq};

/// The maximal ranges of the wider buckets that hold a stale one. A range over 64 bits is reported as out of
/// memory.
pub(crate) fn widen(alloc: Global, width: &Width, stale: &Seq<Span>) -> Result<Seq<Span>, NoMemory>
    requires { AreApart stale.now }
    ensures ranges { IfOk result (λ found. found ≡ upper_stale width.now stale.now) }
    ensures stale { IfOk result (λ found. AreUpperRanges width.now stale.now found) }
{
    // Reading a width tells the prover that it keeps its bounds.
    let _step = width.step;
    let mut found = VecDeque::new(alloc);
    let mut left = stale.len();
    while left > 0 {
        left -= 1;
        put_first(&mut found, widen_range(width, stale.get(left))?)?;
    }
    Ok(Seq::of(Vec::from(found)))
}

/// Inserts a range before the others, and merges it with the first of them if it reaches that.
fn put_first(found: &mut VecDeque<Span>, range: Span) -> Result<(), NoMemory>
    ensures { OnOk result (found.new.items ≡ with_range range found.old.items) }
{
    match found.pop_front() {
        None => found.push_front(range)?,
        Some(next) => if range.hi < next.lo {
            found.push_front(next)?;
            found.push_front(range)?;
        } else {
            found.push_front(Span {
                lo: range.lo,
                hi: range.hi.max(next.hi),
            })?;
        },
    }
    Ok(())
}

/// The whole wider buckets that overlap a range.
fn widen_range(width: &Width, range: &Span) -> Result<Span, NoMemory>
    requires { range.now.lo <ℤ range.now.hi }
    ensures { IfOk result (λ wide. wide ≡ widened_range width.now range.now) }
{
    // Reading a width tells the prover that it keeps its bounds.
    let _step = width.step;
    let lo = start_of(width, range.lo)?;
    let hi = end_of(width, range.hi)?;
    Ok(span(lo, hi))
}

/// The end of the bucket that holds the number before `t`.
fn end_of(width: &Width, t: i64) -> Result<i64, NoMemory>
    ensures { IfOk result (λ e. e ≡ bucket_of width.now (t -ℤ pos 1) +ℤ width.now.step) }
{
    let Some(last) = t.checked_sub(1) else {
        return Err(NoMemory);
    };
    let start = start_of(width, last)?;
    match start.checked_add(width.step) {
        Some(end) => Ok(end),
        None => Err(NoMemory),
    }
}

/// The numbers from `lo` on and below `hi`.
fn span(lo: i64, hi: i64) -> Span
    requires { lo ≤ℤ hi }
    ensures { result ≡ record { lo = lo; hi = hi } }
{
    Span { lo, hi }
}

/// The start of the bucket that holds a number.
fn start_of(width: &Width, t: i64) -> Result<i64, NoMemory>
    ensures { IfOk result (λ b. b ≡ bucket_of width.now t) }
{
    let Some(from_shift) = t.checked_sub(width.shift) else {
        return Err(NoMemory);
    };
    match t.checked_sub(from_shift.rem_euclid(width.step)) {
        Some(start) => Ok(start),
        None => Err(NoMemory),
    }
}
