//! The wider bucket of a row.
ghost use Rattle.std.specs.Prelude.{◌≡◌, ◌-ℤ◌, pos, IfOk, OnOk};
ghost use Rattle.ts_bucket.specs.Bucket.{bucket_of};
ghost use Rattle.hier_agg.specs.Wides.{HoldsItsNumbers};

use ts_bucket::Width;
use ts_schema::NoMemory;

/// A wider bucket: the numbers from its start on and below its end.
#[derive(Clone, Copy)]
pub(crate) struct WideBucket {
    pub(crate) start: i128,
    pub(crate) end: i128,
}

/// A bucket that holds no number.
pub(crate) fn no_bucket() -> WideBucket
    ensures start { result.start ≡ pos 0 }
    ensures end { result.end ≡ pos 0 }
{
    WideBucket { start: 0, end: 0 }
}

/// Moves to the bucket that holds a number, unless it is the present one. A bucket over 128 bits is reported as
/// out of memory.
#[inline(always)]
pub(crate) fn go_to(width: &Width, bucket: &mut WideBucket, t: i128) -> Result<(), NoMemory>
    requires { HoldsItsNumbers width.now bucket.old }
    ensures start { OnOk result (bucket.new.start ≡ bucket_of width.now t) }
    ensures numbers { HoldsItsNumbers width.now bucket.new }
{
    if bucket.start <= t && t < bucket.end {
        return Ok(());
    }
    *bucket = bucket_at(width, t)?;
    Ok(())
}

/// The bucket that holds a number.
#[inline(never)]
fn bucket_at(width: &Width, t: i128) -> Result<WideBucket, NoMemory>
    ensures start { IfOk result (λ bucket. bucket.start ≡ bucket_of width.now t) }
    ensures numbers { IfOk result (λ bucket. HoldsItsNumbers width.now bucket) }
{
    let start = start_of(width, t)?;
    match start.checked_add(i128::from(width.step)) {
        Some(end) => Ok(WideBucket { start, end }),
        None => Err(NoMemory),
    }
}

/// The start of the bucket that holds a number.
fn start_of(width: &Width, t: i128) -> Result<i128, NoMemory>
    ensures { IfOk result (λ b. b ≡ bucket_of width.now t) }
{
    let from_shift = difference(t, i128::from(width.shift))?;
    difference(t, from_shift.rem_euclid(i128::from(width.step)))
}

/// The difference of two numbers, if it fits.
fn difference(a: i128, b: i128) -> Result<i128, NoMemory>
    ensures { IfOk result (λ d. d ≡ a -ℤ b) }
{
    match a.checked_sub(b) {
        Some(d) => Ok(d),
        None => Err(NoMemory),
    }
}
