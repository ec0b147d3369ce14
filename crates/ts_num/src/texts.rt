//! The decimal text of numbers and of values.
ghost use Rattle.std.specs.Prelude.{◌≡◌, ◌∷◌, ◌++◌, decimal, OnOk, OnErr};
ghost use Rattle.std.specs.Fmt.{signed_decimal};
ghost use Rattle.ts_num.specs.Texts.{datum_text, ratio_text};

use crate::digits::{MOST_DIGITS, put_digits};
use crate::fractions::Frac;
use crate::values::Datum;
use itoa::Buffer;
use ts_schema::NoMemory;

/// The greatest number of 64 bits.
const MOST_WORD: u128 = u64::MAX as u128;

/// Appends the decimal text of a number, with `-` before a negative one. If memory runs out, `out` is as
/// before.
#[inline]
#[tactic(auto, using(crate::proofs::DigitLaws::signs))]
pub fn put_int(n: i128, out: &mut Vec<u8>) -> Result<(), NoMemory>
    ensures appended { OnOk result (out.new.items ≡ out.old.items ++ signed_decimal n) }
    ensures kept { OnErr result (out.new.items ≡ out.old.items) }
{
    if n >= 0 {
        return put_natural(n.unsigned_abs(), out);
    }
    put_negative(n.unsigned_abs(), out)
}

/// Appends the decimal text of a number without a sign.
#[inline(always)]
fn put_natural(n: u128, out: &mut Vec<u8>) -> Result<(), NoMemory>
    ensures appended { OnOk result (out.new.items ≡ out.old.items ++ decimal n) }
    ensures kept { OnErr result (out.new.items ≡ out.old.items) }
{
    if n > MOST_WORD {
        return put_wide(b"", n, out);
    }
    out.reserve(MOST_DIGITS)?;
    put_digits(n as u64, out);
    Ok(())
}

/// Appends `-` and the decimal text of a number.
#[inline(never)]
fn put_negative(size: u128, out: &mut Vec<u8>) -> Result<(), NoMemory>
    ensures appended { OnOk result (out.new.items ≡ out.old.items ++ 45 ∷ decimal size) }
    ensures kept { OnErr result (out.new.items ≡ out.old.items) }
{
    if size > MOST_WORD {
        return put_wide(b"-", size, out);
    }
    out.reserve(1 + MOST_DIGITS)?;
    out.push_reserved(b'-');
    put_digits(size as u64, out);
    Ok(())
}

/// Appends a sign, if there is one, and the decimal text of a number of any size.
#[inline(never)]
fn put_wide(sign: &[u8], size: u128, out: &mut Vec<u8>) -> Result<(), NoMemory>
    ensures appended { OnOk result (out.new.items ≡ out.old.items ++ sign.now ++ decimal size) }
    ensures kept { OnErr result (out.new.items ≡ out.old.items) }
{
    let mut buffer = Buffer::new();
    let digits = buffer.format(size);
    out.reserve(sign.len() + digits.len())?;
    out.extend_from_slice(sign)?;
    out.extend_from_slice(digits.as_bytes())?;
    Ok(())
}

/// Appends the text of a value: `null`, a number, or a ratio as `n/d`. If memory runs out, `out` is as before.
pub fn put_datum(d: &Datum, out: &mut Vec<u8>) -> Result<(), NoMemory>
    ensures appended { OnOk result (out.new.items ≡ out.old.items ++ datum_text d.now) }
    ensures kept { OnErr result (out.new.items ≡ out.old.items) }
{
    match d {
        Datum::Null => put_null(out),
        Datum::Int(n) => put_int(*n, out),
        Datum::Ratio(ratio) => put_ratio(*ratio, out),
    }
}

fn put_null(out: &mut Vec<u8>) -> Result<(), NoMemory>
    ensures appended { OnOk result (out.new.items ≡ out.old.items ++ datum_text (Datum.Null)) }
    ensures kept { OnErr result (out.new.items ≡ out.old.items) }
{
    out.extend_from_slice(b"null")?;
    Ok(())
}

/// Appends a whole ratio or nothing, since it makes room for all of it first.
#[inline(never)]
fn put_ratio(ratio: Frac, out: &mut Vec<u8>) -> Result<(), NoMemory>
    ensures appended { OnOk result (out.new.items ≡ out.old.items ++ ratio_text ratio) }
    ensures kept { OnErr result (out.new.items ≡ out.old.items) }
{
    let mut num_buffer = Buffer::new();
    let mut den_buffer = Buffer::new();
    let num = num_buffer.format(ratio.num);
    let den = den_buffer.format(ratio.den);
    out.reserve(num.len() + 1 + den.len())?;
    out.extend_from_slice(num.as_bytes())?;
    out.extend_from_slice(b"/")?;
    out.extend_from_slice(den.as_bytes())?;
    Ok(())
}
