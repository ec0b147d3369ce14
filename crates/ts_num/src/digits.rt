//! Appends the decimal digits of a number to a vector with enough room.
ghost use Rattle.std.specs.Prelude.{◌≡◌, ◌+◌, ◌<◌, ◌≤◌, [], ◌∷◌, ◌++◌, decimal, vec_capacity, vec_len};
ghost use Rattle.ts_num.specs.Digits.{eight_digits, four_digits, two_digits};

/// The two digits of each number below 100, one number after another.
static PAIRS: [u8; 200] =
    *b"00010203040506070809101112131415161718192021222324252627282930313233343536373839404142434445464748495051525354555657585960616263646566676869707172737475767778798081828384858687888990919293949596979899";

/// The greatest number of decimal digits of a 64-bit number.
pub(crate) const MOST_DIGITS: usize = 20;

/// The least number of nine digits.
const NINE_DIGITS: u64 = 100_000_000;

/// The least number of five digits.
const FIVE_DIGITS: u32 = 10_000;

/// Appends the digits of a number.
#[inline(always)]
pub(crate) fn put_digits(n: u64, out: &mut Vec<u8>)
    requires room { vec_len out.old + 20 ≤ vec_capacity out.old }
    ensures appended { out.new.items ≡ out.old.items ++ decimal n }
{
    if n < NINE_DIGITS {
        return put_half(n as u32, out);
    }
    put_long(n, out);
}

/// Appends the digits of a number that has more than eight.
#[inline(never)]
fn put_long(n: u64, out: &mut Vec<u8>)
    requires long { 100000000 ≤ n }
    requires room { vec_len out.old + 20 ≤ vec_capacity out.old }
    ensures appended { out.new.items ≡ out.old.items ++ decimal n }
{
    let high = n / NINE_DIGITS;
    let low = (n % NINE_DIGITS) as u32;
    if high < NINE_DIGITS {
        put_half(high as u32, out);
        return put_eight(low, out);
    }
    put_first((high / NINE_DIGITS) as u32, out);
    put_eight((high % NINE_DIGITS) as u32, out);
    put_eight(low, out);
}

/// Appends the digits of a number that has at most eight.
#[inline(always)]
fn put_half(n: u32, out: &mut Vec<u8>)
    requires small { n < 100000000 }
    requires room { vec_len out.old + 8 ≤ vec_capacity out.old }
    ensures appended { out.new.items ≡ out.old.items ++ decimal n }
    ensures len { vec_len out.new ≤ vec_len out.old + 8 }
    ensures capacity { vec_capacity out.new ≡ vec_capacity out.old }
{
    if n < FIVE_DIGITS {
        return put_first(n, out);
    }
    put_first(n / FIVE_DIGITS, out);
    put_four(n % FIVE_DIGITS, out);
}

/// Appends the digits of a number that has at most four.
#[inline(always)]
#[tactic(auto, using(crate::proofs::DigitLaws::short_decimals))]
fn put_first(n: u32, out: &mut Vec<u8>)
    requires small { n < 10000 }
    requires room { vec_len out.old + 4 ≤ vec_capacity out.old }
    ensures appended { out.new.items ≡ out.old.items ++ decimal n }
    ensures len { vec_len out.new ≤ vec_len out.old + 4 }
    ensures capacity { vec_capacity out.new ≡ vec_capacity out.old }
{
    if n < 10 {
        return put_one(n, out);
    }
    if n < 100 {
        return put_two(n, out);
    }
    if n < 1_000 {
        put_one(n / 100, out);
        return put_two(n % 100, out);
    }
    put_four(n, out);
}

/// Appends the eight digits of a number, with zeros in front.
fn put_eight(n: u32, out: &mut Vec<u8>)
    requires small { n < 100000000 }
    requires room { vec_len out.old + 8 ≤ vec_capacity out.old }
    ensures appended { out.new.items ≡ out.old.items ++ eight_digits n }
    ensures len { vec_len out.new ≡ vec_len out.old + 8 }
    ensures capacity { vec_capacity out.new ≡ vec_capacity out.old }
{
    put_four(n / FIVE_DIGITS, out);
    put_four(n % FIVE_DIGITS, out);
}

/// Appends the four digits of a number, with zeros in front.
#[inline(always)]
fn put_four(n: u32, out: &mut Vec<u8>)
    requires small { n < 10000 }
    requires room { vec_len out.old + 4 ≤ vec_capacity out.old }
    ensures appended { out.new.items ≡ out.old.items ++ four_digits n }
    ensures len { vec_len out.new ≡ vec_len out.old + 4 }
    ensures capacity { vec_capacity out.new ≡ vec_capacity out.old }
{
    put_two(n / 100, out);
    put_two(n % 100, out);
}

/// Appends the two digits of a number, with a zero in front.
#[inline(always)]
fn put_two(n: u32, out: &mut Vec<u8>)
    requires small { n < 100 }
    requires room { vec_len out.old + 2 ≤ vec_capacity out.old }
    ensures appended { out.new.items ≡ out.old.items ++ two_digits n }
    ensures len { vec_len out.new ≡ vec_len out.old + 2 }
    ensures capacity { vec_capacity out.new ≡ vec_capacity out.old }
{
    let from = n as usize * 2;
    out.push_reserved(PAIRS[from]);
    out.push_reserved(PAIRS[from + 1]);
}

/// Appends a digit.
#[inline(always)]
fn put_one(n: u32, out: &mut Vec<u8>)
    requires small { n < 10 }
    requires room { vec_len out.old + 1 ≤ vec_capacity out.old }
    ensures appended { out.new.items ≡ out.old.items ++ (48 + n) ∷ [] }
    ensures len { vec_len out.new ≡ vec_len out.old + 1 }
    ensures capacity { vec_capacity out.new ≡ vec_capacity out.old }
{
    out.push_reserved(b'0' + n as u8);
}
