//! Fractions, and the one in lowest terms of a sum over a count.
ghost use Rattle.std.specs.Prelude.{◌≡◌, ℕ, ◌<◌};
ghost use Rattle.std.specs.Int.{IsGcd};
ghost use Rattle.ts_num.specs.Fractions.{IsLowest, lowest_terms, LowestTermsLaw};

/// A fraction: a numerator with its sign, over a denominator.
#[derive(Clone, Copy, Debug, PartialEq, Eq)]
pub struct Frac {
    pub num: i128,
    pub den: u64,
}

/// The fraction in lowest terms that equals `sum / count`: its denominator is positive, and its
/// two parts have no common divisor but 1.
pub fn lowest(sum: i128, count: u64) -> Frac
    requires { 0 < count }
    ensures lowest { IsLowest sum count result }
    ensures exact { result ≡ lowest_terms sum count }
{
    let common = common_divisor(sum.unsigned_abs(), count);
    Frac {
        num: sum / i128::from(common),
        den: count / common,
    }
}

/// The greatest common divisor, by Euclid's algorithm. The first step is separate, since after it both numbers
/// have 64 bits.
fn common_divisor(a: u128, b: u64) -> u64
    requires { 0 < b }
    ensures { IsGcd a b result }
{
    common_divisor_of_words(b, (a % u128::from(b)) as u64)
}

fn common_divisor_of_words(a: u64, b: u64) -> u64
    ensures { IsGcd a b result }
{
    let mut greater = a;
    let mut less = b;
    while less > 0 {
        let rest = greater % less;
        greater = less;
        less = rest;
    }
    greater
}

/// States that `lowest_terms` of a number over a positive count is the one fraction in lowest terms that equals
/// their quotient. Does nothing.
pub fn lowest_terms_law()
    ensures { LowestTermsLaw }
{}
