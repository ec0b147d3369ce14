//! Texts before and after a byte, and the numbers that they begin with.
ghost use Rattle.std.specs.Prelude.{◌≡◌, true, ◌==◌};
ghost use Rattle.std.specs.Char.{is_ascii_digit};
ghost use Rattle.std.specs.List.{position};
ghost use Rattle.audit_looks.specs.Lines.{ahead, behind, number_in, with_digit};

/// The index of the first such byte.
fn place_of(byte: u8, text: &[u8]) -> Option<usize>
    ensures { result ≡ position (λ b. b == byte) text.now }
{
    text.iter().position(|b| *b == byte)
}

/// The text before the first such byte, or all of it if there is none.
pub fn ahead(byte: u8, text: &[u8]) -> &[u8]
    ensures { result.now ≡ ahead byte text.now }
{
    match place_of(byte, text) {
        Some(at) => &text[..at],
        None => text,
    }
}

/// The text after the first such byte, or nothing if there is none.
pub fn behind(byte: u8, text: &[u8]) -> &[u8]
    ensures { result.now ≡ behind byte text.now }
{
    match place_of(byte, text) {
        Some(at) => &text[at + 1..],
        None => &[],
    }
}

/// A number with one more digit after it, at most the greatest number of 64 bits.
fn with_digit(number: u64, digit: u8) -> u64
    requires { is_ascii_digit digit ≡ true }
    ensures { result ≡ with_digit number digit }
{
    number
        .saturating_mul(10)
        .saturating_add(u64::from(digit - b'0'))
}

/// The number that a text begins with.
pub fn number_in(text: &[u8]) -> u64
    ensures { result ≡ number_in text.now }
{
    let mut number = 0;
    let mut left = text;
    while let [digit, rest @ ..] = left {
        if !digit.is_ascii_digit() {
            return number;
        }
        number = with_digit(number, *digit);
        left = rest;
    }
    number
}
