//! Numbers in bytes, the lowest byte first.
ghost use Rattle.std.specs.Prelude.{◌≡◌, ◌++◌, ◌<◌, ◌≤ℤ◌, length, IfOk, MatchOption, OnOk};
ghost use Rattle.event_codec.specs.Formed.{Within};
ghost use Rattle.event_codec.specs.Growing.{Grows};
ghost use Rattle.event_codec.specs.Spelling.{four, eight, signed_bytes};
ghost use Rattle.event_codec.specs.Reading.{IsNear, Matches, StopsAt, any_eight, between, four_upto, least_above, most_below, number};

use ts_schema::NoMemory;

/// The number in the first four bytes, and the bytes after it.
#[tactic(auto, unfolding(crate::specs::Spelling::four))]
fn four_in_front(bytes: &[u8]) -> Option<(u32, &[u8])>
    ensures { MatchOption result (length bytes.now < 4) (λ x. bytes.now ≡ four x.0 ++ x.1.now) }
{
    match bytes {
        [a, b, c, d, rest @ ..] => Some((u32::from_le_bytes([*a, *b, *c, *d]), rest)),
        _ => None,
    }
}

/// The number in the first eight bytes, and the bytes after it.
#[tactic(auto, unfolding(crate::specs::Spelling::eight))]
fn eight_in_front(bytes: &[u8]) -> Option<(u64, &[u8])>
    ensures { MatchOption result (length bytes.now < 8) (λ x. bytes.now ≡ eight x.0 ++ x.1.now) }
{
    match bytes {
        [a, b, c, d, e, f, g, h, rest @ ..] => Some((
            u64::from_le_bytes([*a, *b, *c, *d, *e, *f, *g, *h]),
            rest,
        )),
        _ => None,
    }
}

/// The signed number in the first eight bytes, and the bytes after it.
#[inline(always)]
#[tactic(auto, unfolding(crate::specs::Spelling::signed_bytes))]
pub(crate) fn signed_in_front(bytes: &[u8]) -> Option<(i64, &[u8])>
    ensures { MatchOption result (length bytes.now < 8) (λ x. bytes.now ≡ signed_bytes x.0 ++ x.1.now) }
{
    match bytes {
        [a, b, c, d, e, f, g, h, rest @ ..] => Some((
            i64::from_le_bytes([*a, *b, *c, *d, *e, *f, *g, *h]),
            rest,
        )),
        _ => None,
    }
}

/// The least number that with this lowest byte is at least `least`.
#[tactic(auto, using(crate::proofs::Shifts::least_shifted, crate::proofs::Shifts::least_near))]
fn least_left(least: i128, low: u8) -> i128
    requires near { IsNear least }
    ensures left { result ≡ least_above least low }
    ensures near { IsNear result }
{
    (least + (255 - low as i128)) >> 8
}

/// The greatest number that with this lowest byte is at most `most`.
#[tactic(auto, using(crate::proofs::Shifts::most_shifted, crate::proofs::Shifts::most_near))]
fn most_left(most: i128, low: u8) -> i128
    requires near { IsNear most }
    ensures left { result ≡ most_below most low }
    ensures near { IsNear result }
{
    (most - low as i128) >> 8
}

/// The bytes after the longest prefix that begins some number from `least` to `most`, if the bytes in front
/// aren't `count` bytes of such a number.
fn after_begun(bytes: &[u8], count: usize, least: i128, most: i128) -> &[u8]
    requires least { IsNear least }
    requires most { IsNear most }
    ensures { StopsAt (number count least most bytes.now) result.now }
{
    let [low, rest @ ..] = bytes else {
        return bytes;
    };
    if count == 0 {
        return bytes;
    }
    let least = least_left(least, *low);
    let most = most_left(most, *low);
    if least > most {
        return bytes;
    }
    after_begun(rest, count - 1, least, most)
}

/// The bytes left if those in front aren't a number of four bytes, at most `most`.
fn after_four(bytes: &[u8], most: u32) -> &[u8]
    ensures { StopsAt (four_upto most bytes.now) result.now }
{
    after_begun(bytes, 4, 0, most as i128)
}

/// The bytes left if those in front aren't a number of eight bytes.
fn after_eight(bytes: &[u8]) -> &[u8]
    ensures { StopsAt (any_eight bytes.now) result.now }
{
    after_begun(bytes, 8, 0, u64::MAX as i128)
}

/// The bytes left if those in front aren't a signed number from `least` to `most`.
fn after_between(bytes: &[u8], least: i64, most: i64) -> &[u8]
    ensures { StopsAt (between least most bytes.now) result.now }
{
    after_begun(bytes, 8, least as i128, most as i128)
}

/// Returns a number of four bytes, at most `most`, and the bytes after it; or the bytes after the longest
/// prefix that begins one.
#[tactic(auto, using(crate::proofs::Fronts::four_is_read, crate::proofs::Fronts::four_above, crate::proofs::Fronts::four_short))]
pub fn read_four(bytes: &[u8], most: u32) -> Result<(u32, &[u8]), &[u8]>
    ensures { Matches (λ x. (x.0, x.1.now)) (λ left. left.now) result (four_upto most bytes.now) }
{
    let Some((number, rest)) = four_in_front(bytes) else {
        return Err(after_four(bytes, most));
    };
    if number > most {
        return Err(after_four(bytes, most));
    }
    Ok((number, rest))
}

/// Returns a number of eight bytes, and the bytes after it; or the bytes after the longest prefix that begins
/// one.
#[tactic(auto, using(crate::proofs::Fronts::eight_is_read, crate::proofs::Fronts::eight_short))]
pub fn read_eight(bytes: &[u8]) -> Result<(u64, &[u8]), &[u8]>
    ensures { Matches (λ x. (x.0, x.1.now)) (λ left. left.now) result (any_eight bytes.now) }
{
    let Some((number, rest)) = eight_in_front(bytes) else {
        return Err(after_eight(bytes));
    };
    Ok((number, rest))
}

/// Returns a signed number from `least` to `most`, and the bytes after it; or the bytes after the longest
/// prefix that begins one.
pub fn read_between(bytes: &[u8], least: i64, most: i64) -> Result<(i64, &[u8]), &[u8]>
    requires { least ≤ℤ most }
    ensures read { Matches (λ x. (x.0, x.1.now)) (λ left. left.now) result (between least most bytes.now) }
    ensures within { IfOk result (λ x. Within least most x.0) }
{
    let Some((number, rest)) = signed_in_front(bytes) else {
        return Err(after_between(bytes, least, most));
    };
    if number < least || number > most {
        return Err(after_between(bytes, least, most));
    }
    Ok((number, rest))
}

/// Appends a number in four bytes.
#[tactic(auto, using(crate::proofs::GrowthLaws::grows_by, crate::proofs::GrowthLaws::grows_not, crate::proofs::GrowthLaws::grows_on), unfolding(crate::specs::Spelling::four))]
pub fn put_four(out: &mut Vec<u8>, number: u32) -> Result<(), NoMemory>
    ensures put { OnOk result (out.new.items ≡ out.old.items ++ four number) }
    ensures grows { Grows out.old.items out.new.items }
{
    out.extend_from_slice(&number.to_le_bytes())?;
    Ok(())
}

/// Appends a number in eight bytes.
#[tactic(auto, using(crate::proofs::GrowthLaws::grows_by, crate::proofs::GrowthLaws::grows_not, crate::proofs::GrowthLaws::grows_on), unfolding(crate::specs::Spelling::eight))]
pub fn put_eight(out: &mut Vec<u8>, number: u64) -> Result<(), NoMemory>
    ensures put { OnOk result (out.new.items ≡ out.old.items ++ eight number) }
    ensures grows { Grows out.old.items out.new.items }
{
    out.extend_from_slice(&number.to_le_bytes())?;
    Ok(())
}

/// Appends a signed number in eight bytes.
#[tactic(auto, using(crate::proofs::GrowthLaws::grows_by, crate::proofs::GrowthLaws::grows_not, crate::proofs::GrowthLaws::grows_on), unfolding(crate::specs::Spelling::signed_bytes))]
pub fn put_signed(out: &mut Vec<u8>, number: i64) -> Result<(), NoMemory>
    ensures put { OnOk result (out.new.items ≡ out.old.items ++ signed_bytes number) }
    ensures grows { Grows out.old.items out.new.items }
{
    out.extend_from_slice(&number.to_le_bytes())?;
    Ok(())
}
