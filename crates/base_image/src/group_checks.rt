//! Checks saved columns and saved groups.
ghost use Rattle.std.specs.Prelude.{◌≡◌, true};
ghost use Rattle.std.specs.List.{list_all};
ghost use Rattle.ts_bucket.specs.WholeSpans.{is_below};
ghost use Rattle.ts_model.specs.Valid.{group_fits, groups_fit, is_told, sums_fit};
ghost use Rattle.base_image.specs.Rising.{are_rising};

use crate::orders::groups_rise;
use crate::ranges::starts_bucket;
use crate::searches::is_inside;
use ts_bucket::Span;
use ts_model::{SavedGroup, Sums, ViewDef};

/// A group has fewer rows than this.
const ROWS_LIMIT: u64 = 4_611_686_018_427_387_904;

/// The greatest number of 64 bits, and one more than that.
const GREATEST: i128 = 9_223_372_036_854_775_807;

const PAST_GREATEST: i128 = 9_223_372_036_854_775_808;

/// Whether there is a least or a greatest value if and only if there are values.
fn is_told(count: u64, value: Option<i64>) -> bool
    ensures { result ≡ is_told count value }
{
    if count == 0 {
        value.is_none()
    } else {
        value.is_some()
    }
}

/// Whether rows may have these sums.
fn sums_are_fit(sums: &Sums) -> bool
    ensures { result ≡ sums_fit sums.now }
{
    if sums.count < sums.values || ROWS_LIMIT <= sums.count {
        return false;
    }
    let values = i128::from(sums.values);
    let low = -(PAST_GREATEST * values) <= sums.sum;
    let high = sums.sum <= GREATEST * values;
    low && high && is_told(sums.values, sums.least) && is_told(sums.values, sums.most)
}

/// Whether a group is of a dirty bucket, with as many keys and parts as the aggregate has.
fn group_is_fit(def: &ViewDef, dirty: &[Span], group: &SavedGroup) -> bool
    requires rising { are_rising dirty.now ≡ true }
    ensures { result ≡ group_fits def.now dirty.now group.now }
{
    let of_bucket = starts_bucket(def.fold.width, group.start);
    let keys = group.keys.len() == def.fold.keys.len();
    let parts = group.parts.len() == def.fold.aggs.len();
    of_bucket
        && is_inside(dirty, group.start)
        && keys
        && parts
        && parts_are_fit(group.parts.items())
}

fn parts_are_fit(parts: &[Sums]) -> bool
    ensures { result ≡ list_all sums_fit parts.now }
{
    parts.iter().all(|part| sums_are_fit(part))
}

/// Whether groups are of dirty buckets and in strict order.
pub fn groups_are_fit(def: &ViewDef, dirty: &[Span], groups: &[SavedGroup]) -> bool
    requires rising { are_rising dirty.now ≡ true }
    ensures { result ≡ groups_fit def.now dirty.now groups.now }
{
    let mut left = groups;
    while let [group, rest @ ..] = left {
        if !group_is_fit(def, dirty, group) {
            return false;
        }
        left = rest;
    }
    groups_rise(groups)
}

/// Whether there is a mark, and `b` is below it.
pub fn is_below(b: i64, mark: Option<i64>) -> bool
    ensures { result ≡ is_below b mark }
{
    match mark {
        None => false,
        Some(mark) => b < mark,
    }
}

/// Whether groups are of buckets below a mark.
pub fn groups_are_below(mark: Option<i64>, groups: &[SavedGroup]) -> bool
    ensures { result ≡ list_all (λ g. is_below g.start mark) groups.now }
{
    groups.iter().all(|group| is_below(group.start, mark))
}
