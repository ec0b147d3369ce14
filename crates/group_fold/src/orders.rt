//! Groups put in order.
ghost use Rattle.std.specs.Prelude.{◌≡◌, ◌∷◌, true, IfOk};
ghost use Rattle.std.specs.declared.cmp.Ordering.TheVariants.{Less};
ghost use Rattle.partial_agg.specs.Groups.{group_cmp, AreInOrder};
ghost use Rattle.group_fold.specs.Gathering.{CanOrder, in_group_order};

use crate::joins::join_lists;
use partial_agg::Group;
use std::alloc::Global;
use std::cmp::Ordering;
use ts_schema::{NoMemory, values_order};

/// Groups in order by bucket and keys; those of the same bucket and keys are merged.
pub(crate) fn in_order(alloc: Global, groups: Vec<Group>) -> Result<Vec<Group>, NoMemory>
    requires { CanOrder groups.items }
    ensures { IfOk result (λ sorted. sorted.items ≡ in_group_order groups.items) }
{
    if rises(groups.as_slice()) {
        return Ok(groups);
    }
    let mut sorted = groups;
    sorted.sort_by(|a: &Group, b: &Group| order_of_groups(a, b))?;
    if rises(sorted.as_slice()) {
        return Ok(sorted);
    }
    merge_equal(alloc, sorted)
}

/// Whether each group is before the next one, so that no two have the same bucket and keys.
fn rises(groups: &[Group]) -> bool
    ensures { result ≡ true → AreInOrder groups.now }
{
    let mut left = groups;
    while let [group, rest @ ..] = left {
        if !is_before_all(group, rest) {
            return false;
        }
        left = rest;
    }
    true
}

/// Whether a group is before the first of others, or there is none.
fn is_before_all(group: &Group, others: &[Group]) -> bool
    ensures { result ≡ true → AreInOrder others.now → AreInOrder (group.now ∷ others.now) }
{
    match others {
        [] => true,
        [next, ..] => is_before(group, next),
    }
}

fn is_before(group: &Group, next: &Group) -> bool
    ensures { result ≡ true → group_cmp group.now next.now ≡ Less }
{
    order_of_groups(group, next) == Ordering::Less
}

/// How two groups compare. Their keys are compared only if the buckets are the same.
fn order_of_groups(a: &Group, b: &Group) -> Ordering
    ensures { result ≡ group_cmp a.now b.now }
{
    match a.start.cmp(&b.start) {
        Ordering::Less => Ordering::Less,
        Ordering::Equal => values_order(a.keys.items(), b.keys.items()),
        Ordering::Greater => Ordering::Greater,
    }
}

/// The same for groups, some of which have the same bucket and keys.
fn merge_equal(alloc: Global, groups: Vec<Group>) -> Result<Vec<Group>, NoMemory>
    requires { CanOrder groups.items }
    ensures { IfOk result (λ sorted. sorted.items ≡ in_group_order groups.items) }
{
    if groups.len() < 2 {
        return Ok(groups);
    }
    let mut front = groups;
    let back = front.split_off(front.len() / 2)?;
    let mine = merge_equal(alloc, front)?;
    let theirs = merge_equal(alloc, back)?;
    join_lists(alloc, mine, theirs)
}
