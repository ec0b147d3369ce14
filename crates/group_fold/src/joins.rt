//! Joins two lists of groups.
ghost use Rattle.std.specs.Prelude.{◌≡◌, ◌+◌, ◌<◌, ◌≤◌, IfOk, OnOk, OnSome, length, take};
ghost use Rattle.std.specs.VecDeque.{deque_len};
ghost use Rattle.partial_agg.specs.Groups.{AreInOrder};
ghost use Rattle.group_fold.specs.Merging.{AreBefore, AreGroupsOfBoth, CanJoin, PartsFit, TakesFirst};
ghost use Rattle.group_fold.specs.Merging.{joined_parts, merge_of, next_of_lists, with_groups};

use partial_agg::{Group, Partial, group_order};
use std::alloc::Global;
use std::cmp::Ordering;
use std::collections::VecDeque;
use ts_schema::{NoMemory, Seq, SharedSlice};

/// The groups of both lists in order, with groups of the same bucket and keys merged. So the groups of two
/// lists of rows become those of both together. This is for callers that keep both lists; a fold in pieces
/// passes its own to `join_lists`.
pub fn join_parts(alloc: Global, a: &Seq<Group>, b: &Seq<Group>) -> Result<Seq<Group>, NoMemory>
    requires { CanJoin a.now b.now }
    ensures joined { IfOk result (λ groups. groups ≡ with_groups a.now b.now) }
    ensures of_rows { IfOk result (AreGroupsOfBoth a.now b.now) }
{
    let mine = a.copy()?.into_items();
    let theirs = b.copy()?.into_items();
    Ok(Seq::of(join_lists(alloc, mine, theirs)?))
}

/// The same, but consumes both lists. Moves groups from one list to the other, and copies none. Moves those
/// before all of the second list in one step, and likewise those after all of the first.
pub(crate) fn join_lists(
    alloc: Global,
    a: Vec<Group>,
    b: Vec<Group>,
) -> Result<Vec<Group>, NoMemory>
    requires { CanJoin a.items b.items }
    ensures { IfOk result (λ groups. groups.items ≡ with_groups a.items b.items) }
{
    let mut groups = Vec::with_capacity(alloc, a.len() + b.len())?;
    let before = count_before(a.as_slice(), b.as_slice());
    let mut front = a;
    let behind = front.split_off(before)?;
    groups.append(&mut front)?;
    // Frees its memory before the groups after it are merged.
    drop(front);
    let mut mine = VecDeque::from(behind);
    let mut theirs = VecDeque::from(b);
    while let Some(group) = take_next(alloc, &mut mine, &mut theirs)? {
        groups.push(group)?;
    }
    let mut rest = Vec::from(theirs);
    groups.append(&mut rest)?;
    Ok(groups)
}

/// The number of groups of a list that are before all of another one.
fn count_before(groups: &[Group], others: &[Group]) -> usize
    requires mine { AreInOrder groups.now }
    requires theirs { AreInOrder others.now }
    ensures within { result ≤ length groups.now }
    ensures before { AreBefore (take result groups.now) others.now }
{
    match others {
        [] => groups.len(),
        [next, ..] => groups.partition_point(|group: &Group| group_order(group, next).is_lt()),
    }
}

/// The source of the next group. `Rest` is the rest of the second list, once the first one is empty.
#[derive(Clone, Copy)]
enum Next {
    Rest,
    Mine,
    Theirs,
    Both,
}

/// Takes the next group from the list that has it, or from both, until the first list is empty.
fn take_next(
    alloc: Global,
    mine: &mut VecDeque<Group>,
    theirs: &mut VecDeque<Group>,
) -> Result<Option<Group>, NoMemory>
    requires { CanJoin mine.old.items theirs.old.items }
    ensures next { IfOk result (λ next. TakesFirst next
        (with_groups mine.old.items theirs.old.items)
        (with_groups mine.new.items theirs.new.items)
        theirs.new.items) }
    ensures kept { OnOk result (CanJoin mine.new.items theirs.new.items) }
    ensures fewer { IfOk result (λ next. OnSome next
        (deque_len mine.new + deque_len theirs.new < deque_len mine.old + deque_len theirs.old)) }
{
    match next_of(mine, theirs) {
        Next::Rest => Ok(None),
        Next::Mine => Ok(mine.pop_front()),
        Next::Theirs => Ok(theirs.pop_front()),
        Next::Both => merge_firsts(alloc, mine, theirs),
    }
}

fn next_of(mine: &VecDeque<Group>, theirs: &VecDeque<Group>) -> Next
    ensures { result ≡ next_of_lists mine.now.items theirs.now.items }
{
    match (mine.front(), theirs.front()) {
        (None, _) => Next::Rest,
        (Some(_), None) => Next::Mine,
        (Some(g), Some(h)) => match group_order(g, h) {
            Ordering::Less => Next::Mine,
            Ordering::Equal => Next::Both,
            Ordering::Greater => Next::Theirs,
        },
    }
}

/// Merges the first groups of both lists, which have the same bucket and keys.
fn merge_firsts(
    alloc: Global,
    mine: &mut VecDeque<Group>,
    theirs: &mut VecDeque<Group>,
) -> Result<Option<Group>, NoMemory>
    requires both { next_of_lists mine.old.items theirs.old.items ≡ Next.Both }
    requires fit { CanJoin mine.old.items theirs.old.items }
    ensures next { IfOk result (λ next. TakesFirst next
        (with_groups mine.old.items theirs.old.items)
        (with_groups mine.new.items theirs.new.items)
        theirs.new.items) }
    ensures kept { OnOk result (CanJoin mine.new.items theirs.new.items) }
    ensures fewer { IfOk result (λ next. OnSome next
        (deque_len mine.new + deque_len theirs.new < deque_len mine.old + deque_len theirs.old)) }
{
    match (mine.pop_front(), theirs.pop_front()) {
        (Some(group), Some(other)) => Ok(Some(merge_groups(alloc, group, &other)?)),
        (None, _) => Ok(None),
        (_, None) => Ok(None),
    }
}

/// A group merged with another one of the same bucket and keys. Its partial aggregates are a new list, since
/// others share those of both.
fn merge_groups(alloc: Global, group: Group, other: &Group) -> Result<Group, NoMemory>
    requires { PartsFit group.parts other.now.parts }
    ensures { IfOk result (λ both. both ≡ merge_of group other.now) }
{
    let parts = merge_parts(alloc, group.parts.items(), other.parts.items())?;
    Ok(Group {
        start: group.start,
        keys: group.keys,
        parts: SharedSlice::of(alloc, Seq::of(parts))?,
    })
}

/// Partial aggregates merged, place by place.
fn merge_parts(
    alloc: Global,
    mine: &[Partial],
    theirs: &[Partial],
) -> Result<Vec<Partial>, NoMemory>
    requires { PartsFit mine.now theirs.now }
    ensures { IfOk result (λ parts. parts.items ≡ joined_parts mine.now theirs.now) }
{
    let mut parts = Vec::with_capacity(alloc, mine.len())?;
    for k in 0..mine.len() {
        let mut part = mine[k];
        part.merge(&theirs[k]);
        parts.push(part)?;
    }
    Ok(parts)
}
