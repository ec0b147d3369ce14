//! Runs: items of a list from a place on.
ghost use Rattle.std.specs.Prelude.{◌≡◌, ◌<◌, ◌≤◌, ◌++◌, length, IfOk, IfSome};
ghost use Rattle.std.specs.Arc.{arc_value};
ghost use Rattle.block_list.specs.Blocks.{IsRun, IsRunFrom, shared_if};

use crate::blocks::Block;
use crate::inner_nodes::Blocks;
use crate::parts::Items;
use std::sync::Arc;
use ts_schema::NoMemory;

/// The items of a block, if there is one.
pub(crate) fn items_if<T>(block: &Option<Arc<Block<T>>>) -> &[T]
    ensures { result.now ≡ shared_if block.now }
{
    match block {
        Some(block) => block.items(),
        None => &[],
    }
}

/// The items from place `i` on, of the one of two lists that holds this place.
fn run_in_two<'a, T>(first: &'a [T], second: &'a [T], i: usize) -> &'a [T]
    requires { i < length (first.now ++ second.now) }
    ensures { IsRunFrom (first.now ++ second.now) i result.now }
{
    let len = first.len();
    if i < len {
        &first[i..]
    } else {
        &second[i - len..]
    }
}

/// The items from place `i` on, up to the end of their run, of blocks and two lists after them.
pub(crate) fn run_in<'a, T>(
    blocks: &'a Blocks<T>,
    first: &'a [T],
    second: &'a [T],
    i: usize,
) -> &'a [T]
    requires { i < length (blocks.now ++ (first.now ++ second.now)) }
    ensures { IsRunFrom (blocks.now ++ (first.now ++ second.now)) i result.now }
{
    let len = blocks.len();
    if i < len {
        blocks.run_at(i)
    } else {
        run_in_two(first, second, i - len)
    }
}

/// A copy of a block, if there is one.
pub(crate) fn copy_if<T>(block: &Option<Arc<Block<T>>>) -> Result<Option<Arc<Block<T>>>, NoMemory>
    ensures { IfOk result (λ copy. shared_if copy ≡ shared_if block.now) }
{
    match block {
        Some(block) => Ok(Some(Arc::try_clone(block)?)),
        None => Ok(None),
    }
}

/// The block that begins the items after a place, if there is one and it ends at or before `end`.
fn block_first<T>(block: &Option<Arc<Block<T>>>, end: usize) -> Option<&Arc<Block<T>>>
    ensures { IfSome result (λ whole. IsRun (shared_if block.now) 0 end (arc_value whole.now)) }
{
    match block {
        Some(block) if 0 < block.len() && block.len() <= end => Some(block),
        _ => None,
    }
}

/// The block that begins at place `at` of blocks, one more and a list after them, and ends at or
/// before `end`, if one does.
pub(crate) fn block_in<'a, T>(
    blocks: &'a Blocks<T>,
    block: &'a Option<Arc<Block<T>>>,
    own: &[T],
    at: usize,
    end: usize,
) -> Option<&'a Arc<Block<T>>>
    requires { at ≤ end }
    ensures { IfSome result (λ whole.
        IsRun (blocks.now ++ (shared_if block.now ++ own.now)) at end (arc_value whole.now)) }
{
    let len = blocks.len();
    if at < len {
        blocks.block_at(at, end.min(len))
    } else if at == len {
        block_first(block, end - len)
    } else {
        None
    }
}
