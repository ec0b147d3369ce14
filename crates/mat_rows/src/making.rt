//! Lists of groups under construction.

ghost use Rattle.std.specs.Prelude.{◌≡◌, ◌-◌, ◌≤◌, ◌++◌, length, take, drop, IfOk};
ghost use Rattle.mat_rows.specs.Replacing.{within};
ghost use Rattle.partial_agg.specs.Groups.{AreInOrder};

use crate::search::places;
use block_list::{BlockList, Builder};
use partial_agg::Group;
use std::alloc::Global;
use std::collections::VecDeque;
use ts_bucket::Span;
use ts_schema::NoMemory;

/// Appends the groups of a list from a place on and below another, in the blocks that they are in.
pub(crate) fn keep(
    made: &mut Builder<Group>,
    groups: &BlockList<Group>,
    from: usize,
    to: usize,
) -> Result<(), NoMemory>
    requires order { from ≤ to }
    requires within { to ≤ length groups.now.items }
    ensures { IfOk result (λ _. made.new ≡ made.old ++ take (to - from) (drop from groups.now.items)) }
{
    made.append(groups, from, to)
}

/// Appends those groups of a list in order that start in a span, in the blocks that they are in.
pub(crate) fn keep_within(
    made: &mut Builder<Group>,
    groups: &BlockList<Group>,
    span: Span,
) -> Result<(), NoMemory>
    requires { AreInOrder groups.now.items }
    ensures { IfOk result (λ _. made.new ≡ made.old ++ within span groups.now.items) }
{
    let (start, end) = places(groups, span);
    keep(made, groups, start, end)
}

/// The list of these groups, which move into blocks.
pub(crate) fn in_blocks(alloc: Global, groups: Vec<Group>) -> Result<BlockList<Group>, NoMemory>
    ensures { IfOk result (λ list. list.items ≡ groups.items) }
{
    let mut made = Builder::new(alloc);
    let mut left = VecDeque::from(groups);
    while let Some(group) = left.pop_front() {
        made.push(group)?;
    }
    made.finish()
}
