//! Groups while rows are added.
ghost use Rattle.std.specs.Prelude.{◌≡◌, ℕ, ◌++◌, ◌-◌, ◌^◌, ◌<◌, ◌≤◌, [], IfOk, OnOk, OnErr, length, slice_index_or, slice_set};
ghost use Rattle.std.specs.List.{AllByRecursion, insert};
ghost use Rattle.partial_agg.specs.declared.groups.Group.{Group as GroupValue};
ghost use Rattle.group_fold.specs.Grouping.{row_at};
ghost use Rattle.group_fold.specs.Gathering.{HaveParts, IsAt, IsBelow};
ghost use Rattle.group_fold.specs.Blocks.{HasPartsAt, IsHeadAt, group_with_row, shown_group, shown_groups};

use crate::blocks::{Block, put_parts};
use crate::heads::Head;
use crate::members::keys_alone;
use partial_agg::{Group, Partial};
use std::alloc::Global;
use std::collections::VecDeque;
use std::marker::Model;
use ts_model::Fold;
use ts_schema::{NoMemory, Row, SharedSlice};

/// Groups to which rows are added. Their partial aggregates are in blocks, which the groups share in the end.
/// Contracts see the list of the groups.
#[derive(Drop)]
pub(crate) struct OpenGroups {
    heads: Vec<Head>,
    blocks: Vec<Block>,
    /// The number of partial aggregates of each group.
    each: usize,
}

impl Model for OpenGroups {
    ghost use Rattle.std.specs.Prelude.{List};
    ghost use Rattle.partial_agg.specs.declared.groups.Group.{Group};
    ghost use Rattle.group_fold.specs.Blocks.{StandIn, shown_groups};

    ghost Value = { List Group };

    ghost view = { λ g. shown_groups g.each g.blocks.items g.heads.items };

    ghost invariant = { λ g. StandIn g.each g.blocks.items g.heads.items };
}

impl OpenGroups {
    /// No groups. It takes no memory.
    pub(crate) fn new(alloc: Global) -> OpenGroups
        ensures { result ≡ [] }
    {
        OpenGroups {
            heads: Vec::new(alloc),
            blocks: Vec::new(alloc),
            each: 0,
        }
    }

    /// The number of groups.
    pub(crate) fn len(&self) -> usize
        ensures { result ≡ length self.now }
    {
        self.heads.len()
    }

    /// The buckets and keys of the groups.
    pub(crate) fn heads(&self) -> &[Head]
        ensures len { length result.now ≡ length self.now }
        ensures stand { (g : GroupValue) (at : ℕ) → IsHeadAt g result.now at → IsAt g self.now at }
    {
        self.heads.as_slice()
    }

    /// Adds a row to the group at a place.
    #[inline(always)]
    pub(crate) fn add(&mut self, at: usize, plan: &Fold, row: &Row)
        requires within { at < length self.old }
        requires room { (d : GroupValue) → IsBelow (2 ^ 62 - 1) plan.now (slice_index_or self.old at d) }
        ensures { (d : GroupValue)
            → self.new ≡ slice_set self.old at (group_with_row plan.now row.now (slice_index_or self.old at d)) }
    {
        let place = self.heads[at].place;
        self.blocks[place.block as usize].add_row(place.from as usize, plan.aggs.items(), row);
    }

    /// Inserts the group of one row, whose bucket starts at `start`, at a place.
    pub(crate) fn put(
        &mut self,
        alloc: Global,
        at: usize,
        plan: &Fold,
        row: &Row,
        start: i64,
    ) -> Result<(), NoMemory>
        requires within { at ≤ length self.old }
        requires alike { HaveParts (length plan.now.aggs) self.old }
        ensures { OnOk result (self.new ≡ insert self.old at (row_at plan.now start row.now)) }
    {
        self.each = plan.aggs.len();
        let keys = keys_alone(alloc, plan.keys.items(), row)?;
        let place = put_parts(alloc, &mut self.blocks, plan.aggs.items(), row)?;
        put_at(&mut self.heads, at, Head { start, keys, place })
    }

    /// The groups, after all rows were added. They share the blocks.
    pub(crate) fn settle(self, alloc: Global) -> Result<Vec<Group>, NoMemory>
        ensures { IfOk result (λ groups. groups.items ≡ self) }
    {
        let blocks = shared_blocks(alloc, self.blocks)?;
        shared_groups(alloc, self.heads, blocks.as_slice(), self.each)
    }
}

/// Inserts a head at a place.
fn put_at(heads: &mut Vec<Head>, at: usize, head: Head) -> Result<(), NoMemory>
    requires { at ≤ length heads.old.items }
    ensures put { OnOk result (heads.new.items ≡ insert heads.old.items at head) }
    ensures kept { OnErr result (heads.new.items ≡ heads.old.items) }
{
    if at < heads.len() {
        heads.insert(at, head)?;
        return Ok(());
    }
    heads.push(head)?;
    Ok(())
}

/// The same blocks, whose parts groups can share.
fn shared_blocks(alloc: Global, blocks: Vec<Block>) -> Result<Vec<SharedSlice<Partial>>, NoMemory>
    ensures { IfOk result (λ shared. shared.items ≡ blocks.items) }
{
    let mut shared = Vec::with_capacity(alloc, blocks.len())?;
    let mut left = VecDeque::from(blocks);
    while let Some(block) = left.pop_front() {
        shared.push(block.share(alloc)?)?;
    }
    Ok(shared)
}

/// The groups of heads, each with its part of a block.
fn shared_groups(
    alloc: Global,
    heads: Vec<Head>,
    blocks: &[SharedSlice<Partial>],
    each: usize,
) -> Result<Vec<Group>, NoMemory>
    requires { AllByRecursion (λ h. HasPartsAt each blocks.now h.place) heads.items }
    ensures { IfOk result (λ groups. groups.items ≡ shown_groups each blocks.now heads.items) }
{
    let mut groups = Vec::with_capacity(alloc, heads.len())?;
    let mut left = VecDeque::from(heads);
    while let Some(head) = left.pop_front() {
        groups.push(shared_group(head, blocks, each)?)?;
    }
    Ok(groups)
}

fn shared_group(head: Head, blocks: &[SharedSlice<Partial>], each: usize) -> Result<Group, NoMemory>
    requires { HasPartsAt each blocks.now head.place }
    ensures { IfOk result (λ group. group ≡ shown_group each blocks.now head) }
{
    let block = &blocks[head.place.block as usize];
    // Reading the length tells the prover that it has 64 bits.
    let _count = block.len();
    let from = head.place.from as usize;
    let parts = block.part_of(from, from + each)?;
    Ok(Group {
        start: head.start,
        keys: head.keys,
        parts,
    })
}
