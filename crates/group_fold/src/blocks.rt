//! Blocks of partial aggregates while rows are added: a block holds those of many groups.
ghost use Rattle.std.specs.Prelude.{◌≡◌, ◌+◌, ◌-◌, ◌^◌, ◌<◌, ◌≤◌, true, [], ◌++◌, length, take, drop, vec_len, vec_capacity, IfOk, OnOk, OnErr};
ghost use Rattle.std.specs.List.{AllByRecursion};
ghost use Rattle.group_fold.specs.Grouping.{row_parts};
ghost use Rattle.group_fold.specs.Merging.{joined_parts};
ghost use Rattle.group_fold.specs.Blocks.{IsPutAt, Keeps};

use crate::heads::PartsPlace;
use crate::members::add_to_parts;
use partial_agg::Partial;
use std::alloc::Global;
use std::marker::Model;
use ts_model::Agg;
use ts_schema::{NoMemory, Row, Seq, SharedSlice, field};

/// The greatest number of groups that share a block. A block lives as long as any of its groups, so blocks are
/// small.
const GROUPS_A_BLOCK: usize = 64;

/// The partial aggregates of some groups, in the order of the groups. Contracts see the list of them.
#[derive(Drop)]
pub(crate) struct Block {
    parts: Vec<Partial>,
}

impl Model for Block {
    ghost use Rattle.std.specs.Prelude.{List};
    ghost use Rattle.partial_agg.specs.Summaries.{Summary};

    ghost Value = { List Summary };

    ghost view = { λ b. b.parts.items };
}

impl Block {
    /// No partial aggregates, with room for `room` of them.
    fn with_room(alloc: Global, room: usize) -> Result<Block, NoMemory>
        ensures { IfOk result (λ block. block ≡ []) }
    {
        Ok(Block {
            parts: Vec::with_capacity(alloc, room)?,
        })
    }

    /// The number of partial aggregates.
    fn len(&self) -> usize
        ensures { result ≡ length self.now }
    {
        self.parts.len()
    }

    /// Appends those of the group of one row, or none when out of memory.
    fn push_row(&mut self, aggs: &[Agg], row: &Row) -> Result<(), NoMemory>
        ensures put { OnOk result (self.new ≡ self.old ++ row_parts aggs.now row.now) }
        ensures kept { OnErr result (self.new ≡ self.old) }
    {
        self.parts.reserve(aggs.len())?;
        put_row(aggs, row, &mut self.parts);
        Ok(())
    }

    /// Adds a row to the group whose partial aggregates begin at a place.
    #[inline(always)]
    pub(crate) fn add_row(&mut self, from: usize, aggs: &[Agg], row: &Row)
        requires within { from + length aggs.now ≤ length self.old }
        requires room { AllByRecursion (λ p. p.count < 2 ^ 62 - 1) (take (length aggs.now) (drop from self.old)) }
        ensures { self.new ≡ take from self.old
            ++ (joined_parts (take (length aggs.now) (drop from self.old)) (row_parts aggs.now row.now)
            ++ drop (from + length aggs.now) self.old) }
    {
        let parts = self.parts.as_mut_slice();
        add_to_parts(aggs, row, &mut parts[from..from + aggs.len()]);
    }

    /// The same list, whose parts groups can share. Frees unused capacity.
    pub(crate) fn share(self, alloc: Global) -> Result<SharedSlice<Partial>, NoMemory>
        ensures { IfOk result (λ parts. parts ≡ self) }
    {
        let mut parts = self.parts;
        parts.shrink_to_fit();
        SharedSlice::of(alloc, Seq::of(parts))
    }
}

fn put_row(aggs: &[Agg], row: &Row, parts: &mut Vec<Partial>)
    requires { vec_len parts.old + length aggs.now ≤ vec_capacity parts.old }
    ensures { parts.new.items ≡ parts.old.items ++ row_parts aggs.now row.now }
{
    for agg in aggs {
        parts.push_reserved(Partial::one(field(row, agg.col)));
    }
}

/// Appends the partial aggregates of the group of one row into the last block, or into a new one if that is
/// full.
pub(crate) fn put_parts(
    alloc: Global,
    blocks: &mut Vec<Block>,
    aggs: &[Agg],
    row: &Row,
) -> Result<PartsPlace, NoMemory>
    ensures kept { Keeps blocks.old.items blocks.new.items }
    ensures put { IfOk result (IsPutAt (row_parts aggs.now row.now) blocks.old.items blocks.new.items) }
{
    make_room(alloc, blocks, aggs.len())?;
    put_last(blocks, aggs, row)
}

/// The same, into the last block.
fn put_last(blocks: &mut Vec<Block>, aggs: &[Agg], row: &Row) -> Result<PartsPlace, NoMemory>
    requires { 0 < length blocks.old.items }
    ensures kept { Keeps blocks.old.items blocks.new.items }
    ensures put { IfOk result (IsPutAt (row_parts aggs.now row.now) blocks.old.items blocks.new.items) }
{
    let last = blocks.len() - 1;
    let place = place_of(last, blocks[last].len())?;
    blocks[last].push_row(aggs, row)?;
    Ok(place)
}

/// A place whose numbers fit 32 bits. Fails as out of memory if they don't.
fn place_of(block: usize, from: usize) -> Result<PartsPlace, NoMemory>
    ensures block { IfOk result (λ place. place.block ≡ block) }
    ensures from { IfOk result (λ place. place.from ≡ from) }
{
    match (u32::try_from(block), u32::try_from(from)) {
        (Ok(block), Ok(from)) => Ok(PartsPlace { block, from }),
        (Err(_), _) => Err(NoMemory),
        (_, Err(_)) => Err(NoMemory),
    }
}

/// Makes a new block if the last one is full. The first one has room for one group and grows, since there are
/// often few groups.
fn make_room(alloc: Global, blocks: &mut Vec<Block>, each: usize) -> Result<(), NoMemory>
    ensures some { OnOk result (0 < length blocks.new.items) }
    ensures kept { Keeps blocks.old.items blocks.new.items }
{
    if has_room(blocks.as_slice(), each) {
        return Ok(());
    }
    let groups = if blocks.is_empty() { 1 } else { GROUPS_A_BLOCK };
    let block = Block::with_room(alloc, each.saturating_mul(groups))?;
    blocks.push(block)?;
    Ok(())
}

/// Whether another group with `each` partial aggregates fits the last block.
fn has_room(blocks: &[Block], each: usize) -> bool
    ensures { result ≡ true → 0 < length blocks.now }
{
    match blocks {
        [] => false,
        [.., last] => last.len() <= each.saturating_mul(GROUPS_A_BLOCK - 1),
    }
}
