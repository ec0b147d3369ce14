//! Parts of a list, and where each of them begins.
ghost use Rattle.std.specs.Prelude.{◌≡◌, ◌+◌, ◌<◌, ◌≤◌, [], ◌∷◌, ◌++◌, length, take, drop, IfOk, IfSome};
ghost use Rattle.std.specs.Arc.{arc_value};
ghost use Rattle.block_list.specs.Blocks.{AreParts, PartValue, IsRun, IsRunFrom, items_of, most_items};

use std::alloc::Global;
use std::marker::Model;
use std::sync::Arc;
use ts_schema::NoMemory;

/// The greatest number of items in parts.
const MOST_ITEMS: usize = 4_611_686_018_427_387_904;

/// A source of items in runs: a block, or parts that have items themselves.
pub(crate) trait Items {
    ghost use Rattle.std.specs.Prelude.{List};

    /// One item.
    type Item;

    // The items, in order.
    ghost items: { Self → List Self.Item };

    /// The number of items.
    fn len(&self) -> usize
        ensures len { result ≡ length (items self.now) }
        ensures small { result ≤ most_items };

    /// The items from place `i` on, up to the end of their run.
    fn run_at(&self, i: usize) -> &[Self::Item]
        requires { i < length (items self.now) }
        ensures { IsRunFrom (items self.now) i result.now };
}

/// A part of a list, which is shared, and how many of the list's items are before it.
#[derive(Drop, Debug)]
pub(crate) struct Part<S: Items> {
    start: usize,
    items: Arc<S>,
}

impl<S: Items> Model for Part<S> {
    ghost use Rattle.std.specs.Arc.{arc_value};
    ghost use Rattle.block_list.specs.Blocks.{PartValue};

    ghost Value = { PartValue S.Item };

    ghost view = { λ p. record { start = p.start; items = S.items (arc_value p.items) } };
}

impl<S: Items> Part<S> {
    /// The part with these items, and with `start` items of the list before it.
    fn of(start: usize, items: Arc<S>) -> Part<S>
        ensures { result ≡ record { start = start; items = S.items (arc_value items) } }
    {
        Part { start, items }
    }

    /// How many of the list's items are before it.
    pub(crate) fn start(&self) -> usize
        ensures { result ≡ self.now.start }
    {
        self.start
    }

    /// The holder of its items.
    pub(crate) fn items(&self) -> &Arc<S>
        ensures { S.items (arc_value result.now) ≡ self.now.items }
    {
        &self.items
    }
}

/// The place of the part that holds item `i`.
fn place_of<S: Items>(parts: &[Part<S>], i: usize) -> usize
    requires parts { AreParts 0 parts.now }
    requires within { i < length (items_of parts.now) }
    ensures place { result < length parts.now }
    ensures from { length (items_of (take result parts.now)) ≤ i }
    ensures below { i < length (items_of (take (result + 1) parts.now)) }
{
    parts.partition_point(|part| part.start <= i) - 1
}

/// The part that holds item `i`.
fn part_of<S: Items>(parts: &[Part<S>], i: usize) -> &Part<S>
    requires parts { AreParts 0 parts.now }
    requires within { i < length (items_of parts.now) }
    ensures from { result.now.start ≤ i }
    ensures below { i < result.now.start + length result.now.items }
    ensures run { IsRunFrom (items_of parts.now) result.now.start result.now.items }
{
    let place = place_of(parts, i);
    &parts[place]
}

/// Parts, in order.
#[derive(Drop, Debug)]
pub(crate) struct Parts<S: Items> {
    len: usize,
    parts: Vec<Part<S>>,
}

impl<S: Items> Model for Parts<S> {
    ghost use Rattle.std.specs.Prelude.{List};
    ghost use Rattle.block_list.specs.Blocks.{AreCounted, items_of};

    ghost Value = { List S.Item };

    ghost view = { λ p. items_of p.parts.items };

    ghost invariant = { λ p. AreCounted p.len p.parts.items };
}

impl<S: Items> Parts<S> {
    /// No part. It takes no memory.
    pub(crate) fn new(alloc: Global) -> Parts<S>
        ensures { result ≡ [] }
    {
        Parts {
            len: 0,
            parts: Vec::new(alloc),
        }
    }

    /// The number of parts.
    pub(crate) fn count(&self) -> usize {
        self.parts.len()
    }

    /// The part that holds item `i`.
    pub(crate) fn part_at(&self, i: usize) -> &Part<S>
        requires { i < length self.now }
        ensures from { result.now.start ≤ i }
        ensures below { i < result.now.start + length result.now.items }
        ensures run { IsRunFrom self.now result.now.start result.now.items }
    {
        part_of(&self.parts, i)
    }

    /// The part that begins at place `at` and ends at or before `end`, if there is one.
    pub(crate) fn whole_at(&self, at: usize, end: usize) -> Option<&Arc<S>>
        requires within { at < length self.now }
        requires order { at ≤ end }
        ensures run { IfSome result (λ part. IsRun self.now at end (S.items (arc_value part.now))) }
    {
        let part = self.part_at(at);
        if part.start() == at && part.items().len() <= end - at {
            Some(part.items())
        } else {
            None
        }
    }
}

impl<S: Items + Drop> Parts<S> {
    /// Appends a part. There can't be more than `2^62` items.
    pub(crate) fn push(&mut self, items: Arc<S>) -> Result<(), NoMemory>
        ensures { IfOk result (λ _. self.new ≡ self.old ++ S.items (arc_value items)) }
    {
        let len = items.len();
        if self.len > MOST_ITEMS - len {
            return Err(NoMemory);
        }
        self.parts.push(Part::of(self.len, items))?;
        self.len += len;
        Ok(())
    }
}

impl<S: Items> Items for Parts<S> {
    type Item = S::Item;

    ghost items = { λ p. p };

    fn len(&self) -> usize {
        self.len
    }

    fn run_at(&self, i: usize) -> &[S::Item] {
        let part = self.part_at(i);
        part.items().run_at(i - part.start())
    }
}
