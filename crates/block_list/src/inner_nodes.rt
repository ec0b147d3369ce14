//! Inner nodes: runs of blocks, so that a list shares many blocks at once.
ghost use Rattle.std.specs.Prelude.{◌≡◌, ◌<◌, ◌≤◌, [], ◌++◌, length, IfOk, IfSome};
ghost use Rattle.std.specs.Arc.{arc_value};
ghost use Rattle.block_list.specs.Blocks.{IsRun, IsRunFrom, most_items};

use crate::blocks::Block;
use crate::parts::{Items, Parts};
use std::alloc::Global;
use std::marker::Model;
use std::mem;
use std::sync::Arc;
use ts_schema::NoMemory;

/// The greatest number of blocks of an inner node.
pub(crate) const SHELF_LEN: usize = 64;

/// Blocks, in order.
pub(crate) type InnerNode<T> = Parts<Block<T>>;

/// Inner nodes, in order.
type Shelves<T> = Parts<InnerNode<T>>;

/// Blocks in inner nodes that grow: all inner nodes except the last are closed, and the last is open.
#[derive(Drop, Debug)]
pub(crate) struct NodeBuilder<T> {
    alloc: Global,
    shelves: Shelves<T>,
    last: InnerNode<T>,
}

impl<T> Model for NodeBuilder<T> {
    ghost use Rattle.std.specs.Prelude.{◌++◌, List};

    ghost Value = { List T };

    ghost view = { λ c. c.shelves ++ c.last };
}

impl<T: Drop> NodeBuilder<T> {
    /// No block.
    pub(crate) fn new(alloc: Global) -> NodeBuilder<T>
        ensures { result ≡ [] }
    {
        NodeBuilder {
            alloc,
            shelves: Parts::new(alloc),
            last: Parts::new(alloc),
        }
    }

    /// The number of blocks that the open inner node has: too few to make it full.
    pub(crate) fn open_blocks(&self) -> usize {
        self.last.count()
    }

    /// Appends a block.
    pub(crate) fn push(&mut self, block: Arc<Block<T>>) -> Result<(), NoMemory>
        ensures { IfOk result (λ _. self.new ≡ self.old ++ arc_value block) }
    {
        self.last.push(block)?;
        if self.last.count() < SHELF_LEN {
            return Ok(());
        }
        close_shelf(self.alloc, &mut self.shelves, &mut self.last)
    }

    /// Closes the open inner node, and appends another one.
    pub(crate) fn push_shelf(&mut self, shelf: Arc<InnerNode<T>>) -> Result<(), NoMemory>
        ensures { IfOk result (λ _. self.new ≡ self.old ++ arc_value shelf) }
    {
        close_shelf(self.alloc, &mut self.shelves, &mut self.last)?;
        self.shelves.push(shelf)
    }

    /// Shares the blocks.
    pub(crate) fn share(self) -> Result<Blocks<T>, NoMemory>
        ensures { IfOk result (λ blocks. blocks ≡ self) }
    {
        let NodeBuilder {
            alloc,
            mut shelves,
            mut last,
        } = self;
        close_shelf(alloc, &mut shelves, &mut last)?;
        Ok(Blocks {
            shelves: Some(Arc::new(alloc, shelves)?),
        })
    }
}

/// Appends the open inner node to the closed ones, and leaves an open one without blocks.
fn close_shelf<T: Drop>(
    alloc: Global,
    shelves: &mut Shelves<T>,
    last: &mut InnerNode<T>,
) -> Result<(), NoMemory>
    ensures closed { IfOk result (λ _. shelves.new ≡ shelves.old ++ last.old) }
    ensures none { last.new ≡ [] }
{
    if last.len() == 0 {
        return Ok(());
    }
    let shelf = mem::replace(last, Parts::new(alloc));
    shelves.push(Arc::new(alloc, shelf)?)
}

/// The block of these inner nodes that begins at place `at` and ends at or before `end`, if there is one.
fn block_on<T>(shelves: &Shelves<T>, at: usize, end: usize) -> Option<&Arc<Block<T>>>
    requires within { at < length shelves.now }
    requires order { at ≤ end }
    ensures { IfSome result (λ block. IsRun shelves.now at end (arc_value block.now)) }
{
    let shelf = shelves.part_at(at);
    let start = shelf.start();
    shelf.items().whole_at(at - start, end - start)
}

/// Blocks in inner nodes that are shared.
#[derive(Drop, Debug)]
pub(crate) struct Blocks<T> {
    shelves: Option<Arc<Shelves<T>>>,
}

impl<T> Model for Blocks<T> {
    ghost use Rattle.std.specs.Prelude.{List};
    ghost use Rattle.block_list.specs.Blocks.{shared_if};

    ghost Value = { List T };

    ghost view = { λ b. shared_if b.shelves };
}

impl<T> Blocks<T> {
    /// No block. It takes no memory.
    pub(crate) fn none() -> Blocks<T>
        ensures { result ≡ [] }
    {
        Blocks { shelves: None }
    }

    /// The number of items.
    pub(crate) fn len(&self) -> usize
        ensures len { result ≡ length self.now }
        ensures small { result ≤ most_items }
    {
        match &self.shelves {
            Some(shelves) => shelves.len(),
            None => 0,
        }
    }

    /// A copy of the blocks, which only counts one more sharer.
    pub(crate) fn copy(&self) -> Result<Blocks<T>, NoMemory>
        ensures { IfOk result (λ copy. copy ≡ self.now) }
    {
        Ok(Blocks {
            shelves: match &self.shelves {
                Some(shelves) => Some(Arc::try_clone(shelves)?),
                None => None,
            },
        })
    }

    /// The items from place `i` on that are in the same block.
    pub(crate) fn run_at(&self, i: usize) -> &[T]
        requires { i < length self.now }
        ensures { IsRunFrom self.now i result.now }
    {
        match &self.shelves {
            Some(shelves) => shelves.run_at(i),
            None => &[],
        }
    }

    /// The inner node that begins at place `at` and ends at or before `end`, if there is one.
    pub(crate) fn shelf_at(&self, at: usize, end: usize) -> Option<&Arc<InnerNode<T>>>
        requires within { at < length self.now }
        requires order { at ≤ end }
        ensures { IfSome result (λ shelf. IsRun self.now at end (arc_value shelf.now)) }
    {
        match &self.shelves {
            Some(shelves) => shelves.whole_at(at, end),
            None => None,
        }
    }

    /// The block that begins at place `at` and ends at or before `end`, if one does.
    pub(crate) fn block_at(&self, at: usize, end: usize) -> Option<&Arc<Block<T>>>
        requires within { at < length self.now }
        requires order { at ≤ end }
        ensures { IfSome result (λ block. IsRun self.now at end (arc_value block.now)) }
    {
        match &self.shelves {
            Some(shelves) => block_on(shelves, at, end),
            None => None,
        }
    }
}
