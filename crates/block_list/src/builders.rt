//! Lists under construction.
ghost use Rattle.std.specs.Prelude.{◌≡◌, ◌+◌, ◌-◌, ◌<◌, ◌≤◌, [], ◌∷◌, ◌++◌, length, take, drop, vec_len, IfOk, OnOk};
ghost use Rattle.std.specs.Arc.{arc_value};
ghost use Rattle.block_list.specs.Blocks.{IsRun, block_len};

use crate::blocks::{BLOCK_LEN, Block};
use crate::inner_nodes::{Blocks, InnerNode, NodeBuilder, SHELF_LEN};
use crate::lists::BlockList;
use crate::parts::Items;
use std::alloc::Global;
use std::marker::Model;
use std::mem;
use std::sync::Arc;
use ts_schema::NoMemory;

/// A list under construction: runs of other lists, whose blocks it shares, and new items. Contracts see it as
/// the list of the items so far. Its state is unknown after a call that runs out of memory.
#[derive(Drop, Debug)]
pub struct Builder<T> {
    alloc: Global,
    closed: NodeBuilder<T>,
    newest: Vec<T>,
}

impl<T> Model for Builder<T> {
    ghost use Rattle.std.specs.Prelude.{◌++◌, ◌≤◌, List, vec_len};
    ghost use Rattle.block_list.specs.Blocks.{block_len};

    ghost Value = { List T };

    ghost view = { λ b. b.closed ++ b.newest.items };

    ghost invariant = { λ b. vec_len b.newest ≤ block_len };
}

impl<T: Clone + Drop> Builder<T> {
    /// No item yet. It takes no memory.
    pub fn new(alloc: Global) -> Builder<T>
        ensures items { result ≡ [] }
    {
        Builder {
            alloc,
            closed: NodeBuilder::new(alloc),
            newest: Vec::new(alloc),
        }
    }

    /// Appends an item.
    pub fn push(&mut self, item: T) -> Result<(), NoMemory>
        ensures pushed { IfOk result (λ _. self.new ≡ self.old ++ item ∷ []) }
    {
        if self.newest.len() < BLOCK_LEN {
            self.newest.push(item)?;
            return Ok(());
        }
        close_block(self.alloc, &mut self.closed, &mut self.newest)?;
        self.newest.push(item)?;
        Ok(())
    }

    /// Appends clones of items.
    pub fn push_all(&mut self, items: &[T]) -> Result<(), NoMemory>
        requires faithful { (x y : T) → T.is_clone x y → x ≡ y }
        ensures pushed { IfOk result (λ _. self.new ≡ self.old ++ items.now) }
    {
        for item in items {
            self.push(item.clone()?)?;
        }
        Ok(())
    }

    /// Appends the items of a block. The block is shared unless it is merged with its neighbor. The next
    /// block has `after` items.
    fn push_block(&mut self, block: &Arc<Block<T>>, after: usize) -> Result<(), NoMemory>
        requires faithful { (x y : T) → T.is_clone x y → x ≡ y }
        ensures pushed { IfOk result (λ _. self.new ≡ self.old ++ arc_value block.now) }
    {
        if is_merged(self.newest.len(), block.len(), after, BLOCK_LEN) {
            return self.push_all(block.items());
        }
        close_block(self.alloc, &mut self.closed, &mut self.newest)?;
        self.closed.push(Arc::try_clone(block)?)
    }

    /// Appends the items of an inner node, which is shared.
    fn push_shelf(&mut self, shelf: &Arc<InnerNode<T>>) -> Result<(), NoMemory>
        ensures pushed { IfOk result (λ _. self.new ≡ self.old ++ arc_value shelf.now) }
    {
        close_block(self.alloc, &mut self.closed, &mut self.newest)?;
        self.closed.push_shelf(Arc::try_clone(shelf)?)
    }

    /// Whether the blocks of an inner node are appended one by one, so that the node isn't shared. The next
    /// inner node has `after` blocks.
    fn opens(&self, shelf: &InnerNode<T>, after: usize) -> bool {
        let newest = usize::from(!self.newest.is_empty());
        let before = self.closed.open_blocks().saturating_add(newest);
        is_merged(before, shelf.count(), after, SHELF_LEN)
    }

    /// Appends the items of one block, from a place of a list on and below another place. Returns the place up
    /// to which it appended them.
    fn append_block(&mut self, list: &BlockList<T>, at: usize, to: usize) -> Result<usize, NoMemory>
        requires order { at < to }
        requires within { to ≤ length list.now.items }
        requires faithful { (x y : T) → T.is_clone x y → x ≡ y }
        ensures more { IfOk result (λ end. at < end) }
        ensures within { IfOk result (λ end. end ≤ to) }
        ensures pushed { IfOk result (λ end. self.new ≡ self.old ++ take (end - at) (drop at list.now.items)) }
    {
        match list.block_at(at, to) {
            Some(block) => {
                let end = at + block.len();
                let after = list.block_at(end, to).map_or(0, |block| block.len());
                self.push_block(block, after)?;
                Ok(end)
            }
            None => {
                let run = list.run_below(at, to);
                self.push_all(run)?;
                Ok(at + run.len())
            }
        }
    }

    /// Appends the items of a list from place `at` on and below place `to`: those of one inner node or of one
    /// block, or part of a block. Returns the place up to which it appended them.
    fn append_run(&mut self, list: &BlockList<T>, at: usize, to: usize) -> Result<usize, NoMemory>
        requires order { at < to }
        requires within { to ≤ length list.now.items }
        requires faithful { (x y : T) → T.is_clone x y → x ≡ y }
        ensures more { IfOk result (λ end. at < end) }
        ensures within { IfOk result (λ end. end ≤ to) }
        ensures pushed { IfOk result (λ end. self.new ≡ self.old ++ take (end - at) (drop at list.now.items)) }
    {
        let Some(shelf) = list.shelf_at(at, to) else {
            return self.append_block(list, at, to);
        };
        let end = at + shelf.len();
        let after = list.shelf_at(end, to).map_or(0, |shelf| shelf.count());
        if self.opens(shelf, after) {
            return self.append_block(list, at, to);
        }
        self.push_shelf(shelf)?;
        Ok(end)
    }

    /// Appends the items of a list from place `from` on and below place `to`. Shares the inner nodes and blocks
    /// that are whole there, but merges small ones with their neighbors. The cost grows with the items of the
    /// blocks at both places and with the number of inner nodes. It also grows with the blocks of the inner
    /// nodes there and next to them.
    pub fn append(&mut self, list: &BlockList<T>, from: usize, to: usize) -> Result<(), NoMemory>
        requires order { from ≤ to }
        requires within { to ≤ length list.now.items }
        requires faithful { (x y : T) → T.is_clone x y → x ≡ y }
        ensures pushed { IfOk result (λ _. self.new ≡ self.old ++ take (to - from) (drop from list.now.items)) }
    {
        let mut at = from;
        while at < to {
            at = self.append_run(list, at, to)?;
        }
        Ok(())
    }

    /// The list, all of whose items are shared.
    pub fn finish(self) -> Result<BlockList<T>, NoMemory>
        ensures items { IfOk result (λ list. list.items ≡ self) }
    {
        let alloc = self.alloc;
        let (blocks, newest) = self.into_blocks()?;
        Ok(BlockList::of_blocks(alloc, blocks, newest))
    }

    /// Blocks of the items, and one more after them.
    pub(crate) fn into_blocks(self) -> Result<(Blocks<T>, Arc<Block<T>>), NoMemory>
        ensures items { IfOk result (λ (blocks, newest). blocks ++ arc_value newest ≡ self) }
        ensures few { IfOk result (λ (blocks, newest). length (arc_value newest) ≤ block_len) }
    {
        let Builder {
            alloc,
            closed,
            newest,
        } = self;
        let blocks = closed.share()?;
        Ok((blocks, Arc::new(alloc, Block::of(newest))?))
    }
}

/// Moves the newest items into a block, so that none is left.
fn close_block<T: Drop>(
    alloc: Global,
    closed: &mut NodeBuilder<T>,
    newest: &mut Vec<T>,
) -> Result<(), NoMemory>
    requires { vec_len newest.old ≤ block_len }
    ensures closed { IfOk result (λ _. closed.new ≡ closed.old ++ newest.old.items) }
    ensures none { newest.new.items ≡ [] }
    ensures len { vec_len newest.new ≡ 0 }
{
    if newest.is_empty() {
        return Ok(());
    }
    let items = mem::replace(newest, Vec::new(alloc));
    closed.push(Arc::new(alloc, Block::of(items))?)
}

/// Whether a block of `len` items, or an inner node of `len` blocks, is merged with the open ones before it.
/// One holds at most `most`. Otherwise it is shared. If none are open, a small one is opened, unless the one
/// after it wouldn't fit: so appending a list a second time opens nothing.
///
/// Blocks, and likewise inner nodes, are half full on average, except the last one. A smaller one has a
/// neighbor with which it doesn't fit into one. Blocks of different inner nodes aren't merged, so this leaves
/// out two blocks of each inner node. However often items are replaced, there are on average at least 32 blocks
/// per inner node and 30 items per block.
fn is_merged(before: usize, len: usize, after: usize, most: usize) -> bool {
    if 0 < before {
        before.saturating_add(len) <= most
    } else {
        len < most / 2 && len.saturating_add(after) <= most
    }
}
