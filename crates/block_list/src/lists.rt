//! Lists.
ghost use Rattle.std.specs.Prelude.{◌≡◌, ◌==◌, ◌+◌, ◌-◌, ◌^◌, ◌<◌, ◌≤◌, [], ◌∷◌, ◌++◌, length, take, drop, slice_index_or, vec_len, vec_capacity, IfOk, IfSome, OnOk, OnErr};
ghost use Rattle.std.specs.Arc.{arc_value};
ghost use Rattle.block_list.specs.Blocks.{IsRun, IsRunFrom, block_len, shared_if};
ghost use Rattle.block_list.specs.Lists.{room_of, splice};

use crate::blocks::{BLOCK_LEN, Block};
use crate::builders::Builder;
use crate::clones::concat;
use crate::inner_nodes::{Blocks, InnerNode};
use crate::iter::Iter;
use crate::runs::{block_in, copy_if, items_if, run_in};
use crate::slices::Slice;
use std::alloc::Global;
use std::marker::Model;
use std::sync::Arc;
use ts_schema::NoMemory;

/// A list of items in blocks of at most 64, which are in inner nodes of at most 64 blocks. Contracts see it as
/// the list of its items, and how many more fit.
///
/// Copies share its inner nodes. They don't share the items pushed since the last `share`: a copy copies those.
#[derive(Drop, Debug)]
pub struct BlockList<T> {
    alloc: Global,
    blocks: Blocks<T>,
    newest: Option<Arc<Block<T>>>,
    own: Vec<T>,
}

impl<T> Model for BlockList<T> {
    ghost use Rattle.std.specs.Prelude.{◌++◌, ◌≤◌, length, vec_len, vec_capacity};
    ghost use Rattle.block_list.specs.Blocks.{block_len, shared_if};
    ghost use Rattle.block_list.specs.Lists.{ListValue, list_value_code, room_of};

    ghost Value = { ListValue T };

    ghost coded = { list_value_code T.code };

    ghost view = { λ l. record {
      items = l.blocks ++ (shared_if l.newest ++ l.own.items);
      room = room_of (vec_len l.own) (vec_capacity l.own);
    } };

    ghost invariant = { λ l. (length (shared_if l.newest) ≤ block_len) × (vec_len l.own ≤ block_len) };
}

impl<T> BlockList<T> {
    /// The empty list. It takes no memory.
    pub fn new(alloc: Global) -> BlockList<T>
        ensures items { result.items ≡ [] }
    {
        BlockList {
            alloc,
            blocks: Blocks::none(),
            newest: None,
            own: Vec::new(alloc),
        }
    }

    /// The number of items.
    pub fn len(&self) -> usize
        ensures len { result ≡ length self.now.items }
        ensures few { result < 2 ^ 63 }
    {
        self.blocks.len() + items_if(&self.newest).len() + self.own.len()
    }

    /// Whether there is no item.
    pub fn is_empty(&self) -> bool
        ensures empty { result ≡ (length self.now.items == 0) }
    {
        self.len() == 0
    }

    /// The allocator that the list was created with.
    pub fn allocator(&self) -> Global {
        self.alloc
    }

    /// Items from place `i` on, counted from 0: one at least, and as many as are in one block.
    pub fn run_at(&self, i: usize) -> &[T]
        requires { i < length self.now.items }
        ensures run { IsRunFrom self.now.items i result.now }
    {
        run_in(&self.blocks, items_if(&self.newest), &self.own, i)
    }

    /// Items from place `at` on and below place `end`: one at least, and as many as are in one block.
    pub(crate) fn run_below(&self, at: usize, end: usize) -> &[T]
        requires order { at < end }
        requires within { end ≤ length self.now.items }
        ensures run { IsRun self.now.items at end result.now }
    {
        let run = self.run_at(at);
        let count = run.len().min(end - at);
        &run[..count]
    }

    /// The item at place `i`, counted from 0.
    pub fn get(&self, i: usize) -> &T
        requires { i < length self.now.items }
        ensures item { result.now ≡ slice_index_or self.now.items i result.now }
    {
        &self.run_at(i)[0]
    }

    /// The items, in order.
    pub fn iter(&self) -> Iter<'_, T>
        ensures items { result ≡ self.now.items }
    {
        self.range(0, self.len())
    }

    /// The items from place `from` on and below place `to`, in order.
    pub fn range(&self, from: usize, to: usize) -> Iter<'_, T>
        requires order { from ≤ to }
        requires within { to ≤ length self.now.items }
        ensures items { result ≡ take (to - from) (drop from self.now.items) }
    {
        Iter::of(self, from, to)
    }
}

impl<T: Clone + Drop> BlockList<T> {
    /// A copy of the list. Counts one more sharer, and copies only the items pushed since the last `share`. The
    /// copy may have a different capacity.
    pub fn copy(&self) -> Result<BlockList<T>, NoMemory>
        requires faithful { (x y : T) → T.is_clone x y → x ≡ y }
        ensures items { IfOk result (λ copy. copy.items ≡ self.now.items) }
    {
        Ok(BlockList {
            alloc: self.alloc,
            blocks: self.blocks.copy()?,
            newest: copy_if(&self.newest)?,
            own: concat(self.alloc, &self.own, &[])?,
        })
    }

    /// The items from place `from` on and below place `to`, in the blocks that they are in, as a list that
    /// shares them. It costs as much as a `copy`.
    pub fn slice(&self, from: usize, to: usize) -> Result<Slice<T>, NoMemory>
        requires order { from ≤ to }
        requires within { to ≤ length self.now.items }
        requires faithful { (x y : T) → T.is_clone x y → x ≡ y }
        ensures items { IfOk result (λ slice. slice ≡ take (to - from) (drop from self.now.items)) }
    {
        Ok(Slice::of(self.copy()?, from, to))
    }

    /// The same list with all items shared, so that a copy of it only counts one more sharer. The cost is that
    /// of a block. Once per block of new items, it also grows with the blocks of the last inner node and the
    /// number of inner nodes.
    pub fn share(&self) -> Result<BlockList<T>, NoMemory>
        requires faithful { (x y : T) → T.is_clone x y → x ≡ y }
        ensures items { IfOk result (λ shared. shared.items ≡ self.now.items) }
    {
        if self.own.is_empty() {
            return self.copy();
        }
        let alloc = self.alloc;
        let newest = items_if(&self.newest);
        if newest.len() + self.own.len() <= BLOCK_LEN {
            let items = concat(alloc, newest, &self.own)?;
            let block = Arc::new(alloc, Block::of(items))?;
            return Ok(BlockList::of_blocks(alloc, self.blocks.copy()?, block));
        }
        let (blocks, newest) = self.in_blocks()?;
        Ok(BlockList::of_blocks(alloc, blocks, newest))
    }

    /// The blocks of the items, and one more block after them. The cost grows with the items that aren't
    /// shared, the blocks of the last inner node, and the number of inner nodes.
    fn in_blocks(&self) -> Result<(Blocks<T>, Arc<Block<T>>), NoMemory>
        requires faithful { (x y : T) → T.is_clone x y → x ≡ y }
        ensures items { IfOk result (λ (blocks, newest). blocks ++ arc_value newest ≡ self.now.items) }
        ensures few { IfOk result (λ (blocks, newest). length (arc_value newest) ≤ block_len) }
    {
        let mut made = Builder::new(self.alloc);
        made.append(self, 0, self.len())?;
        made.into_blocks()
    }

    /// Makes room for one more item.
    pub fn reserve(&mut self) -> Result<(), NoMemory>
        requires faithful { (x y : T) → T.is_clone x y → x ≡ y }
        ensures room { OnOk result (1 ≤ self.new.room) }
        ensures kept { self.old.room ≤ self.new.room }
        ensures items { self.new.items ≡ self.old.items }
    {
        if self.own.len() < BLOCK_LEN {
            self.own.reserve(1)?;
            return Ok(());
        }
        let (blocks, newest) = self.in_blocks()?;
        let mut own = Vec::new(self.alloc);
        own.reserve(1)?;
        self.blocks = blocks;
        self.newest = Some(newest);
        self.own = own;
        Ok(())
    }

    /// Appends an item, for which there is room. It takes no memory.
    pub fn push_reserved(&mut self, item: T)
        requires { 1 ≤ self.old.room }
        ensures items { self.new.items ≡ self.old.items ++ item ∷ [] }
        ensures room { self.old.room ≤ self.new.room + 1 }
    {
        self.own.push_reserved(item);
    }

    /// Appends an item.
    pub fn push(&mut self, item: T) -> Result<(), NoMemory>
        requires faithful { (x y : T) → T.is_clone x y → x ≡ y }
        ensures pushed { IfOk result (λ _. self.new.items ≡ self.old.items ++ item ∷ []) }
        ensures kept { OnErr result (self.new.items ≡ self.old.items) }
    {
        self.reserve()?;
        self.push_reserved(item);
        Ok(())
    }

    /// The list with these items instead of those from place `from` on and below place `to`. The cost grows
    /// with the new items, the items of the blocks at both places and the number of inner nodes. It also grows
    /// with the blocks of the inner nodes there and next to them.
    pub fn replace(&self, from: usize, to: usize, items: &[T]) -> Result<BlockList<T>, NoMemory>
        requires order { from ≤ to }
        requires within { to ≤ length self.now.items }
        requires faithful { (x y : T) → T.is_clone x y → x ≡ y }
        ensures items { IfOk result (λ list. list.items ≡ splice from to items.now self.now.items) }
    {
        let mut made = Builder::new(self.alloc);
        made.append(self, 0, from)?;
        made.push_all(items)?;
        made.append(self, to, self.len())?;
        made.finish()
    }
}

impl<T> BlockList<T> {
    /// The inner node that begins at place `at` and ends at or before `end`, if there is one.
    pub(crate) fn shelf_at(&self, at: usize, end: usize) -> Option<&Arc<InnerNode<T>>>
        requires { at ≤ end }
        ensures { IfSome result (λ shelf. IsRun self.now.items at end (arc_value shelf.now)) }
    {
        let len = self.blocks.len();
        if at < len {
            self.blocks.shelf_at(at, end.min(len))
        } else {
            None
        }
    }

    /// The block that is shared, begins at place `at` and ends at or before `end`, if one does.
    pub(crate) fn block_at(&self, at: usize, end: usize) -> Option<&Arc<Block<T>>>
        requires { at ≤ end }
        ensures { IfSome result (λ block. IsRun self.now.items at end (arc_value block.now)) }
    {
        block_in(&self.blocks, &self.newest, &self.own, at, end)
    }

    /// The list of these blocks and one more. It takes no memory.
    pub(crate) fn of_blocks(alloc: Global, blocks: Blocks<T>, newest: Arc<Block<T>>) -> BlockList<T>
        requires { length (arc_value newest) ≤ block_len }
        ensures { result.items ≡ blocks ++ arc_value newest }
    {
        BlockList {
            alloc,
            blocks,
            newest: Some(newest),
            own: Vec::new(alloc),
        }
    }
}
