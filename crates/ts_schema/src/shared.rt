//! A part of a block of items that its copies share, which contracts see as a plain list.
ghost use Rattle.std.specs.Prelude.{◌≡◌, ◌-◌, ◌≤◌, ◌<◌, ◌^◌, length, take, drop, IfOk};
ghost use Rattle.std.specs.Arc.{arc_value};

use crate::memory::NoMemory;
use crate::sequences::Seq;
use std::alloc::{AllocError, Global};
use std::marker::Model;
use std::sync::Arc;

/// Items that never change: a part of a block, which copies and other parts share. A copy takes no memory
/// except one more count of the block's sharers. Contracts see it as the list of its items.
#[derive(Drop, Debug)]
pub struct SharedSlice<T> {
    block: Arc<Seq<T>>,
    from: u32,
    to: u32,
}

impl<T> Model for SharedSlice<T> {
    ghost use Rattle.std.specs.Prelude.{◌-◌, ◌≤◌, ◌<◌, ◌^◌, List, length, take, drop};

    ghost Value = { List T };

    ghost view = { λ s. take (s.to - s.from) (drop s.from s.block.value) };

    ghost invariant = { λ s. (s.from ≤ s.to) × (s.to ≤ length s.block.value) × (s.to < 2 ^ 32) };
}

impl<T: Drop> SharedSlice<T> {
    /// All items of a list, in a new block. Fails as out of memory for more than 2^32 - 1 items.
    pub fn of(alloc: Global, items: Seq<T>) -> Result<SharedSlice<T>, NoMemory>
        ensures items { IfOk result (λ s. s ≡ items) }
    {
        let to = place(items.len())?;
        Ok(SharedSlice {
            block: Arc::new(alloc, items)?,
            from: 0,
            to,
        })
    }

    /// The items of a block from place `from` on and below place `to`. Fails as out of memory for a place
    /// above 2^32 - 1.
    pub fn part(block: &Arc<Seq<T>>, from: usize, to: usize) -> Result<SharedSlice<T>, NoMemory>
        requires order { from ≤ to }
        requires within { to ≤ length (arc_value block.now) }
        ensures items { IfOk result (λ s. s ≡ take (to - from) (drop from (arc_value block.now))) }
    {
        let from = place(from)?;
        let to = place(to)?;
        Ok(SharedSlice {
            block: Arc::try_clone(block)?,
            from,
            to,
        })
    }

    /// The items from place `from` on and below place `to`, counted from 0.
    pub fn part_of(&self, from: usize, to: usize) -> Result<SharedSlice<T>, NoMemory>
        requires order { from ≤ to }
        requires within { to ≤ length self.now }
        ensures items { IfOk result (λ s. s ≡ take (to - from) (drop from self.now)) }
    {
        let first = self.from as usize;
        SharedSlice::part(&self.block, first + from, first + to)
    }

    /// The number of items.
    #[inline]
    pub fn len(&self) -> usize
        ensures len { result ≡ length self.now }
    {
        (self.to - self.from) as usize
    }

    /// The items, in order.
    #[inline]
    pub fn items(&self) -> &[T]
        ensures items { result.now ≡ self.now }
    {
        &self.block.items()[self.from as usize..self.to as usize]
    }

    /// A copy of the items.
    pub fn copy(&self) -> Result<SharedSlice<T>, NoMemory>
        ensures same { IfOk result (λ copy. copy ≡ self.now) }
    {
        Ok(SharedSlice {
            block: Arc::try_clone(&self.block)?,
            from: self.from,
            to: self.to,
        })
    }
}

/// Returns a place in a block as 32 bits, or fails as out of memory if it doesn't fit.
#[inline]
pub(crate) fn place(i: usize) -> Result<u32, NoMemory>
    ensures place { IfOk result (λ place. place ≡ i) }
    ensures small { IfOk result (λ place. place < 2 ^ 32) }
{
    match u32::try_from(i) {
        Ok(place) => Ok(place),
        Err(_) => Err(NoMemory),
    }
}

impl<T: Drop> Clone for SharedSlice<T> {
    ghost is_clone = { λ a b. a ≡ b };

    fn clone(&self) -> Result<SharedSlice<T>, AllocError> {
        Ok(SharedSlice {
            block: self.block.clone()?,
            from: self.from,
            to: self.to,
        })
    }
}

impl<T: PartialEq + Drop> PartialEq for SharedSlice<T> {
    ghost use Rattle.std.specs.Cmp.Lexicographic.{pointwise, lists_per};

    ghost eq = { pointwise T.eq };

    ghost laws = { lists_per T.laws };

    fn eq(&self, other: &SharedSlice<T>) -> bool {
        self.items() == other.items()
    }
}

impl<T: Eq + Drop> Eq for SharedSlice<T> {
    ghost use Rattle.std.specs.Cmp.Lexicographic.{lists_equiv};

    ghost laws = { lists_equiv T.Eq.laws };
}
