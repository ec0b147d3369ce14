//! Items of a list from a place on and below another, as a separate list.
ghost use Rattle.std.specs.Prelude.{◌≡◌, ◌==◌, ◌-◌, ◌<◌, ◌≤◌, ◌^◌, [], length, take, drop};

use crate::iter::Iter;
use crate::lists::BlockList;
use std::alloc::Global;
use std::marker::Model;

/// Consecutive items of a list. It shares their blocks with the list. Contracts see them as a list.
#[derive(Drop, Debug)]
pub struct Slice<T> {
    list: BlockList<T>,
    from: usize,
    to: usize,
}

impl<T> Model for Slice<T> {
    ghost use Rattle.std.specs.Prelude.{◌-◌, ◌<◌, ◌≤◌, ◌^◌, List, length, take, drop};

    ghost Value = { List T };

    ghost view = { λ s. take (s.to - s.from) (drop s.from s.list.items) };

    ghost invariant = { λ s. (s.from ≤ s.to) × (s.to ≤ length s.list.items) × (s.to < 2 ^ 63) };
}

impl<T> Slice<T> {
    /// No item. It takes no memory.
    pub fn none(alloc: Global) -> Slice<T>
        ensures items { result ≡ [] }
    {
        Slice {
            list: BlockList::new(alloc),
            from: 0,
            to: 0,
        }
    }

    /// The items of a list from place `from` on and below place `to`. It takes no memory.
    pub(crate) fn of(list: BlockList<T>, from: usize, to: usize) -> Slice<T>
        requires order { from ≤ to }
        requires within { to ≤ length list.items }
        ensures items { result ≡ take (to - from) (drop from list.items) }
    {
        // Reading the length tells the prover that it has 64 bits.
        let _most = list.len();
        Slice { list, from, to }
    }

    /// The number of items.
    pub fn len(&self) -> usize
        ensures len { result ≡ length self.now }
        ensures few { result < 2 ^ 63 }
    {
        self.to - self.from
    }

    /// Whether there is no item.
    pub fn is_empty(&self) -> bool
        ensures empty { result ≡ (length self.now == 0) }
    {
        self.len() == 0
    }

    /// The items, in order.
    pub fn iter(&self) -> Iter<'_, T>
        ensures items { result ≡ self.now }
    {
        self.list.range(self.from, self.to)
    }
}
