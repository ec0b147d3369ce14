//! The items of a list, in order.
ghost use Rattle.std.specs.Prelude.{◌≡◌, ◌-◌, ◌≤◌, length, take, drop};
ghost use Rattle.std.specs.Iterator.{YieldsFirstRef, item_count};

use crate::lists::BlockList;
use std::marker::Model;

/// The remaining items of a list. Contracts see it as the list of them.
#[derive(Drop)]
pub struct Iter<'a, T> {
    list: &'a BlockList<T>,
    at: usize,
    end: usize,
    run: &'a [T],
}

impl<'a, T> Model for Iter<'a, T> {
    ghost use Rattle.std.specs.Prelude.{◌++◌, ◌-◌, ◌≤◌, List, take, drop, length};

    ghost Value = { List T };

    ghost view = { λ i. i.run.now ++ take (i.end - i.at) (drop i.at i.list.now.items) };

    ghost invariant = { λ i.
        (length i.run.now ≤ i.at) × (i.at ≤ i.end) × (i.end ≤ length i.list.now.items) };
}

impl<'a, T> Iter<'a, T> {
    /// The items of a list from place `from` on and below place `to`.
    pub(crate) fn of(list: &'a BlockList<T>, from: usize, to: usize) -> Iter<'a, T>
        requires order { from ≤ to }
        requires within { to ≤ length list.now.items }
        ensures items { result ≡ take (to - from) (drop from list.now.items) }
    {
        Iter {
            list,
            at: from,
            end: to,
            run: &[],
        }
    }

    /// The number of items left.
    pub fn len(&self) -> usize
        ensures len { result ≡ length self.now }
    {
        self.run.len() + (self.end - self.at)
    }
}

impl<'a, T> Iterator for Iter<'a, T> {
    type Item = &'a T;

    ghost next_gives = { YieldsFirstRef (λ i. i) };

    ghost remaining = { item_count (λ i. i) };

    fn next(&mut self) -> Option<&'a T> {
        if let Some((first, rest)) = self.run.split_first() {
            self.run = rest;
            return Some(first);
        }
        if self.at == self.end {
            return None;
        }
        let run = self.list.run_below(self.at, self.end);
        let (first, rest) = run.split_first()?;
        self.at += run.len();
        self.run = rest;
        Some(first)
    }
}
