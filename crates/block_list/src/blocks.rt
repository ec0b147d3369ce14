//! Blocks: runs of items.
ghost use Rattle.std.specs.Prelude.{◌≡◌, ◌≤◌, length, vec_len};
ghost use Rattle.block_list.specs.Blocks.{block_len};

use crate::parts::Items;
use std::marker::Model;

/// The greatest number of items of a block. A change copies the items of the blocks where it begins and ends,
/// and a block costs the list about 60 bytes. With 64 items both are small compared with the items themselves.
pub const BLOCK_LEN: usize = 64;

/// Items that never change, 64 at most.
#[derive(Drop, Debug)]
pub(crate) struct Block<T> {
    items: Vec<T>,
}

impl<T> Model for Block<T> {
    ghost use Rattle.std.specs.Prelude.{◌≤◌, List, vec_len};
    ghost use Rattle.block_list.specs.Blocks.{block_len};

    ghost Value = { List T };

    ghost view = { λ b. b.items.items };

    ghost invariant = { λ b. vec_len b.items ≤ block_len };
}

impl<T> Block<T> {
    /// The block of these items. It takes no memory.
    pub(crate) fn of(items: Vec<T>) -> Block<T>
        requires { vec_len items ≤ block_len }
        ensures { result ≡ items.items }
    {
        Block { items }
    }

    /// Its items, in order.
    pub(crate) fn items(&self) -> &[T]
        ensures items { result.now ≡ self.now }
        ensures few { length result.now ≤ block_len }
    {
        self.items.as_slice()
    }
}

impl<T> Items for Block<T> {
    type Item = T;

    ghost items = { λ b. b };

    fn len(&self) -> usize {
        self.items.len()
    }

    fn run_at(&self, i: usize) -> &[T] {
        &self.items.as_slice()[i..]
    }
}
