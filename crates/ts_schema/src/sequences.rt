//! A list of items, which contracts see as a plain list.
ghost use Rattle.std.specs.Prelude.{◌≡◌, ◌==◌, ◌<◌, [], ◌∷◌, ◌++◌, length, slice_index_or, slice_set, vec_len, IfOk, OnErr};

use crate::memory::NoMemory;
use std::alloc::Global;
use std::marker::Model;

/// A list of items. It keeps the allocator that it was created with.
#[derive(Drop, Debug)]
pub struct Seq<T> {
    items: Vec<T>,
}

impl<T> Model for Seq<T> {
    ghost use Rattle.std.specs.Prelude.{List};

    ghost Value = { List T };

    ghost view = { λ s. s.items.items };
}

impl<T> Seq<T> {
    /// The empty list. It takes no memory.
    pub fn new(alloc: Global) -> Seq<T>
        ensures items { result ≡ [] }
    {
        Seq {
            items: Vec::new(alloc),
        }
    }

    /// The list of these items. It takes no memory.
    pub fn of(items: Vec<T>) -> Seq<T>
        ensures items { result ≡ items.items }
    {
        Seq { items }
    }

    /// The items as a vector. It takes no memory.
    pub fn into_items(self) -> Vec<T>
        ensures items { result.items ≡ self }
    {
        self.items
    }

    /// The number of items.
    #[inline(always)]
    pub fn len(&self) -> usize
        ensures len { result ≡ length self.now }
    {
        self.items.len()
    }

    /// Whether there is no item.
    pub fn is_empty(&self) -> bool
        ensures empty { result ≡ (length self.now == 0) }
    {
        self.items.is_empty()
    }

    /// The items, in order.
    #[inline(always)]
    pub fn items(&self) -> &[T]
        ensures items { result.now ≡ self.now }
    {
        self.items.as_slice()
    }

    /// The item at place `i`, counted from 0.
    #[inline(always)]
    pub fn get(&self, i: usize) -> &T
        requires { i < length self.now }
        ensures item { result.now ≡ slice_index_or self.now i result.now }
    {
        &self.items.as_slice()[i]
    }

    /// Replaces the item at place `i`, counted from 0.
    #[inline(always)]
    pub fn set(&mut self, i: usize, item: T)
    where
        T: Drop,
        requires { i < length self.old }
        ensures set { self.new ≡ slice_set self.old i item }
    {
        self.items[i] = item;
    }

    /// Appends an item.
    pub fn push(&mut self, item: T) -> Result<(), NoMemory>
    where
        T: Drop,
        ensures pushed { IfOk result (λ _. self.new ≡ self.old ++ item ∷ []) }
        ensures kept { OnErr result (self.new ≡ self.old) }
    {
        self.items.push(item)?;
        Ok(())
    }
}

impl<T: Clone> Seq<T> {
    /// A copy of the list, if a clone of an item equals the item.
    pub fn copy(&self) -> Result<Seq<T>, NoMemory>
        requires faithful { (x y : T) → T.is_clone x y → x ≡ y }
        ensures same { IfOk result (λ copy. copy ≡ self.now) }
    {
        Ok(Seq {
            items: self.items.clone()?,
        })
    }
}

impl<T: Clone> Clone for Seq<T> {
    ghost use Rattle.std.specs.List.{AllZip};

    ghost is_clone = { AllZip T.is_clone };

    fn clone(&self) -> Result<Seq<T>, std::alloc::AllocError> {
        Ok(Seq {
            items: self.items.clone()?,
        })
    }
}

impl<T: PartialEq> PartialEq for Seq<T> {
    ghost use Rattle.std.specs.Cmp.Lexicographic.{pointwise, lists_per};

    ghost eq = { pointwise T.eq };

    ghost laws = { lists_per T.laws };

    fn eq(&self, other: &Seq<T>) -> bool {
        self.items.as_slice() == other.items.as_slice()
    }
}

impl<T: Eq> Eq for Seq<T> {
    ghost use Rattle.std.specs.Cmp.Lexicographic.{lists_equiv};

    ghost laws = { lists_equiv T.Eq.laws };
}
