//! The values of rows, whose marks of NULL are separate from the numbers. Contracts see them as a plain list.
ghost use Rattle.std.specs.Prelude.{◌≡◌, ◌==◌, ◌-◌, ◌≤◌, ◌<◌, ◌^◌, [], ◌∷◌, ◌++◌, None, Some, false, length, take, drop, slice_index_or, IfOk, OnErr};
ghost use Rattle.std.specs.Arc.{arc_value};
ghost use Rattle.std.specs.Ordering.{int_eq};
ghost use Rattle.std.specs.Option.{option_eq};
ghost use Rattle.std.specs.Cmp.Lexicographic.{pointwise};
ghost use Rattle.ts_schema.specs.Values.{marked_values, unless_marked};

use crate::memory::NoMemory;
use crate::shared::place;
use std::alloc::{AllocError, Global};
use std::marker::Model;
use std::sync::Arc;

/// Values in order, where NULL is `None`. A value takes 8 bytes. Those up to the last NULL take one more byte
/// each. Few tables have a NULL. Contracts see the list of values.
#[derive(Drop, Debug)]
pub struct ValueBlock {
    /// The numbers, with 0 for each NULL.
    numbers: Vec<i64>,
    /// Whether each value is NULL, up to the last NULL.
    nulls: Vec<bool>,
}

impl Model for ValueBlock {
    ghost use Rattle.std.specs.Prelude.{◌≤◌, List, Option, ℤ, length};
    ghost use Rattle.ts_schema.specs.Values.{marked_values};

    ghost Value = { List (Option ℤ) };

    ghost view = { λ b. marked_values b.nulls.items b.numbers.items };

    ghost invariant = { λ b. length b.nulls.items ≤ length b.numbers.items };
}

impl ValueBlock {
    /// No values. It takes no memory.
    pub fn new(alloc: Global) -> ValueBlock
        ensures items { result ≡ [] }
    {
        ValueBlock {
            numbers: Vec::new(alloc),
            nulls: Vec::new(alloc),
        }
    }

    /// No values, with room for `room` of them.
    pub fn with_capacity(alloc: Global, room: usize) -> Result<ValueBlock, NoMemory>
        ensures items { IfOk result (λ block. block ≡ []) }
    {
        Ok(ValueBlock {
            numbers: Vec::with_capacity(alloc, room)?,
            nulls: Vec::new(alloc),
        })
    }

    /// The number of values.
    #[inline(always)]
    pub fn len(&self) -> usize
        ensures len { result ≡ length self.now }
    {
        self.numbers.as_slice().len()
    }

    /// Whether there is no value.
    pub fn is_empty(&self) -> bool
        ensures empty { result ≡ (length self.now == 0) }
    {
        self.len() == 0
    }

    /// The value at place `i`, counted from 0.
    #[inline(always)]
    pub fn get(&self, i: usize) -> Option<i64>
        requires { i < length self.now }
        ensures value { result ≡ slice_index_or self.now i None }
    {
        value_at(self.numbers.as_slice(), self.nulls.as_slice(), i)
    }

    /// Appends a value.
    #[inline(always)]
    pub fn push(&mut self, value: Option<i64>) -> Result<(), NoMemory>
        ensures pushed { IfOk result (λ _. self.new ≡ self.old ++ value ∷ []) }
        ensures kept { OnErr result (self.new ≡ self.old) }
    {
        match value {
            Some(number) => self.push_number(number),
            None => self.push_null(),
        }
    }

    /// Appends a number.
    #[inline(always)]
    fn push_number(&mut self, number: i64) -> Result<(), NoMemory>
        ensures pushed { IfOk result (λ _. self.new ≡ self.old ++ Some number ∷ []) }
        ensures kept { OnErr result (self.new ≡ self.old) }
    {
        self.numbers.push(number)?;
        Ok(())
    }

    /// Appends NULL. Adds marks up to its place.
    fn push_null(&mut self) -> Result<(), NoMemory>
        ensures pushed { IfOk result (λ _. self.new ≡ self.old ++ None ∷ []) }
        ensures kept { OnErr result (self.new ≡ self.old) }
    {
        self.nulls.resize(self.numbers.as_slice().len(), false)?;
        self.nulls.reserve(1)?;
        self.numbers.push(0)?;
        self.nulls.push_reserved(true);
        Ok(())
    }
}

/// The value at a place, from the numbers and the marks.
#[inline(always)]
fn value_at(numbers: &[i64], nulls: &[bool], i: usize) -> Option<i64>
    requires { i < length numbers.now }
    ensures { result ≡ slice_index_or (marked_values nulls.now numbers.now) i None }
{
    unless_marked(is_marked(nulls, i), numbers[i])
}

/// Whether the value at place `i` is NULL, by the marks.
#[inline(always)]
fn is_marked(nulls: &[bool], i: usize) -> bool
    ensures { result ≡ slice_index_or nulls.now i false }
{
    if i < nulls.len() { nulls[i] } else { false }
}

/// A number, or NULL if it is marked.
#[inline(always)]
fn unless_marked(null: bool, number: i64) -> Option<i64>
    ensures { result ≡ unless_marked null number }
{
    if null { None } else { Some(number) }
}

/// Values that never change: a part of a block, which copies and other parts share. A copy takes no memory
/// except one more count of the block's sharers. Contracts see it as the list of its values.
#[derive(Drop, Debug)]
pub struct Values {
    block: Arc<ValueBlock>,
    from: u32,
    to: u32,
}

impl Model for Values {
    ghost use Rattle.std.specs.Prelude.{◌-◌, ◌≤◌, ◌<◌, ◌^◌, List, Option, ℤ, length, take, drop};

    ghost Value = { List (Option ℤ) };

    ghost view = { λ s. take (s.to - s.from) (drop s.from s.block.value) };

    ghost invariant = { λ s. (s.from ≤ s.to) × (s.to ≤ length s.block.value) × (s.to < 2 ^ 32) };
}

impl Values {
    /// All values of a block. Fails as out of memory for more than 2^32 - 1 values.
    pub fn of(alloc: Global, block: ValueBlock) -> Result<Values, NoMemory>
        ensures items { IfOk result (λ s. s ≡ block) }
    {
        let to = place(block.len())?;
        Ok(Values {
            block: Arc::new(alloc, block)?,
            from: 0,
            to,
        })
    }

    /// The values of a block from place `from` on and below place `to`. Fails as out of memory for a place
    /// above 2^32 - 1.
    #[inline(always)]
    pub fn part(block: &Arc<ValueBlock>, from: usize, to: usize) -> Result<Values, NoMemory>
        requires order { from ≤ to }
        requires within { to ≤ length (arc_value block.now) }
        ensures items { IfOk result (λ s. s ≡ take (to - from) (drop from (arc_value block.now))) }
    {
        let from = place(from)?;
        let to = place(to)?;
        Ok(Values {
            block: Arc::try_clone(block)?,
            from,
            to,
        })
    }

    /// The number of values.
    #[inline(always)]
    pub fn len(&self) -> usize
        ensures len { result ≡ length self.now }
    {
        (self.to - self.from) as usize
    }

    /// Whether there is no value.
    pub fn is_empty(&self) -> bool
        ensures empty { result ≡ (length self.now == 0) }
    {
        self.len() == 0
    }

    /// The value at place `i`, counted from 0.
    #[inline(always)]
    pub fn get(&self, i: usize) -> Option<i64>
        requires { i < length self.now }
        ensures value { result ≡ slice_index_or self.now i None }
    {
        self.block.get(self.from as usize + i)
    }

    /// A copy of the values.
    pub fn copy(&self) -> Result<Values, NoMemory>
        ensures same { IfOk result (λ copy. copy ≡ self.now) }
    {
        Ok(Values {
            block: Arc::try_clone(&self.block)?,
            from: self.from,
            to: self.to,
        })
    }
}

/// Whether both have the same values.
fn are_same(a: &Values, b: &Values) -> bool
    ensures { result ≡ pointwise (option_eq int_eq) a.now b.now }
{
    if a.len() != b.len() {
        return false;
    }
    for i in 0..a.len() {
        if a.get(i) != b.get(i) {
            return false;
        }
    }
    true
}

impl Clone for Values {
    ghost use Rattle.std.specs.Prelude.{◌≡◌};

    ghost is_clone = { λ a b. a ≡ b };

    fn clone(&self) -> Result<Values, AllocError> {
        Ok(Values {
            block: self.block.clone()?,
            from: self.from,
            to: self.to,
        })
    }
}

impl PartialEq for Values {
    ghost use Rattle.std.specs.Ordering.{int_eq};
    ghost use Rattle.std.specs.Option.{option_eq};
    ghost use Rattle.std.specs.Cmp.Lexicographic.{pointwise};
    ghost use Rattle.std.proofs.Common.{rules};
    ghost use Rattle.std.specs.Cmp.Rules.{comparing};

    ghost eq = { pointwise (option_eq int_eq) };

    ghost laws = { Prim.search (comparing, rules) };

    fn eq(&self, other: &Values) -> bool {
        are_same(self, other)
    }
}

impl Eq for Values {
    ghost use Rattle.std.proofs.Common.{rules};
    ghost use Rattle.std.specs.Cmp.Rules.{comparing};

    ghost laws = { Prim.search (comparing, rules) };
}
