//! The groups of rows while rows are added.
ghost use Rattle.std.specs.Prelude.{◌≡◌, ◌++◌, ◌∷◌, ◌+◌, ◌<◌, ◌^◌, ℕ, [], Some, IsOkUnless, OnOk, false, true};
ghost use Rattle.std.specs.declared.cmp.Ordering.TheVariants.{Equal, Less};
ghost use Rattle.group_fold.specs.Gathering.{in_group_order};
ghost use Rattle.group_fold.specs.Merging.{with_group};
ghost use Rattle.cell_groups.specs.Groups.{as_groups, cells_at};
ghost use Rattle.cell_groups.specs.Room.{AreOfRows, ShowWords};
ghost use Rattle.cell_groups.specs.TakenRows.{AreGathered, ComesLast, IsAfter, IsPlace, IsRowAt};

use crate::cells::RowCells;
use crate::groups::{CellGroup, group_of, take_row};
use crate::orders::order_beside;
use crate::prints::print_of;
use crate::shapes::Shape;
use crate::stops::Stop;
use std::alloc::Global;
use std::cmp::Ordering;
use std::collections::HashMap;
use ts_schema::NoMemory;

/// The place of the group of a row.
pub(crate) enum GroupSlot {
    /// At this place.
    At(usize),
    /// It isn't there, and it comes after all others, which are in order.
    End,
    /// It wasn't found.
    Unknown,
}

/// Groups while rows are added, in order while each new one comes after all others. `last`, `expected` and
/// `places` only make it fast: each place in them is checked before it is used, and a group may occur twice.
#[derive(Drop)]
pub struct CellGroups<'a> {
    /// The groups so far.
    pub groups: Vec<CellGroup<'a>>,
    /// Whether each group is before the next. If it is false, `places` has all of them.
    pub in_order: bool,
    /// The place of the group of the last row.
    last: usize,
    /// The expected place of the group of the next row: as far from `last` as `last` is from the one before.
    expected: usize,
    /// The place at which a group may be, by the hash of its bucket and keys.
    places: HashMap<u64, usize>,
}

impl<'a> CellGroups<'a> {
    /// No groups.
    pub fn new(alloc: Global) -> CellGroups<'a>
        ensures none { result.groups.items ≡ [] }
    {
        CellGroups {
            groups: Vec::new(alloc),
            in_order: true,
            last: 0,
            expected: 0,
            places: HashMap::new(alloc),
        }
    }

    /// Adds a row to the group of its keys in the bucket that starts at `start`, or as a new group. For fewer
    /// than `2^64` rows of 64-bit numbers no count and no sum is too large. After an error the groups are
    /// undefined.
    pub fn take(
        &mut self,
        alloc: Global,
        shape: &Shape,
        start: i128,
        cells: RowCells<'a>,
    ) -> Result<(), Stop>
        requires { AreGathered shape.now self.old }
        ensures groups { OnOk result (in_group_order (as_groups shape.now self.new.groups.items) ≡ with_group (cells_at shape.now start cells.entry) (in_group_order (as_groups shape.now self.old.groups.items))) }
        ensures gathered { OnOk result (AreGathered shape.now self.new) }
        ensures few { (n : ℕ) → AreOfRows n (as_groups shape.now self.old.groups.items) → ShowWords cells.entry → OnOk result (AreOfRows (n + 1) (as_groups shape.now self.new.groups.items)) }
        ensures room { (n : ℕ) → AreOfRows n (as_groups shape.now self.old.groups.items) → ShowWords cells.entry → n + 1 < 2 ^ 64 → IsOkUnless result (Stop.NoMemory) }
    {
        match self.find(shape, start, &cells) {
            GroupSlot::At(at) => {
                self.expected = at.wrapping_add(at.wrapping_sub(self.last));
                self.last = at;
                take_row(alloc, shape.aggs.items(), &mut self.groups[at], &cells)
            }
            GroupSlot::End => Ok(self.put_last(group_of(start, cells))?),
            GroupSlot::Unknown => Ok(self.put(shape, group_of(start, cells))?),
        }
    }

    /// Finds the group of a row. Tries the expected place first: the same keys occur in each bucket, mostly in
    /// the same order.
    #[inline(always)]
    fn find(&self, shape: &Shape, start: i128, cells: &RowCells<'_>) -> GroupSlot
        ensures { IsPlace shape.now start cells.now self.now.groups.items result }
    {
        match place_at(self.groups.as_slice(), self.expected, shape, start, cells) {
            GroupSlot::At(at) => GroupSlot::At(at),
            GroupSlot::End | GroupSlot::Unknown => self.find_near(shape, start, cells),
        }
    }

    /// The same if it isn't the expected group. Tries the group of the row before and the one after it next.
    fn find_near(&self, shape: &Shape, start: i128, cells: &RowCells<'_>) -> GroupSlot
        ensures { IsPlace shape.now start cells.now self.now.groups.items result }
    {
        match order_at(self.groups.as_slice(), self.last, shape, start, cells) {
            Some(Ordering::Less) => self.find_after(shape, start, cells),
            Some(Ordering::Equal) => GroupSlot::At(self.last),
            Some(Ordering::Greater) | None => self.find_away(shape, start, cells),
        }
    }

    /// The same for a row that comes after the group of the row before.
    fn find_after(&self, shape: &Shape, start: i128, cells: &RowCells<'_>) -> GroupSlot
        requires { IsAfter shape.now start cells.now self.now.groups.items self.now.last }
        ensures { IsPlace shape.now start cells.now self.now.groups.items result }
    {
        let next = self.last + 1;
        if self.in_order && next == self.groups.len() {
            return GroupSlot::End;
        }
        match order_at(self.groups.as_slice(), next, shape, start, cells) {
            Some(Ordering::Equal) => GroupSlot::At(next),
            Some(Ordering::Less) | Some(Ordering::Greater) | None => {
                self.find_away(shape, start, cells)
            }
        }
    }

    /// The same if neither that group nor the next one is the row's.
    fn find_away(&self, shape: &Shape, start: i128, cells: &RowCells<'_>) -> GroupSlot
        ensures { IsPlace shape.now start cells.now self.now.groups.items result }
    {
        let groups = self.groups.as_slice();
        if !self.in_order {
            let print = print_of(shape.keys.items(), start, cells);
            return match self.places.get(&print) {
                Some(at) => place_at(groups, *at, shape, start, cells),
                None => GroupSlot::Unknown,
            };
        }
        if is_behind(groups, shape, start, cells) {
            return GroupSlot::End;
        }
        let at = groups.partition_point(|group: &CellGroup<'_>| {
            order_beside(shape, group, start, cells) == Ordering::Less
        });
        place_at(groups, at, shape, start, cells)
    }

    /// Appends a group that comes after the others.
    fn put_last(&mut self, group: CellGroup<'a>) -> Result<(), NoMemory>
        ensures groups { OnOk result (self.new.groups.items ≡ self.old.groups.items ++ group.entry ∷ []) }
        ensures order { self.new.in_order ≡ self.old.in_order }
    {
        self.last = self.groups.len();
        self.groups.push(group)?;
        self.expected = self.groups.len();
        Ok(())
    }

    /// Appends a group that comes before some other one.
    fn put(&mut self, shape: &Shape, group: CellGroup<'a>) -> Result<(), NoMemory>
        ensures groups { OnOk result (self.new.groups.items ≡ self.old.groups.items ++ group.entry ∷ []) }
        ensures order { OnOk result (self.new.in_order ≡ false) }
    {
        if self.in_order {
            self.note_places(shape)?;
        }
        let print = print_of(shape.keys.items(), group.start, &group.first);
        self.places.insert(print, self.groups.len())?;
        self.put_last(group)
    }

    /// Stores the places of the groups, which are no longer in order.
    fn note_places(&mut self, shape: &Shape) -> Result<(), NoMemory>
        ensures groups { self.new.groups.items ≡ self.old.groups.items }
        ensures order { self.new.in_order ≡ false }
    {
        self.in_order = false;
        self.places.reserve(self.groups.len())?;
        for at in 0..self.groups.len() {
            let group = &self.groups[at];
            let print = print_of(shape.keys.items(), group.start, &group.first);
            self.places.insert(print, at)?;
        }
        Ok(())
    }
}

/// How the group at a place compares with that of a row, if there is one at the place.
#[inline(always)]
fn order_at(
    groups: &[CellGroup<'_>],
    at: usize,
    shape: &Shape,
    start: i128,
    cells: &RowCells<'_>,
) -> Option<Ordering>
    ensures same { result ≡ Some Equal → IsRowAt shape.now start cells.now groups.now at }
    ensures after { result ≡ Some Less → IsAfter shape.now start cells.now groups.now at }
{
    let group = groups.get(at)?;
    Some(order_beside(shape, group, start, cells))
}

/// This place, if the group of a row is there.
#[inline(always)]
fn place_at(
    groups: &[CellGroup<'_>],
    at: usize,
    shape: &Shape,
    start: i128,
    cells: &RowCells<'_>,
) -> GroupSlot
    ensures { IsPlace shape.now start cells.now groups.now result }
{
    match order_at(groups, at, shape, start, cells) {
        Some(Ordering::Equal) => GroupSlot::At(at),
        Some(Ordering::Less) | Some(Ordering::Greater) | None => GroupSlot::Unknown,
    }
}

/// Whether the group of a row comes after the last of these, or there is none.
fn is_behind(groups: &[CellGroup<'_>], shape: &Shape, start: i128, cells: &RowCells<'_>) -> bool
    ensures { result ≡ true → ComesLast shape.now start cells.now groups.now }
{
    match groups {
        [] => true,
        [.., last] => order_beside(shape, last, start, cells) == Ordering::Less,
    }
}
