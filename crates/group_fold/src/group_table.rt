//! Groups as rows are added.
ghost use Rattle.std.specs.Prelude.{◌≡◌, ◌≤◌, ◌≤ℤ◌, [], IfErr, IfOk, IsTrue, OnOk, length};
ghost use Rattle.std.specs.List.{insert};
ghost use Rattle.ts_schema.specs.declared.rows.Row.{Row};
ghost use Rattle.ts_bucket.specs.Bucket.{IsWidth, bucket_of, holds, is_time, max_time};
ghost use Rattle.group_fold.specs.Grouping.{AreTimes, row_at};
ghost use Rattle.group_fold.specs.Gathering.{HasRoom, HaveParts, IsAt, IsStart, Takes, TakesAll};

use crate::heads::Head;
use crate::members::is_of;
use crate::near_places::place_of;
use crate::open_groups::OpenGroups;
use std::alloc::Global;
use std::collections::HashMap;
use ts_bucket::{Width, bucket, first};
use ts_model::Fold;
use ts_schema::{NoMemory, Row, field, passes};

/// The number of groups whose move costs as much as one search.
const MOVES_A_SEARCH: usize = 8;

/// The number of groups, beyond those that exist, for which four searches each are allowed before rows count as
/// out of order.
const FREE_STRAYS: usize = 16;

/// Groups, in order while rows come nearly in order. The other fields only make it fast: each place in them is
/// checked before it is used, and a group may occur twice.
#[derive(Drop)]
pub(crate) struct GroupTable {
    pub(crate) groups: OpenGroups,
    /// The place of the group of the last row.
    last: usize,
    /// The number of searches away from that place, plus a fraction of the number of groups moved for new ones.
    strayed: usize,
    /// Whether rows came too far out of order. From then on new groups are appended, and `places` has all of
    /// them.
    is_mixed: bool,
    /// The place at which a group may be, by the hash of its bucket and keys.
    places: HashMap<u64, usize>,
}

impl GroupTable {
    /// No groups.
    pub(crate) fn new(alloc: Global) -> GroupTable
        ensures none { result.groups ≡ [] }
    {
        GroupTable {
            groups: OpenGroups::new(alloc),
            last: 0,
            strayed: 0,
            is_mixed: false,
            places: HashMap::new(alloc),
        }
    }

    /// Adds these rows.
    pub(crate) fn take_rows(
        &mut self,
        alloc: Global,
        plan: &Fold,
        rows: &[Row],
    ) -> Result<(), NoMemory>
        requires times { AreTimes rows.now }
        requires width { IsWidth plan.now.width }
        requires room { HasRoom (length rows.now) plan.now self.old.groups }
        ensures { OnOk result (TakesAll plan.now rows.now self.old.groups self.new.groups) }
    {
        let mut start = first(plan.width);
        for row in rows {
            start = start_near(plan.width, start, row.at);
            if passes(row, &plan.tests) {
                self.take_row(alloc, plan, row, start)?;
            }
        }
        Ok(())
    }

    /// Adds a row, whose bucket starts at `start`, to the group of its bucket and keys, or as a new group.
    #[inline(always)]
    fn take_row(
        &mut self,
        alloc: Global,
        plan: &Fold,
        row: &Row,
        start: i64,
    ) -> Result<(), NoMemory>
        requires start { start ≡ bucket_of plan.now.width row.now.at }
        requires room { HasRoom 1 plan.now self.old.groups }
        ensures { OnOk result (Takes plan.now row.now self.old.groups self.new.groups) }
    {
        self.note_if_astray()?;
        match self.find(plan, row, start) {
            Ok(at) => {
                self.strayed = astray(self.strayed, self.last, at);
                self.last = at;
                self.groups.add(at, plan, row);
                Ok(())
            }
            Err(at) => self.put(alloc, at, plan, row, start),
        }
    }

    /// The place of the group of a row, or otherwise the place to insert it.
    #[inline(always)]
    fn find(&self, plan: &Fold, row: &Row, start: i64) -> Result<usize, usize>
        ensures found { IfOk result (IsAt (row_at plan.now start row.now) self.now.groups) }
        ensures free { IfErr result (λ at. at ≤ length self.now.groups) }
    {
        if self.is_mixed {
            self.find_by_print(plan, row, start)
        } else {
            place_of(self.groups.heads(), self.last, plan, row, start)
        }
    }

    fn find_by_print(&self, plan: &Fold, row: &Row, start: i64) -> Result<usize, usize>
        ensures found { IfOk result (IsAt (row_at plan.now start row.now) self.now.groups) }
        ensures free { IfErr result (λ at. at ≤ length self.now.groups) }
    {
        let heads = self.groups.heads();
        if is_of(heads, self.last, plan, row, start) {
            return Ok(self.last);
        }
        match self.places.get(&print_of(plan, row, start)) {
            Some(at) => if is_of(heads, *at, plan, row, start) {
                Ok(*at)
            } else {
                Err(heads.len())
            },
            None => Err(heads.len()),
        }
    }

    /// Inserts the group of a row.
    fn put(
        &mut self,
        alloc: Global,
        at: usize,
        plan: &Fold,
        row: &Row,
        start: i64,
    ) -> Result<(), NoMemory>
        requires within { at ≤ length self.old.groups }
        requires alike { HaveParts (length plan.now.aggs) self.old.groups }
        ensures { OnOk result (self.new.groups ≡ insert self.old.groups at (row_at plan.now start row.now)) }
    {
        if self.is_mixed {
            self.places.insert(print_of(plan, row, start), at)?;
        }
        let moved = (self.groups.len() - at) / MOVES_A_SEARCH;
        self.strayed = astray(self.strayed, self.last, at).saturating_add(moved);
        self.last = at;
        self.groups.put(alloc, at, plan, row, start)
    }

    /// Stores the places of the groups, once rows have strayed too often for the number of groups.
    #[inline(always)]
    fn note_if_astray(&mut self) -> Result<(), NoMemory>
        ensures { OnOk result (self.new.groups ≡ self.old.groups) }
    {
        let most = self
            .groups
            .len()
            .saturating_add(FREE_STRAYS)
            .saturating_mul(4);
        if self.is_mixed || self.strayed <= most {
            return Ok(());
        }
        self.note_places()
    }

    /// Stores the places of the groups.
    fn note_places(&mut self) -> Result<(), NoMemory>
        ensures { OnOk result (self.new.groups ≡ self.old.groups) }
    {
        self.is_mixed = true;
        self.places.reserve(self.groups.len())?;
        for at in 0..self.groups.len() {
            let print = print_of_head(&self.groups.heads()[at]);
            self.places.insert(print, at)?;
        }
        Ok(())
    }
}

/// The start of the bucket of a time, given the start of some bucket near it. No division is needed if that
/// bucket holds the time, as that of the row before usually does.
#[inline(always)]
fn start_near(width: Width, near: i64, at: i64) -> i64
    requires width { IsWidth width }
    requires near { IsStart width near }
    requires time { IsTrue (is_time at) }
    ensures start { result ≡ bucket_of width at }
{
    if is_held(width, near, at) {
        near
    } else {
        bucket(width, at)
    }
}

/// Whether the bucket that starts there holds a time.
#[inline(always)]
fn is_held(width: Width, start: i64, at: i64) -> bool
    requires width { IsWidth width }
    requires low { start ≤ℤ max_time }
    ensures { result ≡ holds width start at }
{
    start <= at && at < start + width.step
}

/// The updated count of searches and moves, after a row's group was found at place `at` and the one before it
/// at `last`.
#[inline(always)]
fn astray(before: usize, last: usize, at: usize) -> usize {
    if at == last || at.wrapping_sub(last) == 1 {
        before
    } else {
        before.saturating_add(1)
    }
}

/// A hash: rows of the same bucket and keys have the same one, and others seldom do.
fn print_of(plan: &Fold, row: &Row, start: i64) -> u64 {
    let mut print = mix(0, Some(start));
    for col in plan.keys.items() {
        print = mix(print, field(row, *col));
    }
    print
}

/// The hash of the rows of a group.
fn print_of_head(head: &Head) -> u64 {
    let mut print = mix(0, Some(head.start));
    for key in head.keys.items() {
        print = mix(print, *key);
    }
    print
}

/// A hash with one more number.
fn mix(print: u64, number: Option<i64>) -> u64 {
    let bits = match number {
        None => 0x5851_f42d_4c95_7f2d,
        Some(number) => number.cast_unsigned(),
    };
    (print.rotate_left(25) ^ bits).wrapping_mul(0x9e37_79b9_7f4a_7c15)
}
