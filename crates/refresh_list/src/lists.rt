//! Refreshes in order of their cuts.
ghost use Rattle.std.specs.Prelude.{◌≡◌, ◌<◌, ◌≤◌, ◌++◌, ◌∷◌, [], drop, length, map, take, IfOk, None, Some};
ghost use Rattle.refresh_list.specs.Refreshes.{CutsBelow, CutsFrom, CutsRise, IsPlace, StandsAt};
ghost use Rattle.refresh_list.specs.Refreshes.{as_waiting, count_below, waits_in, done_in, finished_at, finished_one, newly_cut, of_done, of_waiting, pending_in, refresh_in, state_by, together, waiting_in};

use crate::refreshes::{Refresh, Stage};
use block_list::BlockList;
use std::alloc::Global;
use std::marker::Model;
use ts_bucket::Span;
use ts_model::{Finished, Pending, Waiting};
use ts_schema::{NoMemory, Seq};

/// The refreshes that were cut, in order of their cuts. Contracts see the list of them.
///
/// A change creates a new list, which shares what it doesn't change with the old one.
#[derive(Drop, Debug)]
pub struct Refreshes {
    list: BlockList<Refresh>,
}

impl Model for Refreshes {
    ghost use Rattle.std.specs.Prelude.{List};
    ghost use Rattle.refresh_list.specs.declared.refreshes.Refresh.{Refresh};
    ghost use Rattle.refresh_list.specs.Refreshes.{CutsRise};

    ghost Value = { List Refresh };

    ghost view = { λ r. r.list.items };

    ghost invariant = { λ r. CutsRise 0 r.list.items };
}

/// The place of the first refresh whose cut is at or after a number.
fn first_from(list: &BlockList<Refresh>, cut: u64) -> usize
    requires rise { CutsRise 0 list.now.items }
    ensures within { result ≤ length list.now.items }
    ensures below { CutsBelow cut (take result list.now.items) }
    ensures from { CutsFrom cut (drop result list.now.items) }
{
    let mut low = 0;
    let mut high = list.len();
    while low < high {
        let middle = low + (high - low) / 2;
        if list.get(middle).cut < cut {
            low = middle + 1;
        } else {
            high = middle;
        }
    }
    low
}

/// The place of the refresh with this number, if there is one.
fn place_of(list: &BlockList<Refresh>, cut: u64) -> Option<usize>
    requires rise { CutsRise 0 list.now.items }
    ensures place { IsPlace list.now.items cut result }
{
    let place = first_from(list, cut);
    if place == list.len() {
        return None;
    }
    if list.get(place).cut == cut {
        Some(place)
    } else {
        None
    }
}

/// Whether a refresh is pending or finished.
fn state_of(refresh: Refresh) -> Pending
    ensures { result ≡ state_by refresh.stage }
{
    match refresh.stage {
        Stage::Waits { view, .. } => Pending::Waiting(view),
        Stage::Done(by) => Pending::Finished(by),
    }
}

/// A refresh that an event finished, unless it was finished before.
fn finish_at(refresh: Refresh, by: u64) -> Refresh
    ensures { result ≡ finished_one by refresh }
{
    let by = match refresh.stage {
        Stage::Waits { .. } => by,
        Stage::Done(before) => before,
    };
    Refresh {
        cut: refresh.cut,
        stage: Stage::Done(by),
    }
}

/// The refreshes after the one at a place, which has this number, was finished.
fn with_mark(
    list: &BlockList<Refresh>,
    place: usize,
    cut: u64,
    by: u64,
) -> Result<BlockList<Refresh>, NoMemory>
    requires rise { CutsRise 0 list.now.items }
    requires stands { StandsAt list.now.items cut place }
    ensures marked { IfOk result (λ new. new.items ≡ map (finished_at cut by) list.now.items) }
{
    // Reading the length tells the prover that it has 64 bits.
    let _many = list.len();
    let marked = finish_at(*list.get(place), by);
    list.replace(place, place + 1, &[marked])
}

impl Refreshes {
    /// No refreshes. It allocates no memory.
    pub fn new(alloc: Global) -> Refreshes
        ensures none { result ≡ [] }
    {
        Refreshes {
            list: BlockList::new(alloc),
        }
    }

    /// Pending refreshes and finished ones, each in order of their cuts.
    pub fn of(alloc: Global, waiting: &[Waiting], done: &[Finished]) -> Result<Refreshes, NoMemory>
        requires rise { CutsRise 0 (together waiting.now done.now) }
        ensures together { IfOk result (λ new. new ≡ together waiting.now done.now) }
    {
        let mut list = BlockList::new(alloc);
        push_together(&mut list, waiting, done)?;
        Ok(Refreshes {
            list: list.share()?,
        })
    }

    /// Another owner of the same refreshes. It only increments a reference count.
    pub fn copy(&self) -> Result<Refreshes, NoMemory>
        ensures same { IfOk result (λ copy. copy ≡ self.now) }
    {
        Ok(Refreshes {
            list: self.list.copy()?,
        })
    }

    /// The refresh with this number, if it is pending.
    pub fn find_waiting(&self, cut: u64) -> Option<Waiting>
        ensures found { result ≡ waits_in self.now cut }
    {
        match self.find(cut) {
            None => None,
            Some(refresh) => as_waiting(&refresh),
        }
    }

    /// The refresh with this number, if there is one.
    fn find(&self, cut: u64) -> Option<Refresh>
        ensures found { result ≡ refresh_in self.now cut }
    {
        match place_of(&self.list, cut) {
            None => None,
            Some(place) => Some(*self.list.get(place)),
        }
    }

    /// Whether the refresh with this number is pending, finished or unknown.
    pub fn pending(&self, cut: u64) -> Pending
        ensures pending { result ≡ pending_in self.now cut }
    {
        match self.find(cut) {
            None => Pending::Unknown,
            Some(refresh) => state_of(refresh),
        }
    }

    /// The refreshes with one more, which was cut after all of them.
    pub fn with_cut(&self, cut: u64, view: u32, span: Span) -> Result<Refreshes, NoMemory>
        requires some { 0 < cut }
        requires after { CutsBelow cut self.now }
        ensures cut { IfOk result (λ new. new ≡ self.now ++ newly_cut cut view span ∷ []) }
    {
        let mut list = self.list.copy()?;
        list.push(Refresh {
            cut,
            stage: Stage::Waits { view, span },
        })?;
        Ok(Refreshes {
            list: list.share()?,
        })
    }

    /// The refreshes after the event with number `by` finished the one with number `cut`, unless it was
    /// finished before.
    pub fn with_finish(&self, cut: u64, by: u64) -> Result<Refreshes, NoMemory>
        ensures finished { IfOk result (λ new. new ≡ map (finished_at cut by) self.now) }
    {
        match place_of(&self.list, cut) {
            None => self.copy(),
            Some(place) => Ok(Refreshes {
                list: with_mark(&self.list, place, cut, by)?,
            }),
        }
    }

    /// The pending refreshes, in order of their cuts. It reads all refreshes, including finished ones.
    pub fn waiting(&self) -> Result<Seq<Waiting>, NoMemory>
        ensures waiting { IfOk result (λ found. found ≡ waiting_in self.now) }
    {
        let mut found = Seq::new(self.list.allocator());
        for refresh in self.list.iter() {
            push_waiting(&mut found, refresh)?;
        }
        Ok(found)
    }

    /// The finished refreshes, in order of their cuts.
    pub fn done(&self) -> Result<Seq<Finished>, NoMemory>
        ensures done { IfOk result (λ found. found ≡ done_in self.now) }
        ensures rise { CutsRise 0 self.now }
    {
        let mut found = Seq::new(self.list.allocator());
        for refresh in self.list.iter() {
            push_finished(&mut found, refresh)?;
        }
        Ok(found)
    }
}

/// The number of these before the first with a cut at or after a number.
fn count_below(cut: u64, done: &[Finished]) -> usize
    ensures count { result ≡ count_below cut done.now }
    ensures within { result ≤ length done.now }
{
    let mut count = 0;
    let mut left = done;
    while let [first, rest @ ..] = left {
        if first.cut >= cut {
            return count;
        }
        count += 1;
        left = rest;
    }
    count
}

/// Appends a pending refresh.
fn push_next(list: &mut BlockList<Refresh>, next: &Waiting) -> Result<(), NoMemory>
    ensures { IfOk result (λ _. list.new.items ≡ list.old.items ++ of_waiting next.now ∷ []) }
{
    list.push(Refresh {
        cut: next.cut,
        stage: Stage::Waits {
            view: next.view,
            span: next.span,
        },
    })
}

/// Appends finished refreshes.
fn push_done(list: &mut BlockList<Refresh>, done: &[Finished]) -> Result<(), NoMemory>
    ensures { IfOk result (λ _. list.new.items ≡ list.old.items ++ map of_done done.now) }
{
    for finished in done {
        list.push(Refresh {
            cut: finished.cut,
            stage: Stage::Done(finished.built),
        })?;
    }
    Ok(())
}

/// Appends pending refreshes, and before each the finished ones with earlier cuts.
fn push_together(
    list: &mut BlockList<Refresh>,
    waiting: &[Waiting],
    done: &[Finished],
) -> Result<(), NoMemory>
    ensures { IfOk result (λ _. list.new.items ≡ list.old.items ++ together waiting.now done.now) }
{
    let mut left = waiting;
    let mut finished = done;
    while let [next, rest @ ..] = left {
        let (before, after) = finished.split_at(count_below(next.cut, finished));
        push_done(list, before)?;
        push_next(list, next)?;
        left = rest;
        finished = after;
    }
    push_done(list, finished)
}

/// Appends a refresh, if it is finished.
fn push_finished(found: &mut Seq<Finished>, refresh: &Refresh) -> Result<(), NoMemory>
    ensures { IfOk result (λ _. found.new ≡ found.old ++ done_in (refresh.now ∷ [])) }
{
    match refresh.stage {
        Stage::Waits { .. } => Ok(()),
        Stage::Done(built) => found.push(Finished {
            cut: refresh.cut,
            built,
        }),
    }
}

/// A refresh, if it is pending.
fn as_waiting(refresh: &Refresh) -> Option<Waiting>
    ensures { result ≡ as_waiting refresh.now.cut refresh.now.stage }
{
    match refresh.stage {
        Stage::Waits { view, span } => Some(Waiting {
            cut: refresh.cut,
            view,
            span,
        }),
        Stage::Done(_) => None,
    }
}

/// Appends a refresh, if it is pending.
fn push_waiting(found: &mut Seq<Waiting>, refresh: &Refresh) -> Result<(), NoMemory>
    ensures { IfOk result (λ _. found.new ≡ found.old ++ waiting_in (refresh.now ∷ [])) }
{
    match refresh.stage {
        Stage::Waits { view, span } => found.push(Waiting {
            cut: refresh.cut,
            view,
            span,
        }),
        Stage::Done(_) => Ok(()),
    }
}
