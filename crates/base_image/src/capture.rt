//! Takes the image of a history from a state that represents it.
ghost use Rattle.std.specs.Prelude.{◌≡◌, [], ◌<◌, ◌∷◌, ◌++◌, length, IfOk, IsSome, Some};
ghost use Rattle.std.specs.List.{AllByRecursion};
ghost use Rattle.ts_bucket.specs.Ranges.{IsWholeRange, RiseApart};
ghost use Rattle.ts_model.specs.declared.views.ViewDef.{ViewDef};
ghost use Rattle.ts_model.specs.History.{History};
ghost use Rattle.ts_model.specs.Roster.{roster, view_of};
ghost use Rattle.image_laws.specs.Images.{row_events, IsImage, IsSavedView};
ghost use Rattle.base_image.specs.Taking.{AreKept, AreLeft};

use crate::imaged::Imaged;
use crate::roster_events::{push_held, roster_events};
use std::alloc::Global;
use ts_bucket::Span;
use ts_model::{Event, Image, SavedGroup, SavedView};
use ts_schema::{NoMemory, Seq};

/// The commits that hold the rows of a history, one for each table with rows.
fn row_events<I: Imaged>(alloc: Global, of: &I) -> Result<Seq<Event>, NoMemory>
    ensures held { (h : History) → I.stands of.now h
        → IfOk result (λ events. events ≡ row_events h 0 (length (roster h).tables)) }
{
    let mut events = Seq::new(alloc);
    for table in 0..of.roster().tables.len() {
        let rows = of.rows(table as u32)?;
        push_held(&mut events, alloc, table as u32, rows)?;
    }
    Ok(events)
}

/// The groups that the last refreshes of an aggregate stored in the buckets of these rising ranges.
fn groups_of_span<I: Imaged>(
    alloc: Global,
    of: &I,
    view: u32,
    ranges: &[Span],
) -> Result<Seq<SavedGroup>, NoMemory>
    requires view { (h : History) → I.stands of.now h → IsSome (view_of (roster h) view) }
    requires whole { (h : History) (def : ViewDef) → I.stands of.now h → view_of (roster h) view ≡ Some def
        → AllByRecursion (IsWholeRange def.fold.width) ranges.now }
    requires rise { (h : History) (def : ViewDef) → I.stands of.now h → view_of (roster h) view ≡ Some def
        → RiseApart ranges.now }
    ensures groups { (h : History) (def : ViewDef) → I.stands of.now h → view_of (roster h) view ≡ Some def
        → IfOk result (AreLeft view def h ranges.now) }
{
    let mut groups = Vec::new(alloc);
    let mut left = ranges;
    while let [range, rest @ ..] = left {
        let mut more = of.groups(view, *range)?.into_items();
        groups.append(&mut more)?;
        left = rest;
    }
    Ok(Seq::of(groups))
}

/// The saved parts of an aggregate.
fn saved_view<I: Imaged>(alloc: Global, of: &I, view: u32) -> Result<SavedView, NoMemory>
    requires view { (h : History) → I.stands of.now h → IsSome (view_of (roster h) view) }
    ensures saved { (h : History) (def : ViewDef) → I.stands of.now h → view_of (roster h) view ≡ Some def
        → IfOk result (IsSavedView view def h) }
{
    let lasts = of.lasts(view)?;
    let dirty = of.dirty(view)?;
    let groups = groups_of_span(alloc, of, view, dirty.items())?;
    Ok(SavedView {
        lasts,
        dirty,
        groups,
        mark: of.mark(view),
    })
}

/// The saved parts of each aggregate of a history.
pub(crate) fn saved_views<I: Imaged>(alloc: Global, of: &I) -> Result<Seq<SavedView>, NoMemory>
    ensures saved { (h : History) → I.stands of.now h → IfOk result (AreKept h (length (roster h).views)) }
{
    let mut views = Seq::new(alloc);
    for view in 0..of.roster().views.len() {
        views.push(saved_view(alloc, of, view as u32)?)?;
    }
    Ok(views)
}

/// Takes the image of the history that a state represents.
pub fn take<I: Imaged>(alloc: Global, of: &I) -> Result<Image, NoMemory>
    ensures image { (h : History) → I.stands of.now h → IfOk result (IsImage h) }
{
    Ok(Image {
        pos: of.position(),
        roster: roster_events(alloc, of.roster())?,
        rows: row_events(alloc, of)?,
        views: saved_views(alloc, of)?,
        waiting: of.waiting()?,
        done: of.done()?,
    })
}
