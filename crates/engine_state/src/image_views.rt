//! Aggregates of a history that begins with an image.
ghost use Rattle.std.specs.Prelude.{◌≡◌, ℕ, map, IfOk, true};
ghost use Rattle.std.specs.List.{list_all};
ghost use Rattle.ts_model.specs.declared.images.Image.{Image as ImageValue};
ghost use Rattle.ts_model.specs.declared.views.ViewDef.{ViewDef as ViewValue};
ghost use Rattle.ts_model.specs.History.{resumed};
ghost use Rattle.ts_model.specs.Saved.{group_of, summary_of};
ghost use Rattle.ts_model.specs.Valid.{image_roster, sums_fit, valid};
ghost use Rattle.engine_state.specs.Groups.{GroupsStand};
ghost use Rattle.engine_state.specs.Images.{piece_of};
ghost use Rattle.engine_state.specs.Lists.{Each};
ghost use Rattle.engine_state.specs.GroupRebuilds.{AreRefolded};
ghost use Rattle.engine_state.specs.Resumed.{IsKeptOf, IsSavedOf, ResumedAt};
ghost use Rattle.engine_state.specs.Stands.{ViewAt};
ghost use Rattle.engine_state.specs.Views.{ViewStands};

use crate::parts::StateParts;
use crate::tables::TableState;
use crate::views::ViewState;
use mat_log::MatLog;
use mat_rows::MatRows;
use partial_agg::{Group, Keys, Partial};
use span_map::Piece;
use std::alloc::Global;
use ts_bucket::Span;
use ts_model::{Image, SavedGroup, SavedLast, SavedView, Sums, ViewDef};
use ts_schema::{NoMemory, Seq, SharedSlice};

/// The saved totals of the columns of a group.
fn partials(alloc: Global, sums: &[Sums]) -> Result<Seq<Partial>, NoMemory>
    requires bounded { list_all sums_fit sums.now ≡ true }
    ensures { IfOk result (λ parts. parts ≡ map summary_of sums.now) }
{
    let mut parts = Seq::new(alloc);
    for sum in sums {
        parts.push(Partial::of(sum.count, sum.values, sum.sum, sum.least, sum.most))?;
    }
    Ok(parts)
}

/// A group that an image keeps.
fn group_of_saved(alloc: Global, saved: &SavedGroup) -> Result<Group, NoMemory>
    requires bounded { list_all sums_fit saved.now.parts ≡ true }
    ensures { IfOk result (λ group. group ≡ group_of saved.now) }
{
    Ok(Group {
        start: saved.start,
        keys: Keys::of(saved.keys.copy()?),
        parts: SharedSlice::of(alloc, partials(alloc, saved.parts.items())?)?,
    })
}

/// The groups that an image keeps.
fn groups_of_saved(alloc: Global, saved: &[SavedGroup]) -> Result<Seq<Group>, NoMemory>
    requires bounded { list_all (λ g. list_all sums_fit g.parts) saved.now ≡ true }
    ensures { IfOk result (λ groups. groups ≡ map group_of saved.now) }
{
    let mut groups = Seq::new(alloc);
    for group in saved {
        groups.push(group_of_saved(alloc, group)?)?;
    }
    Ok(groups)
}

/// The last refreshes that an image keeps, as pieces.
fn pieces_of(alloc: Global, lasts: &[SavedLast]) -> Result<Seq<Piece>, NoMemory>
    ensures { IfOk result (λ pieces. pieces ≡ map piece_of lasts.now) }
{
    let mut pieces = Seq::new(alloc);
    for last in lasts {
        pieces.push(Piece {
            span: last.span,
            pos: last.pos,
        })?;
    }
    Ok(pieces)
}

/// Their ranges.
fn spans_of(alloc: Global, lasts: &[SavedLast]) -> Result<Seq<Span>, NoMemory>
    ensures { IfOk result (λ spans. spans ≡ map (λ l. l.span) lasts.now) }
{
    let mut spans = Seq::new(alloc);
    for last in lasts {
        spans.push(last.span)?;
    }
    Ok(spans)
}

/// The materialized groups of an aggregate. For a dirty bucket these are the ones that the image keeps. For any
/// other refreshed bucket they are the groups recomputed from the rows.
fn groups_from_image(alloc: Global, saved: &SavedView, anew: &MatRows) -> Result<MatRows, NoMemory>
    requires kept { (i : ImageValue) × (n : ℕ) × (def : ViewValue) × IsKeptOf i n def saved.now anew.now }
    ensures groups { (i : ImageValue) (n : ℕ) (def : ViewValue) → IsKeptOf i n def saved.now anew.now
        → IfOk result (GroupsStand n def (resumed i) saved.now.mark) }
{
    let ranges = spans_of(alloc, saved.lasts.items())?;
    let clean = MatRows::new(alloc).replace(&ranges, anew)?;
    let kept = MatRows::of(alloc, groups_of_saved(alloc, saved.groups.items())?)?;
    let groups = clean.replace(&saved.dirty, &kept)?;
    groups.order();
    Ok(groups)
}

/// The state of an aggregate of the history that begins with an image at this position.
fn view_from_image(
    alloc: Global,
    pos: u64,
    def: &ViewDef,
    saved: &SavedView,
    table: &TableState,
    anew: &MatRows,
) -> Result<ViewState, NoMemory>
    requires saved { (i : ImageValue) × (n : ℕ) × (i.pos ≡ pos) × IsSavedOf i n def.now saved.now table.now anew.now }
    ensures stands { (i : ImageValue) (n : ℕ) → i.pos ≡ pos → IsSavedOf i n def.now saved.now table.now anew.now
        → IfOk result (ViewStands (resumed i) n def.now table.now.log) }
{
    let pieces = pieces_of(alloc, saved.lasts.items())?;
    let log = MatLog::from_lasts(
        alloc,
        def.fold.width,
        pieces.items(),
        saved.dirty.items(),
        pos,
    )?;
    let groups = groups_from_image(alloc, saved, anew)?;
    ViewState::of(alloc, def.table, log, groups, saved.mark)
}

/// The states of the aggregates of the history that begins with an image, given the states of its tables, and
/// the groups of all rows.
pub(crate) fn views_from_image(
    alloc: Global,
    parts: &StateParts,
    image: &Image,
    anew: &Seq<MatRows>,
) -> Result<Seq<ViewState>, NoMemory>
    requires valid { valid image.now ≡ true }
    requires roster { parts.now.roster ≡ image_roster image.now }
    requires tables { Each (ResumedAt image.now) parts.now.roster.tables parts.now.tables }
    requires anew { Each (AreRefolded image.now) parts.now.roster.views anew.now }
    ensures views { IfOk result (Each (ViewAt (resumed image.now) parts.now.tables) parts.now.roster.views) }
{
    let mut views = Seq::new(alloc);
    for view in 0..parts.roster.views.len() {
        let def = parts.roster.views.get(view);
        let saved = image.views.get(view);
        let table = parts.table(def.table);
        let anew = anew.get(view);
        views.push(view_from_image(alloc, image.pos, def, saved, table, anew)?)?;
    }
    Ok(views)
}
