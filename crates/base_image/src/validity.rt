//! Whether an image is valid.
ghost use Rattle.std.specs.Prelude.{◌≡◌, true};
ghost use Rattle.std.specs.List.{list_all};
ghost use Rattle.ts_model.specs.Roster.{no_relations};
ghost use Rattle.ts_model.specs.Rows.{in_order};
ghost use Rattle.ts_model.specs.Saved.{appended_over};
ghost use Rattle.ts_model.specs.Valid.{image_roster, make_relations, valid, view_kept, views_kept};
ghost use Rattle.base_image.specs.Held.{is_timed};

use crate::countable_rows::{rows_are_held, table_is_marked};
use crate::group_checks::{groups_are_below, groups_are_fit};
use crate::ranges::{dirty_are_fit, lasts_are_fit, mark_is_fit};
use crate::waiting_checks::{finishes_are_fit, waits_are_fit};
use ts_model::limits::LAST_POSITION;
use ts_model::{Event, Image, Roster, SavedView, ViewDef};

/// Whether an image at this position may keep these parts of an aggregate, if these commits hold the rows.
#[tactic(auto, using(crate::proofs::Covering::lasts_rising, crate::proofs::Covering::dirty_rising))]
fn view_is_kept(pos: u64, def: &ViewDef, rows: &[Event], view: &SavedView) -> bool
    requires timed { list_all is_timed rows.now ≡ true }
    ensures { result ≡ view_kept pos def.now (in_order (appended_over def.now.table rows.now)) view.now }
{
    let lasts = view.lasts.items();
    let dirty = view.dirty.items();
    let groups = view.groups.items();
    lasts_are_fit(def, pos, lasts)
        && dirty_are_fit(def, pos, lasts, dirty)
        && groups_are_fit(def, dirty, groups)
        && mark_is_fit(def.fold.width, view.mark)
        && groups_are_below(view.mark, groups)
        && table_is_marked(def, view, rows)
}

/// Whether an image at this position may keep these parts, one for each of these aggregates.
fn views_are_kept(pos: u64, defs: &[ViewDef], rows: &[Event], views: &[SavedView]) -> bool
    requires timed { list_all is_timed rows.now ≡ true }
    ensures { result ≡ views_kept pos (λ t. in_order (appended_over t rows.now)) defs.now views.now }
{
    match defs {
        [] => views.is_empty(),
        [def, more_defs @ ..] => match views {
            [] => false,
            [view, more_views @ ..] => {
                view_is_kept(pos, def, rows, view)
                    && views_are_kept(pos, more_defs, rows, more_views)
            }
        },
    }
}

/// Whether an image with this roster is valid.
#[tactic(auto, using(crate::proofs::HeldLaws::held_timed))]
pub fn is_valid(roster: &Roster, image: &Image) -> bool
    requires made { make_relations no_relations image.now.roster ≡ true }
    requires roster { roster.now ≡ image_roster image.now }
    ensures { result ≡ valid image.now }
{
    let rows = image.rows.items();
    let waiting = image.waiting.items();
    image.pos <= LAST_POSITION
        && rows_are_held(roster, rows)
        && views_are_kept(image.pos, roster.views.items(), rows, image.views.items())
        && waits_are_fit(roster, image.pos, waiting)
        && finishes_are_fit(image.pos, waiting, image.done.items())
}
