//! Checks that the groups of an image have few rows, as in a valid image.
ghost use Rattle.std.specs.Prelude.{◌≡◌, List, true};
ghost use Rattle.base_image.specs.Outlines.{with_rows};
ghost use Rattle.ts_model.specs.declared.events.Event.{Event};
ghost use Rattle.ts_model.specs.Allowed.{all_allowed};
ghost use Rattle.ts_model.specs.History.{History};
ghost use Rattle.ts_model.specs.Valid.{valid};
ghost use Rattle.image_laws.specs.Images.{IsImage};
ghost use Rattle.image_fields.specs.Counts.{few_in_group, few_in_image, few_in_view};

use image_laws::laws::images_are_valid;
use ts_model::{Image, SavedGroup, SavedView};

/// No group of an image has this many rows or more.
const TOO_MANY: u64 = 1 << 62;

/// Whether a group has fewer rows.
fn group_is_few(group: &SavedGroup) -> bool
    ensures { result ≡ few_in_group group.now }
{
    group.parts.items().iter().all(|sums| sums.count < TOO_MANY)
}

/// Whether the groups of an aggregate have fewer rows.
fn view_is_few(view: &SavedView) -> bool
    ensures { result ≡ few_in_view view.now }
{
    view.groups.items().iter().all(|group| group_is_few(group))
}

/// Whether each saved group of an image has fewer than 2^62 rows, as those of a valid image do.
pub fn groups_are_few(image: &Image) -> bool
    ensures { result ≡ few_in_image image.now }
{
    image.views.items().iter().all(|view| view_is_few(view))
}

/// States that the image of an allowed history is valid if its groups have few rows, even if its own rows are
/// stored elsewhere. Does nothing.
#[tactic(auto, using(crate::proofs::FewLaws::is_valid_with))]
pub fn validity_law(_image: &Image)
    ensures { (h : History) (events : List Event) → all_allowed h ≡ true → IsImage h (with_rows events _image.now)
        → few_in_image _image.now ≡ true → valid (with_rows events _image.now) ≡ true }
{
    images_are_valid();
}
