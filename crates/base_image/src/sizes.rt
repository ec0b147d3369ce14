//! The number of bytes of an image, or the greatest number of 64 bits if there are more.
ghost use Rattle.std.specs.Prelude.{◌≡◌, ◌-◌, ◌^◌, ◌*◌, length, min, sum_by};
ghost use Rattle.base_image.specs.Counting.{framed_bytes, group_bytes, image_bytes, saved_bytes, sums_bytes};
ghost use Rattle.base_image.specs.Spelling as spelling;

use event_check::{bytes_of, bytes_of_value, bytes_of_values};
use ts_model::{Event, Image, SavedGroup, SavedView, Sums};

/// The number of bytes of `count` items with `each` bytes each.
fn bytes_each(count: usize, each: u64) -> u64
    ensures { result ≡ min (each * count) (2 ^ 64 - 1) }
{
    (count as u64).saturating_mul(each)
}

fn bytes_of_sums(sums: &Sums) -> u64
    ensures { result ≡ sums_bytes sums.now }
{
    32 + bytes_of_value(sums.least) + bytes_of_value(sums.most)
}

fn bytes_of_parts(parts: &[Sums]) -> u64
    ensures { result ≡ min (sum_by sums_bytes parts.now) (2 ^ 64 - 1) }
{
    let mut total = 0u64;
    for part in parts {
        total = total.saturating_add(bytes_of_sums(part));
    }
    total
}

fn bytes_of_group(group: &SavedGroup) -> u64
    ensures { result ≡ min (group_bytes group.now) (2 ^ 64 - 1) }
{
    bytes_of_values(group.keys.items())
        .saturating_add(bytes_of_parts(group.parts.items()))
        .saturating_add(8)
}

fn bytes_of_groups(groups: &[SavedGroup]) -> u64
    ensures { result ≡ min (sum_by group_bytes groups.now) (2 ^ 64 - 1) }
{
    let mut total = 0u64;
    for group in groups {
        total = total.saturating_add(bytes_of_group(group));
    }
    total
}

fn bytes_of_saved(view: &SavedView) -> u64
    ensures { result ≡ min (saved_bytes view.now) (2 ^ 64 - 1) }
{
    bytes_each(view.lasts.len(), 24)
        .saturating_add(bytes_each(view.dirty.len(), 16))
        .saturating_add(bytes_of_groups(view.groups.items()))
        .saturating_add(12 + bytes_of_value(view.mark))
}

fn bytes_of_views(views: &[SavedView]) -> u64
    ensures { result ≡ min (sum_by saved_bytes views.now) (2 ^ 64 - 1) }
{
    let mut total = 0u64;
    for view in views {
        total = total.saturating_add(bytes_of_saved(view));
    }
    total
}

fn bytes_of_events(events: &[Event]) -> u64
    ensures { result ≡ min (sum_by framed_bytes events.now) (2 ^ 64 - 1) }
{
    let mut total = 0u64;
    for event in events {
        total = total.saturating_add(bytes_of(event).saturating_add(4));
    }
    total
}

/// Returns the number of bytes of an image, or 2^64 - 1 if there are more. Takes no memory.
#[tactic(auto, using(crate::proofs::Counts::bytes_counted))]
pub fn size(image: &Image) -> u64
    ensures size { result ≡ min (length (spelling.image image.now)) (2 ^ 64 - 1) }
{
    let events = bytes_of_events(image.roster.items()).saturating_add(bytes_of_events(
        image.rows.items(),
    ));
    let refreshes = bytes_each(image.waiting.len(), 28).saturating_add(bytes_each(
        image.done.len(),
        16,
    ));
    bytes_of_views(image.views.items())
        .saturating_add(events)
        .saturating_add(refreshes)
        .saturating_add(29)
}
