//! The parts of an image are in the range of their fields. Each function states this for a part, and does
//! nothing.
ghost use Rattle.std.specs.Prelude.{◌≡◌, ◌<◌, ◌^◌, List, length, true};
ghost use Rattle.std.specs.List.{AllByRecursion};
ghost use Rattle.event_codec.specs.Formed.{IsEight, IsFour, IsValue, IsWord};
ghost use Rattle.base_image.specs.Formed.{IsFinished, IsFormed, IsGroup, IsSums, IsWide};
ghost use Rattle.base_image.specs.Outlines.{with_rows};
ghost use Rattle.base_image.specs.Spelling as spelling;
ghost use Rattle.ts_model.specs.Valid.{valid};
ghost use Rattle.ts_model.specs.declared.events.Event.{Event};
ghost use Rattle.image_fields.specs.Fields.{HasLast, HasSaved, HasSpan, HasWaiting, HasFields};

use ts_bucket::Span;
use ts_model::{Finished, Image, SavedGroup, SavedLast, SavedView, Sums, Waiting};

/// A number of 32 bits.
fn four_law(number: u32)
    ensures { IsFour number }
{}

/// A number of 64 bits without a sign.
fn eight_law(number: u64)
    ensures { IsEight number }
{}

/// A number of 64 bits.
fn word_law(number: i64)
    ensures { IsWord number }
{}

/// A number of 128 bits.
fn wide_law(number: i128)
    ensures { IsWide number }
{}

/// NULL or a number of 64 bits.
fn value_law(value: Option<i64>)
    ensures { IsValue value }
{
    if let Some(number) = value {
        word_law(number);
    }
}

/// The saved parts of a column.
fn sums_law(sums: &Sums)
    ensures { IsSums sums.now }
{
    eight_law(sums.count);
    eight_law(sums.values);
    wide_law(sums.sum);
    value_law(sums.least);
    value_law(sums.most);
}

/// The keys of a group.
fn values_law(values: &[Option<i64>])
    ensures { AllByRecursion IsValue values.now }
{
    let mut left = values;
    'values: while let [value, rest @ ..] = left {
        value_law(*value);
        left = rest;
    }
}

/// The saved parts of a group.
fn all_sums_law(parts: &[Sums])
    ensures { AllByRecursion IsSums parts.now }
{
    let mut left = parts;
    'parts: while let [sums, rest @ ..] = left {
        sums_law(sums);
        left = rest;
    }
}

/// A group.
fn group_law(group: &SavedGroup)
    ensures { IsGroup group.now }
{
    word_law(group.start);
    values_law(group.keys.items());
    all_sums_law(group.parts.items());
}

/// The groups of an aggregate.
fn groups_law(groups: &[SavedGroup])
    ensures { AllByRecursion IsGroup groups.now }
{
    let mut left = groups;
    'groups: while let [group, rest @ ..] = left {
        group_law(group);
        left = rest;
    }
}

/// A range.
fn span_law(span: &Span)
    ensures { HasSpan span.now }
{
    word_law(span.lo);
    word_law(span.hi);
}

/// Ranges.
fn spans_law(spans: &[Span])
    ensures { AllByRecursion HasSpan spans.now }
{
    let mut left = spans;
    'spans: while let [span, rest @ ..] = left {
        span_law(span);
        left = rest;
    }
}

/// Last refreshes.
fn lasts_law(lasts: &[SavedLast])
    ensures { AllByRecursion HasLast lasts.now }
{
    let mut left = lasts;
    'lasts: while let [last, rest @ ..] = left {
        span_law(&last.span);
        eight_law(last.pos);
        left = rest;
    }
}

/// The saved parts of an aggregate.
fn view_law(view: &SavedView)
    ensures { HasSaved view.now }
{
    lasts_law(view.lasts.items());
    spans_law(view.dirty.items());
    groups_law(view.groups.items());
    value_law(view.mark);
}

/// The saved parts of each aggregate.
fn views_law(views: &[SavedView])
    ensures { AllByRecursion HasSaved views.now }
{
    let mut left = views;
    'views: while let [view, rest @ ..] = left {
        view_law(view);
        left = rest;
    }
}

/// The refreshes that are pending.
fn waiting_law(waiting: &[Waiting])
    ensures { AllByRecursion HasWaiting waiting.now }
{
    let mut left = waiting;
    'waiting: while let [one, rest @ ..] = left {
        eight_law(one.cut);
        four_law(one.view);
        span_law(&one.span);
        left = rest;
    }
}

/// The refreshes that were finished.
fn done_law(done: &[Finished])
    ensures { AllByRecursion IsFinished done.now }
{
    let mut left = done;
    'done: while let [one, rest @ ..] = left {
        eight_law(one.cut);
        eight_law(one.built);
        left = rest;
    }
}

/// All parts of an image except its events.
fn fields_law(image: &Image)
    ensures { HasFields image.now }
{
    eight_law(image.pos);
    views_law(image.views.items());
    waiting_law(image.waiting.items());
    done_law(image.done.items());
}

/// States that all parts of an image are in the range of their fields. The image must be valid with some events
/// as its rows, and have fewer than 2^32 bytes with them. Does nothing.
#[tactic(auto, using(crate::proofs::FormedLaws::formed_with))]
pub fn image_law(image: &Image)
    ensures formed { (events : List Event) → valid (with_rows events image.now) ≡ true
        → length (spelling.image (with_rows events image.now)) < 2 ^ 32 → IsFormed (with_rows events image.now) }
{
    fields_law(image);
}
