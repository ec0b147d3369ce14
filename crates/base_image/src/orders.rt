//! Checks that rows, groups, refreshes and spans are in order. Each is compared only with the next one.
ghost use Rattle.std.specs.Prelude.{◌≡◌, map, not, nat_lt, int_le};
ghost use Rattle.std.specs.Ordering.{is_gt, is_lt, nat_cmp};
ghost use Rattle.partial_agg.specs.Groups.{group_cmp};
ghost use Rattle.ts_schema.specs.Rows.{row_cmp};
ghost use Rattle.ts_model.specs.Saved.{group_of};
ghost use Rattle.ts_model.specs.Valid.{all_rise, all_stand, spans_rise};
ghost use Rattle.base_image.specs.Rising.{spans_of};

use std::cmp::Ordering;
use ts_bucket::Span;
use ts_model::{Finished, SavedGroup, SavedLast, Waiting};
use ts_schema::{Row, order_of_values, values_order};

/// Whether a row may come before another. Their other columns are compared only if the times are the same.
fn may_precede(row: &Row, next: &Row) -> bool
    ensures { result ≡ not (is_gt (row_cmp row.now next.now)) }
{
    match row.at.cmp(&next.at) {
        Ordering::Less => true,
        Ordering::Equal => !order_of_values(&row.vals, &next.vals).is_gt(),
        Ordering::Greater => false,
    }
}

/// Whether rows are in order.
pub fn rows_stand(rows: &[Row]) -> bool
    ensures { result ≡ all_stand row_cmp rows.now }
{
    rows.is_sorted_by(|row: &Row, next: &Row| may_precede(row, next))
}

/// How two groups compare. Their keys are compared only if the buckets are the same.
fn order_of(group: &SavedGroup, next: &SavedGroup) -> Ordering
    ensures { result ≡ group_cmp (group_of group.now) (group_of next.now) }
{
    match group.start.cmp(&next.start) {
        Ordering::Less => Ordering::Less,
        Ordering::Equal => values_order(group.keys.items(), next.keys.items()),
        Ordering::Greater => Ordering::Greater,
    }
}

/// Whether a group comes before another, so that they don't have the same bucket and keys.
fn precedes(group: &SavedGroup, next: &SavedGroup) -> bool
    ensures { result ≡ is_lt (group_cmp (group_of group.now) (group_of next.now)) }
{
    order_of(group, next).is_lt()
}

/// Whether groups are in strict order.
pub fn groups_rise(groups: &[SavedGroup]) -> bool
    ensures { result ≡ all_rise group_cmp (map group_of groups.now) }
{
    groups.is_sorted_by(|group: &SavedGroup, next: &SavedGroup| precedes(group, next))
}

/// Whether the cuts of pending refreshes rise.
pub fn waiting_rise(waiting: &[Waiting]) -> bool
    ensures { result ≡ all_rise nat_cmp (map (λ w. w.cut) waiting.now) }
{
    waiting.is_sorted_by(|refresh: &Waiting, next: &Waiting| refresh.cut < next.cut)
}

/// Whether the cuts of finished refreshes rise.
pub fn finished_rise(done: &[Finished]) -> bool
    ensures { result ≡ all_rise nat_cmp (map (λ f. f.cut) done.now) }
{
    done.is_sorted_by(|refresh: &Finished, next: &Finished| refresh.cut < next.cut)
}

/// Whether each span ends at or below the start of the next one.
pub fn spans_rise(spans: &[Span]) -> bool
    ensures { result ≡ spans_rise spans.now }
{
    spans.is_sorted_by(|span: &Span, next: &Span| span.hi <= next.lo)
}

/// Whether the range of each last refresh ends at or below the start of the next one.
pub fn lasts_rise(lasts: &[SavedLast]) -> bool
    ensures { result ≡ spans_rise (spans_of lasts.now) }
{
    lasts.is_sorted_by(|last: &SavedLast, next: &SavedLast| last.span.hi <= next.span.lo)
}
