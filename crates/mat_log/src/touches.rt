//! The last touches of the entries of a log.

ghost use Rattle.std.specs.Prelude.{◌≡◌, ℤ, true, IfOk, filter};
ghost use Rattle.std.specs.List.{All};
ghost use Rattle.ts_bucket.specs.Spans.{overlaps};
ghost use Rattle.ts_bucket.specs.WholeSpans.{IsWithin};
ghost use Rattle.span_map.specs.Maps.{at};
ghost use Rattle.mat_log.specs.Feeding.{are_rising};
ghost use Rattle.mat_log.specs.Touching.{touch_at};

use block_list::BlockList;
use inval_log::Entry;
use span_map::{Rule, SpanMap};
use std::alloc::Global;
use ts_bucket::{Span, Width, meets, span_touched};
use ts_schema::NoMemory;

/// Up to this many entries are written to a map in order. For more, the results of two halves are combined.
const FEW: usize = 16;

/// Whether the positions of the entries rise.
pub(crate) fn do_rise(entries: &[Entry]) -> bool
    ensures { result ≡ are_rising 0 entries.now }
{
    let mut last = 0;
    for entry in entries {
        if entry.pos < last {
            return false;
        }
        last = entry.pos;
    }
    true
}

/// All entries, as one slice.
pub(crate) fn all_entries(entries: &BlockList<Entry>) -> Result<Vec<Entry>, NoMemory>
    ensures { IfOk result (λ all. all.items ≡ entries.now.items) }
{
    let alloc = entries.allocator();
    Ok(entries.iter().copied().collect(alloc)?)
}

/// The entries whose hulls have a number in common with a span.
pub(crate) fn entries_near(entries: &BlockList<Entry>, span: Span) -> Result<Vec<Entry>, NoMemory>
    ensures { IfOk result (λ near. near.items ≡ filter (λ e. overlaps e.hull span) entries.now.items) }
{
    let alloc = entries.allocator();
    Ok(
        entries
            .iter()
            .copied()
            .filter(|entry| meets(entry.hull, span))
            .collect(alloc)?,
    )
}

/// The latest positions of the entries at the buckets that their hulls meet, computed entry by entry.
fn touches_in_turn(alloc: Global, w: Width, entries: &[Entry]) -> Result<SpanMap, NoMemory>
    requires { All (λ e. IsWithin w e.hull) entries.now }
    ensures { IfOk result (λ touches. (t : ℤ) → at touches t ≡ touch_at w entries.now t) }
{
    let mut touches = SpanMap::new(alloc);
    for entry in entries {
        let room = touches.len() + 3;
        touches.reserve(room)?;
        touches.raise(span_touched(w, entry.hull), entry.pos);
    }
    Ok(touches)
}

/// The latest positions of the entries at the buckets that their hulls meet.
pub(crate) fn latest(alloc: Global, w: Width, entries: &[Entry]) -> Result<SpanMap, NoMemory>
    requires { All (λ e. IsWithin w e.hull) entries.now }
    ensures { IfOk result (λ touches. (t : ℤ) → at touches t ≡ touch_at w entries.now t) }
{
    if entries.len() <= FEW {
        return touches_in_turn(alloc, w, entries);
    }
    let (first, second) = entries.split_at(entries.len() / 2);
    let first = latest(alloc, w, first)?;
    let second = latest(alloc, w, second)?;
    first.combine(&second, Rule::Later)
}
