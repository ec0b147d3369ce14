//! Assigns a position where another map, the floor, has no value or a lower one.

ghost use Rattle.std.specs.Prelude.{◌≡◌, ◌+◌, ◌*◌, ◌≤◌, cond, vec_len, vec_capacity};
ghost use Rattle.ts_bucket.specs.Positions.{is_before};
ghost use Rattle.span_map.specs.Edges.{IsRising, value_from, piece_count, has_value, MakesValues};
ghost use Rattle.span_map.specs.Floors.{run_filled, run_past, run_on, value_past, floor_filled};
ghost use Rattle.span_map.specs.Functions.{AssignsAbove};

use crate::changes::Change;
use crate::edges::{Edge, change_values};
use crate::parts::part_within;
use ts_bucket::Span;

/// Whether there is no position, or one below `pos`.
fn is_lower(value: Option<u64>, pos: u64) -> bool
    ensures { result ≡ is_before pos value }
{
    match value {
        Some(old) => old < pos,
        None => true,
    }
}

/// Assigns the numbers of an open run: those from its start on and below `end`.
fn close_run(edges: &mut Vec<Edge>, run: Option<i64>, end: i64, pos: u64)
    requires rising { IsRising edges.old.items }
    requires room { vec_len edges.old + 2 ≤ vec_capacity edges.old }
    ensures values { MakesValues (run_filled run end pos) edges.old.items edges.new.items }
    ensures rising { IsRising edges.new.items }
    ensures len { vec_len edges.new ≤ vec_len edges.old + 2 }
    ensures capacity { vec_capacity edges.new ≡ vec_capacity edges.old }
{
    match run {
        Some(from) => assign_between(edges, from, end, pos),
        None => {}
    }
}

/// Assigns the numbers from `from` on and below `end`, if there are any.
fn assign_between(edges: &mut Vec<Edge>, from: i64, end: i64, pos: u64)
    requires rising { IsRising edges.old.items }
    requires room { vec_len edges.old + 2 ≤ vec_capacity edges.old }
    ensures values { MakesValues (run_filled (Some from) end pos) edges.old.items edges.new.items }
    ensures rising { IsRising edges.new.items }
    ensures len { vec_len edges.new ≤ vec_len edges.old + 2 }
    ensures capacity { vec_capacity edges.new ≡ vec_capacity edges.old }
{
    if from < end {
        change_values(edges, Span { lo: from, hi: end }, Change::Set(pos));
    }
}

/// The start of the open run after an edge of the floor, if one is open.
fn run_after(run: Option<i64>, edge: Edge, span: Span, pos: u64) -> Option<i64>
    ensures { result ≡ run_past span pos run edge }
{
    if !is_lower(edge.value, pos) {
        return None;
    }
    match run {
        Some(from) => Some(from),
        None => Some(edge.from.max(span.lo)),
    }
}

/// Assigns the rest of a run if an edge of the floor ends it.
fn pass_edge(edges: &mut Vec<Edge>, run: Option<i64>, edge: Edge, span: Span, pos: u64)
    requires rising { IsRising edges.old.items }
    requires room { vec_len edges.old + 2 ≤ vec_capacity edges.old }
    ensures values { MakesValues (value_past span pos run edge) edges.old.items edges.new.items }
    ensures rising { IsRising edges.new.items }
    ensures len { vec_len edges.new ≤ vec_len edges.old + 2 * cond (has_value edge) 1 0 }
    ensures capacity { vec_capacity edges.new ≡ vec_capacity edges.old }
{
    if !is_lower(edge.value, pos) {
        close_run(edges, run, edge.from.min(span.hi), pos);
    }
}

/// Assigns `pos` to the numbers of the span that are in an open run, or at or above an edge of the floor with
/// no value or a lower one.
fn assign_runs(edges: &mut Vec<Edge>, span: Span, pos: u64, start: Option<i64>, floor: &[Edge])
    requires rising { IsRising edges.old.items }
    requires room { vec_len edges.old + 2 * (piece_count floor.now + 1) ≤ vec_capacity edges.old }
    ensures values { MakesValues (floor_filled span pos start floor.now) edges.old.items edges.new.items }
    ensures rising { IsRising edges.new.items }
{
    let mut run = start;
    for edge in floor {
        pass_edge(edges, run, *edge, span, pos);
        run = run_after(run, *edge, span, pos);
    }
    close_run(edges, run, span.hi, pos);
}

/// The start of the run that is open at the start of a span, if one is. `value` is that of the floor there.
fn run_at_start(value: Option<u64>, span: Span, pos: u64) -> Option<i64>
    ensures { result ≡ run_on span pos value }
{
    if is_lower(value, pos) {
        Some(span.lo)
    } else {
        None
    }
}

/// Assigns `pos` to each number of the span at which the floor has no value or a lower one.
pub(crate) fn assign_above_floor(edges: &mut Vec<Edge>, span: Span, pos: u64, floor: &[Edge])
    requires rising { IsRising edges.old.items }
    requires floor_rising { IsRising floor.now }
    requires room { vec_len edges.old + 2 * (piece_count floor.now + 1) ≤ vec_capacity edges.old }
    ensures values { AssignsAbove span pos
        (value_from None floor.now) (value_from None edges.old.items) (value_from None edges.new.items) }
    ensures rising { IsRising edges.new.items }
{
    let (value, between) = part_within(floor, span);
    let run = run_at_start(value, span, pos);
    assign_runs(edges, span, pos, run, between);
}
