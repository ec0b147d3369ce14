//! Whether the pending and finished refreshes of an image are possible.
ghost use Rattle.std.specs.Prelude.{◌≡◌, ◌&&◌, ◌==◌, map, nat_le, nat_lt, not, true};
ghost use Rattle.std.specs.List.{list_all, list_any};
ghost use Rattle.std.specs.Ordering.{nat_cmp};
ghost use Rattle.ts_model.specs.Roster.{view_of};
ghost use Rattle.ts_model.specs.Sound.{span_fits};
ghost use Rattle.ts_model.specs.Valid.{all_rise, done_fits, is_number, waiting_fits};

use crate::orders::{finished_rise, waiting_rise};
use crate::searches::waits;
use event_check::{span_is_fit, view_in};
use ts_model::{Finished, Roster, Waiting};

/// Whether this is the number of an event up to a position.
fn is_number(pos: u64, number: u64) -> bool
    ensures { result ≡ is_number pos number }
{
    0 < number && number <= pos
}

/// Whether a refresh may be pending at a position.
fn wait_is_fit(roster: &Roster, pos: u64, refresh: &Waiting) -> bool
    ensures { result ≡ (is_number pos refresh.now.cut
        && span_fits refresh.now.span (view_of roster.now refresh.now.view)) }
{
    is_number(pos, refresh.cut) && span_is_fit(refresh.span, view_in(roster, refresh.view))
}

fn each_wait_is_fit(roster: &Roster, pos: u64, waiting: &[Waiting]) -> bool
    ensures { result ≡ list_all (λ w. is_number pos w.cut && span_fits w.span (view_of roster.now w.view))
        waiting.now }
{
    waiting
        .iter()
        .all(|refresh| wait_is_fit(roster, pos, refresh))
}

/// Whether these refreshes may be pending at a position, and are in order.
pub fn waits_are_fit(roster: &Roster, pos: u64, waiting: &[Waiting]) -> bool
    ensures { result ≡ waiting_fits roster.now pos waiting.now }
{
    each_wait_is_fit(roster, pos, waiting) && waiting_rise(waiting)
}

/// Whether a refresh may have been finished up to a position at which these are pending.
fn finish_is_fit(pos: u64, waiting: &[Waiting], refresh: &Finished) -> bool
    requires rising { all_rise nat_cmp (map (λ w. w.cut) waiting.now) ≡ true }
    ensures { result ≡ (is_number pos refresh.now.cut && nat_lt refresh.now.cut refresh.now.built
        && nat_le refresh.now.built pos && not (list_any (λ w. w.cut == refresh.now.cut) waiting.now)) }
{
    let after = refresh.cut < refresh.built && refresh.built <= pos;
    is_number(pos, refresh.cut) && after && !waits(waiting, refresh.cut)
}

/// Whether these refreshes may have been finished up to a position, and are in order.
pub fn finishes_are_fit(pos: u64, waiting: &[Waiting], done: &[Finished]) -> bool
    requires rising { all_rise nat_cmp (map (λ w. w.cut) waiting.now) ≡ true }
    ensures { result ≡ done_fits pos waiting.now done.now }
{
    let mut left = done;
    while let [refresh, rest @ ..] = left {
        if !finish_is_fit(pos, waiting, refresh) {
            return false;
        }
        left = rest;
    }
    finished_rise(done)
}
