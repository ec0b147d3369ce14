//! The outcome of a call that creates an event, at a position of a history.
ghost use Rattle.std.specs.Prelude.{◌≡◌, ◌≤◌, None, Some, Err};
ghost use Rattle.event_check.specs.Checks.{PendingIs, call_refusal};
ghost use Rattle.ts_model.specs.declared.outcomes.CutDone.TheVariants.{Cut as CutMade};
ghost use Rattle.ts_model.specs.History.{position, prefix};
ghost use Rattle.engine_core.specs.Acts.{making_event};
ghost use Rattle.engine_core.specs.Histories.{history_of};
ghost use Rattle.audit_past.specs.Pasts.{CameTo};
ghost use Rattle.audit.specs.Calls.{came_as, numbered_only};

use audit_past::CallAt;
use engine_core::Timeline;
use event_check::refusal_of;
use ts_bucket::Span;
use ts_model::codes::NO_NUMBER;
use ts_model::{Committed, CutDone, Event, Pending, Refusal};

/// The outcome of the call that creates this event.
pub(crate) fn call(timeline: &Timeline<'_>, at: u64, event: &Event) -> Option<CallAt<Committed>>
    requires known { timeline.now.start ≤ at }
    requires within { at ≤ position (history_of timeline.now.past) }
    ensures came { CameTo (making_event event.now (prefix (history_of timeline.now.past) at))
        (history_of timeline.now.past) at result }
{
    match refusal_at(timeline, at, event) {
        Some(refusal) => refuse(refusal, at),
        None => compare_event(timeline, at, event),
    }
}

/// Why the call that creates this event is refused, if it is.
fn refusal_at(timeline: &Timeline<'_>, at: u64, event: &Event) -> Option<Refusal>
    requires known { timeline.now.start ≤ at }
    requires within { at ≤ position (history_of timeline.now.past) }
    ensures refusal { result ≡ call_refusal (prefix (history_of timeline.now.past) at) event.now }
{
    let roster = timeline.roster(at);
    let pending = pending_of(timeline, at, event);
    numbered_only(refusal_of(roster, pending, at, timeline.base(), event))
}

/// The status of the refresh that an event finishes, at a position.
fn pending_of(timeline: &Timeline<'_>, at: u64, event: &Event) -> Pending
    requires known { timeline.now.start ≤ at }
    requires within { at ≤ position (history_of timeline.now.past) }
    ensures pending { PendingIs (prefix (history_of timeline.now.past) at) event.now result }
{
    match event {
        Event::Built { cut, .. } => timeline.pending(at, *cut),
        Event::Table(_) => Pending::Unknown,
        Event::Hyper { .. } => Pending::Unknown,
        Event::View(_) => Pending::Unknown,
        Event::Mode { .. } => Pending::Unknown,
        Event::Commit(_) => Pending::Unknown,
        Event::Cut { .. } => Pending::Unknown,
    }
}

/// The refusal, if its code isn't 0.
fn numbered_only(refusal: Option<Refusal>) -> Option<Refusal>
    ensures { result ≡ numbered_only refusal }
{
    match refusal {
        Some(refusal) => {
            if refusal.code == NO_NUMBER {
                None
            } else {
                Some(refusal)
            }
        }
        None => None,
    }
}

/// Whether an event that no call refuses is the next one of the history, and what it does.
fn compare_event(timeline: &Timeline<'_>, at: u64, event: &Event) -> Option<CallAt<Committed>>
    requires known { timeline.now.start ≤ at }
    requires within { at ≤ position (history_of timeline.now.past) }
    requires free { call_refusal (prefix (history_of timeline.now.past) at) event.now ≡ None }
    ensures came { CameTo (making_event event.now (prefix (history_of timeline.now.past) at))
        (history_of timeline.now.past) at result }
{
    // A position that is read has 64 bits.
    let _end = timeline.length();
    match timeline.event_after(at) {
        Some(next) => {
            if *next == *event {
                Some(CallAt {
                    came: Ok(timeline.effect_after(at)),
                    at: at + 1,
                })
            } else {
                None
            }
        }
        None => None,
    }
}

/// The outcome of a refused call.
pub(crate) fn refuse<A>(refusal: Refusal, at: u64) -> Option<CallAt<A>>
    ensures { result ≡ Some (record { came = Err refusal; at = at }) }
{
    Some(CallAt {
        came: Err(refusal),
        at,
    })
}

/// The same outcome with the event's number only.
pub(crate) fn event_number(met: Option<CallAt<Committed>>) -> Option<CallAt<u64>>
    ensures { result ≡ came_as (λ c. c.pos) met }
{
    match met {
        Some(met) => match met.came {
            Ok(effect) => Some(CallAt {
                came: Ok(effect.pos),
                at: met.at,
            }),
            Err(refusal) => refuse(refusal, met.at),
        },
        None => None,
    }
}

/// The same outcome with a cut over this span.
pub(crate) fn cut_over(met: Option<CallAt<Committed>>, span: Span) -> Option<CallAt<CutDone>>
    ensures { result ≡ came_as (λ c. CutMade c.pos span) met }
{
    match met {
        Some(met) => match met.came {
            Ok(effect) => Some(CallAt {
                came: Ok(CutDone::Cut {
                    pos: effect.pos,
                    span,
                }),
                at: met.at,
            }),
            Err(refusal) => refuse(refusal, met.at),
        },
        None => None,
    }
}
