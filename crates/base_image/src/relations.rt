//! The events that create the roster of an image, and the roster.
ghost use Rattle.std.specs.Prelude.{◌≡◌, IfOk};
ghost use Rattle.base_image.specs.Making.{is_view, made_roster, may_come};
ghost use Rattle.ts_model.specs.Roster.{no_relations};

use event_check::{after_event, may_follow};
use std::alloc::Global;
use ts_model::{Event, Roster};
use ts_schema::{NoMemory, Seq};

/// Whether an event may come next among those that create a roster. `begun` is whether aggregates have begun.
fn may_come(roster: &Roster, begun: bool, event: &Event) -> bool
    ensures { result ≡ may_come roster.now begun event.now }
{
    match event {
        Event::Table(_) => !begun && may_follow(roster, event),
        Event::Hyper { table, .. } => {
            let last = *table as usize + 1 == roster.tables.len();
            !begun && last && may_follow(roster, event)
        }
        Event::View(_) => may_follow(roster, event),
        Event::Mode { .. } => false,
        Event::Commit(_) => false,
        Event::Cut { .. } => false,
        Event::Built { .. } => false,
    }
}

/// Whether an event creates an aggregate.
fn is_view(event: &Event) -> bool
    ensures { result ≡ is_view event.now }
{
    match event {
        Event::View(_) => true,
        Event::Table(_) => false,
        Event::Hyper { .. } => false,
        Event::Mode { .. } => false,
        Event::Commit(_) => false,
        Event::Cut { .. } => false,
        Event::Built { .. } => false,
    }
}

/// No table and no aggregate.
fn no_relations(alloc: Global) -> Roster
    ensures { result ≡ no_relations }
{
    Roster {
        tables: Seq::new(alloc),
        views: Seq::new(alloc),
    }
}

/// Returns the roster that these events create, or `None` if they aren't those of an image.
pub fn roster_of(alloc: Global, events: &[Event]) -> Result<Option<Roster>, NoMemory>
    ensures { IfOk result (λ made. made ≡ made_roster events.now) }
{
    let mut made = no_relations(alloc);
    let mut begun = false;
    let mut left = events;
    while let [event, rest @ ..] = left {
        if !may_come(&made, begun, event) {
            return Ok(None);
        }
        begun = begun || is_view(event);
        made = after_event(&made, event)?;
        left = rest;
    }
    Ok(Some(made))
}
