//! Whether an event is allowed next.
ghost use Rattle.std.specs.Prelude.{◌≡◌, ◌&&◌, cond, is_none, nat_le, None, Some};
ghost use Rattle.ts_model.specs.History.{History};
ghost use Rattle.ts_model.specs.Allowed.{allowed};
ghost use Rattle.ts_model.specs.Pending.{is_known};
ghost use Rattle.ts_model.specs.Sound.{columns_fit, sound_in};
ghost use Rattle.ts_model.specs.Timely.{timely_in};
ghost use Rattle.ts_model.specs.Valid.{may_follow};
ghost use Rattle.ts_schema.specs.Names.{is_name};
ghost use Rattle.event_check.specs.Checks.{IsAt, event_refusal, finish_refusal, fits_by, hyper_refusal, refusal_by, refusal_of_code, relation_refusal, room_refusal, sound_by};
ghost use Rattle.ts_model.specs.Numbers.{no_number};

use crate::bytes::bytes_of;
use crate::columns::{columns_are_fit, hyper_is_fit};
use crate::cuts::span_is_fit;
use crate::folds::view_is_fit_in;
use crate::laws::name_law;
use crate::operations::ops_are_fit;
use crate::relations::{hyper_in, is_named, table_in, view_in};
use ts_model::codes::{HISTORY_FULL, NAME_TAKEN, NO_NUMBER, NO_REFRESH, TOO_MANY};
use ts_model::limits::{LAST_POSITION, MOST_RELATIONS};
use ts_model::{Event, Pending, Refusal, Roster, TableDef};

/// An event takes fewer bytes than this.
const BYTES_LIMIT: u64 = 4_294_967_296;

/// A refusal at a position, with a number that its reply prints.
fn refusal_at(code: u8, pos: u64, mark: u64) -> Refusal
    ensures { result ≡ refusal_of_code code pos mark }
{
    Refusal { code, pos, mark }
}

/// Why no event may be created at a position, if so.
fn room_refusal(position: u64) -> Option<Refusal>
    ensures { result ≡ room_refusal position }
{
    if position < LAST_POSITION {
        None
    } else {
        Some(refusal_at(HISTORY_FULL, position, 0))
    }
}

/// Why a relation isn't created: its name is taken, or there are `many` of its kind, which is its limit.
fn relation_refusal(taken: bool, many: usize, position: u64) -> Option<Refusal>
    ensures { result ≡ relation_refusal taken many position }
{
    if taken {
        Some(refusal_at(NAME_TAKEN, position, 0))
    } else if many < MOST_RELATIONS {
        room_refusal(position)
    } else {
        Some(refusal_at(TOO_MANY, position, 65))
    }
}

/// Why a table can't become a hypertable.
fn hyper_refusal(made: bool, position: u64) -> Option<Refusal>
    ensures { result ≡ hyper_refusal made position }
{
    if made {
        Some(refusal_at(NAME_TAKEN, position, 0))
    } else {
        room_refusal(position)
    }
}

/// Why a refresh isn't finished.
fn finish_refusal(pending: Pending, position: u64) -> Option<Refusal>
    ensures { result ≡ finish_refusal pending position }
{
    match pending {
        Pending::Waiting(_) => room_refusal(position),
        Pending::Finished(by) => Some(refusal_at(NO_REFRESH, position, by)),
        Pending::Unknown => Some(refusal_at(NO_REFRESH, position, 0)),
    }
}

/// Why a store refuses the call that appends this event, if it does: `E07`, `E21`, `E19` or `E30`. The history
/// has this roster and position. Doesn't check the rows and the tests of an event.
///
/// `pending` is the outcome of the refresh that the event finishes. It isn't used for an event that finishes
/// none.
pub fn call_refusal(
    roster: &Roster,
    pending: Pending,
    position: u64,
    event: &Event,
) -> Option<Refusal>
    ensures { result ≡ refusal_by roster.now pending position event.now }
{
    match event {
        Event::Table(def) => {
            relation_refusal(is_named(roster, &def.name), roster.tables.len(), position)
        }
        Event::Hyper { table, .. } => {
            hyper_refusal(hyper_in(roster, *table).is_some(), position)
        }
        Event::View(def) => {
            relation_refusal(is_named(roster, &def.name), roster.views.len(), position)
        }
        Event::Mode { .. } => room_refusal(position),
        Event::Commit(_) => room_refusal(position),
        Event::Cut { .. } => room_refusal(position),
        Event::Built { .. } => finish_refusal(pending, position),
    }
}

/// Whether a table may be created, by its name and its columns.
fn table_is_fit(def: &TableDef) -> bool
    ensures { result ≡ (is_name def.now.name && columns_fit def.now.cols) }
{
    name_law(&def.name);
    columns_are_fit(&def.cols)
}

/// Whether a refresh may be finished with the rows of a snapshot, by the positions.
fn finish_is_fit(pending: Pending, position: u64, base: u64, cut: u64, snap: u64) -> bool
    ensures { result ≡ (is_known pending && nat_le cut snap && nat_le base snap && nat_le snap position) }
{
    let known = match pending {
        Pending::Waiting(_) => true,
        Pending::Finished(_) => true,
        Pending::Unknown => false,
    };
    known && cut <= snap && base <= snap && snap <= position
}

/// Whether what an event names exists, and all that it holds is in range.
fn is_fit(roster: &Roster, pending: Pending, position: u64, base: u64, event: &Event) -> bool
    ensures { result ≡ fits_by roster.now pending position base event.now }
{
    match event {
        Event::Table(def) => table_is_fit(def),
        Event::Hyper { table, hyper } => hyper_is_fit(*hyper, table_in(roster, *table)),
        Event::View(def) => view_is_fit_in(def, table_in(roster, def.table)),
        Event::Mode { view, .. } => view_in(roster, *view).is_some(),
        Event::Commit(ops) => ops_are_fit(roster, ops),
        Event::Cut { view, span } => span_is_fit(*span, view_in(roster, *view)),
        Event::Built { cut, snap } => finish_is_fit(pending, position, base, *cut, *snap),
    }
}

/// Whether what an event names exists, and all that it holds is in range. A finish names nothing of a roster.
fn is_fit_in(roster: &Roster, event: &Event) -> bool
    ensures { result ≡ sound_in roster.now event.now }
{
    match event {
        Event::Table(def) => table_is_fit(def),
        Event::Hyper { table, hyper } => hyper_is_fit(*hyper, table_in(roster, *table)),
        Event::View(def) => view_is_fit_in(def, table_in(roster, def.table)),
        Event::Mode { view, .. } => view_in(roster, *view).is_some(),
        Event::Commit(ops) => ops_are_fit(roster, ops),
        Event::Cut { view, span } => span_is_fit(*span, view_in(roster, *view)),
        Event::Built { .. } => true,
    }
}

/// Whether nothing of a roster stands in the way of an event.
fn is_timely_in(roster: &Roster, event: &Event) -> bool
    ensures { result ≡ timely_in roster.now event.now }
{
    match event {
        Event::Table(def) => !is_named(roster, &def.name) && roster.tables.len() < MOST_RELATIONS,
        Event::Hyper { table, .. } => hyper_in(roster, *table).is_none(),
        Event::View(def) => !is_named(roster, &def.name) && roster.views.len() < MOST_RELATIONS,
        Event::Mode { .. } => true,
        Event::Commit(_) => true,
        Event::Cut { .. } => true,
        Event::Built { .. } => true,
    }
}

/// Whether an event may come after a roster, not counting its bytes.
pub fn may_follow(roster: &Roster, event: &Event) -> bool
    ensures { result ≡ may_follow roster.now event.now }
{
    let fit = is_fit_in(roster, event);
    fit && is_timely_in(roster, event)
}

/// Whether an event is fit and takes few enough bytes.
fn is_sound(roster: &Roster, pending: Pending, position: u64, base: u64, event: &Event) -> bool
    ensures { result ≡ sound_by roster.now pending position base event.now }
{
    let fit = is_fit(roster, pending, position, base, event);
    fit && bytes_of(event) < BYTES_LIMIT
}

/// Why an event that no call refuses isn't allowed, if it isn't sound.
fn unsound_refusal(sound: bool, position: u64) -> Option<Refusal>
    ensures { result ≡ cond sound None (Some (refusal_of_code no_number position 0)) }
{
    if sound {
        None
    } else {
        Some(refusal_at(NO_NUMBER, position, 0))
    }
}

/// Why an event isn't allowed next at a history with this roster and position, which begins at `base`. The
/// refusal is that of the store's call that appends such an event (`E07`, `E21`, `E19` or `E30`), and otherwise
/// has the number 0.
///
/// `pending` is the outcome of the refresh that the event finishes. It isn't used for an event that finishes
/// none.
pub fn refusal_of(
    roster: &Roster,
    pending: Pending,
    position: u64,
    base: u64,
    event: &Event,
) -> Option<Refusal>
    ensures allowed { (h : History) → IsAt h event.now roster.now pending position base →
        is_none result ≡ allowed h event.now }
    ensures refused { (h : History) → IsAt h event.now roster.now pending position base →
        result ≡ event_refusal h event.now }
{
    match call_refusal(roster, pending, position, event) {
        Some(refusal) => Some(refusal),
        None => unsound_refusal(is_sound(roster, pending, position, base, event), position),
    }
}
