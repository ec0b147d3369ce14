//! A history without its rows.
ghost use Rattle.std.specs.Prelude.{◌≡◌, ◌<◌, ◌+◌, IfErr, IfOk, IsTrue, None, OnErr, OnOk, Some};
ghost use Rattle.ts_model.specs.Allowed.{all_allowed, allowed};
ghost use Rattle.ts_model.specs.History.{History, position};
ghost use Rattle.ts_model.specs.Pending.{waiting};
ghost use Rattle.ts_model.specs.Roster.{roster, roster_after};
ghost use Rattle.ts_model.specs.Valid.{valid};
ghost use Rattle.event_check.specs.Checks.{PendingIs, event_refusal};
ghost use Rattle.refresh_list.specs.Refreshes.{CutsBelow, RefreshesStand};
ghost use Rattle.engine_core.specs.Histories.{history_of, past_from, with_event};
ghost use Rattle.engine_core.specs.Ledgers.{refreshes_after};

use crate::engines::begun_at;
use crate::timelines::end_of;
use engine_state::roster_from_image;
use event_check::{after_event, refusal_of};
use refresh_list::Refreshes;
use std::alloc::Global;
use std::marker::Model;
use ts_model::{Event, Image, Pending, Refusal, Roster, Waiting};
use ts_schema::{NoMemory, Seq};

/// A history with the data that decides which event may come next: its tables and aggregates, and its
/// refreshes. It keeps no rows, so an event costs little more than its own memory. Contracts see the image that
/// the history begins with, if there is one, and the events after it, the oldest first.
#[derive(Drop)]
pub struct Ledger {
    base: Option<Image>,
    events: Vec<Event>,
    roster: Roster,
    refreshes: Refreshes,
}

impl Model for Ledger {
    ghost use Rattle.engine_core.specs.Histories.{history_of};
    ghost use Rattle.engine_core.specs.Ledgers.{IsLedgerOf, LedgerValue};

    ghost Value = { LedgerValue };

    ghost view = { λ l. record { past = record { base = l.base; events = l.events.items } } };

    ghost invariant = { λ l.
        IsLedgerOf (history_of (record { base = l.base; events = l.events.items })) l.roster l.refreshes };
}

/// Whether the refresh that an event finishes is pending, finished or unknown.
fn pending_of(refreshes: &Refreshes, event: &Event) -> Pending
    ensures { (h : History) → RefreshesStand h refreshes.now → PendingIs h event.now result }
{
    match event {
        Event::Built { cut, .. } => refreshes.pending(*cut),
        Event::Table(_) => Pending::Unknown,
        Event::Hyper { .. } => Pending::Unknown,
        Event::View(_) => Pending::Unknown,
        Event::Mode { .. } => Pending::Unknown,
        Event::Commit(_) => Pending::Unknown,
        Event::Cut { .. } => Pending::Unknown,
    }
}

/// The refreshes after an event with a number.
fn refreshes_after(before: &Refreshes, number: u64, event: &Event) -> Result<Refreshes, NoMemory>
    requires some { 0 < number }
    requires past { CutsBelow number before.now }
    ensures after { IfOk result (λ after. after ≡ refreshes_after before.now number event.now) }
{
    match event {
        Event::Cut { view, span } => before.with_cut(number, *view, *span),
        Event::Built { cut, .. } => before.with_finish(*cut, number),
        Event::Table(_) => before.copy(),
        Event::Hyper { .. } => before.copy(),
        Event::View(_) => before.copy(),
        Event::Mode { .. } => before.copy(),
        Event::Commit(_) => before.copy(),
    }
}

/// Applies an event to a roster. If the event changes none, the roster isn't copied.
fn change(roster: &mut Roster, event: &Event) -> Result<(), NoMemory>
    ensures changed { OnOk result (roster.new ≡ roster_after roster.old event.now) }
    ensures kept { OnErr result (roster.new ≡ roster.old) }
{
    match event {
        Event::Table(_) => *roster = after_event(roster, event)?,
        Event::Hyper { .. } => *roster = after_event(roster, event)?,
        Event::View(_) => *roster = after_event(roster, event)?,
        Event::Mode { .. } => *roster = after_event(roster, event)?,
        Event::Commit(_) => {}
        Event::Cut { .. } => {}
        Event::Built { .. } => {}
    }
    Ok(())
}

impl Ledger {
    /// The ledger of the empty history.
    pub fn new(alloc: Global) -> Ledger
        ensures empty { result.past ≡ past_from None }
    {
        Ledger {
            base: None,
            events: Vec::new(alloc),
            roster: Roster {
                tables: Seq::new(alloc),
                views: Seq::new(alloc),
            },
            refreshes: Refreshes::new(alloc),
        }
    }

    /// The ledger of the history that begins with this valid image, without events.
    pub fn from_image(alloc: Global, image: Image) -> Result<Ledger, NoMemory>
        requires valid { IsTrue (valid image) }
        ensures empty { IfOk result (λ ledger. ledger.past ≡ past_from (Some image)) }
    {
        let roster = roster_from_image(alloc, image.roster.items())?;
        let refreshes = Refreshes::of(alloc, image.waiting.items(), image.done.items())?;
        Ok(Ledger {
            base: Some(image),
            events: Vec::new(alloc),
            roster,
            refreshes,
        })
    }

    /// The image that the history begins with, if there is one.
    pub fn base(&self) -> &Option<Image>
        ensures base { result.now ≡ self.now.past.base }
    {
        &self.base
    }

    /// The events after it, the oldest first.
    pub fn events(&self) -> &[Event]
        ensures events { result.now ≡ self.now.past.events }
    {
        self.events.as_slice()
    }

    /// The position of the history, which is allowed.
    pub fn length(&self) -> u64
        ensures position { result ≡ position (history_of self.now.past) }
        ensures allowed { IsTrue (all_allowed (history_of self.now.past)) }
    {
        end_of(&self.base, self.events.as_slice())
    }

    /// Its tables and aggregates.
    pub fn roster(&self) -> &Roster
        ensures roster { result.now ≡ roster (history_of self.now.past) }
    {
        &self.roster
    }

    /// The pending refreshes, in order of their cuts.
    pub fn waiting(&self) -> Result<Seq<Waiting>, NoMemory>
        ensures waiting { IfOk result (λ found. found ≡ waiting (history_of self.now.past)) }
    {
        self.refreshes.waiting()
    }

    /// Checks whether an event is allowed next, like `Engine::check`.
    pub fn check(&self, event: &Event) -> Result<(), Refusal>
        ensures allowed { IfOk result (λ _. IsTrue (allowed (history_of self.now.past) event.now)) }
        ensures refused { IfErr result (λ refusal.
            event_refusal (history_of self.now.past) event.now ≡ Some refusal) }
    {
        match self.refusal(event) {
            None => Ok(()),
            Some(refusal) => Err(refusal),
        }
    }

    /// Why an event isn't allowed next, if it isn't.
    fn refusal(&self, event: &Event) -> Option<Refusal>
        ensures { result ≡ event_refusal (history_of self.now.past) event.now }
    {
        let end = self.length();
        let pending = pending_of(&self.refreshes, event);
        refusal_of(&self.roster, pending, end, begun_at(&self.base), event)
    }

    /// Appends an event that is allowed next. If memory runs out, the history doesn't change.
    pub fn append(&mut self, event: Event) -> Result<(), NoMemory>
        requires allowed { IsTrue (allowed (history_of self.old.past) event) }
        ensures past { OnOk result (self.new.past ≡ with_event self.old.past event) }
        ensures kept { OnErr result (self.new.past ≡ self.old.past) }
    {
        let number = self.length() + 1;
        let refreshes = refreshes_after(&self.refreshes, number, &event)?;
        self.events.reserve(1)?;
        change(&mut self.roster, &event)?;
        self.refreshes = refreshes;
        self.events.push_reserved(event);
        Ok(())
    }
}
