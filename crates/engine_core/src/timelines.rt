//! The states of a history at its positions.
ghost use Rattle.std.specs.Prelude.{◌≡◌, ◌≤◌, ◌<◌, ◌++◌, ◌∷◌, [], cond, option_copied, suc, IfOk, IfSome, IsSome, IsTrue, Some};
ghost use Rattle.std.specs.Option.{ForSome};
ghost use Rattle.std.specs.Thread.{IsSync};
ghost use Rattle.ts_bucket.specs.Bucket.{is_time};
ghost use Rattle.ts_model.specs.declared.events.Event.{Event as EventMade};
ghost use Rattle.ts_model.specs.Allowed.{all_allowed, allowed};
ghost use Rattle.ts_model.specs.History.{History, ◌▸◌, base_position, event_at, position, position as position_of, prefix};
ghost use Rattle.ts_model.specs.Pending.{pending};
ghost use Rattle.ts_model.specs.Roster.{roster, view_of};
ghost use Rattle.ts_model.specs.Windows.{window};
ghost use Rattle.engine_state.specs.Stands.{StandsFor};
ghost use Rattle.refresh_build.specs.Fitting.{JobIsFor};
ghost use Rattle.engine_core.specs.Effects.{effect_of};
ghost use Rattle.engine_core.specs.Histories.{begun_by, history_of};
ghost use Rattle.engine_core.specs.Timelines.{IsMomentOf, MayFollow};

use crate::engines::begun_at;
use crate::shots::Shot;
use crate::state_at::StateAt;
use engine_state::State;
use refresh_build::Job;
use std::alloc::Global;
use std::marker::Model;
use std::sync::Arc;
use std::thread::Threads;
use ts_model::{Committed, Event, Image, Pending, Roster, Window};
use ts_schema::{NoMemory, Steps};

/// The states of a history at each position from one on. They share all that the events between them didn't
/// change. Contracts see the history's image and events, and the first position that is kept.
#[derive(Drop)]
pub struct Timeline<'a> {
    base: &'a Option<Image>,
    events: &'a [Event],
    start: u64,
    end: u64,
    moments: Vec<StateAt>,
}

impl<'a> Model for Timeline<'a> {
    ghost use Rattle.engine_core.specs.Timelines.{IsTimeline, TimelineValue};

    ghost Value = { TimelineValue };

    ghost view = { λ t. record {
      past = record { base = t.base.now; events = t.events.now };
      start = t.start;
    } };

    ghost invariant = { λ t.
        IsTimeline (record { base = t.base.now; events = t.events.now }) t.start t.end t.moments.items };
}

/// The state of the history that begins with an image, if there is one, without events.
fn initial_state<L>(
    alloc: Global,
    base: &Option<Image>,
    steps: &mut Steps<L>,
) -> Result<StateAt, NoMemory>
    requires allowed { IsTrue (all_allowed (begun_by base.now)) }
    ensures opening { IfOk result (IsMomentOf (begun_by base.now)) }
{
    let state = match base {
        Some(image) => State::from_image(alloc, image, steps)?,
        None => State::new(alloc)?,
    };
    Ok(StateAt {
        state: Arc::new(alloc, state)?,
        inserted: 0,
        removed: 0,
    })
}

/// The job of a finish that is allowed next. Other events need none.
fn job_of<R: Threads + Sync>(rt: &R, state: &State, event: &Event) -> Result<Option<Job>, NoMemory>
    requires sync { IsSync R.row }
    requires follows { MayFollow state.now event.now }
    ensures job { (h : History) → StandsFor h state.now → IsTrue (allowed h event.now)
        → IfOk result (JobIsFor h event.now) }
{
    match event {
        Event::Built { cut, snap } => Ok(Some(state.rebuild(rt, *cut, *snap)?)),
        Event::Table(_) => Ok(None),
        Event::Hyper { .. } => Ok(None),
        Event::View(_) => Ok(None),
        Event::Mode { .. } => Ok(None),
        Event::Commit(_) => Ok(None),
        Event::Cut { .. } => Ok(None),
    }
}

/// The state after one more event, which is allowed next.
fn next<R: Threads + Sync>(
    rt: &R,
    alloc: Global,
    state: &State,
    event: &Event,
) -> Result<StateAt, NoMemory>
    requires sync { IsSync R.row }
    requires follows { MayFollow state.now event.now }
    ensures next { (h : History) → StandsFor h state.now → IsTrue (allowed h event.now)
        → IfOk result (IsMomentOf (h ▸ event.now)) }
{
    let job = job_of(rt, state, event)?;
    let after = state.after(event, job)?;
    let moment = StateAt::of(alloc, after)?;
    Ok(moment)
}

/// Keeps a state, if its position must be kept.
fn keep(moments: &mut Vec<StateAt>, moment: StateAt, kept: bool) -> Result<(), NoMemory>
    ensures kept { IfOk result (λ _.
        moments.new.items ≡ cond kept (moments.old.items ++ moment ∷ []) moments.old.items) }
{
    if kept {
        moments.push(moment)?;
    }
    Ok(())
}

/// The position at which a history ends. The history begins with an image, if there is one, and continues with
/// these events. Each event was allowed after those before it.
pub fn end_of(base: &Option<Image>, events: &[Event]) -> u64
    requires allowed { IsTrue (all_allowed (history_of (record { base = base.now; events = events.now }))) }
    ensures end { result ≡ position (history_of (record { base = base.now; events = events.now })) }
{
    begun_at(base) + events.len() as u64
}

impl<'a> Timeline<'a> {
    /// The states of the history that begins with an image, if there is one, and continues with these events.
    /// Each event was allowed after those before it. They are kept from the position `start` on. Only
    /// `State::from_image` counts steps, if there is an image.
    pub fn of<R: Threads + Sync, L>(
        rt: &R,
        alloc: Global,
        base: &'a Option<Image>,
        events: &'a [Event],
        start: u64,
        steps: &mut Steps<L>,
    ) -> Result<Timeline<'a>, NoMemory>
        requires sync { IsSync R.row }
        requires allowed { IsTrue (all_allowed (history_of (record { base = base.now; events = events.now }))) }
        requires low { base_position (history_of (record { base = base.now; events = events.now })) ≤ start }
        requires high { start ≤ position (history_of (record { base = base.now; events = events.now })) }
        ensures past { IfOk result (λ t. t.past ≡ record { base = base.now; events = events.now }) }
        ensures start { IfOk result (λ t. t.start ≡ start) }
    {
        let mut moments = Vec::new(alloc);
        let mut moment = initial_state(alloc, base, steps)?;
        for event in events {
            let after = next(rt, alloc, &moment.state, event)?;
            let kept = start <= moment.state.position();
            keep(&mut moments, moment, kept)?;
            moment = after;
        }
        let end = moment.state.position();
        moments.push(moment)?;
        Ok(Timeline {
            base,
            events,
            start,
            end,
            moments,
        })
    }

    /// The position of the history, which is allowed.
    pub fn length(&self) -> u64
        ensures position { result ≡ position (history_of self.now.past) }
        ensures allowed { IsTrue (all_allowed (history_of self.now.past)) }
    {
        self.end
    }

    /// The state at a position, with its counts.
    fn moment(&self, position: u64) -> &StateAt
        requires low { self.now.start ≤ position }
        requires high { position ≤ position_of (history_of self.now.past) }
        ensures moment { IsMomentOf (prefix (history_of self.now.past) position) result.now }
    {
        &self.moments[(position - self.start) as usize]
    }

    /// A snapshot of the history at a position.
    pub fn at(&self, position: u64) -> Result<Shot, NoMemory>
        requires low { self.now.start ≤ position }
        requires high { position ≤ position_of (history_of self.now.past) }
        ensures stands { IfOk result (λ shot. StandsFor (prefix (history_of self.now.past) position) shot) }
    {
        Ok(Shot::of(Arc::try_clone(&self.moment(position).state)?))
    }

    /// The tables and aggregates at a position.
    pub fn roster(&self, position: u64) -> &Roster
        requires low { self.now.start ≤ position }
        requires high { position ≤ position_of (history_of self.now.past) }
        ensures roster { result.now ≡ roster (prefix (history_of self.now.past) position) }
    {
        self.moment(position).state.roster()
    }

    /// Whether the refresh with a number was pending, finished or unknown at a position.
    pub fn pending(&self, position: u64, cut: u64) -> Pending
        requires low { self.now.start ≤ position }
        requires high { position ≤ position_of (history_of self.now.past) }
        ensures pending { result ≡ pending (prefix (history_of self.now.past) position) cut }
    {
        self.moment(position).state.pending(cut)
    }

    /// The buckets that a refresh of an aggregate with this window covers at a position.
    pub fn window(&self, position: u64, view: u32, lo: Option<i64>, hi: Option<i64>) -> Window
        requires start { self.now.start ≤ position }
        requires end { position ≤ position_of (history_of self.now.past) }
        requires view { IsSome (view_of (roster (prefix (history_of self.now.past) position)) view) }
        requires low { ForSome lo (λ t. IsTrue (is_time t)) }
        requires high { ForSome hi (λ t. IsTrue (is_time t)) }
        ensures window { IfSome (view_of (roster (prefix (history_of self.now.past) position)) view) (λ def.
            result ≡ window view def (prefix (history_of self.now.past) position) lo hi) }
    {
        self.moment(position).state.window(view, lo, hi)
    }

    /// The position at which the history begins.
    pub fn base(&self) -> u64
        ensures base { result ≡ base_position (history_of self.now.past) }
        ensures low { result ≤ self.now.start }
    {
        begun_at(self.base)
    }

    /// The event after a position.
    pub fn event_after(&self, position: u64) -> Option<&Event>
        requires low { self.now.start ≤ position }
        ensures event { option_copied result ≡ event_at (history_of self.now.past) (suc position) }
    {
        self.events.get((position - begun_at(self.base)) as usize)
    }

    /// The effect of the event after a position: its number, and the numbers of rows that it appended and
    /// removed, over all tables.
    pub fn effect_after(&self, position: u64) -> Committed
        requires low { self.now.start ≤ position }
        requires high { position < position_of (history_of self.now.past) }
        ensures effect { (e : EventMade) → event_at (history_of self.now.past) (suc position) ≡ Some e
            → result ≡ effect_of (prefix (history_of self.now.past) position) e }
    {
        // Reading the position tells the prover that it has 64 bits.
        let _end = self.length();
        self.moment(position + 1).effect()
    }
}
