//! The engine.
ghost use Rattle.std.specs.Prelude.{◌≡◌, ◌≤◌, ◌<◌, ◌+◌, suc, option_copied, IfErr, IfOk, IfSome, IsSome, IsTrue, MatchOption, None, OnErr, OnOk, Some};
ghost use Rattle.std.specs.Option.{ForSome};
ghost use Rattle.std.specs.Thread.{IsSync};
ghost use Rattle.ts_bucket.specs.Bucket.{is_time};
ghost use Rattle.ts_schema.specs.Counts.{Ticks};
ghost use Rattle.ts_model.specs.declared.events.Event.TheVariants.{Built};
ghost use Rattle.ts_model.specs.Allowed.{all_allowed, allowed};
ghost use Rattle.ts_model.specs.History.{History, base_position, event_at, position};
ghost use Rattle.ts_model.specs.Pending.{waiting};
ghost use Rattle.ts_model.specs.Roster.{roster, view_of};
ghost use Rattle.ts_model.specs.Sound.{sound};
ghost use Rattle.ts_model.specs.Valid.{valid};
ghost use Rattle.ts_model.specs.Windows.{window};
ghost use Rattle.event_check.specs.Checks.{PendingIs, call_refusal, event_refusal};
ghost use Rattle.engine_state.specs.GroupRebuilds.{rows_refolded};
ghost use Rattle.engine_state.specs.Stands.{StandsFor};
ghost use Rattle.engine_state.specs.Afters.{IsNext};
ghost use Rattle.refresh_build.specs.Fitting.{IsJobOf, JobIsFor};
ghost use Rattle.engine_core.specs.Effects.{IsPreparedFor};
ghost use Rattle.engine_core.specs.Histories.{begun_by, history_of, past_from, with_event};

use crate::prepared::Prepared;
use crate::shots::Shot;
use crate::state_at::StateAt;
use engine_state::State;
use event_check::{call_refusal, refusal_of};
use refresh_build::Job;
use std::alloc::Global;
use std::marker::Model;
use std::sync::Arc;
use std::thread::Threads;
use ts_model::{Event, Image, Pending, Refusal, Waiting, Window};
use ts_schema::{NoMemory, Seq, Steps};

/// The engine: the image that it was built from, if there is one, the list of events after it, and the
/// resulting state. Snapshots share the state. Contracts see the image, the events, the oldest first, and how
/// many more events fit.
#[derive(Drop)]
pub struct Engine {
    base: Option<Image>,
    events: Vec<Event>,
    state: Arc<State>,
}

impl Model for Engine {
    ghost use Rattle.std.specs.Prelude.{◌-◌, vec_capacity, vec_len};
    ghost use Rattle.std.specs.Arc.{arc_value};
    ghost use Rattle.engine_core.specs.Histories.{history_of};
    ghost use Rattle.engine_core.specs.States.{IsStateOf};
    ghost use Rattle.engine_core.specs.Values.{EngineValue};

    ghost Value = { EngineValue };

    ghost view = { λ e. record {
      past = record { base = e.base; events = e.events.items };
      room = vec_capacity e.events - vec_len e.events;
    } };

    ghost invariant = { λ e.
        IsStateOf (history_of (record { base = e.base; events = e.events.items })) (arc_value e.state) };
}

/// Whether the refresh that an event finishes is pending, finished or unknown.
fn pending_of(state: &State, event: &Event) -> Pending
    ensures { (h : History) → StandsFor h state.now → PendingIs h event.now result }
{
    match event {
        Event::Built { cut, .. } => state.pending(*cut),
        Event::Table(_) => Pending::Unknown,
        Event::Hyper { .. } => Pending::Unknown,
        Event::View(_) => Pending::Unknown,
        Event::Mode { .. } => Pending::Unknown,
        Event::Commit(_) => Pending::Unknown,
        Event::Cut { .. } => Pending::Unknown,
    }
}

/// The position at which a history begins: that of its image, or 0 if it has none.
pub fn begun_at(base: &Option<Image>) -> u64
    ensures { result ≡ position (begun_by base.now) }
{
    match base {
        None => 0,
        Some(image) => image.pos,
    }
}

/// Why an event isn't allowed next after a history that begins at a position.
fn next_refusal(state: &State, base: u64, event: &Event) -> Option<Refusal>
    ensures { (h : History) → StandsFor h state.now → base ≡ base_position h → result ≡ event_refusal h event.now }
{
    let pending = pending_of(state, event);
    refusal_of(state.roster(), pending, state.position(), base, event)
}

/// The place of an event among those after a position. The first of them has the next number.
fn place_after(base: u64, number: u64) -> Option<u64>
    ensures { MatchOption result (number ≤ base) (λ place. number ≡ suc base + place) }
{
    match number.checked_sub(base) {
        Some(above) => above.checked_sub(1),
        None => None,
    }
}

/// Allocates the memory for the state after an event that is allowed next.
#[tactic(auto, using(ts_model::proofs::AllowedLaws::consistent_next))]
fn prepared_for(
    alloc: Global,
    state: &State,
    event: Event,
    job: Option<Job>,
) -> Result<Prepared, NoMemory>
    requires { IsNext state.now event job }
    ensures event { IfOk result (λ prepared. prepared.event ≡ event) }
    ensures prepared { (h : History) → StandsFor h state.now → IsTrue (allowed h event) → JobIsFor h event job →
        IfOk result (λ prepared. IsPreparedFor h prepared) }
{
    let moved = state.after(&event, job)?;
    let moment = StateAt::of(alloc, moved)?;
    Ok(Prepared::of(event, moment))
}

/// Why the call that appends an event is refused.
fn next_call_refusal(state: &State, event: &Event) -> Option<Refusal>
    ensures { (h : History) → StandsFor h state.now → result ≡ call_refusal h event.now }
{
    let pending = pending_of(state, event);
    call_refusal(state.roster(), pending, state.position(), event)
}

impl Engine {
    /// The engine of the empty history.
    pub fn new(alloc: Global) -> Result<Engine, NoMemory>
        ensures empty { IfOk result (λ engine. engine.past ≡ past_from None) }
    {
        Ok(Engine {
            base: None,
            events: Vec::new(alloc),
            state: Arc::new(alloc, State::new(alloc)?)?,
        })
    }

    /// The engine of the history that begins with this valid image, without events. Counts one step for each
    /// row that the image holds for a table over which an aggregate was refreshed.
    pub fn from_image<L>(
        alloc: Global,
        image: Image,
        steps: &mut Steps<L>,
    ) -> Result<Engine, NoMemory>
        requires valid { IsTrue (valid image) }
        ensures empty { IfOk result (λ engine. engine.past ≡ past_from (Some image)) }
        ensures read { Ticks result (rows_refolded image) steps.old steps.new }
    {
        let _so_far = steps.count();
        let state = Arc::new(alloc, State::from_image(alloc, &image, steps)?)?;
        Ok(Engine {
            base: Some(image),
            events: Vec::new(alloc),
            state,
        })
    }

    /// The state that represents its history.
    pub(crate) fn state(&self) -> &State
        ensures stands { StandsFor (history_of self.now.past) result.now }
    {
        &self.state
    }

    /// The image that the engine was built from, if there is one.
    pub fn base(&self) -> &Option<Image>
        ensures base { result.now ≡ self.now.past.base }
    {
        &self.base
    }

    /// The events after it, the oldest first.
    pub fn events(&self) -> &[Event]
        ensures events { result.now ≡ self.now.past.events }
    {
        self.events.as_slice()
    }

    /// The position of the history.
    pub fn length(&self) -> u64
        ensures position { result ≡ position (history_of self.now.past) }
    {
        self.state.position()
    }

    /// The event with this number. The first event has the number after the position at which the history
    /// begins. This is for callers that need a single event; the program iterates over all of them.
    pub fn event(&self, number: u64) -> Option<&Event>
        ensures event { option_copied result ≡ event_at (history_of self.now.past) number }
    {
        match place_after(begun_at(&self.base), number) {
            Some(place) => self.events.get(place as usize),
            None => None,
        }
    }

    /// Checks whether an event is allowed next. If it isn't, returns the refusal of the store call that appends
    /// such an event: `E07`, `E21`, `E19` or `E30`. If that call isn't refused, returns a refusal with the
    /// number 0.
    pub fn check(&self, event: &Event) -> Result<(), Refusal>
        ensures allowed { IfOk result (λ _. IsTrue (allowed (history_of self.now.past) event.now)) }
        ensures refused { IfErr result (λ refusal.
            event_refusal (history_of self.now.past) event.now ≡ Some refusal) }
    {
        match next_refusal(&self.state, begun_at(&self.base), event) {
            None => Ok(()),
            Some(refusal) => Err(refusal),
        }
    }

    /// Checks whether a sound event is allowed next, without reading its rows. If it isn't, returns the same
    /// refusal as `check`.
    pub fn check_sound(&self, event: &Event) -> Result<(), Refusal>
        requires sound { IsTrue (sound (history_of self.now.past) event.now) }
        ensures allowed { IfOk result (λ _. IsTrue (allowed (history_of self.now.past) event.now)) }
        ensures refused { IfErr result (λ refusal.
            call_refusal (history_of self.now.past) event.now ≡ Some refusal) }
    {
        match next_call_refusal(&self.state, event) {
            None => Ok(()),
            Some(refusal) => Err(refusal),
        }
    }

    /// Allocates all memory for an event that is allowed next. An event that finishes a refresh needs its
    /// job. The history doesn't change.
    #[tactic(auto, using(ts_model::proofs::AllowedLaws::consistent_next))]
    pub fn prepare(&mut self, event: Event, job: Option<Job>) -> Result<Prepared, NoMemory>
        requires allowed { IsTrue (allowed (history_of self.old.past) event) }
        requires job { JobIsFor (history_of self.old.past) event job }
        ensures past { self.new.past ≡ self.old.past }
        ensures room { OnOk result (0 < self.new.room) }
        ensures kept { self.old.room ≤ self.new.room }
        ensures event { IfOk result (λ prepared. prepared.event ≡ event) }
        ensures prepared { IfOk result (λ prepared. IsPreparedFor (history_of self.old.past) prepared) }
    {
        let alloc = *self.events.allocator();
        let prepared = prepared_for(alloc, &self.state, event, job)?;
        self.events.reserve(1)?;
        Ok(prepared)
    }

    /// Appends the event that was prepared for the present history. There must be room for it. It allocates
    /// no memory.
    pub fn install(&mut self, prepared: Prepared)
        requires room { 0 < self.old.room }
        requires prepared { IsPreparedFor (history_of self.old.past) prepared }
        ensures past { self.new.past ≡ with_event self.old.past prepared.event }
    {
        let (event, state) = prepared.into_parts();
        self.events.push_reserved(event);
        self.state = state;
    }

    /// A snapshot of the whole history, which is allowed.
    pub fn shot(&self) -> Result<Shot, NoMemory>
        ensures allowed { IsTrue (all_allowed (history_of self.now.past)) }
        ensures stands { IfOk result (λ shot. StandsFor (history_of self.now.past) shot) }
    {
        Ok(Shot::of(Arc::try_clone(&self.state)?))
    }

    /// The pending refreshes, in order of their cuts.
    pub fn waiting(&self) -> Result<Seq<Waiting>, NoMemory>
        ensures waiting { IfOk result (λ found. found ≡ waiting (history_of self.now.past)) }
    {
        self.state.waiting()
    }

    /// The buckets that a refresh of an aggregate with this window covers. The history is allowed.
    pub fn window(&self, view: u32, lo: Option<i64>, hi: Option<i64>) -> Window
        requires view { IsSome (view_of (roster (history_of self.now.past)) view) }
        requires low { ForSome lo (λ t. IsTrue (is_time t)) }
        requires high { ForSome hi (λ t. IsTrue (is_time t)) }
        ensures allowed { IsTrue (all_allowed (history_of self.now.past)) }
        ensures window { IfSome (view_of (roster (history_of self.now.past)) view) (λ def.
            result ≡ window view def (history_of self.now.past) lo hi) }
    {
        self.state.window(view, lo, hi)
    }

    /// The job of a finish that was read from a journal and is allowed next.
    #[tactic(auto, using(ts_model::proofs::AllowedLaws::consistent_next))]
    pub fn rebuild<R: Threads + Sync>(&self, rt: &R, cut: u64, snap: u64) -> Result<Job, NoMemory>
        requires sync { IsSync R.row }
        requires allowed { IsTrue (allowed (history_of self.now.past) (Built cut snap)) }
        ensures job { IfOk result (λ job. IsJobOf (history_of self.now.past) cut snap job) }
    {
        self.state.rebuild(rt, cut, snap)
    }
}
