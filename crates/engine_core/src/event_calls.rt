//! Calls that append one event to an engine that only the caller changes.
ghost use Rattle.std.specs.Prelude.{◌≡◌, IsSome, IsTrue};
ghost use Rattle.std.specs.Option.{ForSome};
ghost use Rattle.ts_bucket.specs.Bucket.{is_time};
ghost use Rattle.ts_model.specs.declared.events.Event.TheVariants.{Commit, Hyper as HyperMade, Mode, Table, View};
ghost use Rattle.ts_model.specs.declared.outcomes.CutDone.TheVariants.{Cut as CutMade};
ghost use Rattle.ts_model.specs.Allowed.{allowed};
ghost use Rattle.ts_model.specs.Calls.{act_of_commit, act_of_cut, act_of_finish, making_hyper, making_table, making_view, refusal, setting_mode};
ghost use Rattle.ts_model.specs.Numbers.{no_bucket};
ghost use Rattle.ts_model.specs.Roster.{roster, view_of};
ghost use Rattle.ts_model.specs.Sound.{sound};
ghost use Rattle.refresh_build.specs.Fitting.{JobFits, JobIsFor};
ghost use Rattle.engine_core.specs.Acts.{making_event, outcome_as};
ghost use Rattle.engine_core.specs.Histories.{history_of};
ghost use Rattle.engine_core.specs.Stores.{EngineDoes};

use crate::engines::Engine;
use refresh_build::Job;
use ts_bucket::Span;
use ts_model::codes::NO_BUCKET;
use ts_model::{Committed, CutDone, Event, Hyper, Op, Outcome, Refusal, TableDef, ViewDef, Window};
use ts_schema::Seq;

/// Appends an event that is allowed next, and returns its effect.
fn make_event(engine: &mut Engine, event: Event, job: Option<Job>) -> Outcome<Committed>
    requires allowed { IsTrue (allowed (history_of engine.old.past) event) }
    requires job { JobIsFor (history_of engine.old.past) event job }
    ensures { EngineDoes (making_event event) engine.old.past result engine.new.past }
{
    match engine.prepare(event, job) {
        Err(_) => Outcome::NoMemory,
        Ok(prepared) => {
            let effect = prepared.effect();
            engine.install(prepared);
            Outcome::Done(effect)
        }
    }
}

/// Appends an event, unless its call is refused. Consumes the job of a finish, for any outcome.
fn make(engine: &mut Engine, event: Event, job: Option<Job>) -> Outcome<Committed>
    requires sound { IsTrue (sound (history_of engine.old.past) event) }
    requires job { JobIsFor (history_of engine.old.past) event job }
    ensures { EngineDoes (making_event event) engine.old.past result engine.new.past }
{
    match engine.check_sound(&event) {
        Err(refusal) => Outcome::Refused(refusal),
        Ok(()) => make_event(engine, event, job),
    }
}

/// The same outcome, with only the event's number as its answer.
pub fn number_only(outcome: Outcome<Committed>) -> Outcome<u64>
    ensures { result ≡ outcome_as (λ c. c.pos) outcome }
{
    match outcome {
        Outcome::Done(effect) => Outcome::Done(effect.pos),
        Outcome::Refused(refusal) => Outcome::Refused(refusal),
        Outcome::DiskFault => Outcome::DiskFault,
        Outcome::NoMemory => Outcome::NoMemory,
    }
}

/// The same outcome, with a cut over this span as its answer.
pub fn cut_over(outcome: Outcome<Committed>, span: Span) -> Outcome<CutDone>
    ensures { result ≡ outcome_as (λ c. CutMade c.pos span) outcome }
{
    match outcome {
        Outcome::Done(effect) => Outcome::Done(CutDone::Cut {
            pos: effect.pos,
            span,
        }),
        Outcome::Refused(refusal) => Outcome::Refused(refusal),
        Outcome::DiskFault => Outcome::DiskFault,
        Outcome::NoMemory => Outcome::NoMemory,
    }
}

/// A refusal of a window without a whole bucket.
pub fn no_bucket(engine: &Engine) -> Refusal
    ensures { result ≡ refusal no_bucket (history_of engine.now.past) 0 }
{
    Refusal {
        code: NO_BUCKET,
        pos: engine.length(),
        mark: 0,
    }
}

/// Begins a refresh of the whole buckets of a window.
pub(crate) fn cut(
    engine: &mut Engine,
    view: u32,
    lo: Option<i64>,
    hi: Option<i64>,
) -> Outcome<CutDone>
    requires view { IsSome (view_of (roster (history_of engine.old.past)) view) }
    requires low { ForSome lo (λ t. IsTrue (is_time t)) }
    requires high { ForSome hi (λ t. IsTrue (is_time t)) }
    ensures { EngineDoes (act_of_cut view lo hi) engine.old.past result engine.new.past }
{
    match engine.window(view, lo, hi) {
        Window::Nothing => Outcome::Done(CutDone::Nothing {
            pos: engine.length(),
        }),
        Window::NoBucket => Outcome::Refused(no_bucket(engine)),
        Window::Whole(span) => {
            let outcome = make(engine, Event::Cut { view, span }, None);
            cut_over(outcome, span)
        }
    }
}

/// Creates a table.
pub(crate) fn make_table(engine: &mut Engine, def: TableDef) -> Outcome<u64>
    requires { IsTrue (sound (history_of engine.old.past) (Table def)) }
    ensures { EngineDoes (making_table def) engine.old.past result engine.new.past }
{
    number_only(make(engine, Event::Table(def), None))
}

/// Turns a table into a hypertable.
pub(crate) fn make_hyper(engine: &mut Engine, table: u32, hyper: Hyper) -> Outcome<u64>
    requires { IsTrue (sound (history_of engine.old.past) (HyperMade table hyper)) }
    ensures { EngineDoes (making_hyper table hyper) engine.old.past result engine.new.past }
{
    number_only(make(engine, Event::Hyper { table, hyper }, None))
}

/// Creates an aggregate.
pub(crate) fn make_view(engine: &mut Engine, def: ViewDef) -> Outcome<u64>
    requires { IsTrue (sound (history_of engine.old.past) (View def)) }
    ensures { EngineDoes (making_view def) engine.old.past result engine.new.past }
{
    number_only(make(engine, Event::View(def), None))
}

/// Sets an aggregate to a mode.
pub(crate) fn set_mode(engine: &mut Engine, view: u32, only: bool) -> Outcome<u64>
    requires { IsTrue (sound (history_of engine.old.past) (Mode view only)) }
    ensures { EngineDoes (setting_mode view only) engine.old.past result engine.new.past }
{
    number_only(make(engine, Event::Mode { view, only }, None))
}

/// Applies operations, in order, as one commit.
pub(crate) fn commit(engine: &mut Engine, ops: Seq<Op>) -> Outcome<Committed>
    requires { IsTrue (sound (history_of engine.old.past) (Commit ops)) }
    ensures { EngineDoes (act_of_commit ops) engine.old.past result engine.new.past }
{
    make(engine, Event::Commit(ops), None)
}

/// Finishes the refresh that a job was created for.
pub(crate) fn finish(engine: &mut Engine, job: Job) -> Outcome<u64>
    requires { JobFits (history_of engine.old.past) job }
    ensures { EngineDoes (act_of_finish job.cut job.snap) engine.old.past result engine.new.past }
{
    let event = Event::Built {
        cut: job.cut,
        snap: job.snap,
    };
    number_only(make(engine, event, Some(job)))
}
