//! Followers of a history, event by event, while its journal is read.
ghost use Rattle.std.specs.Prelude.{◌≡◌, IfOk, IsTrue, OnOk};
ghost use Rattle.std.specs.Thread.{IsSync};
ghost use Rattle.ts_model.specs.Allowed.{allowed};
ghost use Rattle.refresh_build.specs.Fitting.{JobIsFor};
ghost use Rattle.engine_core.specs.Histories.{history_of, with_event};

use crate::engines::Engine;
use crate::ledgers::Ledger;
use refresh_build::Job;
use std::alloc::Global;
use std::thread::Threads;
use ts_model::{Event, Image, Refusal};
use ts_schema::{NoMemory, Steps};

/// Follows a history event by event while its journal is read. An engine then answers queries, and a ledger
/// knows which event may come next.
pub trait Follower {
    ghost use Rattle.std.specs.Prelude.{◌≡◌, IfErr, IfOk, IsTrue, OnOk, Some};
    ghost use Rattle.std.specs.Thread.{IsSync};
    ghost use Rattle.ts_model.specs.Allowed.{allowed};
    ghost use Rattle.ts_model.specs.Valid.{valid};
    ghost use Rattle.event_check.specs.Checks.{event_refusal};
    ghost use Rattle.engine_core.specs.Histories.{history_of, past_from, with_event};
    ghost use Rattle.engine_core.specs.Values.{Past};

    /// Its history: the image that the history begins with, if there is one, and the events after it, the
    /// oldest first.
    ghost past: { Self → Past };

    /// Begins at the history that begins with this valid image, without events.
    fn begin(alloc: Global, image: Image) -> Result<Self, NoMemory>
        requires valid { IsTrue (valid image) }
        ensures empty { IfOk result (λ made. past made ≡ past_from (Some image)) };

    /// Checks whether an event is allowed next. If it isn't, returns why.
    fn check_next(&self, event: &Event) -> Result<(), Refusal>
        ensures allowed { IfOk result (λ _. IsTrue (allowed (history_of (past self.now)) event.now)) }
        ensures refused { IfErr result (λ refusal.
            event_refusal (history_of (past self.now)) event.now ≡ Some refusal) };

    /// Applies an event that is allowed next. No clause says what its history is after running out of memory.
    fn follow<R: Threads + Sync>(&mut self, rt: &R, event: Event) -> Result<(), NoMemory>
        requires sync { IsSync R.row }
        requires allowed { IsTrue (allowed (history_of (past self.old)) event) }
        ensures past { OnOk result (past self.new ≡ with_event (past self.old) event) };
}

/// The job of a finish that is allowed next. Other events need none.
fn job_of<R: Threads + Sync>(
    rt: &R,
    engine: &Engine,
    event: &Event,
) -> Result<Option<Job>, NoMemory>
    requires sync { IsSync R.row }
    requires allowed { IsTrue (allowed (history_of engine.now.past) event.now) }
    ensures job { IfOk result (JobIsFor (history_of engine.now.past) event.now) }
{
    match event {
        Event::Built { cut, snap } => Ok(Some(engine.rebuild(rt, *cut, *snap)?)),
        Event::Table(_) => Ok(None),
        Event::Hyper { .. } => Ok(None),
        Event::View(_) => Ok(None),
        Event::Mode { .. } => Ok(None),
        Event::Commit(_) => Ok(None),
        Event::Cut { .. } => Ok(None),
    }
}

/// Applies an event to an engine.
fn install<R: Threads + Sync>(rt: &R, engine: &mut Engine, event: Event) -> Result<(), NoMemory>
    requires sync { IsSync R.row }
    requires allowed { IsTrue (allowed (history_of engine.old.past) event) }
    ensures past { OnOk result (engine.new.past ≡ with_event engine.old.past event) }
{
    let job = job_of(rt, engine, &event)?;
    let prepared = engine.prepare(event, job)?;
    engine.install(prepared);
    Ok(())
}

impl Follower for Engine {
    ghost past = { λ e. e.past };

    fn begin(alloc: Global, image: Image) -> Result<Engine, NoMemory> {
        Engine::from_image(alloc, image, &mut Steps::new(()))
    }

    fn check_next(&self, event: &Event) -> Result<(), Refusal> {
        self.check(event)
    }

    fn follow<R: Threads + Sync>(&mut self, rt: &R, event: Event) -> Result<(), NoMemory> {
        install(rt, self, event)
    }
}

impl Follower for Ledger {
    ghost past = { λ l. l.past };

    fn begin(alloc: Global, image: Image) -> Result<Ledger, NoMemory> {
        Ledger::from_image(alloc, image)
    }

    fn check_next(&self, event: &Event) -> Result<(), Refusal> {
        self.check(event)
    }

    fn follow<R: Threads + Sync>(&mut self, _rt: &R, event: Event) -> Result<(), NoMemory> {
        self.append(event)
    }
}
