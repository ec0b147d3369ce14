//! Events with all the memory that they need: each is in its frame, and prepared.
ghost use Rattle.std.specs.Prelude.{◌≡◌, ◌<◌, ◌^◌, IfOk, IsTrue, OnOk};
ghost use Rattle.ts_model.specs.Allowed.{allowed};
ghost use Rattle.ts_model.specs.Bytes.{event_bytes};
ghost use Rattle.event_codec.specs.Formed.{IsFormed};
ghost use Rattle.event_codec.specs.Spelling as spelling;
ghost use Rattle.refresh_build.specs.Fitting.{JobIsFor};
ghost use Rattle.engine_core.specs.Histories.{history_of};
ghost use Rattle.ts_store.specs.Drafts.{IsDraft};
ghost use Rattle.ts_store.specs.Stands.{IsSound};

use engine_core::{Engine, Prepared};
use event_check::bytes_of;
use event_codec::laws::sound_events_are_formed;
use event_codec::put_event_bytes;
use refresh_build::Job;
use std::alloc::Global;
use ts_model::Event;
use ts_schema::NoMemory;
use txn_journal::{Frame, close_frame, open_frame};

/// An event that is allowed next, in its frame and prepared.
#[derive(Drop)]
pub(crate) struct FramedEvent {
    pub prepared: Prepared,
    pub frame: Frame,
}

/// The frame of an event's bytes. It is filled in place: no payload is copied.
fn frame_of(alloc: Global, event: &Event) -> Result<Frame, NoMemory>
    requires formed { IsFormed event.now }
    requires few { event_bytes event.now < 2 ^ 32 }
    ensures frame { IfOk result (λ frame. frame ≡ spelling.event event.now) }
{
    let mut bytes = open_frame(alloc, bytes_of(event) as usize)?;
    put_event_bytes(event, &mut bytes)?;
    close_frame(bytes)
}

/// States that an event that may come next can be written, in fewer bytes than a frame holds. Does nothing.
pub(crate) fn spelling_law(engine: &Engine, event: &Event)
    requires sound { IsSound (history_of engine.now.past) }
    requires allowed { IsTrue (allowed (history_of engine.now.past) event.now) }
    ensures formed { IsFormed event.now }
    ensures few { event_bytes event.now < 2 ^ 32 }
{
    // Reading the position tells the prover that it has 64 bits.
    let _position = engine.length();
    sound_events_are_formed();
}

/// Allocates all memory for an event that is allowed next.
pub(crate) fn draft_of(
    alloc: Global,
    engine: &mut Engine,
    event: Event,
    job: Option<Job>,
) -> Result<FramedEvent, NoMemory>
    requires sound { IsSound (history_of engine.old.past) }
    requires allowed { IsTrue (allowed (history_of engine.old.past) event) }
    requires job { JobIsFor (history_of engine.old.past) event job }
    ensures past { engine.new.past ≡ engine.old.past }
    ensures room { OnOk result (0 < engine.new.room) }
    ensures draft { IfOk result (IsDraft (history_of engine.old.past) event) }
{
    spelling_law(engine, &event);
    let frame = frame_of(alloc, &event)?;
    let prepared = engine.prepare(event, job)?;
    Ok(FramedEvent { prepared, frame })
}
