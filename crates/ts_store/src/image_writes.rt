//! The image of an engine's history, in its frame.
ghost use Rattle.std.specs.Prelude.{◌≡◌, ◌<◌, ◌^◌, length, true, IfOk};
ghost use Rattle.ts_model.specs.Allowed.{all_allowed};
ghost use Rattle.ts_model.specs.Valid.{valid};
ghost use Rattle.base_image.specs.Outlines.{whole, IsOutline};
ghost use Rattle.base_image.specs.Spelling as images;
ghost use Rattle.engine_core.specs.Histories.{history_of};
ghost use Rattle.ts_store.specs.Checkpoints.{Saves, held_rows};

use base_image::{Outline, outline_of};
use engine_core::Engine;
use image_fields::{groups_are_few, image_law, validity_law};
use std::alloc::Global;
use ts_schema::NoMemory;
use txn_journal::{Frame, close_frame, open_frame};

/// The outcome of saving the image of a history.
#[derive(Drop)]
pub(crate) enum SaveOutcome {
    /// The image is in a frame, and has this many bytes.
    Framed { frame: Frame, bytes: u64 },
    /// The image has this many bytes, which is too many.
    TooLong(u64),
    /// It ran out of memory.
    NoMemory,
}

/// Allocates all memory for the image of an engine's history, if it has at most `most` bytes. Besides the frame
/// it holds only a few of the engine's rows at a time.
pub(crate) fn save(alloc: Global, engine: &Engine, most: u64) -> SaveOutcome
    requires allowed { all_allowed (history_of engine.now.past) ≡ true }
    requires most { most < 2 ^ 32 }
    ensures saves { Saves result (history_of engine.now.past) most }
{
    let Ok(outline) = outline_of(alloc, engine) else {
        return SaveOutcome::NoMemory;
    };
    // No memory can hold the number of rows that a group would need to be refused here.
    if !groups_are_few(&outline.rest) {
        return SaveOutcome::NoMemory;
    }
    validity_law(&outline.rest);
    let bytes = outline.size();
    if bytes > most {
        return SaveOutcome::TooLong(bytes);
    }
    image_law(&outline.rest);
    match image_frame(alloc, engine, &outline, bytes) {
        Ok(frame) => SaveOutcome::Framed { frame, bytes },
        Err(NoMemory) => SaveOutcome::NoMemory,
    }
}

/// The frame of the image of an engine's history, with `bytes` bytes. It is filled in place: no payload is
/// copied.
fn image_frame(
    alloc: Global,
    engine: &Engine,
    outline: &Outline,
    bytes: u64,
) -> Result<Frame, NoMemory>
    requires outline { IsOutline (held_rows (history_of engine.now.past)) outline.now }
    requires valid { valid (whole (held_rows (history_of engine.now.past)) outline.now) ≡ true }
    requires bytes { bytes ≡ length (images.image (whole (held_rows (history_of engine.now.past)) outline.now)) }
    requires few { bytes < 2 ^ 32 }
    ensures frame { IfOk result (λ frame.
        frame ≡ images.image (whole (held_rows (history_of engine.now.past)) outline.now)) }
{
    let mut framed = open_frame(alloc, bytes as usize)?;
    outline.put(engine, &mut framed)?;
    close_frame(framed)
}
