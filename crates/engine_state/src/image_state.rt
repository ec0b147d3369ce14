//! The state of a history that begins with an image.
ghost use Rattle.std.specs.Prelude.{◌≡◌, IfOk, IsTrue, true};
ghost use Rattle.ts_schema.specs.Counts.{Ticks};
ghost use Rattle.ts_model.specs.History.{resumed};
ghost use Rattle.ts_model.specs.Roster.{no_relations, roster_over};
ghost use Rattle.ts_model.specs.Valid.{valid};
ghost use Rattle.engine_state.specs.GroupRebuilds.{rows_refolded};
ghost use Rattle.engine_state.specs.Stands.{StandsFor};

use crate::group_rebuilds::refold_all;
use crate::image_tables::tables_from_image;
use crate::image_views::views_from_image;
use crate::parts::StateParts;
use crate::states::State;
use event_check::after_event;
use refresh_list::Refreshes;
use std::alloc::Global;
use std::sync::Arc;
use ts_model::{Event, Image, Roster};
use ts_schema::{NoMemory, Seq, Steps};

/// The roster that these events result in.
pub fn roster_from_image(alloc: Global, events: &[Event]) -> Result<Roster, NoMemory>
    ensures { IfOk result (λ made. made ≡ roster_over no_relations events.now) }
{
    let mut made = Roster {
        tables: Seq::new(alloc),
        views: Seq::new(alloc),
    };
    for event in events {
        made = after_event(&made, event)?;
    }
    Ok(made)
}

impl StateParts {
    /// The parts of the state of the history that begins with an image.
    fn from_image<L>(
        alloc: Global,
        image: &Image,
        steps: &mut Steps<L>,
    ) -> Result<StateParts, NoMemory>
        requires valid { valid image.now ≡ true }
        ensures stands { IfOk result (StandsFor (resumed image.now)) }
        ensures read { Ticks result (rows_refolded image.now) steps.old steps.new }
    {
        let _so_far = steps.count();
        let roster = roster_from_image(alloc, image.roster.items())?;
        let tables = tables_from_image(alloc, &roster, image)?;
        let anew = refold_all(alloc, &roster, image, steps)?;
        let mut parts = StateParts {
            position: image.pos,
            roster: Arc::new(alloc, roster)?,
            tables,
            views: Seq::new(alloc),
            refreshes: Refreshes::of(alloc, image.waiting.items(), image.done.items())?,
        };
        parts.views = views_from_image(alloc, &parts, image, &anew)?;
        Ok(parts)
    }
}

impl State {
    /// The state of the history that begins with a valid image, without events. Counts one step for each row
    /// that the image holds for a table over which an aggregate was refreshed.
    pub fn from_image<L>(
        alloc: Global,
        image: &Image,
        steps: &mut Steps<L>,
    ) -> Result<State, NoMemory>
        requires valid { IsTrue (valid image.now) }
        ensures stands { IfOk result (StandsFor (resumed image.now)) }
        ensures read { Ticks result (rows_refolded image.now) steps.old steps.new }
    {
        Ok(State {
            alloc,
            parts: StateParts::from_image(alloc, image, steps)?,
        })
    }
}
