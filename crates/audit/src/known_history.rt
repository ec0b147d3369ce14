//! A history with known states, as the history view of an audit.
ghost use Rattle.std.specs.Prelude.{◌≡◌};

use crate::calls::{call, cut_over, event_number, refuse};
use audit_past::{CallAt, Past};
use engine_core::{Shot, Timeline};
use ts_model::codes::NO_BUCKET;
use ts_model::{Committed, CutDone, Event, Op, Refusal, ViewDef, Window};
use ts_schema::{NoMemory, Seq};
use ts_sessions::deeds::RelationChange;

/// A history, with its states at each position from one on.
#[derive(Drop)]
pub(crate) struct KnownHistory<'a> {
    /// The states.
    pub timeline: Timeline<'a>,
}

impl<'a> Past for KnownHistory<'a> {
    ghost use Rattle.engine_core.specs.Histories.{history_of};

    type Shot = Shot;

    ghost all = { λ k. history_of k.timeline.past };

    ghost from = { λ k. k.timeline.start };

    fn length(&self) -> u64 {
        self.timeline.length()
    }

    fn at(&self, position: u64) -> Result<Shot, NoMemory> {
        self.timeline.at(position)
    }

    fn make(&self, at: u64, making: RelationChange) -> Option<CallAt<u64>> {
        event_number(call(&self.timeline, at, &making.event()))
    }

    fn make_view(&self, at: u64, def: ViewDef) -> Option<CallAt<u64>> {
        event_number(call(&self.timeline, at, &Event::View(def)))
    }

    fn commit(&self, at: u64, ops: Seq<Op>) -> Option<CallAt<Committed>> {
        call(&self.timeline, at, &Event::Commit(ops))
    }

    fn cut(&self, at: u64, view: u32, lo: Option<i64>, hi: Option<i64>) -> Option<CallAt<CutDone>> {
        let _begins = self.timeline.base();
        match self.timeline.window(at, view, lo, hi) {
            Window::Nothing => Some(CallAt {
                came: Ok(CutDone::Nothing { pos: at }),
                at,
            }),
            Window::NoBucket => {
                let refusal = Refusal {
                    code: NO_BUCKET,
                    pos: at,
                    mark: 0,
                };
                refuse(refusal, at)
            }
            Window::Whole(span) => {
                let came = call(&self.timeline, at, &Event::Cut { view, span });
                cut_over(came, span)
            }
        }
    }

    fn finish(&self, at: u64, cut: u64, snap: u64) -> Option<CallAt<u64>> {
        event_number(call(&self.timeline, at, &Event::Built { cut, snap }))
    }
}
