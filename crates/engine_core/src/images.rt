//! The parts of the image of an engine's history.

use crate::engines::Engine;
use base_image::Imaged;
use ts_bucket::Span;
use ts_model::{Finished, Roster, SavedGroup, SavedLast, Waiting};
use ts_schema::{NoMemory, Row, Seq};

impl Imaged for Engine {
    ghost use Rattle.std.specs.Prelude.{◌≡◌};
    ghost use Rattle.engine_core.specs.Histories.{history_of};
    ghost use Rattle.ts_model.specs.Rows.{rows};

    ghost stands = { λ e h. history_of e.past ≡ h };

    ghost held = { λ e t. rows t (history_of e.past) };

    fn position(&self) -> u64 {
        self.length()
    }

    fn roster(&self) -> &Roster {
        Imaged::roster(self.state())
    }

    fn rows(&self, table: u32) -> Result<Seq<Row>, NoMemory> {
        self.state().rows(table)
    }

    fn spans(&self, table: u32) -> Result<Seq<Span>, NoMemory> {
        self.state().spans(table)
    }

    fn rows_in(&self, table: u32, span: Span) -> Result<Seq<Row>, NoMemory> {
        self.state().rows_in(table, span)
    }

    fn lasts(&self, view: u32) -> Result<Seq<SavedLast>, NoMemory> {
        self.state().lasts(view)
    }

    fn dirty(&self, view: u32) -> Result<Seq<Span>, NoMemory> {
        self.state().dirty(view)
    }

    fn groups(&self, view: u32, span: Span) -> Result<Seq<SavedGroup>, NoMemory> {
        self.state().groups(view, span)
    }

    fn mark(&self, view: u32) -> Option<i64> {
        self.state().mark(view)
    }

    fn waiting(&self) -> Result<Seq<Waiting>, NoMemory> {
        self.state().waiting()
    }

    fn done(&self) -> Result<Seq<Finished>, NoMemory> {
        self.state().done()
    }
}
