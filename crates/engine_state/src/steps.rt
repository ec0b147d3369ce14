//! The effect of each event on the parts of a state.
ghost use Rattle.std.specs.Prelude.{◌≡◌, IfOk, None, Some};
ghost use Rattle.ts_model.specs.declared.events.Event.TheVariants.{Built, Commit, Cut, Hyper as HyperMade, View};
ghost use Rattle.engine_state.specs.Afters.{IsNext};
ghost use Rattle.engine_state.specs.Nexts.{Counts, FinishesTo, GoesTo, ModesTo, StepsTo, TablesTo};

use crate::after_event::AfterEvent;
use crate::commits::all_after;
use crate::cuts::feed_all;
use crate::finishes::finish_view;
use crate::parts::StateParts;
use crate::tables::TableState;
use crate::views::ViewState;
use refresh_build::Job;
use std::alloc::Global;
use ts_bucket::Span;
use ts_model::{Event, Hyper, Op, ViewDef};
use ts_schema::{NoMemory, Seq};

impl StateParts {
    /// The parts after a table was created.
    fn with_table(&self, alloc: Global, event: &Event) -> Result<StateParts, NoMemory>
        ensures stands { IfOk result (TablesTo self.now event.now) }
    {
        let mut new = self.with_roster(alloc, event)?;
        new.tables.push(None)?;
        Ok(new)
    }

    /// The parts after a table became a hypertable.
    fn with_hyper(
        &self,
        alloc: Global,
        event: &Event,
        table: u32,
        hyper: Hyper,
    ) -> Result<StateParts, NoMemory>
        requires event { event.now ≡ HyperMade table hyper }
        requires next { IsNext self.now (HyperMade table hyper) None }
        ensures stands { IfOk result (StepsTo self.now (HyperMade table hyper)) }
    {
        let state = TableState::new(alloc, hyper.interval)?;
        let mut new = self.with_roster(alloc, event)?;
        new.tables.set(table as usize, Some(state));
        Ok(new)
    }

    /// The parts after an aggregate was created.
    fn with_view(&self, alloc: Global, event: &Event, def: &ViewDef) -> Result<StateParts, NoMemory>
        requires event { event.now ≡ View def.now }
        ensures stands { IfOk result (StepsTo self.now (View def.now)) }
    {
        let mut new = self.with_roster(alloc, event)?;
        let view = ViewState::new(alloc, def.table, def.fold.width, new.position)?;
        new.views.push(view)?;
        Ok(new)
    }

    /// The parts after an aggregate was set to a mode.
    fn with_mode(&self, alloc: Global, event: &Event) -> Result<StateParts, NoMemory>
        ensures stands { IfOk result (ModesTo self.now event.now) }
    {
        self.with_roster(alloc, event)
    }

    /// The parts after operations.
    pub(crate) fn with_ops(
        &self,
        alloc: Global,
        ops: &Seq<Op>,
    ) -> Result<AfterEvent<StateParts>, NoMemory>
        requires next { IsNext self.now (Commit ops.now) None }
        ensures stands { IfOk result (λ m. StepsTo self.now (Commit ops.now) m.made) }
        ensures counts { IfOk result (λ m. Counts self.now (Commit ops.now) m.inserted m.removed) }
    {
        let position = self.next_position()?;
        let moves = all_after(alloc, self.tables.items(), ops, position)?;
        let parts = StateParts {
            position,
            roster: self.same_roster()?,
            tables: moves.made,
            views: self.views.copy()?,
            refreshes: self.refreshes.copy()?,
        };
        Ok(AfterEvent {
            made: parts,
            inserted: moves.inserted,
            removed: moves.removed,
        })
    }

    /// The parts after a refresh was cut.
    fn with_cut(&self, alloc: Global, view: u32, span: Span) -> Result<StateParts, NoMemory>
        requires next { IsNext self.now (Cut view span) None }
        ensures stands { IfOk result (StepsTo self.now (Cut view span)) }
    {
        let number = self.views.get(view as usize).table();
        let table = self.table(number);
        let position = self.next_position()?;
        let views = feed_all(alloc, self.views.items(), number, table)?;
        let mut tables = self.tables.copy()?;
        tables.set(number as usize, Some(table.after_cut(alloc, span.hi)?));
        Ok(StateParts {
            position,
            roster: self.same_roster()?,
            tables,
            views,
            refreshes: self.refreshes.with_cut(position, view, span)?,
        })
    }

    /// The parts after a refresh was finished with a job.
    fn with_job(&self, alloc: Global, job: &Job) -> Result<StateParts, NoMemory>
        requires next { IsNext self.now (Built job.now.cut job.now.snap) (Some job.now) }
        ensures stands { IfOk result (FinishesTo self.now job.now) }
    {
        let view = self.views.get(job.view as usize);
        let renewed = view.log().to_renew(job.span, job.spans.items(), job.snap)?;
        let done = finish_view(alloc, view, job, &renewed)?;
        let mut views = self.views.copy()?;
        views.set(job.view as usize, done);
        let position = self.next_position()?;
        Ok(StateParts {
            position,
            roster: self.same_roster()?,
            tables: self.tables.copy()?,
            views,
            refreshes: self.refreshes.with_finish(job.cut, position)?,
        })
    }

    /// The parts after an event that may come next. An event that finishes a refresh needs its job.
    pub(crate) fn after(
        &self,
        alloc: Global,
        event: &Event,
        job: &Option<Job>,
    ) -> Result<AfterEvent<StateParts>, NoMemory>
        requires next { IsNext self.now event.now job.now }
        ensures stands { IfOk result (λ m. GoesTo self.now event.now job.now m.made) }
        ensures counts { IfOk result (λ m. Counts self.now event.now m.inserted m.removed) }
    {
        match event {
            Event::Table(_) => Ok(AfterEvent::still(self.with_table(alloc, event)?)),
            Event::Hyper { table, hyper } => {
                Ok(AfterEvent::still(self.with_hyper(alloc, event, *table, *hyper)?))
            }
            Event::View(def) => Ok(AfterEvent::still(self.with_view(alloc, event, def)?)),
            Event::Mode { .. } => Ok(AfterEvent::still(self.with_mode(alloc, event)?)),
            Event::Commit(ops) => self.with_ops(alloc, ops),
            Event::Cut { view, span } => Ok(AfterEvent::still(self.with_cut(alloc, *view, *span)?)),
            Event::Built { .. } => match job {
                Some(job) => Ok(AfterEvent::still(self.with_job(alloc, job)?)),
                None => unreachable!(),
            },
        }
    }
}
