//! What a statement does first if it begins or ends a block, or uses a snapshot that the session holds. None of these
//! functions resolves names.
ghost use Rattle.std.specs.Prelude.{◌≡◌, IfOk};
ghost use Rattle.ts_model.specs.States.{State};
ghost use Rattle.ts_sessions.specs.Deeds.{DeedFits, Forgets, StandsFor, Takes, end_of_block, hold_of, begin_write_block, said_once};
ghost use Rattle.ts_sessions.specs.declared.blocks.Open.TheVariants as opens;
ghost use Rattle.ts_sessions.specs.declared.changes.Change.TheVariants as changes;
ghost use Rattle.ts_sessions.specs.declared.deeds.Next.TheVariants as nexts;
ghost use Rattle.ts_sessions.specs.Held.{HoldsOf, places_in};
ghost use Rattle.ts_sessions.specs.Jobs.{TakesJob, took_of};
ghost use Rattle.ts_sessions.specs.Parts.{finishes_meant};
ghost use Rattle.ts_sessions.specs.Step.{given_up, refresh_meant};

use crate::blocks::{Open, Queue};
use crate::changes::Change;
use crate::deeds::{AfterLook, Deed, FinishSource, MissingPart, Next};
use crate::follows::say;
use crate::sessions::Session;
use result_text::Said;
use std::alloc::Global;
use ts_model::Shown;
use ts_schema::{NoMemory, Seq};

/// What a session holds for a refresh that a statement finishes.
#[derive(Drop)]
pub(crate) enum HeldJob<J> {
    /// No snapshot.
    Nothing,
    /// A snapshot at a position, whose job an earlier finish has taken.
    Lost { at: u64 },
    /// A snapshot at a position, with its job.
    Job { at: u64, job: J },
}

/// Begins a write block with an empty queue.
pub fn begin<T: Shown + Drop>(alloc: Global) -> Result<Next<T>, NoMemory>
where
    T::Job: Drop,
    ensures { IfOk result (λ n. n ≡ begin_write_block) }
{
    let queue = Queue {
        ops: Seq::new(alloc),
        bytes: 0,
    };
    say(alloc, Said::Begin, Change::Enters(Open::Write(queue)))
}

impl<T: Shown + Drop> Session<T>
where
    T::Job: Drop,
{
    /// Ends a block. The queue of a write block, unless it is empty, takes effect as one commit.
    pub fn end_block(&self, alloc: Global) -> Result<Next<T>, NoMemory>
        ensures { IfOk result (λ n. n ≡ end_of_block (places_in self.now).block) }
    {
        match &self.block {
            Open::Nothing => say(alloc, Said::End, Change::Enters(Open::Nothing)),
            Open::Write(queue) => match queue.ops.is_empty() {
                true => say(alloc, Said::CommitEmpty, Change::Enters(Open::Nothing)),
                false => {
                    let ops = queue.ops.copy()?;
                    Ok(Next::Deed(Deed::Commit { ops, leaves: true }))
                }
            },
            Open::Read { .. } => say(alloc, Said::End, Change::Enters(Open::Nothing)),
        }
    }

    /// Gives up a block.
    pub fn roll_back(&self, alloc: Global) -> Result<Next<T>, NoMemory>
        ensures { IfOk result (λ n. n ≡ said_once (given_up (places_in self.now).block) (changes.Enters opens.Nothing)) }
    {
        say(alloc, self.block.given_up(), Change::Enters(Open::Nothing))
    }

    /// Takes a snapshot for the refresh that the statement names, for the session to hold.
    pub fn snap(&self, number: Option<i64>) -> Deed<T>
        ensures { result ≡ hold_of (refresh_meant (places_in self.now) number) }
    {
        match self.refresh_named(number) {
            Some(cut) => Deed::Look(AfterLook::Hold { cut }),
            None => Deed::Look(AfterLook::Unknown),
        }
    }

    /// Finishes the refresh that the statement names, with the job that the session holds for it. It takes that job.
    pub(crate) fn finish(&mut self, number: Option<i64>) -> Deed<T>
        ensures stands { (s : State) → HoldsOf T.Shown self.old s →
            StandsFor (nexts.Deed result) (places_in self.old) s (finishes_meant (places_in self.old) number) }
        ensures fits { (s : State) → HoldsOf T.Shown self.old s → DeedFits T.Shown result s }
        ensures takes { Takes T.Shown (refresh_meant (places_in self.old) number) (nexts.Deed result) self.old self.new }
        ensures name { self.new.name ≡ self.old.name }
        ensures number { self.new.number ≡ self.old.number }
    {
        match self.refresh_named(number) {
            Some(cut) => match self.take_job(cut) {
                HeldJob::Job { at, job } => Deed::Finish {
                    job,
                    finishing: FinishSource::Held { cut, at },
                },
                HeldJob::Lost { at: _ } => Deed::Look(AfterLook::Refuse {
                    cut,
                    lacks: MissingPart::Job,
                }),
                HeldJob::Nothing => Deed::Look(AfterLook::Refuse {
                    cut,
                    lacks: MissingPart::Snapshot,
                }),
            },
            None => Deed::Look(AfterLook::Unknown),
        }
    }

    /// Gives up the snapshot for a refresh, if `gone` names one.
    pub(crate) fn give_up(&mut self, gone: Option<u64>)
        ensures forgets { Forgets gone self.old self.new }
        ensures name { self.new.name ≡ self.old.name }
        ensures number { self.new.number ≡ self.old.number }
    {
        match gone {
            Some(cut) => self.forget(cut),
            None => {}
        }
    }

    /// Takes the job of the snapshot that the session holds for a refresh, and leaves the position.
    fn take_job(&mut self, cut: u64) -> HeldJob<T::Job>
        ensures took { TakesJob cut self.old.held.entries result self.new.held.entries }
        ensures block { self.new.block ≡ self.old.block }
        ensures cut { self.new.cut ≡ self.old.cut }
        ensures name { self.new.name ≡ self.old.name }
        ensures number { self.new.number ≡ self.old.number }
    {
        match self.held.get_mut(&cut) {
            Some(snapshot) => took(snapshot.at, snapshot.job.take()),
            None => HeldJob::Nothing,
        }
    }
}

/// Returns what a session held: a snapshot at this position, with its job or without.
fn took<J>(at: u64, job: Option<J>) -> HeldJob<J>
    ensures { result ≡ took_of at job }
{
    match job {
        Some(job) => HeldJob::Job { at, job },
        None => HeldJob::Lost { at },
    }
}
